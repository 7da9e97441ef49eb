// Files of cases: their lines, the answers beside the cases, and what is said of a file.
ghost use Rattle.std.specs.Prelude.{◌≤◌, length};

use crate::calls;
use crate::source::{Unread, without_spaces};
use std::alloc::Global;
use std::io::{Print, Read};
use std::rt::{Env, Files};

// How much of a file is held at a time.
const HELD: usize = 262144;

// A case that starts in the last so many bytes of a part is tried with the next part: a case and its answer have at most 131,072 bytes.
const KEPT: usize = 131071;

// How many parts of a file are read at most.
const PARTS: usize = 1000000;

// The first line of a text.
fn first_line(s: &[u8]) -> &[u8] {
    match s.iter().position(|b| *b == b'\n') {
        Some(end) => &s[..end],
        None => s,
    }
}

// A text after its first line.
fn after_line(s: &[u8]) -> &[u8]
    ensures { length result.now ≤ length s.now }
{
    match s.iter().position(|b| *b == b'\n') {
        Some(end) => &s[end + 1..],
        None => &s[s.len()..],
    }
}

// A text after the case that it starts with, which goes on in lines that start with a space.
fn after_case(s: &[u8]) -> &[u8]
    ensures { length result.now ≤ length s.now }
{
    let mut rest = after_line(s);
    for _ in 0..s.len() {
        if !rest.starts_with(b" ") {
            break;
        }
        rest = after_line(rest);
    }
    rest
}

// What is said of a case, after the number of its line.
fn say_of(rt: &impl Print, path: &[u8], line: u64, words: &[u8], rest: &[u8]) {
    host::say(rt, path);
    host::say(rt, b":");
    host::say_number(rt, line);
    host::say(rt, words);
    host::say(rt, rest);
    host::say(rt, b"\n");
}

// Why a case could not be read: from which word on.
fn say_unread(rt: &impl Print, path: &[u8], line: u64, case: &[u8], why: Unread) {
    let left = match why {
        Unread::At(left) | Unread::Item(left) => left,
        Unread::Call | Unread::Memory => case.len(),
    };
    let rest = without_spaces(&case[case.len().saturating_sub(left)..]);
    let words: &[u8] = match why {
        Unread::Call => b": no such call: ",
        Unread::Memory => b": no memory for: ",
        _ if rest.is_empty() => b": the case ends too soon",
        _ => b": cannot read on from: ",
    };
    say_of(rt, path, line, words, first_line(rest));
}

// Tries one case, and answers whether it failed. What it answers is said where the line beside it says something else, or there is no such
// line.
fn fails(
    rt: &impl Print,
    alloc: Global,
    path: &[u8],
    line: u64,
    case: &[u8],
    wanted: Option<&[u8]>,
) -> bool {
    let answer = match calls::answer(case, alloc) {
        Ok(answer) => answer,
        Err(why) => {
            say_unread(rt, path, line, case, why);
            return true;
        }
    };
    let answered = answer.as_bytes();
    match wanted {
        None => {
            say_of(rt, path, line, b" = ", answered);
            false
        }
        Some(wanted) if wanted == answered => false,
        Some(wanted) => {
            say_of(rt, path, line, b" = ", answered);
            say_of(rt, path, line, b": another answer is expected: ", wanted);
            true
        }
    }
}

// How far a file has been read: the number of the next line, and how many cases there were and failed.
#[derive(Clone, Copy)]
struct Tried {
    line: u64,
    cases: u64,
    failed: u64,
}

// Tries the case that a text starts with. What stands after it and the answer beside it.
fn try_case<'a>(
    rt: &impl Print,
    alloc: Global,
    path: &[u8],
    s: &'a [u8],
    tried: &mut Tried,
) -> &'a [u8]
    ensures { length result.now ≤ length s.now }
{
    let mut rest = after_case(s);
    let case = &s[..s.len() - rest.len()];
    let wanted = if rest.starts_with(b"=") {
        let line = first_line(rest);
        rest = after_line(rest);
        Some(line.get(2..).unwrap_or(b""))
    } else {
        None
    };
    let failed = fails(rt, alloc, path, tried.line, case, wanted);
    let lines = s[..s.len() - rest.len()]
        .iter()
        .filter(|b| **b == b'\n')
        .count();
    tried.line = tried.line.wrapping_add(lines as u64);
    tried.cases = tried.cases.wrapping_add(1);
    tried.failed = tried.failed.wrapping_add(u64::from(failed));
    rest
}

// Passes over a remark, which is an empty line or starts with #, or tries the case that a text starts with. What stands after it.
fn try_next<'a>(
    rt: &impl Print,
    alloc: Global,
    path: &[u8],
    s: &'a [u8],
    tried: &mut Tried,
) -> &'a [u8]
    ensures { length result.now ≤ length s.now }
{
    match s {
        [b'\n' | b'#', ..] => {
            tried.line = tried.line.wrapping_add(1);
            after_line(s)
        }
        _ => try_case(rt, alloc, path, s, tried),
    }
}

// Tries the cases that stand in a part of a file, all of them where it is the last part, and answers how much is left to try.
fn try_part(rt: &impl Print, alloc: Global, path: &[u8], s: &[u8], tried: &mut Tried) -> usize
    ensures { result ≤ length s.now }
{
    let kept = if s.len() < HELD { 0 } else { KEPT };
    let mut rest = s;
    for _ in 0..s.len() {
        if rest.len() <= kept {
            break;
        }
        rest = try_next(rt, alloc, path, rest, tried);
    }
    rest.len()
}

// Tries the cases of an open file, part by part.
fn try_parts(rt: &impl Print, alloc: Global, path: &[u8], file: &mut impl Read) -> Tried {
    let mut space = [0u8; HELD];
    let mut tried = Tried {
        line: 1,
        cases: 0,
        failed: 0,
    };
    let mut held = 0;
    let mut left = 0;
    for _ in 0..PARTS {
        space.copy_within(held - left..held, 0);
        held = left + host::read_full(file, &mut space[left..]);
        if held == 0 {
            break;
        }
        left = try_part(rt, alloc, path, &space[..held], &mut tried);
    }
    tried
}

fn say_count(rt: &impl Print, path: &[u8], cases: u64, failed: u64) {
    host::say(rt, path);
    host::say(rt, b": ");
    host::say_number(rt, cases);
    host::say(rt, b" cases, ");
    host::say_number(rt, failed);
    host::say(rt, b" failed\n");
}

// Tries the cases of a file, and says how many there were. A file that is not there counts as a case that failed.
fn try_path(rt: &(impl Files + Print), alloc: Global, path: &[u8]) {
    match host::open(rt, path) {
        Some(mut file) => {
            let tried = try_parts(rt, alloc, path, &mut file);
            say_count(rt, path, tried.cases, tried.failed);
        }
        None => {
            host::say(rt, path);
            host::say(rt, b": cannot be opened\n");
            say_count(rt, path, 0, 1);
        }
    }
}

// Tries the file that argument i names.
pub fn try_file(rt: &(impl Env + Files + Print), alloc: Global, i: usize) {
    let mut path = [0u8; host::NAME_ROOM];
    let n = host::word(rt, i, &mut path);
    try_path(rt, alloc, &path[..n]);
}
