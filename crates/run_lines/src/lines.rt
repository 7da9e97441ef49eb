// The lines: each function writes what it answers, so that what a call promises of its answer holds of the lines that it wrote.
ghost use Rattle.std.specs.Prelude.{◌≡◌, Some, None};

use host::{say, say_number};
use rules::Wire;
use std::io::Print;
use words::Word;

// An answer of a list: 65,535 stands for no match.
fn answer(rt: &impl Print, a: u16) {
    if a == 65535 {
        say(rt, b"none");
        return;
    }
    say_number(rt, a as u64);
}

// A header, of up to 39 digits.
fn header(rt: &impl Print, h: Word) {
    let mut digits = [0u8; 39];
    if let Some(n) = text::write_number(h, &mut digits) {
        if n <= digits.len() {
            say(rt, &digits[..n]);
        }
    }
}

fn run(rt: &impl Print, first: Word, last: Word, old: u16, new: u16) {
    header(rt, first);
    say(rt, b" ");
    header(rt, last);
    say(rt, b" ");
    answer(rt, old);
    say(rt, b" ");
    answer(rt, new);
    say(rt, b"\n");
}

// Runs of differences, as a comparison leaves them: a header is two numbers of its slice.
#[derive(Clone, Copy)]
pub(crate) struct RunList<'a> {
    pub first: &'a [u64],
    pub last: &'a [u64],
    pub old: &'a [u16],
    pub new: &'a [u16],
}

// Run number i, counted from 0, where there are answers for it.
fn run_at(rt: &impl Print, runs: RunList, i: usize) {
    if i < runs.old.len() && i < runs.new.len() {
        run(
            rt,
            words::word_at(runs.first, i),
            words::word_at(runs.last, i),
            runs.old[i],
            runs.new[i],
        );
    }
}

// The first `count` runs; how many lines that were.
pub(crate) fn runs(rt: &impl Print, runs: RunList, count: usize) -> usize
    ensures { result ≡ count }
{
    let mut written = 0;
    for i in 0..count {
        run_at(rt, runs, i);
        written += 1;
    }
    written
}

pub(crate) fn width(rt: &impl Print, image: &[u8]) {
    if let Ok(n) = image::width(image) {
        say(rt, b"width ");
        say_number(rt, n as u64);
        say(rt, b"\n");
    }
}

fn finished(rt: &impl Print, count: usize) -> Option<Wire>
    ensures { result ≡ None }
{
    say(rt, b"runs ");
    say_number(rt, count as u64);
    say(rt, b"\n");
    None
}

fn more(rt: &impl Print, next: Wire) -> Option<Wire>
    ensures { result ≡ Some next }
{
    say(rt, b"more ");
    header(rt, next.0);
    say(rt, b"\n");
    Some(next)
}

// The last line, and what it says: where more is to come from, if there is more.
pub(crate) fn ended(rt: &impl Print, next: Option<Wire>, count: usize) -> Option<Wire>
    ensures { result ≡ next }
{
    match next {
        None => finished(rt, count),
        Some(h) => more(rt, h),
    }
}
