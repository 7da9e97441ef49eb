// Many command lines in one run, for the gate, which runs a program once: each command line among the arguments is written, and
// after it what it gives. A command line starts with the tool's name.
use crate::{commands, lines, places};
use std::io::Print;
use std::rt::{Env, Files};

fn is_name(rt: &impl Env, i: usize) -> bool {
    places::is_word(rt, i, b"./myrhjord")
}

fn show_name(rt: &impl Print) {
    lines::say(rt, b"$ ./myrhjord");
}

fn show_word(rt: &(impl Env + Print), i: usize) {
    let mut space = [0u8; host::NAME_ROOM];
    let n = host::word(rt, i, &mut space);
    lines::byte(rt, b' ');
    lines::say(rt, &space[..n]);
}

// Does what the command line from place `at` on asks for, which ends before place `end` and was written. There is none where it is empty.
fn finish(rt: &(impl Env + Files + Print), at: usize, end: usize) {
    if at < end {
        lines::byte(rt, b'\n');
        commands::run(rt, at, end - at);
    }
}

// The command lines among the arguments, one after the other.
pub(crate) fn all(rt: &(impl Env + Files + Print)) {
    let count = host::word_count(rt);
    let mut at = count;
    for i in 0..count {
        if is_name(rt, i) {
            finish(rt, at, i);
            show_name(rt);
            at = i;
        } else if at < i {
            show_word(rt, i);
        }
    }
    finish(rt, at, count);
}
