// Runs the comparison on pairs of images that somebody else made, and writes for each what the bench program would write. The
// arguments are the names of the files, the old and the new one of each pair. The images are in data/, and what must be written is in
// stdout.
#![tactic(auto)]

use host::{say, say_number};
use std::io::Print;
use std::rt::{Env, Files};

// Compares two files. One that is not there counts as one of no bytes.
fn compare_files(rt: &(impl Files + Print), old_path: &[u8], new_path: &[u8]) {
    say(rt, b"case ");
    say(rt, old_path);
    say(rt, b" ");
    say(rt, new_path);
    say(rt, b"\n");
    let mut old = [0u8; 65537];
    let mut new = [0u8; 65537];
    let files = run_lines::show_files(rt, old_path, new_path, &mut old, &mut new);
    if let Err(x) = files.compared {
        say(rt, b"refused ");
        say_number(rt, x.reason.number() as u64);
        say(rt, b"\n");
    }
}

// Compares the files that arguments i and j name.
fn compare_pair(rt: &(impl Env + Files + Print), i: usize, j: usize) {
    let mut old_path = [0u8; 4096];
    let m = host::word(rt, i, &mut old_path);
    let mut new_path = [0u8; 4096];
    let n = host::word(rt, j, &mut new_path);
    compare_files(rt, &old_path[..m], &new_path[..n]);
}

fn main(rt: HostRuntime) {
    let pairs = host::word_count(&rt) / 2;
    for i in 0..pairs {
        compare_pair(&rt, i * 2 + 1, i * 2 + 2);
    }
}
