// The bench program: takes old.img and new.img from the folder that it is run in, compares their first lists, and writes the runs
// of headers on which these answer differently. A file that is not there is read as one of no bytes.
#![tactic(auto)]

use host::{say, say_number};

// There is room for a byte more than the largest image, so that a larger file is refused and not cut.
fn main(rt: HostRuntime) {
    let mut old = [0u8; 65537];
    let mut new = [0u8; 65537];
    let held = run_lines::show_files(&rt, b"old.img", b"new.img", &mut old, &mut new);
    if let Err(x) = held.compared {
        say(&rt, b"refused ");
        say_number(&rt, x.reason.number() as u64);
        say(&rt, b"\n");
    }
}
