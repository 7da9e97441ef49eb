// Weaving or pruning every list of an image into a new image file. A refusal is said in one line, and then no file is written.
use crate::commands::Request;
use crate::{files, lines, lists, slices};
use command_line::Command;
use pruning::Tally;
use rules::{Refusal, RuleList};
use std::io::Print;
use std::rt::{Env, Files};

// weave FILE OUT and prune FILE OUT. The image is made whole before there is a file of it, and the lines are written once the file is in its
// place.
pub(crate) fn squeeze(rt: &(impl Env + Files + Print), at: usize, image: &[u8], request: Request) {
    let mut squeezed = [0u8; 65536];
    match squeezed_image(request.command, image, &mut squeezed) {
        Ok(n) => {
            if files::save_word(rt, at, 3, slices::first(&squeezed, n)) {
                lists::each(rt, image, request);
            }
        }
        Err(x) => lines::refusal(rt, x),
    }
}

fn squeezed_image(command: Command, image: &[u8], out: &mut [u8]) -> Result<usize, Refusal> {
    match command {
        Command::Prune => image_weaving::prune_image(image, out),
        _ => image_weaving::weave_image(image, out),
    }
}

// How many rules a list had, after its name.
pub(crate) fn begin(rt: &impl Print, rules: usize) {
    lines::byte(rt, b':');
    lines::byte(rt, b' ');
    lines::counted(rt, rules, b" rules, ");
}

fn counts(rt: &impl Print, kept: usize, dropped: usize) {
    lines::counted(rt, kept, b" kept, ");
    lines::counted(rt, dropped, b" dropped");
}

// What became of a list with so many rules that was woven, after its name.
pub(crate) fn report(rt: &impl Print, image: &[u8], id: u16, rules: usize) {
    begin(rt, rules);
    match image_weaving::tally(image, id) {
        Ok(t) => {
            counts(rt, t.kept, t.dropped);
            merges(rt, t.merged);
        }
        Err(x) => lines::refusal(rt, x),
    }
}

fn merges(rt: &impl Print, merged: usize) {
    lines::byte(rt, b',');
    lines::byte(rt, b' ');
    lines::counted(rt, merged, b" merged\n");
}

// What becomes of a list that is pruned: the counts, and a line for each rule that is kept.
pub(crate) fn prune(rt: &impl Print, width: u32, rules: RuleList) {
    let mut cares = [0u64; 2048];
    let mut values = [0u64; 2048];
    let mut decisions = [0u16; 1024];
    let mut headers = [0u64; 2048];
    let pruned = pruning::prune(
        width,
        rules,
        &mut cares,
        &mut values,
        &mut decisions,
        &mut headers,
    );
    match pruned {
        Ok(t) => {
            let kept = RuleList {
                care: &cares,
                value: &values,
                decision: &decisions,
            };
            show_kept(rt, width, t, kept, &headers);
        }
        Err(x) => lines::refusal(rt, x),
    }
}

// The counts, and the rules that are kept, each with the lowest header that needs it.
fn show_kept(rt: &impl Print, width: u32, tally: Tally, rules: RuleList, header: &[u64]) {
    let kept = tally.kept;
    counts(rt, kept, tally.dropped);
    lines::byte(rt, b'\n');
    for i in 0..kept {
        lines::rule(rt, width, rules::rule_at(rules, i));
        lines::needed(rt, words::word_at(header, i));
    }
}
