// Questions about one list of an image: its rules, what it answers to a header, its runs, and what pruning makes of it.
use crate::commands::Request;
use crate::{lines, lists, slices, squeezing};
use command_line::Command;
use rules::{Hit, Reason, Refusal, RuleList};
use std::io::Print;
use swaps::Swap;

// The list with the id that was named, where it is there.
pub(crate) fn ask_by_id(rt: &impl Print, image: &[u8], request: Request) {
    if lists::has(rt, image, request.id, b"\n") {
        ask(rt, image, lists::short(request.id), request);
    }
}

// Reads the list with that id out of the image, and answers.
pub(crate) fn ask(rt: &impl Print, image: &[u8], id: u16, request: Request) {
    let mut care = [0u64; 2048];
    let mut value = [0u64; 2048];
    let mut decision = [0u16; 1024];
    match image::read(image, id, &mut care, &mut value, &mut decision) {
        Ok(n) => answered(
            rt,
            image,
            RuleList {
                care: slices::words(&care, n),
                value: slices::words(&value, n),
                decision: slices::first(&decision, n),
            },
            request,
        ),
        Err(x) => lines::refusal(rt, x),
    }
}

fn answered(rt: &impl Print, image: &[u8], rules: RuleList, request: Request) {
    let width = image_form::byte_at(image, 1) as u32;
    match request.command {
        Command::Lookup => answer(rt, rules::lookup(width, rules, request.header)),
        Command::Runs => runs(rt, width, rules),
        Command::Prune => squeezing::prune(rt, width, rules),
        _ => show_rules(rt, width, rules),
    }
}

fn show_rules(rt: &impl Print, width: u32, rules: RuleList) {
    for i in 0..rules.decision.len() {
        lines::rule(rt, width, rules::rule_at(rules, i));
        lines::byte(rt, b'\n');
    }
}

fn answer(rt: &impl Print, l: Result<Option<Hit>, Refusal>) {
    match l {
        Ok(Some(x)) => show_hit(rt, x),
        Ok(None) => lines::say(rt, b"none\n"),
        Err(x) => lines::refusal(rt, x),
    }
}

// The decision of the rule that is hit, and its number in the list.
fn show_hit(rt: &impl Print, hit: Hit) {
    lines::number(rt, hit.decision as usize);
    lines::named(rt, b" rule ", hit.number);
}

fn runs(rt: &impl Print, width: u32, rules: RuleList) {
    let mut sizes = [0u16; 1024];
    match weaving::runs(width, rules, &mut sizes) {
        Ok(n) => {
            show_sizes(rt, slices::first(&sizes, n));
            show_order(rt, width, rules);
        }
        Err(x) => lines::refusal(rt, x),
    }
}

fn show_sizes(rt: &impl Print, sizes: &[u16]) {
    for size in sizes {
        lines::last(rt, *size as usize);
    }
    lines::named(rt, b"runs ", sizes.len());
}

// The prefix bit-swap, or the first two rules that cross.
fn show_order(rt: &impl Print, width: u32, rules: RuleList) {
    match prefixes::prefix_swap(width, rules) {
        Ok(swap) => show_swap(rt, swap),
        Err(x) => crossing(rt, x),
    }
}

fn crossing(rt: &impl Print, x: Refusal) {
    if x.reason == Reason::Crossing {
        lines::place(rt, b"crossing ", x.list, x.rule);
    } else {
        lines::refusal(rt, x);
    }
}

fn show_swap(rt: &impl Print, swap: Swap) {
    lines::say(rt, b"prefix swap");
    let places = swap.places;
    show_places(rt, slices::first(&places, swap.width as usize));
    lines::byte(rt, b'\n');
}

fn show_places(rt: &impl Print, places: &[u8]) {
    for place in places {
        lines::byte(rt, b' ');
        lines::number(rt, *place as usize);
    }
}
