// The lines that the tool writes.
use crate::slices;
pub(crate) use host::say;
use rules::{Reason, Refusal, Rule};
use std::io::Print;
use words::Word;

// One byte: a space, or the end of a line.
pub(crate) fn byte(rt: &impl Print, b: u8) {
    say(rt, &[b]);
}

pub(crate) fn number(rt: &impl Print, n: usize) {
    host::say_number(rt, n as u64);
}

// A number of up to 39 digits.
fn word(rt: &impl Print, n: Word) {
    let mut digits = [0u8; 39];
    if let Some(count) = text::write_number(n, &mut digits) {
        say(rt, slices::first(&digits, count));
    }
}

// The pattern of a rule, as it is written.
pub(crate) fn pattern(rt: &impl Print, width: u32, rule: Rule) {
    let mut space = [0u8; 128];
    if let Some(count) = text::write_pattern(width, rule, &mut space) {
        say(rt, slices::first(&space, count));
    }
}

// A rule: its pattern and its decision.
pub(crate) fn rule(rt: &impl Print, width: u32, rule: Rule) {
    pattern(rt, width, rule);
    byte(rt, b' ');
    number(rt, rule.decision as usize);
}

// The header that a rule is needed at, to the end of the line.
pub(crate) fn needed(rt: &impl Print, header: Word) {
    say(rt, b" needed at ");
    word(rt, header);
    byte(rt, b'\n');
}

// A number, to the end of the line.
pub(crate) fn last(rt: &impl Print, n: usize) {
    number(rt, n);
    byte(rt, b'\n');
}

// A number, and what it counts.
pub(crate) fn counted(rt: &impl Print, n: usize, what: &[u8]) {
    number(rt, n);
    say(rt, what);
}

// A name and a number, to the end of the line.
pub(crate) fn named(rt: &impl Print, name: &[u8], n: usize) {
    say(rt, name);
    last(rt, n);
}

// Which list is spoken of.
pub(crate) fn list(rt: &impl Print, id: u16) {
    say(rt, b"list ");
    number(rt, id as usize);
}

// A place: a list and a rule, to the end of the line.
pub(crate) fn place(rt: &impl Print, before: &[u8], list: usize, rule: usize) {
    say(rt, before);
    number(rt, list);
    byte(rt, b' ');
    last(rt, rule);
}

// A refusal, with its place where it has one: a list, and a rule or 0.
pub(crate) fn refusal(rt: &impl Print, x: Refusal) {
    say(rt, b"refused ");
    number(rt, x.reason.number());
    if x.list > 0 {
        place(rt, b" at ", x.list, x.rule);
    } else {
        byte(rt, b'\n');
    }
}

// A refusal of what was asked of the list with that id. Where no list has the id, the line says which, and goes on with its own end.
pub(crate) fn refusal_of(rt: &impl Print, x: Refusal, id: Word, end: &[u8]) {
    if x.reason == Reason::NoSuchList {
        say(rt, b"refused 15: no list ");
        word(rt, id);
        say(rt, end);
    } else {
        refusal(rt, x);
    }
}

// What went wrong, and with which word of the command line.
pub(crate) fn trouble(rt: &impl Print, what: &[u8], word: &[u8]) {
    say(rt, what);
    say(rt, word);
    byte(rt, b'\n');
}

pub(crate) fn usage(rt: &impl Print) {
    say(
        rt,
        b"usage:\n  ./myrhjord check FILE\n  ./myrhjord show FILE\n  ./myrhjord lookup FILE ID HEADER\n  ./myrhjord runs FILE ID\n  ./myrhjord weave FILE OUT\n  ./myrhjord prune FILE OUT\n  ./myrhjord compare OLD NEW [ID [START]] [defaults A B]\n  ./myrhjord prefixes BITS LOW HIGH\nNumbers are decimal, or hexadecimal after 0x.\nA and B are what the old and the new list decide where no rule matches: a number, or none.\n",
    );
}
