// The form of an image: its two formats, and the bytes, contents entries and rules that stand in it, each read from any bytes.
#![tactic(auto)]

mod formats;
mod numbers;
mod parts;

pub use formats::layout;
pub use parts::{byte_at, entry_in, rule_in};

// A format's layout: whether there is such a format, the bytes of a word and of a rule, and the greatest width.
// `known` is no Option around the others: `layout` answers for any byte, and they stand for format 2 where it is false.
#[derive(Clone, Copy)]
pub struct FormatLayout {
    pub known: bool,
    pub word: usize,
    pub rule: usize,
    pub places: u32,
}

// A contents entry: where the body starts, its number of rules, and the list's id.
#[derive(Clone, Copy, Default)]
pub struct Entry {
    pub offset: usize,
    pub count: usize,
    pub id: usize,
}
