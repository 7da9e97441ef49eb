// Numbers and defaults on the command line.
use crate::{lines, places};
use std::io::Print;
use std::rt::Env;
use words::Word;

// The number that word i after place `at` stands for; none where it is no number, and then a line says so. A number that is not named is 0.
pub(crate) fn number_at(rt: &(impl Env + Print), at: usize, i: Option<usize>) -> Option<Word> {
    let Some(i) = i else {
        return Some(Word::from(0));
    };
    let mut space = [0u8; host::NAME_ROOM];
    let n = host::word(rt, places::place(at, i), &mut space);
    let found = text::read_number(&space[..n]);
    if found.is_none() {
        lines::trouble(rt, b"not a number: ", &space[..n]);
    }
    found
}

// The default that word i after place `at` stands for: `none`, or a number; none where it is neither, and then a line says so. A number that
// is no decision stands for 65,535, which is refused. A default that is not named is none.
pub(crate) fn default_at(
    rt: &(impl Env + Print),
    at: usize,
    i: Option<usize>,
) -> Option<Option<u16>> {
    let Some(word) = i else {
        return Some(None);
    };
    if places::is_word(rt, places::place(at, word), b"none") {
        return Some(None);
    }
    let number = number_at(rt, at, i)?;
    Some(Some(u16::try_from(words::capped(number)).unwrap_or(u16::MAX)))
}
