// The text of a case, read from left to right.
use std::alloc::{AllocError, AllocFailed, Global};
use words::Word;

// Why a case cannot be read. The number says how many bytes of the case are left from where it cannot be read on.
#[derive(Clone, Copy, Debug, PartialEq, Eq)]
pub enum Unread {
    // The case starts with no name of a call.
    Call,
    // What has to stand here does not.
    At(usize),
    // What stands in a slice from here on is more than one number, and does not go together.
    Item(usize),
    // There is no memory for what the case lends or for what it answers.
    Memory,
}

impl From<AllocError> for Unread {
    fn from(_e: AllocError) -> Unread {
        Unread::Memory
    }
}

impl<T: Drop> From<AllocFailed<T>> for Unread {
    fn from(_e: AllocFailed<T>) -> Unread {
        Unread::Memory
    }
}

// A space, a line end, or a comma, which is there for people.
fn is_space(b: u8) -> bool {
    matches!(b, b' ' | b'\n' | b',')
}

// What ends a word: a space or a bracket.
fn is_end(b: u8) -> bool {
    is_space(b) || matches!(b, b'[' | b']')
}

// A text from its first word or bracket on.
pub fn without_spaces(s: &[u8]) -> &[u8] {
    match s.iter().position(|b| !is_space(*b)) {
        Some(start) => &s[start..],
        None => &s[s.len()..],
    }
}

// What a word stands for; `none` is 65,535, which stands for no match.
fn meant(word: &[u8]) -> Option<Word> {
    if word == b"none".as_slice() {
        return Some(Word::from(65535));
    }
    text::read_number(word)
}

// The number that a word stands for, which has to be below 2^bits.
pub fn word_below(word: &[u8], bits: u32) -> Option<Word> {
    meant(word).filter(|x| words::below(*x, bits))
}

// The number that a word stands for, which has to be one of the type's.
pub fn number_of<T: TryFrom<u64>>(word: &[u8]) -> Option<T>
where
    T::Error: Drop,
{
    T::try_from(word_below(word, 64)?.low).ok()
}

// What is left of a case.
#[derive(Clone, Copy)]
pub struct Source<'a> {
    rest: &'a [u8],
    pub alloc: Global,
}

impl<'a> Source<'a> {
    pub fn new(case: &'a [u8], alloc: Global) -> Self {
        Source { rest: case, alloc }
    }

    // How many bytes are left.
    pub fn left(&self) -> usize {
        self.rest.len()
    }

    // What is said where the case cannot be read on from here.
    pub fn here(&self) -> Unread {
        Unread::At(self.left())
    }

    // Goes on to the next word or bracket.
    pub fn skip_spaces(&mut self) {
        self.rest = without_spaces(self.rest);
    }

    // The next word, which is empty before a bracket and at the end.
    pub fn word(&mut self) -> &'a [u8] {
        self.skip_spaces();
        let rest = self.rest;
        let end = rest.iter().position(|b| is_end(*b)).unwrap_or(rest.len());
        self.rest = &rest[end..];
        &rest[..end]
    }

    pub fn is_next(&self, word: &[u8]) -> bool {
        let mut ahead = *self;
        ahead.word() == word
    }

    // The next word, which has to be this one.
    pub fn name(&mut self, name: &[u8]) -> Result<(), Unread> {
        let start = self.here();
        if self.word() == name {
            Ok(())
        } else {
            Err(start)
        }
    }

    pub fn bracket(&mut self, b: u8) -> Result<(), Unread> {
        self.skip_spaces();
        match self.rest.split_first() {
            Some((first, rest)) if *first == b => {
                self.rest = rest;
                Ok(())
            }
            _ => Err(self.here()),
        }
    }

    pub fn is_closing(&self) -> bool {
        let mut ahead = *self;
        ahead.bracket(b']').is_ok()
    }

    // The next word as a number below 2^bits.
    pub fn number_below(&mut self, bits: u32) -> Result<Word, Unread> {
        let start = self.here();
        word_below(self.word(), bits).ok_or(start)
    }

    // The next word as a number of the type.
    pub fn number<T: TryFrom<u64>>(&mut self) -> Result<T, Unread>
    where
        T::Error: Drop,
    {
        let start = self.here();
        number_of(self.word()).ok_or(start)
    }

    // An argument that is a number: its name, then the number.
    pub fn named<T: TryFrom<u64>>(&mut self, name: &[u8]) -> Result<T, Unread>
    where
        T::Error: Drop,
    {
        self.name(name)?;
        self.number()
    }

    // An argument that is a header: its name, then the number.
    pub fn header(&mut self, name: &[u8]) -> Result<Word, Unread> {
        self.name(name)?;
        self.number_below(128)
    }

    // The end of the case.
    pub fn end(&mut self) -> Result<(), Unread> {
        self.skip_spaces();
        if self.rest.is_empty() {
            Ok(())
        } else {
            Err(self.here())
        }
    }
}
