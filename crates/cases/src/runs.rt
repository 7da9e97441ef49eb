// The four result slices of a comparison, as a case hands them in.
use crate::given::{Given, MOST, numbers, put_word, read_numbers, read_shorts};
use crate::source::{Source, Unread};
use words::Word;

#[derive(Drop)]
pub struct Runs {
    pub first: Vec<u64>,
    pub last: Vec<u64>,
    pub old: Vec<u16>,
    pub new: Vec<u16>,
}

// The four slices one by one: `first`, `last`, `old` and `new`.
fn by_slices(case: &mut Source) -> Result<Runs, Unread> {
    let first = read_numbers(case, b"first")?;
    let last = read_numbers(case, b"last")?;
    let old = read_shorts(case, b"old")?;
    let new = read_shorts(case, b"new")?;
    Ok(Runs {
        first,
        last,
        old,
        new,
    })
}

// Runs of four numbers each in brackets.
fn by_numbers(case: &mut Source) -> Result<Runs, Unread> {
    let start = case.here();
    let all: Vec<Word> = numbers(case, 128, 4 * MOST)?;
    let (rows, rest) = all.as_chunks::<4>();
    if !rest.is_empty() {
        return Err(start);
    }
    let mut runs = Runs {
        first: Vec::new(case.alloc),
        last: Vec::new(case.alloc),
        old: Vec::new(case.alloc),
        new: Vec::new(case.alloc),
    };
    for [first, last, old, new] in rows {
        put_word(&mut runs.first, *first)?;
        put_word(&mut runs.last, *last)?;
        runs.old.push(u16::given(*old).ok_or(start)?)?;
        runs.new.push(u16::given(*new).ok_or(start)?)?;
    }
    Ok(runs)
}

// The argument `into`: runs, or the four slices.
pub fn read_runs(case: &mut Source) -> Result<Runs, Unread> {
    case.name(b"into")?;
    if case.is_next(b"first") {
        by_slices(case)
    } else {
        by_numbers(case)
    }
}
