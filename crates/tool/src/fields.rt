// The prefixes of a range of a field: words of the command line, and no file.
use crate::{lines, numbers, slices};
use rules::Rule;
use std::io::Print;
use std::rt::Env;
use words::Word;

// A number as the call takes it. One that is greater than all that it can be given stands for the greatest, which is refused likewise.
fn capped(n: Word) -> u32 {
    u32::try_from(words::capped(n)).unwrap_or(u32::MAX)
}

// prefixes BITS LOW HIGH
pub(crate) fn prefixes(rt: &(impl Env + Print), at: usize) {
    if let Some((bits, low, high)) = range(rt, at) {
        show(rt, bits, low, high);
    }
}

fn range(rt: &(impl Env + Print), at: usize) -> Option<(u32, u32, u32)> {
    let bits = numbers::number_at(rt, at, Some(2))?;
    let low = numbers::number_at(rt, at, Some(3))?;
    let high = numbers::number_at(rt, at, Some(4))?;
    Some((capped(bits), capped(low), capped(high)))
}

// No range of 16 bits takes more than 30 prefixes.
fn show(rt: &impl Print, bits: u32, low: u32, high: u32) {
    let mut care = [0u16; 30];
    let mut value = [0u16; 30];
    match ranges::range_prefixes(bits, low, high, &mut care, &mut value) {
        Ok(n) => {
            show_patterns(rt, bits, slices::first(&care, n), slices::first(&value, n));
            lines::named(rt, b"prefixes ", n);
        }
        Err(x) => lines::refusal(rt, x),
    }
}

fn show_patterns(rt: &impl Print, bits: u32, care: &[u16], value: &[u16]) {
    for (c, v) in care.iter().zip(value) {
        show_pattern(rt, bits, *c, *v);
    }
}

fn show_pattern(rt: &impl Print, bits: u32, care: u16, value: u16) {
    let rule = Rule {
        care: Word::from(u64::from(care)),
        value: Word::from(u64::from(value)),
        decision: 0,
    };
    lines::pattern(rt, bits, rule);
    lines::byte(rt, b'\n');
}
