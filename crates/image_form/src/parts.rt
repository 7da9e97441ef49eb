// The parts of an image, read from any bytes at any place: what the bytes do not hold is read as zeros.
ghost use Rattle.std.specs.Prelude.{◌≡◌, ◌+◌, ◌≤◌, ◌<◌, get_or, length, MatchOption};
ghost use Rattle.rules.specs.Rule.{held};
ghost use Rattle.image_form.specs.Bytes.{part};
ghost use Rattle.image_form.specs.Parts.{EntryRead, rule_from};

use crate::Entry;
use crate::formats::layout;
use crate::numbers::{first_four, number, rule_here};
use rules::{BLANK, Rule};

// The byte at a place, counted from 0, as a number that sums and products have room in; 0 past the end.
pub fn byte_at(b: &[u8], at: usize) -> usize
    ensures { (result ≡ get_or b.now at 0) × (result < 256) }
{
    usize::from(b.get(at).copied().unwrap_or(0))
}

// The `count` bytes from byte `at` on, where there are so many. The first test is one for all the places that are asked of the same bytes.
fn part(b: &[u8], at: usize, count: usize) -> Option<&[u8]>
    ensures { MatchOption result (length b.now < at + count)
        (λ p. (at + count ≤ length b.now) × (p.now ≡ part count at b.now)) }
{
    if count <= b.len() {
        if at <= b.len() - count {
            return Some(&b[at..at + count]);
        }
    }
    None
}

// The contents entry in the 8 bytes from byte `at` on; the entry of zeros where there are not so many.
pub fn entry_in(b: &[u8], at: usize) -> Entry
    ensures { EntryRead b.now at result }
{
    let Some(bytes) = part(b, at, 8) else {
        return Entry {
            offset: 0,
            count: 0,
            id: 0,
        };
    };
    let offset = first_four(bytes) as usize;
    let count = number(&bytes[4..6]) as usize;
    let id = number(&bytes[6..8]) as usize;
    Entry { offset, count, id }
}

// The rule in the bytes from byte `at` on, as many as the format has to a rule; the rule of zeros where there are not so many.
pub fn rule_in(format: u8, b: &[u8], at: usize) -> Rule
    ensures { result ≡ held (rule_from format at b.now) }
{
    if let Some(bytes) = part(b, at, layout(format).rule) {
        return rule_here(format, bytes);
    }
    BLANK
}
