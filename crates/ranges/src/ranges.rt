// The prefixes of a range, from the lowest number on: at each number the greatest prefix that starts there and does not leave the range.
ghost use Rattle.std.specs.Prelude.{◌≡◌, ◌^◌, ◌≤◌, ◌<◌, length};
ghost use Rattle.rules.specs.Replies.{verdict_reply, number_reply};
ghost use Rattle.ranges.specs.Ranges.{covering};
ghost use Rattle.ranges.specs.Calls.{widest_field, check_range, prefix_count_reply, prefixes_check, PrefixesDone};
ghost use Rattle.ranges.specs.Inner.{opens, Widest, PrefixesPut};

use rules::{Reason, Refusal, refused};

// 2^k, by a shift, which is one step: `pow` multiplies in a loop.
fn power(k: u32) -> u32
    requires { k ≤ widest_field }
    ensures { result ≡ 2 ^ k }
{
    1u32 << k
}

// Checks a range: 1 where the field has not 1 to 16 bits, then 20 where low is above high or high outside the field.
#[tactic(auto, unfolding(crate::specs::Calls::check_range, crate::specs::Calls::field_check, crate::specs::Calls::bounds_check))]
fn range_verdict(bits: u32, low: u32, high: u32) -> Result<(), Refusal>
    ensures { verdict_reply result ≡ check_range bits low high }
{
    if bits < 1 {
        return refused(Reason::Width, 0, 0);
    }
    if 16 < bits {
        return refused(Reason::Width, 0, 0);
    }
    if high < low {
        return refused(Reason::Range, 0, 0);
    }
    if power(bits) <= high {
        return refused(Reason::Range, 0, 0);
    }
    Ok(())
}

// Whether a prefix of so many stars can start at a number and stay below the end.
#[tactic(auto, unfolding(crate::specs::Inner::opens))]
fn can_open(at: u32, end: u32, stars: u32) -> bool
    requires { (at < end) × (end ≤ 2 ^ widest_field) × (stars ≤ widest_field) }
    ensures { result ≡ opens at end stars }
{
    let size = power(stars);
    at % size == 0 && at + size <= end
}

// The most stars of a prefix that starts at a number and stays below the end.
fn stars_at(bits: u32, at: u32, end: u32) -> u32
    requires { (bits ≤ widest_field) × (at < end) × (end ≤ 2 ^ bits) }
    ensures { Widest at end result }
{
    for stars in 0..bits {
        if !can_open(at, end, stars + 1) {
            return stars;
        }
    }
    bits
}

// How many prefixes the numbers from low on and below the end take.
fn count_below(bits: u32, low: u32, end: u32) -> usize
    requires { (bits ≤ widest_field) × (end ≤ 2 ^ bits) }
    ensures { result ≡ length (covering bits low end) }
{
    let mut at = low;
    let mut n: usize = 0;
    // A `while`, since each prefix is a step of its own size.
    while at < end {
        at += power(stars_at(bits, at, end));
        n += 1;
    }
    n
}

// Writes the prefixes of the numbers from low on and below the end, and returns how many they are.
fn put_below(bits: u32, low: u32, end: u32, care: &mut [u16], value: &mut [u16]) -> usize
    requires bits_le_widest_field { (bits ≤ widest_field) × (end ≤ 2 ^ bits) }
    requires end_in_bounds { (length (covering bits low end) ≤ length care.old) × (length (covering bits low end) ≤ length value.old) }
    ensures { PrefixesPut bits low end care.old value.old care.new value.new result }
{
    let field = power(bits);
    let mut at = low;
    let mut n: usize = 0;
    // A `while`, as above.
    while at < end {
        let size = power(stars_at(bits, at, end));
        care[n] = (field - size) as u16;
        value[n] = at as u16;
        at += size;
        n += 1;
    }
    n
}

// How many prefixes the range from low to high takes: 1, then 20; else the number.
#[tactic(auto, using(crate::proofs::CallLaws::range_end), unfolding(crate::specs::Calls::prefix_count_reply))]
pub fn range_prefix_count(bits: u32, low: u32, high: u32) -> Result<usize, Refusal>
    ensures { number_reply result ≡ prefix_count_reply bits low high }
{
    range_verdict(bits, low, high)?;
    Ok(count_below(bits, low, high + 1))
}

// What can be wrong with a range and two result slices: 1, then 20, then 2, then 7 where there is not a place for each prefix.
#[tactic(auto, using(crate::proofs::CallLaws::range_end), unfolding(crate::specs::Calls::prefixes_check, crate::specs::Calls::same_length_check, rules::specs::Checks::room_check))]
fn prefixes_verdict(
    bits: u32,
    low: u32,
    high: u32,
    care: &[u16],
    value: &[u16],
) -> Result<(), Refusal>
    ensures { verdict_reply result ≡ prefixes_check bits low high care.now value.now }
{
    range_verdict(bits, low, high)?;
    if care.len() != value.len() {
        return refused(Reason::Slices, 0, 0);
    }
    if care.len() < count_below(bits, low, high + 1) {
        return refused(Reason::Room, 0, 0);
    }
    Ok(())
}

// The prefixes of the range from low to high, rising and as few as there can be: their care words in `care`, their value words in `value`.
// 1 and 20, then 2 and 7 of the two slices; else how many they are.
#[tactic(auto, using(crate::proofs::CallLaws::prefixes_end), unfolding(crate::specs::Calls::prefixes_reply))]
pub fn range_prefixes(
    bits: u32,
    low: u32,
    high: u32,
    care: &mut [u16],
    value: &mut [u16],
) -> Result<usize, Refusal>
    ensures { PrefixesDone bits low high care.old value.old care.new value.new result }
{
    prefixes_verdict(bits, low, high, care, value)?;
    Ok(put_below(bits, low, high + 1, care, value))
}
