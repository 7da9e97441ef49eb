// Numbers written in decimal.
ghost use Rattle.std.specs.Prelude.{◌≡◌, ◌≤◌, ◌<◌, ◌^◌, ◌++◌, length, drop, Some};
ghost use Rattle.words.specs.Halves.{num};
ghost use Rattle.text.specs.Decimal.{decimal as decimal_of};
ghost use Rattle.text.specs.Put.{Put};

use crate::digits;
use words::Word;

// Puts the digits of a number before place `end` of `space`, and answers where the first one stands.
fn digits_before(mut number: u64, end: usize, space: &mut [u8; 39]) -> usize
    requires { (1 ≤ end) × (end ≤ 39) × (number < 10 ^ end) × (length space.old ≡ 39) }
    ensures { (result ≤ 39) × (length space.new ≡ 39) × (drop result space.new ≡ decimal_of number ++ drop end space.old) }
{
    let mut at = end;
    while number >= 10 {
        at -= 1;
        space[at] = b'0' + (number % 10) as u8;
        number /= 10;
    }
    // The first digit, which 0 has too.
    at -= 1;
    space[at] = b'0' + number as u8;
    at
}

// Puts the digits of a number at the end of `space`, and answers where the first one stands. The greatest number has 39.
fn digits_at_end(number: Word, space: &mut [u8; 39]) -> usize
    requires { length space.old ≡ 39 }
    ensures { (result ≤ 39) × (length space.new ≡ 39) × (drop result space.new ≡ decimal_of (num number)) }
{
    let mut rest = digits::number(number);
    let mut at = 39;
    // A division of 128 bits costs as much as four of 64 bits, so this stops where what is left fits 64.
    while rest >= 1 << 64 {
        at -= 1;
        space[at] = b'0' + (rest % 10) as u8;
        rest /= 10;
    }
    digits_before(rest as u64, at, space)
}

// Puts a text at the start of `out`, and answers how many bytes it takes; None where `out` is too short, and then nothing
// changes.
#[tactic(auto, unfolding(crate::specs::Put::fitting, rules::specs::Checks::room_check))]
fn put(text: &[u8], out: &mut [u8]) -> Option<usize>
    ensures { Put (Some text.now) out.old result out.new }
{
    if out.len() < text.len() {
        return None;
    }
    out[..text.len()].copy_from_slice(text);
    Some(text.len())
}

// Puts a number at the start of `out`, in decimal with no zeros before it, and answers how many bytes it takes, 1 to 39;
// None where `out` is too short, and then nothing changes.
pub fn write_number(number: Word, out: &mut [u8]) -> Option<usize>
    ensures { Put (Some (decimal_of (num number))) out.old result out.new }
{
    let mut space = [0; 39];
    let from = digits_at_end(number, &mut space);
    put(&space[from..], out)
}
