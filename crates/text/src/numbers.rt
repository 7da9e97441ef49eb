// Numbers read from words of text.
ghost use Rattle.std.specs.Prelude.{◌≡◌, ◌≤◌, ◌<◌, ◌+◌, ◌*◌, ◌==◌, None, SomeIff, length};
ghost use Rattle.words.specs.Halves.{limit};
ghost use Rattle.text.specs.Numbers.{digit_of, goes_on, number_if, number_of};

use crate::digits;
use words::Word;

// The value of a byte as a digit of a base; None where it is none.
#[tactic(auto, unfolding(crate::specs::Numbers::digit_of))]
fn digit(b: u8, base: u32) -> Option<u32>
    requires { (2 ≤ base) × (base ≤ 16) }
    ensures { SomeIff result (digit_of b < base) (digit_of b) }
{
    (b as char).to_digit(base)
}

// A number with one digit more behind it; None where that is 2^128 or more.
#[tactic(auto, unfolding(words::specs::Halves::limit))]
fn grown(n: u128, base: u32, d: u32) -> Option<u128>
    ensures { SomeIff result (n * base + d < limit) (n * base + d) }
{
    let more = n.checked_mul(u128::from(base))?;
    more.checked_add(u128::from(d))
}

// The number that digits stand for; None where there are none or another byte is among them, or where the number is 2^128 or
// more.
fn digits_of(bytes: &[u8], base: u32) -> Option<Word>
    requires { (2 ≤ base) × (base ≤ 16) }
    ensures { result ≡ number_if (length bytes.now == 0) None (goes_on limit base 0 bytes.now) }
{
    if bytes.is_empty() {
        return None;
    }
    let mut n = 0;
    for b in bytes {
        let d = digit(*b, base)?;
        n = grown(n, base, d)?;
    }
    Some(digits::word(n))
}

// The number that a word stands for: decimal, or hexadecimal after 0x. A word with another byte in it, an empty word and
// a number of 2^128 or more are none.
pub fn read_number(word: &[u8]) -> Option<Word>
    ensures { result ≡ number_of limit word.now }
{
    match word.strip_prefix(b"0x") {
        Some(digits) => digits_of(digits, 16),
        None => digits_of(word, 10),
    }
}
