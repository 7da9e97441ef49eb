// Numbers, words and rules out of little-endian bytes.
ghost use Rattle.std.specs.Prelude.{◌≡◌, ◌+◌, ◌^◌, ◌≤◌, ◌<◌, length};
ghost use Rattle.image_form.specs.Bytes.{le, number_in, part};
ghost use Rattle.words.specs.Halves.{halves};
ghost use Rattle.rules.specs.Rule.{held};
ghost use Rattle.image_form.specs.Formats.{word_bytes, rule_size};
ghost use Rattle.image_form.specs.Images.{rule_in};

use crate::formats::layout;
use rules::Rule;
use words::Word;

// The number in these bytes, at most 8 of them.
pub(crate) fn number(bytes: &[u8]) -> u64
    requires { length bytes.now ≤ 8 }
    ensures { (result ≡ le bytes.now) × (result < 256 ^ length bytes.now) }
{
    let mut eight = [0; 8];
    eight[..bytes.len()].copy_from_slice(bytes);
    u64::from_le_bytes(eight)
}

// The number in the first 4 of these bytes.
pub(crate) fn first_four(bytes: &[u8]) -> u32
    requires { 4 ≤ length bytes.now }
    ensures { (result ≡ number_in 4 0 bytes.now) × (result < 256 ^ length (part 4 0 bytes.now)) }
{
    u32::from_le_bytes([bytes[0], bytes[1], bytes[2], bytes[3]])
}

// The word in these bytes: 8 of them in format 1, which are its low half, and 16 in format 2, the low half first. Each half is read from a
// part whose length stands in the code: a part of any length would be copied by a call.
fn word(format: u8, bytes: &[u8]) -> Word
    requires { length bytes.now ≡ word_bytes format }
    ensures { result ≡ halves (le bytes.now) }
{
    let low = number(&bytes[..8]);
    if format == 1 {
        return Word { low, high: 0 };
    }
    let high = number(&bytes[8..16]);
    Word { low, high }
}

// The rule in these bytes, as many as it takes.
pub(crate) fn rule_here(format: u8, bytes: &[u8]) -> Rule
    requires { length bytes.now ≡ rule_size format }
    ensures { result ≡ held (rule_in format bytes.now) }
{
    let size = layout(format).word;
    let (care, rest) = bytes.split_at(size);
    let (value, decision) = rest.split_at(size);
    Rule {
        care: word(format, care),
        value: word(format, value),
        decision: number(&decision[..2]) as u16,
    }
}
