// Words bit by bit.
ghost use Rattle.std.specs.Prelude.{◌≡◌, ◌-◌, eqb};
ghost use Rattle.std.specs.Int.Bits.{bit_and, bit_or, bit_xor};
ghost use Rattle.words.specs.Words.{bit, set_bits, without as without_of};
ghost use Rattle.words.specs.Halves.{num, halves, limit};

use words::Word;

// The bits of a that b does not have.
pub fn without(a: Word, b: Word) -> Word
    ensures { result ≡ halves (without_of (num a) (num b)) }
{
    a & !b
}

// The number of set bits. Most words of narrow lists have none in the high half, and a count takes more than a test.
pub fn ones(a: Word) -> u32
    ensures { result ≡ set_bits (num a) }
{
    if a.high == 0 {
        return u64::count_ones(a.low);
    }
    u64::count_ones(a.low) + u64::count_ones(a.high)
}

// Whether one bit of a machine word is set, and no other.
fn is_bit(x: u64) -> bool
    ensures { result ≡ eqb (set_bits x) 1 }
{
    u64::count_ones(x) == 1
}

// Whether exactly one bit is set.
pub fn is_single(a: Word) -> bool
    ensures { result ≡ eqb (set_bits (num a)) 1 }
{
    if a.high == 0 {
        return is_bit(a.low);
    }
    if a.low == 0 {
        return is_bit(a.high);
    }
    false
}

// The bit at weight 2^k, as 0 or 1: 0 from 128 on.
pub fn bit_at(a: Word, k: u32) -> u64
    ensures { result ≡ bit (num a) k }
{
    if k < 64 {
        return (a.low >> k) % 2;
    }
    if k < 128 {
        return (a.high >> (k - 64)) % 2;
    }
    0
}
