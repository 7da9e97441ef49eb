// The zeros at the left end of a word.
ghost use Rattle.std.specs.Prelude.{◌≡◌};
ghost use Rattle.std.specs.Int.Count.{count_leading_zeros};
ghost use Rattle.words.specs.Halves.{num};

use words::Word;

// How many of the 128 bits stand above the highest set bit: 128 for 0.
pub fn leading_zeros(a: Word) -> u32
    ensures { result ≡ count_leading_zeros 128 (num a) }
{
    if a.high == 0 {
        return 64 + u64::leading_zeros(a.low);
    }
    u64::leading_zeros(a.high)
}
