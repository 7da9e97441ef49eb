// Machine words as words, and back.
ghost use Rattle.std.specs.Prelude.{◌≡◌, ◌-◌, ◌^◌, min};
ghost use Rattle.words.specs.Halves.{num, halves};

use crate::Word;

// The word that holds a machine word's number.
impl From<u64> for Word {
    ghost from_gives = { λ n w. w ≡ halves n };

    fn from(n: u64) -> Word {
        Word { low: n, high: 0 }
    }
}

// The number of a word, where a machine word holds it; else the greatest number that a machine word holds.
pub fn capped(a: Word) -> u64
    ensures { result ≡ min (num a) (2 ^ 64 - 1) }
{
    if a.high == 0 {
        return a.low;
    }
    u64::MAX
}
