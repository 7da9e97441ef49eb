// The operators on the bits of words.
ghost use Rattle.std.specs.Prelude.{◌≡◌, ◌-◌};
ghost use Rattle.std.specs.Int.Bits.{bit_and, bit_or, bit_xor};
ghost use Rattle.words.specs.Halves.{num, halves, limit};

use crate::Word;
use std::ops::{BitAnd, BitOr, BitXor, Not};

// The bits that both have.
impl BitAnd for Word {
    type Output = Word;

    ghost bitand_gives = { λ a b r. r ≡ halves (bit_and (num a) (num b)) };

    fn bitand(self, other: Word) -> Word {
        Word {
            low: self.low & other.low,
            high: self.high & other.high,
        }
    }
}

// The bits that one or both have.
impl BitOr for Word {
    type Output = Word;

    ghost bitor_gives = { λ a b r. r ≡ halves (bit_or (num a) (num b)) };

    fn bitor(self, other: Word) -> Word {
        Word {
            low: self.low | other.low,
            high: self.high | other.high,
        }
    }
}

// The bits that one has and the other has not.
impl BitXor for Word {
    type Output = Word;

    ghost bitxor_gives = { λ a b r. r ≡ halves (bit_xor (num a) (num b)) };

    fn bitxor(self, other: Word) -> Word {
        Word {
            low: self.low ^ other.low,
            high: self.high ^ other.high,
        }
    }
}

// All 128 bits turned over.
impl Not for Word {
    type Output = Word;

    ghost not_gives = { λ a r. r ≡ halves (limit - 1 - num a) };

    fn not(self) -> Word {
        Word {
            low: !self.low,
            high: !self.high,
        }
    }
}
