// Words with one bit, and with the lowest bits.
ghost use Rattle.std.specs.Prelude.{◌≡◌, ◌-◌, ◌%◌, ◌^◌, min};
ghost use Rattle.words.specs.Halves.{halves, limit};

use words::Word;

// 2^k: no bit at all from 128 on.
pub fn single(k: u32) -> Word
    ensures { result ≡ halves (2 ^ k % limit) }
{
    if k < 64 {
        return Word {
            low: 1u64 << k,
            high: 0,
        };
    }
    if k < 128 {
        return Word {
            low: 0,
            high: 1u64 << (k - 64),
        };
    }
    Word { low: 0, high: 0 }
}

// 2^k - 1, the k lowest bits: all bits from 128 on.
pub fn lowest(k: u32) -> Word
    ensures { result ≡ halves (2 ^ min k 128 - 1) }
{
    if k < 64 {
        return Word {
            low: (1u64 << k) - 1,
            high: 0,
        };
    }
    if k < 128 {
        return Word {
            low: u64::MAX,
            high: (1u64 << (k - 64)) - 1,
        };
    }
    Word {
        low: u64::MAX,
        high: u64::MAX,
    }
}

// All bits at weight 2^k and above: none from 128 on.
pub fn upper(k: u32) -> Word
    ensures { result ≡ halves (limit - 2 ^ min k 128) }
{
    !lowest(k)
}
