// What a list answers for a header, as the lookup finds it.
ghost use Rattle.std.specs.Prelude.{◌≡◌, ◌^◌, ◌<◌};
ghost use Rattle.rules.specs.Rules.{answer};
ghost use Rattle.rules.specs.Slices.{rules_in};
ghost use Rattle.rules.specs.Checks.{SoundIn};

use rules::{RuleList, Wire, lookup};
use words::Word;

// The decision for the header h of the width, or 65535 for no match. The lookup is never refused, as the list has passed its checks.
pub(crate) fn answer_at(width: u32, rules: RuleList, h: u64) -> u16
    requires { SoundIn width rules × (h < 2 ^ width) }
    ensures { result ≡ answer (rules_in rules.entry) h }
{
    let hit = lookup(width, rules, Wire(Word::from(h))).unwrap();
    hit.map_or(65535, |x| x.decision)
}
