// Where the list of the first so many rules of a list needs one of them, asked of the comparison's engine.
ghost use Rattle.std.specs.Prelude.{◌≡◌, take};
ghost use Rattle.words.specs.Halves.{num};
ghost use Rattle.words.specs.Slices.{halves_of};
ghost use Rattle.rules.specs.Slices.{rules_in};
ghost use Rattle.compare.specs.Calls.{header_values};
ghost use Rattle.compare.specs.Needed.{lowest_change};
ghost use Rattle.pruning.specs.Prune.{needless as needless_in, needed_header};
ghost use Rattle.pruning.specs.Inner.{HoldsIn};

use compare::needed_at;
use rules::{RuleList, Wire};
use words::Word;

// The lowest header at which the first `count` rules need the one at position k. The question is never refused, as they have passed a list's
// checks.
fn ask(width: u32, rules: RuleList, count: usize, k: usize) -> Option<Wire>
    requires { HoldsIn width rules count }
    ensures { header_values result ≡ halves_of (lowest_change width (take count (rules_in rules.entry)) k) }
{
    let halves = count * 2;
    let first = RuleList {
        care: &rules.care[..halves],
        value: &rules.value[..halves],
        decision: &rules.decision[..count],
    };
    needed_at(width, first, k).unwrap()
}

// Whether the rule at position k of the first `count` rules does nothing in the list of these.
pub(crate) fn needless(width: u32, rules: RuleList, count: usize, k: usize) -> bool
    requires { HoldsIn width rules count }
    ensures { result ≡ needless_in width (take count (rules_in rules.entry)) k }
{
    ask(width, rules, count, k).is_none()
}

// The lowest header at which the first `count` rules need the one at position k; 0 past the last of them.
pub(crate) fn header_of(width: u32, rules: RuleList, count: usize, k: usize) -> Word
    requires { HoldsIn width rules count }
    ensures { num result ≡ needed_header width (take count (rules_in rules.entry)) k }
{
    if count <= k {
        return Word::from(0);
    }
    ask(width, rules, count, k).map_or(Word::from(0), |h| h.0)
}
