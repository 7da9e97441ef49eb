// The headers that the rules of a list are needed at, each the lowest.
ghost use Rattle.std.specs.Prelude.{◌*◌, ◌≤◌, length, take};
ghost use Rattle.rules.specs.Slices.{rules_in};
ghost use Rattle.pruning.specs.Inner.{HoldsIn, Shown};

use crate::asking::header_of;
use rules::RuleList;
use words::put_word;

// Puts the headers that the first `count` rules are needed at into the first places of a slice, and zeros from there up to place n.
pub(crate) fn show_headers(width: u32, rules: RuleList, count: usize, header: &mut [u64], n: usize)
    requires { HoldsIn width rules count × (n * 2 ≤ length header.old) }
    ensures { Shown width (take count (rules_in rules.entry)) n header.old header.new }
{
    for k in 0..n {
        put_word(header, k, header_of(width, rules, count, k));
    }
}
