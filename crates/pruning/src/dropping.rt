// The pass over a list, from its last rule to its first, in the result slices themselves.
ghost use Rattle.std.specs.Prelude.{◌+◌, ◌<◌};
ghost use Rattle.rules.specs.Slices.{rules_of};
ghost use Rattle.pruning.specs.Inner.{Holds, Passing};

use crate::asking::needless;
use removal::remove_rule;
use rules::RuleList;

// Takes the rule at position k out of the first `left` rules where it does nothing in the list of these, and answers how many are left then.
fn drop_one(
    width: u32,
    care: &mut [u64],
    value: &mut [u64],
    decision: &mut [u16],
    left: usize,
    k: usize,
) -> usize
    requires { Holds width care.old value.old decision.old left × (k < left) }
    ensures { Passing width (rules_of care.old value.old decision.old) left (k + 1)
        care.new value.new decision.new result k }
{
    let rules = RuleList {
        care,
        value,
        decision,
    };
    if needless(width, rules, left, k) {
        remove_rule(care, value, decision, k, left);
        return left - 1;
    }
    left
}

// Goes through the first `count` rules from the last to the first, and takes out each that does nothing in the list as it then stands. The
// answer is how many are left.
pub(crate) fn drop_all(
    width: u32,
    care: &mut [u64],
    value: &mut [u64],
    decision: &mut [u16],
    count: usize,
) -> usize
    requires { Holds width care.old value.old decision.old count }
    ensures { Passing width (rules_of care.old value.old decision.old) count count
        care.new value.new decision.new result 0 }
{
    let mut left = count;
    for k in (0..count).rev() {
        left = drop_one(width, care, value, decision, left, k);
    }
    left
}
