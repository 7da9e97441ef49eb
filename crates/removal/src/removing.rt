// Taking a rule out of three slices, for the calls that squeeze a list where it stands.
ghost use Rattle.std.specs.Prelude.{◌≡◌, ◌≤◌, ◌<◌, length};
ghost use Rattle.rules.specs.Slices.{rules_of, Lent};
ghost use Rattle.removal.specs.Removal.{Shifted, removable as removable_of, Removed};

use rules::{BLANK, RuleList, put_rule, rule_at};

// Whether rule i can be taken out of the first `count` rules.
#[tactic(auto, unfolding(crate::specs::Removal::removable))]
fn removable(rules: RuleList, i: usize, count: usize) -> bool
    ensures { result ≡ removable_of rules.entry.care.now rules.entry.value.now rules.entry.decision.now i count }
{
    rules.care.len() == rules.value.len()
        && rules.care.len() == rules.decision.len() * 2
        && i < count
        && count <= rules.decision.len()
}

// Moves the rules after rule i, up to rule `last`, down by one.
fn move_down(care: &mut [u64], value: &mut [u64], decision: &mut [u16], i: usize, last: usize)
    requires lent { Lent care.old value.old decision.old }
    requires i_le_last { (i ≤ last) × (last < length decision.old) }
    ensures { Shifted (rules_of care.old value.old decision.old)
        (rules_of care.new value.new decision.new) i last }
{
    for k in i..last {
        let r = rule_at(
            RuleList {
                care,
                value,
                decision,
            },
            k + 1,
        );
        put_rule(care, value, decision, k, r);
    }
}

// Takes rule i out of the first `count` rules: those after it move down by one, and the place that becomes free is cleared.
// Nothing changes where the slices do not belong together, or have not so many rules, or where i is not below `count`.
#[tactic(auto, unfolding(crate::specs::Removal::removable))]
pub fn remove_rule(
    care: &mut [u64],
    value: &mut [u64],
    decision: &mut [u16],
    i: usize,
    count: usize,
)
    ensures { Removed care.old value.old decision.old i count
        care.new value.new decision.new }
{
    if removable(
        RuleList {
            care,
            value,
            decision,
        },
        i,
        count,
    ) {
        let last = count - 1;
        move_down(care, value, decision, i, last);
        put_rule(care, value, decision, last, BLANK);
    }
}
