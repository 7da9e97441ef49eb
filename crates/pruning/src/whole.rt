// Pruning: the list is put into the result slices, what does nothing is taken out of them, and the headers are put beside what is left.
ghost use Rattle.std.specs.Prelude.{◌≡◌, ◌*◌, ◌≤◌, length};
ghost use Rattle.rules.specs.Slices.{rules_of, rules_in, Lent, LentIn};
ghost use Rattle.rules.specs.Replies.{verdict_reply};
ghost use Rattle.rules.specs.Checks.{SoundIn};
ghost use Rattle.pruning.specs.Calls.{results_in, PruneDoneIn};
ghost use Rattle.pruning.specs.Inner.{Copied, Left};

use crate::Tally;
use crate::dropping::drop_all;
use crate::showing::show_headers;
use rules::{Reason, Refusal, RuleList, check_list, check_room, refused};

// Puts the rules of a list into the first places of three slices.
fn copy_rules(rules: RuleList, care: &mut [u64], value: &mut [u64], decision: &mut [u16])
    requires { LentIn rules × Lent care.old value.old decision.old × (length rules.decision.now ≤ length decision.old) }
    ensures { Copied (rules_in rules.entry)
        (rules_of care.old value.old decision.old)
        care.new value.new decision.new }
{
    care[..rules.care.len()].copy_from_slice(rules.care);
    value[..rules.value.len()].copy_from_slice(rules.value);
    decision[..rules.decision.len()].copy_from_slice(rules.decision);
}

// Refusal 2 where the four result slices are not equally long, then 7 where they have no place for each of `needed` rules.
#[tactic(auto, using(std::proofs::lemmas::Bool::Decides::nat_tests), unfolding(crate::specs::Calls::results_check, crate::specs::Calls::headers_check, rules::specs::Checks::lengths_check))]
fn check_results(needed: usize, results: RuleList, header: &[u64]) -> Result<(), Refusal>
    ensures { verdict_reply result ≡ results_in needed results.entry header.now }
{
    let places = results.decision.len();
    if results.care.len() != results.value.len()
        || results.care.len() != places * 2
        || header.len() != places * 2
    {
        return refused(Reason::Slices, 0, 0);
    }
    check_room(needed, places)
}

// Prunes a list that has passed its checks into result slices with room for it.
fn prune_into(
    width: u32,
    rules: RuleList,
    care: &mut [u64],
    value: &mut [u64],
    decision: &mut [u16],
    header: &mut [u64],
) -> Tally
    requires { SoundIn width rules × Lent care.old value.old decision.old × (length rules.decision.now ≤ length decision.old)
        × (length header.old ≡ length decision.old * 2) }
    ensures { Left width (rules_in rules.entry)
        (rules_of care.old value.old decision.old) header.old
        (rules_of care.new value.new decision.new) header.new result }
{
    let n = rules.decision.len();
    copy_rules(rules, care, value, decision);
    let left = drop_all(width, care, value, decision, n);
    let pruned = RuleList {
        care,
        value,
        decision,
    };
    show_headers(width, pruned, left, header, n);
    Tally {
        kept: left,
        dropped: n - left,
    }
}

// Prunes a list: from its last rule to its first, each that does nothing in the list as it then stands is dropped. The counts; in the result
// slices the rules that are kept, in their order; and in `header`, two numbers to a place, the lowest header whose answer changes when that one
// rule is taken from what is left. Zeros stand from there up to the number of rules; later places keep what they held.
pub fn prune(
    width: u32,
    rules: RuleList,
    out_care: &mut [u64],
    out_value: &mut [u64],
    out_decision: &mut [u16],
    header: &mut [u64],
) -> Result<Tally, Refusal>
    ensures { PruneDoneIn width rules.entry
        out_care.old out_value.old out_decision.old header.old
        out_care.new out_value.new out_decision.new header.new result }
{
    check_list(width, rules)?;
    let results = RuleList {
        care: out_care,
        value: out_value,
        decision: out_decision,
    };
    check_results(rules.decision.len(), results, header)?;
    Ok(prune_into(width, rules, out_care, out_value, out_decision, header))
}
