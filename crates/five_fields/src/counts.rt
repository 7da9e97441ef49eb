// How many entries a list of five-field rules becomes.
ghost use Rattle.std.specs.Prelude.{◌≡◌, true, length};
ghost use Rattle.rules.specs.Replies.{passed, number_reply};
ghost use Rattle.ranges.specs.Ranges.{range_prefixes};
ghost use Rattle.ranges.specs.Calls.{is_range};
ghost use Rattle.five_fields.specs.FiveFieldRule.{rule_of};
ghost use Rattle.five_numbers.specs.Fields.{port_bits};
ghost use Rattle.five_fields.specs.FiveFieldRules.{ports_fit};
ghost use Rattle.five_fields.specs.Slices.{lent, rules_in};
ghost use Rattle.five_fields.specs.Expansion.{expansion, expanded};
ghost use Rattle.five_fields.specs.Calls.{rules_check, count_reply};

use crate::checks::{rule_at, rules_verdict, size_verdict};
use crate::{FiveFieldRule, FiveFieldRules};
use ranges::range_prefix_count;
use rules::Refusal;

// How many prefixes a range of ports takes.
fn prefix_count(low: u32, high: u32) -> usize
    requires { is_range port_bits low high ≡ true }
    ensures { result ≡ length (range_prefixes port_bits low high) }
{
    range_prefix_count(16, low, high).unwrap()
}

// How many entries a rule becomes.
fn rule_count(rule: FiveFieldRule) -> usize
    requires { ports_fit (rule_of rule) ≡ true }
    ensures { result ≡ length (expansion (rule_of rule)) }
{
    prefix_count(rule.source_low, rule.source_high)
        * prefix_count(rule.destination_low, rule.destination_high)
}

// How many entries all rules become. No rule becomes more than 900, so the sum stays far below what a number holds.
fn entries(rules: FiveFieldRules<'_>) -> usize
    requires { rules_check (lent rules) ≡ passed }
    ensures { result ≡ length (expanded (rules_in (lent rules.entry))) }
{
    let mut n: usize = 0;
    for i in 0..rules.decision.len() {
        n += rule_count(rule_at(rules, i));
    }
    n
}

// How many entries the ternary list of these rules has: 2 and 3, then the rules one by one, then 3 for more than 1,024 entries.
#[tactic(auto, unfolding(crate::specs::Calls::count_reply, crate::specs::Calls::source_check))]
pub fn expansion_count(rules: FiveFieldRules<'_>) -> Result<usize, Refusal>
    ensures { number_reply result ≡ count_reply (lent rules.entry) }
{
    rules_verdict(rules)?;
    let n = entries(rules);
    size_verdict(n)?;
    Ok(n)
}
