// Checking a list of five-field rules: how long they are, and rule by rule what stands in them (refusals 2, 3, 23, 20 and 5).
ghost use Rattle.std.specs.Prelude.{◌≡◌, ◌^◌, ◌≤◌, get_or};
ghost use Rattle.rules.specs.Replies.{verdict_reply};
ghost use Rattle.rules.specs.Checks.{size_check};
ghost use Rattle.ranges.specs.Calls.{is_range};
ghost use Rattle.five_fields.specs.FiveFieldRule.{rule_of};
ghost use Rattle.five_numbers.specs.Fields.{address_bits, port_bits};
ghost use Rattle.five_fields.specs.FiveFieldRules.{is_prefix, fields_fit, ports_fit};
ghost use Rattle.five_fields.specs.Slices.{lent, alike, rule_at, rules_in};
ghost use Rattle.five_fields.specs.Calls.{five_field_check, five_fields_check, rules_check};

use crate::{FiveFieldRule, FiveFieldRules};
use rules::{Reason, Refusal, refused};

// 2^k, by a shift, which is one step: `pow` multiplies in a loop.
pub(crate) fn power(k: u32) -> u64
    requires { k ≤ address_bits }
    ensures { result ≡ 2 ^ k }
{
    1u64 << k
}

// Whether at most 32 first bits of an address count, and it has no bit behind them.
#[tactic(auto, unfolding(crate::specs::FiveFieldRules::is_prefix))]
fn is_prefix(address: u32, length: u32) -> bool
    ensures { result ≡ is_prefix address length }
{
    length <= 32 && u64::from(address) % power(32 - length) == 0
}

// Whether the addresses and the protocol of a rule are what they should be.
#[tactic(auto, unfolding(crate::specs::FiveFieldRules::fields_fit))]
fn fields_fit(rule: FiveFieldRule) -> bool
    ensures { result ≡ fields_fit (rule_of rule) }
{
    is_prefix(rule.source, rule.source_length)
        && is_prefix(rule.destination, rule.destination_length)
        && rule.protocol <= 256
}

// Whether two numbers are the ends of a range of ports.
fn is_range(low: u32, high: u32) -> bool
    ensures { result ≡ is_range port_bits low high }
{
    low <= high && high < 65536
}

// Whether both ranges of ports of a rule are such.
#[tactic(auto, unfolding(crate::specs::FiveFieldRules::ports_fit))]
fn ports_fit(rule: FiveFieldRule) -> bool
    ensures { result ≡ ports_fit (rule_of rule) }
{
    is_range(rule.source_low, rule.source_high)
        && is_range(rule.destination_low, rule.destination_high)
}

// Refusals 23, 20 and 5 of a rule, named as rule `number`.
#[tactic(auto, unfolding(crate::specs::Calls::five_field_check))]
fn rule_verdict(number: usize, rule: FiveFieldRule) -> Result<(), Refusal>
    ensures { verdict_reply result ≡ five_field_check number (rule_of rule) }
{
    if !fields_fit(rule) {
        return refused(Reason::Fields, 1, number);
    }
    if !ports_fit(rule) {
        return refused(Reason::Range, 1, number);
    }
    if rule.decision < 65535 {
        return Ok(());
    }
    refused(Reason::Decision, 1, number)
}

// What stands at position i, counted from 0, and `other` past the end.
fn at_or<T: Copy>(s: &[T], i: usize, other: T) -> T
    ensures { result ≡ get_or s.now i other }
{
    s.get(i).copied().unwrap_or(other)
}

// The rule at position i, counted from 0.
#[tactic(auto, unfolding(crate::specs::Slices::rule_at))]
pub(crate) fn rule_at(rules: FiveFieldRules<'_>, i: usize) -> FiveFieldRule
    ensures { rule_of result ≡ rule_at (lent rules.entry) i }
{
    FiveFieldRule {
        source: at_or(rules.source, i, 0),
        source_length: at_or(rules.source_length, i, 0),
        destination: at_or(rules.destination, i, 0),
        destination_length: at_or(rules.destination_length, i, 0),
        source_low: at_or(rules.source_low, i, 0),
        source_high: at_or(rules.source_high, i, 0),
        destination_low: at_or(rules.destination_low, i, 0),
        destination_high: at_or(rules.destination_high, i, 0),
        protocol: at_or(rules.protocol, i, 0),
        decision: at_or(rules.decision, i, 0),
    }
}

// Refusals 23, 20 and 5 of the rules, the lower rule first.
fn each_verdict(rules: FiveFieldRules<'_>) -> Result<(), Refusal>
    ensures { verdict_reply result ≡ five_fields_check 1 (rules_in (lent rules.entry)) }
{
    for i in 0..rules.decision.len() {
        rule_verdict(i + 1, rule_at(rules, i))?;
    }
    Ok(())
}

// Whether the ten slices are equally long.
fn alike(rules: FiveFieldRules<'_>) -> bool
    ensures { result ≡ alike (lent rules.entry) }
{
    let n = rules.decision.len();
    let others = [
        rules.source.len(),
        rules.source_length.len(),
        rules.destination.len(),
        rules.destination_length.len(),
        rules.source_low.len(),
        rules.source_high.len(),
        rules.destination_low.len(),
        rules.destination_high.len(),
        rules.protocol.len(),
    ];
    others.iter().all(|m| *m == n)
}

// 3 for more than 1,024 rules or entries.
#[tactic(auto, unfolding(rules::specs::Checks::size_check))]
pub(crate) fn size_verdict(n: usize) -> Result<(), Refusal>
    ensures { verdict_reply result ≡ size_check 1 n }
{
    if 1024 < n {
        return refused(Reason::Rules, 1, 0);
    }
    Ok(())
}

// What can be wrong with the slices and the rules: 2, then 3 for more than 1,024 rules, then rule by rule.
#[tactic(auto, unfolding(crate::specs::Calls::rules_check))]
pub(crate) fn rules_verdict(rules: FiveFieldRules<'_>) -> Result<(), Refusal>
    ensures { verdict_reply result ≡ rules_check (lent rules.entry) }
{
    if !alike(rules) {
        return refused(Reason::Slices, 0, 0);
    }
    size_verdict(rules.decision.len())?;
    each_verdict(rules)
}
