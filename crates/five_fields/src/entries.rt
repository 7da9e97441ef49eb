// The entries of one rule, put into the result slices: every pair of port prefixes, source first and destination inside.
ghost use Rattle.std.specs.Prelude.{◌≡◌, true, ◌+◌, ◌*◌, ◌-◌, ◌^◌, ◌≤◌, length};
ghost use Rattle.rules.specs.Rule.{held};
ghost use Rattle.rules.specs.Slices.{Lent};
ghost use Rattle.ranges.specs.Prefixes.{care_word, value_word};
ghost use Rattle.five_fields.specs.FiveFieldRule.{rule_of};
ghost use Rattle.words.specs.Halves.{halves};
ghost use Rattle.five_numbers.specs.Numbers.{five_of};
ghost use Rattle.five_numbers.specs.Fields.{address_bits, protocol_bits, header_of, in_fields};
ghost use Rattle.five_fields.specs.FiveFieldRules.{any_protocol};
ghost use Rattle.five_fields.specs.Expansion.{protocol_prefix};
ghost use Rattle.five_fields.specs.Inner.{Bounded, entry_by, entries_inside, entries_by, Put};

use crate::FiveFieldRule;
use crate::checks::power;
use five_numbers::{Numbers, header};
use rules::{Rule, put_rule};
use words::Word;

// Five numbers of their fields as one word: they stand side by side as in a header.
#[tactic(auto, using(crate::proofs::EntryLaws::header_answered))]
fn joined(numbers: Numbers) -> Word
    requires { in_fields (five_of numbers) ≡ true }
    ensures { result ≡ halves (header_of (five_of numbers)) }
{
    header(numbers).unwrap().0
}

// The care word of an address of which so many first bits count.
fn address_care(length: u32) -> u32
    requires { length ≤ address_bits }
    ensures { result ≡ 2 ^ address_bits - 2 ^ (address_bits - length) }
{
    (4294967296 - power(32 - length)) as u32
}

// The care word of a protocol: none of its places for any, else all.
#[tactic(auto, unfolding(ranges::specs::Prefixes::care_word))]
fn protocol_care(protocol: u32) -> u32
    requires { protocol ≤ any_protocol }
    ensures { result ≡ care_word protocol_bits (protocol_prefix protocol) }
{
    if protocol < 256 {
        return 255;
    }
    0
}

// The value word of a protocol: 0 for any.
fn protocol_value(protocol: u32) -> u32
    requires { protocol ≤ any_protocol }
    ensures { result ≡ value_word (protocol_prefix protocol) }
{
    if protocol == 256 {
        return 0;
    }
    protocol
}

// The entry of a rule with the care and value words of a source prefix and of a destination prefix.
fn entry(
    rule: FiveFieldRule,
    source_care: u16,
    source_value: u16,
    destination_care: u16,
    destination_value: u16,
) -> Rule
    requires { Bounded (rule_of rule) }
    ensures { result ≡ held (entry_by (rule_of rule) source_care source_value destination_care destination_value) }
{
    let care = joined(Numbers {
        source: address_care(rule.source_length),
        destination: address_care(rule.destination_length),
        source_port: u32::from(source_care),
        destination_port: u32::from(destination_care),
        protocol: protocol_care(rule.protocol),
    });
    let value = joined(Numbers {
        source: rule.source,
        destination: rule.destination,
        source_port: u32::from(source_value),
        destination_port: u32::from(destination_value),
        protocol: protocol_value(rule.protocol),
    });
    Rule {
        care,
        value,
        decision: rule.decision,
    }
}

// Puts the entries with one source prefix from place `at` on, one for each destination prefix.
fn put_inside(
    rule: FiveFieldRule,
    source_care: u16,
    source_value: u16,
    cares: &[u16],
    values: &[u16],
    at: usize,
    care: &mut [u64],
    value: &mut [u64],
    decision: &mut [u16],
)
    requires { Bounded (rule_of rule) × (length cares.now ≡ length values.now)
        × (at + length cares.now ≤ length decision.old) × Lent care.old value.old decision.old }
    ensures { Put at (entries_inside (rule_of rule) source_care source_value cares.now values.now)
        care.old value.old decision.old
        care.new value.new decision.new }
{
    for j in 0..cares.len() {
        let e = entry(rule, source_care, source_value, cares[j], values[j]);
        put_rule(care, value, decision, at + j, e);
    }
}

// Puts the entries of a rule from place `at` on: for each source prefix those with each destination prefix.
pub(crate) fn put_pairs(
    rule: FiveFieldRule,
    source_cares: &[u16],
    source_values: &[u16],
    cares: &[u16],
    values: &[u16],
    at: usize,
    care: &mut [u64],
    value: &mut [u64],
    decision: &mut [u16],
)
    requires { Bounded (rule_of rule) × (length source_cares.now ≡ length source_values.now) × (length cares.now ≡ length values.now)
        × (at + length source_cares.now * length cares.now ≤ length decision.old) × Lent care.old value.old decision.old }
    ensures { Put at (entries_by (rule_of rule) source_cares.now source_values.now cares.now values.now)
        care.old value.old decision.old
        care.new value.new decision.new }
{
    for i in 0..source_cares.len() {
        put_inside(
            rule,
            source_cares[i],
            source_values[i],
            cares,
            values,
            at + i * cares.len(),
            care,
            value,
            decision,
        );
    }
}
