// Five-field access rules (addresses, ports, protocol) as a list of ternary rules.
#![tactic(auto)]

mod checks;
mod counts;
mod entries;
mod expansions;

pub use counts::expansion_count;
pub use expansions::expand;

// A rule over five fields: a prefix of the source address and one of the destination address, each an address and how many of its first
// bits count; a range of source ports and one of destination ports; a protocol, or 256 for any; and the decision.
#[derive(Clone, Copy)]
pub struct FiveFieldRule {
    pub source: u32,
    pub source_length: u32,
    pub destination: u32,
    pub destination_length: u32,
    pub source_low: u32,
    pub source_high: u32,
    pub destination_low: u32,
    pub destination_high: u32,
    pub protocol: u32,
    pub decision: u16,
}

// A list of such rules: each slice has one field of every rule.
#[derive(Clone, Copy)]
pub struct FiveFieldRules<'a> {
    pub source: &'a [u32],
    pub source_length: &'a [u32],
    pub destination: &'a [u32],
    pub destination_length: &'a [u32],
    pub source_low: &'a [u32],
    pub source_high: &'a [u32],
    pub destination_low: &'a [u32],
    pub destination_high: &'a [u32],
    pub protocol: &'a [u32],
    pub decision: &'a [u16],
}
