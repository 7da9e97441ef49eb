// Two rules: covering, crossing and distance.
#![tactic(auto)]

mod pairs;
mod patterns;

pub use pairs::{covers, crosses, distance};
pub use patterns::{rule_covers, rule_crosses};
