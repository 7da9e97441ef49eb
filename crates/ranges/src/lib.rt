// Ranges of numbers of a field, such as ports, as the fewest prefixes that cover them.
#![tactic(auto)]

mod ranges;

pub use ranges::{range_prefix_count, range_prefixes};
