// The two sides of a comparison: what a miss counts as on a side that has a default or none, and which comparisons are refused. A
// default is the decision that a side takes on a header that none of its rules matches.
#![tactic(auto)]

mod checks;

pub use checks::{check_comparison, miss_number};
