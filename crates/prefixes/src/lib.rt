// The prefix bit-swap of a list.
#![tactic(auto)]

mod prefixes;

pub use prefixes::prefix_swap;
