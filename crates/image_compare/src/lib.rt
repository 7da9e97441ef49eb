// The comparison of lists that two images carry, on any bytes.
#![tactic(auto)]

mod lists;

pub use lists::{compare_first, compare_first_outcomes, compare_list_outcomes, compare_lists};
