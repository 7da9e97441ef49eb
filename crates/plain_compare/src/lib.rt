// A plain second comparison of two lists of rules, for widths up to 12 (request 13): every header is looked up in both lists. It calls
// nothing of the comparison that it is held against, and shares only the form of the answer with it.
#![tactic(auto)]

mod answers;
mod listing;
mod walk;

pub use walk::compare_plain;
