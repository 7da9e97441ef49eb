// Taking a rule out of the rules that three lent slices hold.
#![tactic(auto)]

mod removing;

pub use removing::remove_rule;
