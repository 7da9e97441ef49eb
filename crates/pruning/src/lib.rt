// Pruning a list of rules: every rule that does nothing is dropped, and beside each that is kept stands the lowest header that needs it.
#![tactic(auto)]

mod asking;
mod dropping;
mod showing;
mod whole;

pub use whole::prune;

// What pruning did: entries kept, and rules dropped.
#[derive(Clone, Copy)]
pub struct Tally {
    pub kept: usize,
    pub dropped: usize,
}
