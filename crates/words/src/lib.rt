// Words of 128 bits, held as two machine words. A contract says which number the result holds, over natural numbers.
#![tactic(auto)]

mod machine;
mod operators;
mod order;
mod slices;
mod steps;

pub use machine::capped;
pub use order::{below, is_zero, less};
pub use slices::{put_word, word_at};
pub use steps::{before, plus, pushed};

// The number low + high * 2^64.
#[derive(Clone, Copy)]
pub struct Word {
    pub low: u64,
    pub high: u64,
}
