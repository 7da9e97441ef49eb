// The writer of images that carry rule lists.
#![tactic(auto)]

mod puts;
mod writing;

pub use writing::write;
