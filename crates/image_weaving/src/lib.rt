// The squeezing of the lists that an image carries, by weaving or by pruning, on any bytes.
#![tactic(auto)]

mod images;
mod lists;

pub use images::{prune_image, weave_image};
pub use lists::tally;

// What is done to each list of an image. It is a value and no closure: each promise names it (`ImageSqueezed`), and what a closure leaves in three
// slices has no such name, so each function would have to say it at length.
#[derive(Clone, Copy)]
enum Squeeze {
    Weave,
    Prune,
}
