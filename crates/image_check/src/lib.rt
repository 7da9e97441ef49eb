// The checks of an image, on any bytes.
#![tactic(auto)]

mod checks;

pub use checks::check;
