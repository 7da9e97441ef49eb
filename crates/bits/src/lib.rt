// The bits of a word: how many bits are set and where, and words of one bit or of the lowest.
#![tactic(auto)]

mod bits;
mod powers;
mod zeros;

pub use bits::{bit_at, is_single, ones, without};
pub use powers::{lowest, single, upper};
pub use zeros::leading_zeros;
