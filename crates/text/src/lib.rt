// Text for people: numbers read from words and written in decimal, and patterns written in 0, 1 and *.
#![tactic(auto)]

mod decimal;
mod digits;
mod numbers;
mod patterns;

pub use decimal::write_number;
pub use numbers::read_number;
pub use patterns::write_pattern;
