// Images that carry rule lists: asking and reading them, each on any bytes.
#![tactic(auto)]

mod places;
mod questions;
mod reading;

pub use image_check::check;
pub use questions::{body, body_refusal, count, entry, format, width};
pub use reading::read;

// A contents entry: the list's id and its number of rules.
#[derive(Clone, Copy, Debug, PartialEq, Eq)]
pub struct Listed {
    pub id: u16,
    pub rules: usize,
}
