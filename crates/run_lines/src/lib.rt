// The lines of a comparison of two images, on standard output: the width, a line to a run of differences, at most 1,000, and the
// ending. A refusal writes no line: the caller is told it and says it in its own way.
#![tactic(auto)]

mod lines;
mod showing;

use compare::Compared;
use rules::Refusal;
pub use showing::{show_files, show_first, show_lists};

// What comparing two files answers: how many bytes of each were read, and the comparison of these.
#[derive(Clone, Copy)]
pub struct FilesCompared {
    pub old: usize,
    pub new: usize,
    pub compared: Result<Compared, Refusal>,
}
