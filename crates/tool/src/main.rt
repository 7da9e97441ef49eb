// The tool for people who hold an image file in their hands: a thin command line over the libraries. What it writes goes to
// standard output, in plain words.
#![tactic(auto)]

mod commands;
mod comparing;
mod fields;
mod files;
mod images;
mod lines;
mod lists;
mod numbers;
mod places;
mod questions;
mod slices;
mod squeezing;
mod trial;

fn main(rt: HostRuntime) {
    if places::is_word(&rt, 1, b"trial") {
        trial::all(&rt);
    } else {
        commands::run(&rt, 0, host::word_count(&rt));
    }
}
