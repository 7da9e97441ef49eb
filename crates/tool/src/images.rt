// A command on image files: the first file is read whole, and then what was asked for is done with its bytes.
use crate::commands::Request;
use crate::{comparing, files, lists, questions, slices, squeezing};
use command_line::Command;
use std::io::Print;
use std::rt::{Env, Files};

// The image is the file that word 2 after place `at` names.
pub(crate) fn on_file(rt: &(impl Env + Files + Print), at: usize, request: Request) {
    let mut space = files::space();
    if let Some(n) = files::load_word(rt, at, 2, &mut space) {
        on_image(rt, at, slices::first(&space, n), request);
    }
}

fn on_image(rt: &(impl Env + Files + Print), at: usize, image: &[u8], request: Request) {
    match request.command {
        Command::Check | Command::Show => lists::tell(rt, image, request),
        Command::Lookup | Command::Runs => questions::ask_by_id(rt, image, request),
        Command::Weave | Command::Prune => squeezing::squeeze(rt, at, image, request),
        _ => comparing::on_new_file(rt, at, image, request),
    }
}
