// Comparing two images: the lines are those of `run_lines`, and a refusal is said here.
use crate::commands::Request;
use crate::{files, lines, lists, slices};
use command_line::Command;
use compare::Compared;
use rules::Refusal;
use std::io::Print;
use std::rt::{Env, Files};

// The new image is the file that word 3 after place `at` names.
pub(crate) fn on_new_file(
    rt: &(impl Env + Files + Print),
    at: usize,
    old: &[u8],
    request: Request,
) {
    let mut space = files::space();
    if let Some(n) = files::load_word(rt, at, 3, &mut space) {
        compare(rt, old, slices::first(&space, n), request);
    }
}

// The lists with the id that was named, or the first lists where none was.
fn compare(rt: &impl Print, old: &[u8], new: &[u8], request: Request) {
    let a = request.old_default;
    let b = request.new_default;
    if let Command::Compare = request.command {
        refused(
            rt,
            run_lines::show_first(rt, old, a, new, b, request.header),
        );
    } else if lists::has(rt, old, request.id, b" in the old image\n") {
        if lists::has(rt, new, request.id, b" in the new image\n") {
            let id = lists::short(request.id);
            refused(
                rt,
                run_lines::show_lists(rt, old, id, a, new, id, b, request.header),
            );
        }
    }
}

// Says why there are no lines, where there are none.
fn refused(rt: &impl Print, c: Result<Compared, Refusal>) {
    if let Err(x) = c {
        lines::refusal(rt, x);
    }
}
