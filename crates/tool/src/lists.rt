// What is in an image: its format, its width and its lists.
use crate::commands::Request;
use crate::{lines, questions, squeezing};
use command_line::Command;
use image::Listed;
use rules::{Reason, Refusal};
use std::io::Print;
use words::Word;

// An id as lists have it, of a list that is there.
pub(crate) fn short(id: Word) -> u16 {
    (id.low % 65536) as u16
}

// Why an image has no list with that id. An id above 65,535 is that of no list: the image's own refusals, then 15.
fn sought(image: &[u8], id: Word) -> Result<(), Refusal> {
    match u16::try_from(words::capped(id)) {
        Ok(id) => image::body_refusal(image, id),
        Err(_) => {
            image::check(image)?;
            rules::refused(Reason::NoSuchList, 0, 0)
        }
    }
}

// Whether an image has a list with that id; where it has none, a line says why, with its own end where that is 15.
pub(crate) fn has(rt: &impl Print, image: &[u8], id: Word, end: &[u8]) -> bool {
    if let Err(x) = sought(image, id) {
        lines::refusal_of(rt, x, id, end);
        return false;
    }
    true
}

// check FILE and show FILE
pub(crate) fn tell(rt: &impl Print, image: &[u8], request: Request) {
    if let Err(x) = image::check(image) {
        lines::refusal(rt, x);
        return;
    }
    if let Command::Check = request.command {
        lines::named(rt, b"accepted\nformat ", image_form::byte_at(image, 0));
        lines::named(rt, b"width ", image_form::byte_at(image, 1));
    }
    each(rt, image, request);
}

// Says of one list after the other what the command asks for. An image has at most 16.
pub(crate) fn each(rt: &impl Print, image: &[u8], request: Request) {
    for k in 1..17 {
        say_entry(rt, image, k, request);
    }
}

// How many rules a list has, what weaving or pruning makes of it, or its rules.
fn say_entry(rt: &impl Print, image: &[u8], k: usize, request: Request) {
    if let Ok(Listed { id, rules }) = image::entry(image, k) {
        lines::list(rt, id);
        match request.command {
            Command::Check => lines::named(rt, b" rules ", rules),
            Command::Weave => squeezing::report(rt, image, id, rules),
            Command::Prune => {
                squeezing::begin(rt, rules);
                questions::ask(rt, image, id, request);
            }
            _ => {
                lines::byte(rt, b'\n');
                questions::ask(rt, image, id, request);
            }
        }
    }
}
