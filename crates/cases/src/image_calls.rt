// The calls on images: the crates `image`, `image_writer` and `image_weaving`.
use crate::given::{read_bytes, read_list, read_shorts};
use crate::show;
use crate::show::Answer;
use crate::source::{Source, Unread};
use image::Listed;
use rules::Refusal;
use std::alloc::AllocError;

impl Answer for Listed {
    fn put(self, out: &mut String) -> Result<(), AllocError> {
        write!(out, "id {} rules {}", self.id, self.rules)
    }
}

// The one argument of a call: `image`.
fn only_image(case: &mut Source) -> Result<Vec<u8>, Unread> {
    let image = read_bytes(case, b"image")?;
    case.end()?;
    Ok(image)
}

fn check(case: &mut Source, out: &mut String) -> Result<(), Unread> {
    image::check(&only_image(case)?).put(out)?;
    Ok(())
}

fn width(case: &mut Source, out: &mut String) -> Result<(), Unread> {
    image::width(&only_image(case)?).put(out)?;
    Ok(())
}

fn format(case: &mut Source, out: &mut String) -> Result<(), Unread> {
    image::format(&only_image(case)?).put(out)?;
    Ok(())
}

fn count(case: &mut Source, out: &mut String) -> Result<(), Unread> {
    image::count(&only_image(case)?).put(out)?;
    Ok(())
}

// `number`: which entry, counted from 1.
fn entry(case: &mut Source, out: &mut String) -> Result<(), Unread> {
    let image = read_bytes(case, b"image")?;
    let number = case.named(b"number")?;
    case.end()?;
    image::entry(&image, number).put(out)?;
    Ok(())
}

// `image`, and the `id` of a list.
fn image_and_id(case: &mut Source) -> Result<(Vec<u8>, u16), Unread> {
    let image = read_bytes(case, b"image")?;
    let id = case.named(b"id")?;
    Ok((image, id))
}

fn body(case: &mut Source, out: &mut String) -> Result<(), Unread> {
    let (image, id) = image_and_id(case)?;
    case.end()?;
    show::numbers(out, image::body(&image, id))?;
    Ok(())
}

fn body_refusal(case: &mut Source, out: &mut String) -> Result<(), Unread> {
    let (image, id) = image_and_id(case)?;
    case.end()?;
    image::body_refusal(&image, id).put(out)?;
    Ok(())
}

fn tally(case: &mut Source, out: &mut String) -> Result<(), Unread> {
    let (image, id) = image_and_id(case)?;
    case.end()?;
    image_weaving::tally(&image, id).put(out)?;
    Ok(())
}

// The width as an image says it, for patterns; 0 where it says none.
fn width_of(image: &[u8]) -> u32 {
    match image::width(image) {
        Ok(n) if n <= 128 => n as u32,
        _ => 0,
    }
}

// `into`: the list that takes the rules.
fn read(case: &mut Source, out: &mut String) -> Result<(), Unread> {
    let (image, id) = image_and_id(case)?;
    let mut into = read_list(case, b"into")?;
    case.end()?;
    let answer = image::read(
        &image,
        id,
        &mut into.care,
        &mut into.value,
        &mut into.decision,
    );
    answer.put(out)?;
    out.push_str(" into ")?;
    show::list(out, width_of(&image), into.rules())?;
    Ok(())
}

// `format`, `width`, `list`, `ids`, `counts` and `into`, the bytes that take the image.
fn write(case: &mut Source, out: &mut String) -> Result<(), Unread> {
    let format = case.named(b"format")?;
    let width = case.named(b"width")?;
    let l = read_list(case, b"list")?;
    let ids = read_shorts(case, b"ids")?;
    let counts = read_shorts(case, b"counts")?;
    let mut into = read_bytes(case, b"into")?;
    case.end()?;
    let answer = image_writer::write(format, width, &ids, &counts, l.rules(), &mut into);
    put_image(out, answer, &into)
}

// `into`: the bytes that take the image with every list woven, or pruned.
fn image_and_into(case: &mut Source) -> Result<(Vec<u8>, Vec<u8>), Unread> {
    let image = read_bytes(case, b"image")?;
    let into = read_bytes(case, b"into")?;
    case.end()?;
    Ok((image, into))
}

fn weave_image(case: &mut Source, out: &mut String) -> Result<(), Unread> {
    let (image, mut into) = image_and_into(case)?;
    let answer = image_weaving::weave_image(&image, &mut into);
    put_image(out, answer, &into)
}

fn prune_image(case: &mut Source, out: &mut String) -> Result<(), Unread> {
    let (image, mut into) = image_and_into(case)?;
    let answer = image_weaving::prune_image(&image, &mut into);
    put_image(out, answer, &into)
}

// The answer of a call that makes an image, and the bytes that were lent for it.
fn put_image(out: &mut String, answer: Result<usize, Refusal>, bytes: &[u8]) -> Result<(), Unread> {
    answer.put(out)?;
    out.push_str(" into ")?;
    show::numbers(out, bytes)?;
    Ok(())
}

// Makes the call with this name, where it is one of these.
pub fn make(name: &[u8], case: &mut Source, out: &mut String) -> Option<Result<(), Unread>> {
    Some(match name {
        b"check" => check(case, out),
        b"format" => format(case, out),
        b"width" => width(case, out),
        b"count" => count(case, out),
        b"entry" => entry(case, out),
        b"body" => body(case, out),
        b"body_refusal" => body_refusal(case, out),
        b"read" => read(case, out),
        b"weave_image" => weave_image(case, out),
        b"prune_image" => prune_image(case, out),
        b"tally" => tally(case, out),
        b"write" => write(case, out),
        _ => return None,
    })
}
