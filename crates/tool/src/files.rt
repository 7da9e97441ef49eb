// Files: read whole into memory, and written whole or not at all.
ghost use Rattle.std.specs.Prelude.{◌≡◌, length};

use crate::{lines, places, slices};
use std::fs::OpenFile;
use std::io::{Print, Read, Write};
use std::rt::{Env, Files};

// Room for the largest image and one byte more, so that a larger file is seen to be too large and is not cut.
pub(crate) fn space() -> [u8; 65537]
    ensures { 65537 ≡ length result }
{
    [0; 65537]
}

// Closes an open file after one more read; whether that read failed. A directory can be opened, and only this tells it from an empty file.
fn fails(mut file: impl Read + Drop) -> bool {
    let mut one = [0u8; 1];
    file.read(&mut one).is_err()
}

// How many bytes a file had; none where it could not be read, and then a line has said so.
fn load(rt: &(impl Files + Print), path: &[u8], buffer: &mut [u8]) -> Option<usize> {
    let Some(mut file) = host::open(rt, path) else {
        lines::trouble(rt, b"cannot open ", path);
        return None;
    };
    let n = host::read_full(&mut file, buffer);
    if fails(file) {
        lines::trouble(rt, b"cannot read ", path);
        None
    } else {
        Some(n)
    }
}

// Reads the file that word i after place `at` names into the start of the buffer.
pub(crate) fn load_word(
    rt: &(impl Env + Files + Print),
    at: usize,
    i: usize,
    buffer: &mut [u8],
) -> Option<usize> {
    let mut path = [0u8; host::NAME_ROOM];
    let n = host::word(rt, places::place(at, i), &mut path);
    load(rt, &path[..n], buffer)
}

// Writes the bytes to an open file, waits until they have reached its device, and closes it; whether they have.
fn filled(mut file: impl Write + OpenFile + Drop, bytes: &[u8]) -> bool {
    file.write_all(bytes).is_ok() && file.sync_all().is_ok()
}

// Says that a file cannot be written, and answers that it was not.
fn unwritten(rt: &impl Print, name: &[u8]) -> bool {
    lines::trouble(rt, b"cannot write ", name);
    false
}

// Writes the bytes to the new file `part` and, once it is complete, renames it to what the first n bytes of that name are. Where that
// cannot be done, `part` is removed, a line says so, and the file that it was to become is as it was.
fn save(rt: &(impl Files + Print), part: &[u8], n: usize, bytes: &[u8]) -> bool {
    let out = slices::first(part, n);
    let Some(file) = host::create(rt, part) else {
        return unwritten(rt, part);
    };
    if filled(file, bytes) {
        if host::rename(rt, part, out) {
            return true;
        }
    }
    host::remove(rt, part);
    unwritten(rt, out)
}

// Puts ".part" after the first n bytes of a name, and answers its length; none where the name is empty or there is no room for it.
fn add_part(name: &mut [u8], n: usize) -> Option<usize> {
    if 0 < n {
        if n <= 4000 {
            if n + 5 <= name.len() {
                name[n..n + 5].copy_from_slice(b".part");
                return Some(n + 5);
            }
        }
    }
    None
}

// Writes the bytes as the file that word i after place `at` names, whole or not at all; whether that was done. A name that is empty or too
// long to have another beside it is no name to write to.
pub(crate) fn save_word(
    rt: &(impl Env + Files + Print),
    at: usize,
    i: usize,
    bytes: &[u8],
) -> bool {
    let mut name = [0u8; host::NAME_ROOM];
    let n = host::word(rt, places::place(at, i), &mut name);
    match add_part(&mut name, n) {
        Some(m) => save(rt, slices::first(&name, m), n, bytes),
        None => unwritten(rt, slices::first(&name, n)),
    }
}
