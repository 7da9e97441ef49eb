// What the programs ask of the system that they run on: the words of their command line, the bytes of files, and lines on standard
// output.
//
// A word and the name of a file are bytes. The standard library takes names of files in UTF-8 alone: no file has another name here.
#![tactic(auto)]

ghost use Rattle.std.specs.Prelude.{IfSome, IsTrue, IsUtf8, ◌≤◌, length, take};
ghost use Rattle.std.specs.Io.KnownBytes.{Consumes};

use std::env::FillError;
use std::fs;
use std::fs::OpenOptions;
use std::io::{Print, Read};
use std::rt::{Env, Files};

// Room for any name of a file.
pub const NAME_ROOM: usize = 4096;

// Writes bytes to standard output. Nothing is said of a write that fails, and what follows it is written all the same.
pub fn say(rt: &impl Print, bytes: &[u8]) {
    let _ = rt.write_all(bytes);
}

// Writes a number in decimal, likewise.
pub fn say_number(rt: &impl Print, n: u64) {
    let _ = rt.print(n);
}

// How many words the command line has, the program's own name among them.
pub fn word_count(rt: &impl Env) -> usize {
    let mut none = [0u8; 0];
    for i in 0..usize::MAX {
        if let Err(FillError::NotPresent) = rt.arg(i, &mut none) {
            return i;
        }
    }
    usize::MAX
}

// Puts word i of the command line at the start of the slice, and answers its length: 0 where there is no such word, and where it is longer
// than the slice.
pub fn word(rt: &impl Env, i: usize, to: &mut [u8]) -> usize
    ensures { result ≤ length to.new }
{
    match rt.arg(i, to) {
        Ok(n) => n,
        Err(_) => 0,
    }
}

// Opens a file for reading: none has a name that is not text.
pub fn open<R: Files>(rt: &R, name: &[u8]) -> Option<R::File>
    ensures { IfSome result (λ f. IsUtf8 name.now) }
{
    let Ok(text) = str::from_utf8(name) else {
        return None;
    };
    fs::open(rt, text).ok()
}

// Makes a file that is not there yet, and opens it for writing; none with a name that is not text.
pub fn create<R: Files>(rt: &R, name: &[u8]) -> Option<R::File>
    ensures { IfSome result (λ f. IsUtf8 name.now) }
{
    let Ok(text) = str::from_utf8(name) else {
        return None;
    };
    OpenOptions::new()
        .write(true)
        .create_new(true)
        .open(rt, text)
        .ok()
}

// Gives a file another name, in the place of the file that has it, if there is one; whether that was done.
pub fn rename(rt: &impl Files, from: &[u8], to: &[u8]) -> bool
    ensures { IsTrue result → IsUtf8 from.now × IsUtf8 to.now }
{
    match (str::from_utf8(from), str::from_utf8(to)) {
        (Ok(old), Ok(new)) => fs::rename(rt, old, new).is_ok(),
        _ => false,
    }
}

// Removes a file, if it is there.
pub fn remove(rt: &impl Files, name: &[u8]) {
    if let Ok(text) = str::from_utf8(name) {
        let _ = fs::remove_file(rt, text);
    }
}

// Reads until the slice is full, the input ends or a read fails, and answers how many bytes stand at the start of the slice then: the
// next ones of the input.
pub fn read_full<R: Read>(file: &mut R, to: &mut [u8]) -> usize
    ensures within { result ≤ length to.new }
    ensures bytes { Consumes (R.remaining file.old) (R.remaining file.new) (take result to.new) }
{
    let mut done = 0;
    while done < to.len() {
        match file.read(&mut to[done..]) {
            Ok(n) if n > 0 => done += n,
            _ => break,
        }
    }
    done
}
