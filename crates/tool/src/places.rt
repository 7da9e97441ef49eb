// Where the words of a command line stand.
use std::rt::Env;

// The place of word i after place `at` among the program's arguments; no argument has the place that stands for too many.
pub(crate) fn place(at: usize, i: usize) -> usize {
    if at <= 65535 {
        if i <= 8 {
            return at + i;
        }
    }
    usize::MAX
}

// The place of the last word but two of a command line with so many words, its name among them; that of the name where there are fewer.
pub(crate) fn last_but_two(at: usize, words: usize) -> usize {
    if words < 3 {
        return at;
    }
    place(at, words - 3)
}

// Whether the argument at a place is this word.
pub(crate) fn is_word(rt: &impl Env, place: usize, word: &[u8]) -> bool {
    let mut space = [0u8; host::NAME_ROOM];
    let n = host::word(rt, place, &mut space);
    check::same(&space[..n], word)
}
