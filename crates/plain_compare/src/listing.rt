// A header on which the two lists differ goes into the result slices: it lengthens the last run, or it is a run of its own, or all places
// are used.
ghost use Rattle.std.specs.Prelude.{◌≡◌, ℕ, ◌≤◌, length};
ghost use Rattle.compare.specs.Sweep.{Room, Joins};
ghost use Rattle.plain_compare.specs.Walk.{Tells, Passes};

use words::{Word, put_word, word_at};

// Whether the last of `count` runs ends right before h with the answers a and b.
fn joins(
    last: &[u64],
    old_answer: &[u16],
    new_answer: &[u16],
    count: usize,
    h: u64,
    a: u16,
    b: u16,
) -> bool
    requires { (count ≤ length old_answer.now) × (count ≤ length new_answer.now) }
    ensures { Tells result (Joins last.now old_answer.now new_answer.now count h a b) }
{
    count > 0
        && h > 0
        && word_at(last, count - 1) == Word::from(h - 1)
        && old_answer[count - 1] == a
        && new_answer[count - 1] == b
}

// Lists the header h with the answers a and b, behind `count` runs of the headers before it. So many places are used then; none is told where
// the header needs one and all are used.
pub(crate) fn note(
    h: u64,
    a: u16,
    b: u16,
    first: &mut [u64],
    last: &mut [u64],
    old_answer: &mut [u16],
    new_answer: &mut [u16],
    count: usize,
) -> Option<usize>
    requires { (a ≡ b → ⊥) × Room first.old last.old old_answer.old new_answer.old × (count ≤ length old_answer.old) }
    ensures { (f g : ℕ → ℕ) → f h ≡ a → g h ≡ b → Passes f g h
        first.old last.old old_answer.old new_answer.old
        first.new last.new old_answer.new new_answer.new count result }
{
    let header = Word::from(h);
    if joins(last, old_answer, new_answer, count, h, a, b) {
        put_word(last, count - 1, header);
        return Some(count);
    }
    if count == old_answer.len() {
        return None;
    }
    put_word(first, count, header);
    put_word(last, count, header);
    old_answer[count] = a;
    new_answer[count] = b;
    Some(count + 1)
}
