// The walk over the headers from the start to the last of the width, one by one.
ghost use Rattle.std.specs.Prelude.{◌≡◌, ◌^◌, ◌≤◌, ◌<◌, length};
ghost use Rattle.words.specs.Halves.{num};
ghost use Rattle.rules.specs.Rules.{answer};
ghost use Rattle.rules.specs.Slices.{rules_in};
ghost use Rattle.rules.specs.Replies.{verdict_reply};
ghost use Rattle.rules.specs.Checks.{SoundIn};
ghost use Rattle.compare.specs.Sweep.{Room, RunsPut};
ghost use Rattle.plain_compare.specs.Calls.{widest_plain, plain_check_in, PlainComparisonIn};
ghost use Rattle.plain_compare.specs.Walk.{Passes};

use crate::answers::answer_at;
use crate::listing::note;
use compare::Compared;
use compare_check::check_comparison;
use rules::{Reason, Refusal, RuleList, Wire, refused};
use words::Word;

// The greatest width whose headers are walked.
const WIDEST: u32 = 12;

// Refusal 1 of a greater width, then what a comparison of two lists is refused for.
fn check_plain(
    width: u32,
    old: RuleList,
    new: RuleList,
    start: Wire,
    firsts: usize,
    lasts: usize,
    olds: usize,
    news: usize,
) -> Result<(), Refusal>
    ensures { verdict_reply result ≡ plain_check_in width old.entry new.entry (num start.0) firsts lasts olds news }
{
    if WIDEST < width {
        return refused(Reason::Width, 0, 0);
    }
    check_comparison(
        width, old, None, new, None, start, firsts, lasts, olds, news,
    )
}

// Passes the header h, when `count` runs of the headers before it are listed: it is listed where the two lists differ.
fn step(
    width: u32,
    old: RuleList,
    new: RuleList,
    h: u64,
    first: &mut [u64],
    last: &mut [u64],
    old_answer: &mut [u16],
    new_answer: &mut [u16],
    count: usize,
) -> Option<usize>
    requires { SoundIn width old × SoundIn width new × (h < 2 ^ width)
        × Room first.old last.old old_answer.old new_answer.old × (count ≤ length old_answer.old) }
    ensures { Passes (answer (rules_in old.entry)) (answer (rules_in new.entry)) h
        first.old last.old old_answer.old new_answer.old
        first.new last.new old_answer.new new_answer.new count result }
{
    let a = answer_at(width, old, h);
    let b = answer_at(width, new, h);
    if a == b {
        return Some(count);
    }
    note(h, a, b, first, last, old_answer, new_answer, count)
}

// Walks the headers from the start on, up to the last of the width or to the first run that has no place.
fn walk(
    width: u32,
    old: RuleList,
    new: RuleList,
    start: u64,
    first: &mut [u64],
    last: &mut [u64],
    old_answer: &mut [u16],
    new_answer: &mut [u16],
) -> Compared
    requires { SoundIn width old × SoundIn width new × (width ≤ widest_plain) × (start < 2 ^ width)
        × Room first.old last.old old_answer.old new_answer.old }
    ensures { RunsPut (answer (rules_in old.entry)) (answer (rules_in new.entry)) (2 ^ width) start
        first.old last.old old_answer.old new_answer.old
        first.new last.new old_answer.new new_answer.new result }
{
    let end = 1u64 << width;
    let mut count = 0;
    for h in start..end {
        let passed = step(
            width, old, new, h, first, last, old_answer, new_answer, count,
        );
        let Some(used) = passed else {
            return Compared {
                count,
                next: Some(Wire(Word::from(h))),
            };
        };
        count = used;
    }
    Compared { count, next: None }
}

// Compares two lists of a width up to 12 from a header on, by looking up every header in both: the arguments, the answer and what is left
// in the result slices are those of `compare`. A wider list is refused.
pub fn compare_plain(
    width: u32,
    old: RuleList,
    new: RuleList,
    start: Wire,
    first: &mut [u64],
    last: &mut [u64],
    old_answer: &mut [u16],
    new_answer: &mut [u16],
) -> Result<Compared, Refusal>
    ensures { PlainComparisonIn width old.entry new.entry (num start.0)
        first.old last.old old_answer.old new_answer.old
        first.new last.new old_answer.new new_answer.new result }
{
    check_plain(
        width,
        old,
        new,
        start,
        first.len(),
        last.len(),
        old_answer.len(),
        new_answer.len(),
    )?;
    Ok(walk(
        width,
        old,
        new,
        start.0.low,
        first,
        last,
        old_answer,
        new_answer,
    ))
}
