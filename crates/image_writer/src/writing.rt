// Writing an image of lists: every check comes before the first byte.
ghost use Rattle.std.specs.Prelude.{◌≡◌, ◌+◌, ◌*◌, ◌≤◌, eqb, leb, length};
ghost use Rattle.rules.specs.Replies.{verdict_reply, need, passed, ◌then◌};
ghost use Rattle.rules.specs.Checks.{widest, room_check};
ghost use Rattle.rules.specs.Slices.{LentIn};
ghost use Rattle.image_check.specs.Checks.{lists_check};
ghost use Rattle.image_writer.specs.Writing.{sum_of, given_in, names_check, given_check_in, shape_check_in, write_check_in, WrittenIn};

use crate::puts::{put_contents, put_head, put_rules};
use image_form::layout;
use rules::{Reason, Refusal, RuleList, check_list_as, check_room, refused};

// Whether counts add up to a number of rules. What is left of it is counted down, so that no sum can wrap, and the first count that is
// more than that ends it.
fn adds_up(counts: &[u16], rules: usize) -> bool
    ensures { result ≡ eqb (sum_of counts.now) rules }
{
    let mut left = rules;
    for n in counts {
        let count = usize::from(*n);
        if count > left {
            return false;
        }
        left -= count;
    }
    left == 0
}

// Refusal 2: the lengths of the slices, and the counts.
#[tactic(auto, using(std::proofs::lemmas::Bool::Decides::nat_tests), unfolding(crate::specs::Writing::given_check, rules::specs::Checks::lengths_check))]
fn given_verdict(ids: &[u16], counts: &[u16], rules: RuleList) -> Result<(), Refusal>
    ensures { verdict_reply result ≡ given_check_in ids.now counts.now rules.entry }
{
    if ids.len() != counts.len()
        || rules.care.len() != rules.value.len()
        || rules.care.len() != rules.decision.len() * 2
        || !adds_up(counts, rules.decision.len())
    {
        return refused(Reason::Slices, 0, 0);
    }
    Ok(())
}

// Refusals 11, 1, 2 and 12.
#[tactic(auto, using(std::proofs::lemmas::Bool::Decides::nat_tests, rules::proofs::ReplyLaws::passing), unfolding(crate::specs::Writing::shape_check, image_form::specs::Formats::format_check, image_form::specs::Formats::range_check))]
fn shape_verdict(
    format: u8,
    width: u32,
    ids: &[u16],
    counts: &[u16],
    rules: RuleList,
) -> Result<(), Refusal>
    ensures { verdict_reply result ≡ shape_check_in format width ids.now counts.now rules.entry }
{
    let layout = layout(format);
    if !layout.known {
        return refused(Reason::Format, 0, 0);
    }
    if width < 1 || width > layout.places {
        return refused(Reason::Width, 0, 0);
    }
    given_verdict(ids, counts, rules)?;
    if ids.is_empty() || ids.len() > 16 {
        return refused(Reason::Lists, 0, 0);
    }
    Ok(())
}

// Refusals 13, 24 and 3, list by list.
fn names_verdict(ids: &[u16], counts: &[u16]) -> Result<(), Refusal>
    requires { length counts.now ≡ length ids.now }
    ensures { verdict_reply result ≡ names_check 1 0 ids.now counts.now }
{
    let mut least = 0;
    for i in 0..ids.len() {
        let id = usize::from(ids[i]);
        if id < least {
            return refused(Reason::Ids, i + 1, 0);
        }
        let count = counts[i];
        if count < 1 {
            return refused(Reason::EmptyList, i + 1, 0);
        }
        if count > 1024 {
            return refused(Reason::Rules, i + 1, 0);
        }
        least = id + 1;
    }
    Ok(())
}

// The rules of each list, as the rule library checks a list.
fn lists_verdict(width: u32, ids: &[u16], counts: &[u16], rules: RuleList) -> Result<(), Refusal>
    requires { (1 ≤ width) × (width ≤ widest) × (length counts.now ≡ length ids.now)
        × (sum_of counts.now ≡ length rules.decision.now) × LentIn rules
        × (names_check 1 0 ids.now counts.now ≡ passed) }
    ensures { verdict_reply result ≡ lists_check width 1 (given_in ids.now counts.now rules.entry) }
{
    let mut from = 0;
    for i in 0..ids.len() {
        let end = from + usize::from(counts[i]);
        let list = RuleList {
            care: &rules.care[from * 2..end * 2],
            value: &rules.value[from * 2..end * 2],
            decision: &rules.decision[from..end],
        };
        check_list_as(i + 1, width, list)?;
        from = end;
    }
    Ok(())
}

// Refusal 10 of an image of `size` bytes, then 7, with `room` bytes lent.
#[tactic(auto, using(std::proofs::lemmas::Bool::Decides::nat_tests))]
fn size_verdict(size: usize, room: usize) -> Result<(), Refusal>
    ensures { verdict_reply result ≡ (need (leb size 65536) 10 0 0 then room_check size room) }
{
    if size > 65536 {
        return refused(Reason::Size, 0, 0);
    }
    check_room(size, room)
}

// All checks of the writer, with `room` bytes lent.
#[tactic(auto, using(rules::proofs::ReplyLaws::passing), unfolding(crate::specs::Writing::write_check))]
fn write_verdict(
    format: u8,
    width: u32,
    ids: &[u16],
    counts: &[u16],
    rules: RuleList,
    room: usize,
) -> Result<(), Refusal>
    ensures { verdict_reply result ≡ write_check_in format width ids.now counts.now rules.entry room }
{
    shape_verdict(format, width, ids, counts, rules)?;
    names_verdict(ids, counts)?;
    lists_verdict(width, ids, counts, rules)?;
    let size = 4 + 8 * ids.len() + layout(format).rule * rules.decision.len();
    size_verdict(size, room)
}

// Writes the image of lists in a format: `counts` says how many of the rules belong to each id, in order. The answer is the
// image's length, and only its bytes change. Checks 11 of the format, 1, 2, 12, per list 13, 24 and 3, the rules, 10, 7.
pub fn write(
    format: u8,
    width: u32,
    ids: &[u16],
    counts: &[u16],
    rules: RuleList,
    out: &mut [u8],
) -> Result<usize, Refusal>
    ensures { WrittenIn format width ids.now counts.now rules.entry out.old result out.new }
{
    write_verdict(format, width, ids, counts, rules, out.len())?;
    let lists = ids.len();
    let from = 4 + 8 * lists;
    put_head(out, format, width, lists);
    put_contents(out, format, ids, counts);
    put_rules(out, format, from, rules);
    Ok(from + layout(format).rule * rules.decision.len())
}
