// The checks of a comparison in their order, and the number that a miss counts as.
ghost use Rattle.std.specs.Prelude.{◌≡◌};
ghost use Rattle.words.specs.Halves.{num};
ghost use Rattle.rules.specs.Replies.{verdict_reply, ◌then◌};
ghost use Rattle.rules.specs.Calls.{check_in};
ghost use Rattle.compare_check.specs.Outcomes.{miss_number};
ghost use Rattle.compare_check.specs.Checks.{default_check, portion_check, outcomes_in};

use rules::{Reason, Refusal, RuleList, Wire, check_header, check_list_as, refused};
use words::Word;

// The number that a miss counts as: the default, or 65535 for no match where there is none.
pub fn miss_number(default: Option<u16>) -> u16
    ensures { result ≡ miss_number default }
{
    default.unwrap_or(65535)
}

// Refusals 1 to 5 of the two lists, all of the old one's before the new one's.
#[tactic(auto, using(rules::proofs::ReplyLaws::passing))]
fn check_lists(width: u32, old: RuleList, new: RuleList) -> Result<(), Refusal>
    ensures { verdict_reply result ≡ (check_in width 1 old.entry then check_in width 2 new.entry) }
{
    check_list_as(1, width, old)?;
    check_list_as(2, width, new)
}

// Refusal 5 of the default of a side, which is 1 for the old one and 2 for the new one.
fn check_default(side: usize, default: Option<u16>) -> Result<(), Refusal>
    ensures { verdict_reply result ≡ default_check side default }
{
    if let Some(d) = default
        && d == 65535
    {
        return refused(Reason::Decision, side, 0);
    }
    Ok(())
}

// Refusal 5 of the two defaults, the old one's before the new one's.
#[tactic(auto, using(rules::proofs::ReplyLaws::passing))]
fn check_defaults(old: Option<u16>, new: Option<u16>) -> Result<(), Refusal>
    ensures { verdict_reply result ≡ (default_check 1 old then default_check 2 new) }
{
    check_default(1, old)?;
    check_default(2, new)
}

// What is checked last: 6 of the start, 2 of the four result slices' lengths, 7.
fn check_portion(
    width: u32,
    start: Word,
    firsts: usize,
    lasts: usize,
    olds: usize,
    news: usize,
) -> Result<(), Refusal>
    ensures { verdict_reply result ≡ portion_check width (num start) firsts lasts olds news }
{
    check_header(width, start)?;
    if firsts != lasts || firsts % 2 != 0 || firsts / 2 != olds || firsts / 2 != news {
        return refused(Reason::Slices, 0, 0);
    }
    if olds == 0 {
        return refused(Reason::Room, 0, 0);
    }
    Ok(())
}

// Checks a comparison of two lists, each with its default, from a header on, by the lengths of its four result slices: 1, 2 to 5 of the
// old list and then of the new one, 5 of the old default and then of the new one, 6 of the start, 2 of the results, 7.
#[tactic(auto, using(rules::proofs::ReplyLaws::passing, crate::proofs::OrderLaws::in_parts))]
pub fn check_comparison(
    width: u32,
    old: RuleList,
    old_default: Option<u16>,
    new: RuleList,
    new_default: Option<u16>,
    start: Wire,
    firsts: usize,
    lasts: usize,
    olds: usize,
    news: usize,
) -> Result<(), Refusal>
    ensures { verdict_reply result
        ≡ outcomes_in width old.entry old_default new.entry new_default (num start.0) firsts lasts olds news }
{
    check_lists(width, old, new)?;
    check_defaults(old_default, new_default)?;
    check_portion(width, start.0, firsts, lasts, olds, news)
}
