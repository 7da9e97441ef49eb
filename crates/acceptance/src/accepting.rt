// A candidate list is held to its source: the checks of both lists, their lengths, then every header, by the comparison.
ghost use Rattle.std.specs.Prelude.{◌≡◌};
ghost use Rattle.rules.specs.Rules.{answer};
ghost use Rattle.rules.specs.Slices.{rules_in};
ghost use Rattle.rules.specs.Replies.{verdict_reply};
ghost use Rattle.rules.specs.Checks.{SoundIn};
ghost use Rattle.acceptance.specs.Accepting.{candidate_check_in, AcceptDoneIn};
ghost use Rattle.acceptance.specs.Inner.{Judged};

use crate::Rejection;
use compare::compare;
use rules::{Reason, Refusal, RuleList, Wire, check_list_as, refused};
use words::{Word, word_at};

// What is tested before any header is looked at: 1 to 5 of the source and then of the candidate, which is list 2, and 27.
#[tactic(auto, using(rules::proofs::ReplyLaws::passing, std::proofs::lemmas::Bool::Decides::nat_tests), unfolding(crate::specs::Accepting::candidate_check, crate::specs::Accepting::longer_check))]
fn check_candidate(width: u32, source: RuleList, candidate: RuleList) -> Result<(), Refusal>
    ensures { verdict_reply result ≡ candidate_check_in width source.entry candidate.entry }
{
    check_list_as(1, width, source)?;
    check_list_as(2, width, candidate)?;
    if candidate.decision.len() > source.decision.len() {
        return refused(Reason::Longer, 0, 0);
    }
    Ok(())
}

// Compares two lists that have passed their checks, so that the comparison is not refused. One result place is enough: the first run of
// differences starts at the lowest header on which they answer differently.
fn judged(width: u32, source: RuleList, candidate: RuleList) -> Result<(), Rejection>
    requires { SoundIn width source × SoundIn width candidate }
    ensures { Judged width (answer (rules_in source.entry)) (answer (rules_in candidate.entry)) result }
{
    let mut first = [0; 2];
    let mut last = [0; 2];
    let mut old = [0; 1];
    let mut new = [0; 1];
    let compared = compare(
        width,
        source,
        candidate,
        Wire(Word::from(0)),
        &mut first,
        &mut last,
        &mut old,
        &mut new,
    )
    .unwrap();
    if compared.count == 0 {
        return Ok(());
    }
    Err(Rejection::Differs {
        header: Wire(word_at(&first, 0)),
        source: old[0],
        candidate: new[0],
    })
}

// Accepts a candidate list for a source list, whoever made it: both are valid lists of the width, the candidate has no more rules, and
// every header gets the same answer from both. Refusals: 1; 2 to 5 of the source, then of the candidate, which is list 2; 27 where the
// candidate has more rules than the source; 28 where an answer differs, with the lowest such header and both answers.
pub fn accept(width: u32, source: RuleList, candidate: RuleList) -> Result<(), Rejection>
    ensures { AcceptDoneIn width source.entry candidate.entry result }
{
    check_candidate(width, source, candidate)?;
    judged(width, source, candidate)
}
