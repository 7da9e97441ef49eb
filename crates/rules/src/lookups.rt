// Looking a header up: the first match decides.
ghost use Rattle.std.specs.Prelude.{◌≡◌};
ghost use Rattle.words.specs.Halves.{num};
ghost use Rattle.rules.specs.Rule.{rule_of};
ghost use Rattle.rules.specs.Rules.{matches};
ghost use Rattle.rules.specs.Slices.{rules_in, LentIn};
ghost use Rattle.rules.specs.Replies.{looked_reply};
ghost use Rattle.rules.specs.Calls.{looked_in};
ghost use Rattle.rules.specs.Found.{FirstAt};

use crate::checks::{check_header, check_list};
use crate::slices::rule_at;
use crate::{Hit, Refusal, Rule, RuleList, Wire};
use words::Word;

// Whether the header has the rule's value where the rule cares.
fn rule_matches(rule: Rule, header: Word) -> bool
    ensures { result ≡ matches (rule_of rule) (num header) }
{
    header & rule.care == rule.value
}

// Where the first matching rule stands, counted from 0.
pub(crate) fn first_match(rules: RuleList, header: Word) -> Option<usize>
    requires { LentIn rules }
    ensures { FirstAt (rules_in rules.entry) (num header) result }
{
    for i in 0..rules.decision.len() {
        if rule_matches(rule_at(rules, i), header) {
            return Some(i);
        }
    }
    None
}

// Looks a header up that is given as its number, for the calls on headers of either order: the checks of the list, then 6;
// else the number of the first matching rule, from 1, and its decision.
pub fn lookup_number(width: u32, rules: RuleList, header: Word) -> Result<Option<Hit>, Refusal>
    ensures { looked_reply result
        ≡ looked_in width rules.entry (num header) }
{
    check_list(width, rules)?;
    check_header(width, header)?;
    let Some(i) = first_match(rules, header) else {
        return Ok(None);
    };
    let number = i + 1;
    let rule = rule_at(rules, i);
    Ok(Some(Hit {
        number,
        decision: rule.decision,
    }))
}

// Looks a header in wire order up.
pub fn lookup(width: u32, rules: RuleList, header: Wire) -> Result<Option<Hit>, Refusal>
    ensures { looked_reply result
        ≡ looked_in width rules.entry (num header.0) }
{
    lookup_number(width, rules, header.0)
}
