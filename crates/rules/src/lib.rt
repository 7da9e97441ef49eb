// The rule library: rules, lists of rules, refusals and answers; checking and looking up.
#![tactic(auto)]

ghost use Rattle.std.specs.Prelude.{◌≡◌};
ghost use Rattle.rules.specs.Replies.{number_of};

mod checks;
mod lookups;
mod numbers;
mod slices;

pub use checks::{
    check_header, check_list, check_list_as, check_results, check_room, check_rule, check_width,
    refused,
};
pub use lookups::{lookup, lookup_number};
pub use numbers::OtherNumber;
pub use slices::{put_rule, rule_at};
use words::Word;

// A ternary pattern with a decision. A care bit of 1 means that the place is 0 or 1 as the value bit says; a care bit of
// 0 is a star, and the value bit there is 0.
#[derive(Clone, Copy)]
pub struct Rule {
    pub care: Word,
    pub value: Word,
    pub decision: u16,
}

// The rule of zeros: what a cleared place holds.
pub const BLANK: Rule = Rule {
    care: Word { low: 0, high: 0 },
    value: Word { low: 0, high: 0 },
    decision: 0,
};

// A list of rules, as it is lent: three slices that belong together. A care or a value word is two numbers of its slice, the low half first,
// and a rule has one decision. Where a list is written, its slices are lent one by one: a struct of them loses what a part of a slice holds.
#[derive(Clone, Copy)]
pub struct RuleList<'a> {
    pub care: &'a [u64],
    pub value: &'a [u64],
    pub decision: &'a [u16],
}

// A header in wire order.
#[derive(Clone, Copy)]
pub struct Wire(pub Word);

// What a check finds wrong. Each has the number by which it is known outside. A caller with refusals of its own has the numbers that are left.
#[derive(Clone, Copy, Debug, PartialEq, Eq)]
pub enum Reason {
    Width,
    Slices,
    Rules,
    Pattern,
    Decision,
    Header,
    Room,
    Crossing,
    Swap,
    Size,
    Format,
    Lists,
    Ids,
    Offset,
    NoSuchList,
    Widths,
    Range,
    Fields,
    EmptyList,
    Longer,
    Differs,
    Other(OtherNumber),
}

impl Reason {
    // Its number.
    pub fn number(self) -> usize
        ensures { result ≡ number_of self }
    {
        match self {
            Reason::Width => 1,
            Reason::Slices => 2,
            Reason::Rules => 3,
            Reason::Pattern => 4,
            Reason::Decision => 5,
            Reason::Header => 6,
            Reason::Room => 7,
            Reason::Crossing => 8,
            Reason::Swap => 9,
            Reason::Size => 10,
            Reason::Format => 11,
            Reason::Lists => 12,
            Reason::Ids => 13,
            Reason::Offset => 14,
            Reason::NoSuchList => 15,
            Reason::Widths => 16,
            Reason::Range => 20,
            Reason::Fields => 23,
            Reason::EmptyList => 24,
            Reason::Longer => 27,
            Reason::Differs => 28,
            Reason::Other(x) => x.number,
        }
    }
}

// The reason that has this number.
impl From<usize> for Reason {
    ghost from_gives = { λ n r. number_of r ≡ n };

    fn from(number: usize) -> Reason {
        match number {
            1 => Reason::Width,
            2 => Reason::Slices,
            3 => Reason::Rules,
            4 => Reason::Pattern,
            5 => Reason::Decision,
            6 => Reason::Header,
            7 => Reason::Room,
            8 => Reason::Crossing,
            9 => Reason::Swap,
            10 => Reason::Size,
            11 => Reason::Format,
            12 => Reason::Lists,
            13 => Reason::Ids,
            14 => Reason::Offset,
            15 => Reason::NoSuchList,
            16 => Reason::Widths,
            20 => Reason::Range,
            23 => Reason::Fields,
            24 => Reason::EmptyList,
            27 => Reason::Longer,
            28 => Reason::Differs,
            _ => Reason::Other(OtherNumber { number }),
        }
    }
}

// Why a call was refused, and the place: a list and a rule counted from 1, or 0 and 0.
#[derive(Clone, Copy, Debug, PartialEq, Eq)]
pub struct Refusal {
    pub reason: Reason,
    pub list: usize,
    pub rule: usize,
}

// The rule that a header hits: its number in its list, counted from 1, and its decision.
#[derive(Clone, Copy)]
pub struct Hit {
    pub number: usize,
    pub decision: u16,
}
