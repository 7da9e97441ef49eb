// Answers, in the words of docs/CASES.md.
use crate::runs::Runs;
use compare::Compared;
use rules::{Hit, Refusal, Rule, RuleList, Wire};
use std::alloc::AllocError;
use std::fmt;
use std::fmt::Display;
use swaps::Swap;
use words::Word;

// The number that a word holds.
pub fn whole(x: Word) -> u128 {
    u128::from(x.high) << 64 | u128::from(x.low)
}

// What a call answers.
pub trait Answer {
    fn put(self, out: &mut String) -> Result<(), AllocError>;
}

impl Answer for Refusal {
    fn put(self, out: &mut String) -> Result<(), AllocError> {
        let number = self.reason.number();
        write!(out, "refused {number} at {} {}", self.list, self.rule)
    }
}

impl<T: Answer> Answer for Result<T, Refusal> {
    fn put(self, out: &mut String) -> Result<(), AllocError> {
        match self {
            Ok(x) => x.put(out),
            Err(x) => x.put(out),
        }
    }
}

impl Answer for () {
    fn put(self, out: &mut String) -> Result<(), AllocError> {
        out.push_str("fine")
    }
}

impl Answer for bool {
    fn put(self, out: &mut String) -> Result<(), AllocError> {
        out.push_str(if self { "yes" } else { "no" })
    }
}

impl Answer for u32 {
    fn put(self, out: &mut String) -> Result<(), AllocError> {
        write!(out, "{self}")
    }
}

impl Answer for usize {
    fn put(self, out: &mut String) -> Result<(), AllocError> {
        write!(out, "{self}")
    }
}

impl Answer for Wire {
    fn put(self, out: &mut String) -> Result<(), AllocError> {
        write!(out, "{}", whole(self.0))
    }
}

// The decision of the rule that is hit, and the rule's number.
impl Answer for Option<Hit> {
    fn put(self, out: &mut String) -> Result<(), AllocError> {
        match self {
            Some(x) => write!(out, "{} rule {}", x.decision, x.number),
            None => out.push_str("none"),
        }
    }
}

// The header that a rule is needed at.
impl Answer for Option<Wire> {
    fn put(self, out: &mut String) -> Result<(), AllocError> {
        match self {
            Some(h) => write!(out, "at {}", whole(h.0)),
            None => out.push_str("nowhere"),
        }
    }
}

impl Answer for Compared {
    fn put(self, out: &mut String) -> Result<(), AllocError> {
        match self.next {
            Some(h) => write!(out, "{} more from {}", self.count, whole(h.0)),
            None => write!(out, "{} finished", self.count),
        }
    }
}

// A rule as it is shown: one that fits the width as its pattern, another by its two words, and its decision.
#[derive(Clone, Copy, PartialEq)]
pub struct Shown {
    width: u32,
    care: Word,
    value: Word,
    decision: u16,
}

impl Shown {
    pub fn new(width: u32, r: Rule) -> Shown {
        Shown {
            width,
            care: r.care,
            value: r.value,
            decision: r.decision,
        }
    }
}

impl fmt::Display for Shown {
    fn fmt<W: fmt::Write>(&self, f: &mut fmt::Formatter<W>) -> fmt::Result {
        let undecided = Rule {
            care: self.care,
            value: self.value,
            decision: 0,
        };
        let mut places = [0u8; 128];
        let pattern = match rules::check_rule(self.width, 1, 1, undecided) {
            Ok(()) => text::write_pattern(self.width, undecided, &mut places),
            Err(_) => None,
        };
        match pattern {
            Some(n) => {
                for place in places.iter().take(n) {
                    f.write_char(char::from(*place))?;
                }
            }
            None => write!(f, "{}/{}", whole(self.care), whole(self.value))?,
        }
        write!(f, " {}", self.decision)
    }
}

impl Answer for Shown {
    fn put(self, out: &mut String) -> Result<(), AllocError> {
        write!(out, "{self}")
    }
}

// The items of a slice: 16 or more that are the same are shown as one.
fn items<T: PartialEq + Display>(
    out: &mut String,
    all: &[T],
    separator: &str,
) -> Result<(), AllocError> {
    let mut goes_on = false;
    for alike in all.chunk_by(|x, y| x == y) {
        let count = alike.len();
        let shown = if count < 16 { count } else { 1 };
        for x in alike.iter().take(shown) {
            if goes_on {
                out.push_str(separator)?;
            }
            if shown < count {
                write!(out, "{count} times ")?;
            }
            write!(out, "{x}")?;
            goes_on = true;
        }
    }
    Ok(())
}

// The words of a slice, and a number that is left over after them.
pub fn slice(out: &mut String, s: &[u64]) -> Result<(), AllocError> {
    let words = (0..s.len() / 2).map(|i| whole(words::word_at(s, i)));
    let words: Vec<u128> = words.collect(*out.allocator())?;
    out.push_str("[")?;
    items(out, words.as_slice(), " ")?;
    if s.len() % 2 == 1 {
        if s.len() > 1 {
            out.push_str(" ")?;
        }
        write!(out, "half {}", s[s.len() - 1])?;
    }
    out.push_str("]")
}

// The numbers of a slice.
pub fn numbers<T: PartialEq + Display>(out: &mut String, s: &[T]) -> Result<(), AllocError> {
    out.push_str("[")?;
    items(out, s, " ")?;
    out.push_str("]")
}

// A list: its rules, or slice by slice where they differ in length.
pub fn list(out: &mut String, width: u32, l: RuleList) -> Result<(), AllocError> {
    let count = l.decision.len();
    if l.care.len() == l.value.len() && l.care.len() == count * 2 {
        let rules = (0..count).map(|i| Shown::new(width, rules::rule_at(l, i)));
        let rules: Vec<Shown> = rules.collect(*out.allocator())?;
        out.push_str("[")?;
        items(out, rules.as_slice(), ", ")?;
        out.push_str("]")
    } else {
        out.push_str("care ")?;
        slice(out, l.care)?;
        out.push_str(" value ")?;
        slice(out, l.value)?;
        out.push_str(" decision ")?;
        numbers(out, l.decision)
    }
}

// The width of a swap and its entries; entries of 0 after the last other one are left out.
pub fn swap(out: &mut String, s: Swap) -> Result<(), AllocError> {
    write!(out, " swap {} ", s.width)?;
    let places = match s.places.iter().rposition(|place| *place != 0) {
        Some(last) => &s.places[..=last],
        None => &s.places[..0],
    };
    numbers(out, places)
}

// An answer of a list: 65,535 stands for no match.
fn outcome(out: &mut String, n: u16) -> Result<(), AllocError> {
    match n {
        65535 => out.push_str("none"),
        _ => write!(out, "{n}"),
    }
}

// What `into` holds after a comparison: runs, or the four slices one by one where they differ in length.
pub fn runs(out: &mut String, r: &Runs) -> Result<(), AllocError> {
    let (first, last) = (r.first.as_slice(), r.last.as_slice());
    let (old, new) = (r.old.as_slice(), r.new.as_slice());
    if first.len() == last.len() && first.len() == old.len() * 2 && old.len() == new.len() {
        out.push_str("[")?;
        for (i, (old, new)) in old.iter().zip(new).enumerate() {
            if i != 0 {
                out.push_str(", ")?;
            }
            let first = whole(words::word_at(first, i));
            let last = whole(words::word_at(last, i));
            write!(out, "{first} {last} ")?;
            outcome(out, *old)?;
            out.push_str(" ")?;
            outcome(out, *new)?;
        }
        out.push_str("]")
    } else {
        out.push_str("first ")?;
        slice(out, first)?;
        out.push_str(" last ")?;
        slice(out, last)?;
        out.push_str(" old ")?;
        numbers(out, old)?;
        out.push_str(" new ")?;
        numbers(out, new)
    }
}
