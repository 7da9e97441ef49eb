// What a case hands to a call: slices of numbers, rules, and lists of rules.
use crate::show::whole;
use crate::source::{Source, Unread, number_of, word_below};
use rules::{Rule, RuleList};
use std::alloc::AllocFailed;
use words::Word;

// How many words, decisions or numbers of a field a slice has at most.
pub const MOST: usize = 4112;

// How many bytes a slice has at most.
const MOST_BYTES: usize = 65600;

// A type that the numbers of a slice have.
pub trait Given: Drop {
    // The number that a word holds, where the type has it.
    fn given(x: Word) -> Option<Self>;
}

impl Given for Word {
    fn given(x: Word) -> Option<Word> {
        Some(x)
    }
}

impl Given for u32 {
    fn given(x: Word) -> Option<u32> {
        u32::try_from(words::capped(x)).ok()
    }
}

impl Given for u16 {
    fn given(x: Word) -> Option<u16> {
        u16::try_from(words::capped(x)).ok()
    }
}

impl Given for u8 {
    fn given(x: Word) -> Option<u8> {
        u8::try_from(words::capped(x)).ok()
    }
}

// How many times what follows is meant: `3 times` before it, or once.
fn times(case: &mut Source) -> Result<u64, Unread> {
    let mut ahead = *case;
    ahead.word();
    if !ahead.is_next(b"times") {
        return Ok(1);
    }
    let start = case.here();
    let count = case.number()?;
    if count > 100000 {
        return Err(start);
    }
    case.name(b"times")?;
    Ok(count)
}

// Says no where a slice that holds so many has no place for so many more.
fn check_room(held: usize, more: u64, most: usize, start: Unread) -> Result<(), Unread> {
    if more <= most.saturating_sub(held) as u64 {
        Ok(())
    } else {
        Err(start)
    }
}

// How the numbers of an item follow from its value: they are that number, or they go up from it, or they are its bytes, the lowest first.
#[derive(Clone, Copy)]
enum Way {
    Same,
    Up,
    Bytes,
}

// Some numbers of a slice, and how many they are.
#[derive(Clone, Copy)]
struct Item {
    value: Word,
    count: u64,
    way: Way,
}

// The two parts of a word beside the first byte of this kind.
fn parts(word: &[u8], b: u8) -> Option<(&[u8], &[u8])> {
    let at = word.iter().position(|x| *x == b)?;
    Some((&word[..at], &word[at + 1..]))
}

// `12:4`: a number in so many bytes, the lowest first, which has to fit. Only a slice of bytes has it.
fn in_bytes(
    number: &[u8],
    length: &[u8],
    bits: u32,
    start: usize,
    end: usize,
) -> Result<Item, Unread> {
    let bytes = number_of::<u8>(length).filter(|n| *n <= 16);
    match word_below(number, 8 * u32::from(bytes.unwrap_or(0))) {
        Some(value) if bits == 8 => Ok(Item {
            value,
            count: u64::from(bytes.ok_or(Unread::Item(end.saturating_add(length.len())))?),
            way: Way::Bytes,
        }),
        _ => Err(Unread::Item(start)),
    }
}

// `2 to 9`: each number from the first to the last. No slice has room for 100,000.
fn counted_up(case: &mut Source, first: Word, bits: u32) -> Result<Item, Unread> {
    let start = case.left();
    case.name(b"to")?;
    let last = case.number_below(bits);
    let top = last.map_or(0, whole);
    match top.checked_sub(whole(first)) {
        Some(more) if more < 100000 => {
            last?;
            Ok(Item {
                value: first,
                count: more as u64 + 1,
                way: Way::Up,
            })
        }
        _ => Err(Unread::Item(start)),
    }
}

// What stands here, where it is said once.
fn once(case: &mut Source, bits: u32) -> Result<Item, Unread> {
    let start = case.left();
    let word = case.word();
    if let Some((number, length)) = parts(word, b':') {
        return in_bytes(number, length, bits, start, case.left());
    }
    let value = word_below(word, bits).ok_or(Unread::At(start))?;
    if case.is_next(b"to") {
        return counted_up(case, value, bits);
    }
    Ok(Item {
        value,
        count: 1,
        way: Way::Same,
    })
}

// The next numbers. `times` stands before one number alone.
fn next_item(case: &mut Source, bits: u32) -> Result<Item, Unread> {
    let start = case.here();
    let count = times(case)?;
    let item = once(case, bits);
    if count == 1 {
        return item;
    }
    match item {
        Ok(x) if x.count == 1 => Ok(Item {
            value: x.value,
            count,
            way: Way::Same,
        }),
        Ok(_) | Err(Unread::Item(_)) => Err(start),
        Err(x) => Err(x),
    }
}

// Puts a number at the end of a slice.
fn put<T: Given>(x: Word, start: Unread, out: &mut Vec<T>) -> Result<(), Unread> {
    out.push(T::given(x).ok_or(start)?)?;
    Ok(())
}

// Puts the numbers of an item at the end of a slice. They go into the slice as it is lent: in a larger type on the way an image would
// take many times its size.
fn put_numbers<T: Given>(item: Item, start: Unread, out: &mut Vec<T>) -> Result<(), Unread> {
    match item.way {
        Way::Same => {
            for _ in 0..item.count {
                put(item.value, start, out)?;
            }
        }
        Way::Up => {
            for k in 0..item.count {
                put(words::plus(item.value, Word::from(k)), start, out)?;
            }
        }
        Way::Bytes => {
            let bytes = whole(item.value).to_le_bytes();
            for b in bytes.iter().take(item.count as usize) {
                put(Word::from(u64::from(*b)), start, out)?;
            }
        }
    }
    Ok(())
}

// Reads the next item into a slice, which holds at most so many numbers.
fn put_item<T: Given>(
    case: &mut Source,
    bits: u32,
    most: usize,
    out: &mut Vec<T>,
) -> Result<(), Unread> {
    let start = case.here();
    let item = next_item(case, bits)?;
    check_room(out.len(), item.count, most, start)?;
    put_numbers(item, start, out)
}

// Whether there is more to read before the other bracket or the word `half`.
fn is_more(case: &Source) -> bool {
    !case.is_closing() && !case.is_next(b"half")
}

// The numbers after a bracket, at most so many and each below 2^bits, up to the other bracket or the word `half`.
fn numbers_after<T: Given>(case: &mut Source, bits: u32, most: usize) -> Result<Vec<T>, Unread> {
    case.bracket(b'[')?;
    let mut all = Vec::new(case.alloc);
    // Each item takes a byte of the case at least, so this goes to the end, with no measure to prove.
    for _ in 0..case.left() {
        if !is_more(case) {
            break;
        }
        put_item(case, bits, most, &mut all)?;
    }
    Ok(all)
}

// The numbers in brackets, at most so many and each below 2^bits.
pub fn numbers<T: Given>(case: &mut Source, bits: u32, most: usize) -> Result<Vec<T>, Unread> {
    let all = numbers_after(case, bits, most)?;
    case.bracket(b']')?;
    Ok(all)
}

// Puts a word at the end of a slice of words, as two numbers.
pub fn put_word(out: &mut Vec<u64>, x: Word) -> Result<(), AllocFailed<u64>> {
    out.push(x.low)?;
    out.push(x.high)
}

// An argument that is a slice of words, two numbers to a word; after `half` it has one number more.
pub fn read_numbers(case: &mut Source, name: &[u8]) -> Result<Vec<u64>, Unread> {
    case.name(name)?;
    let words: Vec<Word> = numbers_after(case, 128, MOST)?;
    let mut all = Vec::new(case.alloc);
    for x in words.iter() {
        put_word(&mut all, *x)?;
    }
    let start = case.here();
    if case.is_next(b"half") {
        all.push(case.named(b"half")?)?;
        case.bracket(b']')?;
        check_room(words.len(), 1, MOST, start)?;
    } else {
        case.bracket(b']')?;
    }
    Ok(all)
}

// An argument that is a slice of decisions, ids or counts.
pub fn read_shorts(case: &mut Source, name: &[u8]) -> Result<Vec<u16>, Unread> {
    case.name(name)?;
    numbers(case, 16, MOST)
}

// An argument that is a slice of numbers of 32 bits, which five-field rules are lent in.
pub fn read_fields(case: &mut Source, name: &[u8]) -> Result<Vec<u32>, Unread> {
    case.name(name)?;
    numbers(case, 32, MOST)
}

// The numbers in brackets as bytes.
pub fn bytes(case: &mut Source) -> Result<Vec<u8>, Unread> {
    numbers(case, 8, MOST_BYTES)
}

// An argument that is a slice of bytes.
pub fn read_bytes(case: &mut Source, name: &[u8]) -> Result<Vec<u8>, Unread> {
    case.name(name)?;
    bytes(case)
}

// The care word and the value word of a pattern: `0` and `1` are cared for, `*` is not.
fn pattern(word: &[u8]) -> Option<(Word, Word)> {
    if word.len() > 128 || !word.iter().all(|b| matches!(b, b'0' | b'1' | b'*')) {
        return None;
    }
    let mut care = Word::from(0);
    let mut value = Word::from(0);
    for b in word {
        care = words::pushed(care, u64::from(*b != b'*'));
        value = words::pushed(value, u64::from(*b == b'1'));
    }
    Some((care, value))
}

// A pattern, or the two words themselves as `care/value`.
fn two_words(case: &mut Source) -> Result<(Word, Word), Unread> {
    let start = case.here();
    let word = case.word();
    let Some((care, value)) = parts(word, b'/') else {
        return pattern(word).ok_or(start);
    };
    let at_value = Unread::At(case.left().saturating_add(value.len()));
    Ok((
        word_below(care, 128).ok_or(start)?,
        word_below(value, 128).ok_or(at_value)?,
    ))
}

// A rule: its pattern or its two words, and then the decision.
fn rule(case: &mut Source) -> Result<Rule, Unread> {
    let (care, value) = two_words(case)?;
    let decision = case.number()?;
    Ok(Rule {
        care,
        value,
        decision,
    })
}

// The three slices of a list.
#[derive(Drop)]
pub struct List {
    pub care: Vec<u64>,
    pub value: Vec<u64>,
    pub decision: Vec<u16>,
}

impl List {
    // The list as it is lent.
    pub fn rules(&self) -> RuleList<'_> {
        RuleList {
            care: self.care.as_slice(),
            value: self.value.as_slice(),
            decision: self.decision.as_slice(),
        }
    }
}

// The three slices one by one: `care`, `value` and `decision`.
fn by_slices(case: &mut Source) -> Result<List, Unread> {
    let care = read_numbers(case, b"care")?;
    let value = read_numbers(case, b"value")?;
    let decision = read_shorts(case, b"decision")?;
    Ok(List {
        care,
        value,
        decision,
    })
}

// Reads the next rule, and how often it stands, into a list.
fn put_rule(case: &mut Source, list: &mut List) -> Result<(), Unread> {
    let start = case.here();
    let count = times(case)?;
    let r = rule(case)?;
    check_room(list.decision.len(), count, MOST, start)?;
    for _ in 0..count {
        put_word(&mut list.care, r.care)?;
        put_word(&mut list.value, r.value)?;
        list.decision.push(r.decision)?;
    }
    Ok(())
}

// The rules in brackets.
fn by_rules(case: &mut Source) -> Result<List, Unread> {
    case.bracket(b'[')?;
    let mut list = List {
        care: Vec::new(case.alloc),
        value: Vec::new(case.alloc),
        decision: Vec::new(case.alloc),
    };
    // Each item takes a byte of the case at least, so this goes to the end, with no measure to prove.
    for _ in 0..case.left() {
        if !is_more(case) {
            break;
        }
        put_rule(case, &mut list)?;
    }
    case.bracket(b']')?;
    Ok(list)
}

// An argument that is a list: its name, and its rules in brackets or its three slices.
pub fn read_list(case: &mut Source, name: &[u8]) -> Result<List, Unread> {
    case.name(name)?;
    if case.is_next(b"care") {
        by_slices(case)
    } else {
        by_rules(case)
    }
}

// An argument that is one rule in brackets.
pub fn one_rule(case: &mut Source, name: &[u8]) -> Result<Rule, Unread> {
    case.name(name)?;
    case.bracket(b'[')?;
    let r = rule(case)?;
    case.bracket(b']')?;
    Ok(r)
}

// An argument that is two rules in brackets.
pub fn two_rules(case: &mut Source, name: &[u8]) -> Result<(Rule, Rule), Unread> {
    case.name(name)?;
    case.bracket(b'[')?;
    let first = rule(case)?;
    let second = rule(case)?;
    case.bracket(b']')?;
    Ok((first, second))
}
