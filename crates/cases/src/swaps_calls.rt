// The calls on bit-swaps: the crates `swaps` and `prefixes`.
use crate::given::{bytes, one_rule};
use crate::rules_calls::width_and_list;
use crate::show;
use crate::show::{Answer, Shown};
use crate::source::{Source, Unread};
use rules::{Hit, Refusal, RuleList, Wire};
use swaps::Swap;
use words::Word;

// An argument `swap`: its width, and its entries in brackets; those that are left out are 0.
fn read_swap(case: &mut Source) -> Result<Swap, Unread> {
    let width = case.named(b"swap")?;
    let start = case.here();
    let entries = bytes(case)?;
    let mut places = [0u8; 128];
    if places.len() < entries.len() {
        return Err(start);
    }
    for (place, entry) in places.iter_mut().zip(entries.iter()) {
        *place = *entry;
    }
    Ok(Swap { places, width })
}

// The swap of 128 places that leaves each where it is.
fn still() -> Swap {
    let mut places = [0u8; 128];
    for (place, number) in places.iter_mut().zip(1u8..) {
        *place = number;
    }
    Swap { places, width: 128 }
}

// A header moved by one swap and moved back by another.
fn moved(there: Swap, back: Swap, header: Word) -> Result<Wire, Refusal> {
    back.undo(there.apply(Wire(header))?)
}

// What the list answers to the swapped header with this number.
pub fn looked(width: u32, rules: RuleList, header: Word) -> Result<Option<Hit>, Refusal> {
    swaps::lookup_swapped(width, rules, still().apply(Wire(header))?)
}

// What is shown beside a refusal.
const NO_SWAP: Swap = Swap {
    places: [0; 128],
    width: 0,
};

fn put_swap(out: &mut String, answer: Result<Swap, Refusal>) -> Result<(), Unread> {
    answer.map(|_| ()).put(out)?;
    show::swap(out, answer.unwrap_or(NO_SWAP))?;
    Ok(())
}

fn prefix_swap(case: &mut Source, out: &mut String) -> Result<(), Unread> {
    let (width, l) = width_and_list(case)?;
    case.end()?;
    put_swap(out, prefixes::prefix_swap(width, l.rules()))
}

fn invert(case: &mut Source, out: &mut String) -> Result<(), Unread> {
    let swap = read_swap(case)?;
    case.end()?;
    put_swap(out, swap.invert())
}

fn compose(case: &mut Source, out: &mut String) -> Result<(), Unread> {
    let swap = read_swap(case)?;
    let second = read_swap(case)?;
    case.end()?;
    put_swap(out, swap.compose(second))
}

fn apply_rule(case: &mut Source, out: &mut String) -> Result<(), Unread> {
    let swap = read_swap(case)?;
    let rule = one_rule(case, b"rule")?;
    case.end()?;
    let moved = swap.apply_rule(rule);
    moved.map(|r| Shown::new(swap.width, r)).put(out)?;
    Ok(())
}

// A swapped header is shown as the wire header that the swap which moves nothing gives back for it, and any number is made a swapped
// header by that swap.
fn apply(case: &mut Source, out: &mut String) -> Result<(), Unread> {
    let swap = read_swap(case)?;
    let header = case.header(b"header")?;
    case.end()?;
    moved(swap, still(), header).put(out)?;
    Ok(())
}

fn undo(case: &mut Source, out: &mut String) -> Result<(), Unread> {
    let swap = read_swap(case)?;
    let header = case.header(b"header")?;
    case.end()?;
    moved(still(), swap, header).put(out)?;
    Ok(())
}

// Makes the call with this name, where it is one of these.
pub fn make(name: &[u8], case: &mut Source, out: &mut String) -> Option<Result<(), Unread>> {
    Some(match name {
        b"apply_rule" => apply_rule(case, out),
        b"apply" => apply(case, out),
        b"undo" => undo(case, out),
        b"invert" => invert(case, out),
        b"compose" => compose(case, out),
        b"prefix_swap" => prefix_swap(case, out),
        _ => return None,
    })
}
