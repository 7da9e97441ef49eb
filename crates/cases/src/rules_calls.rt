// The calls on lists of rules and on rules: the crates `rules` and `pairs`, and the lookup of a swapped header.
use crate::given::{List, MOST, numbers, one_rule, read_list, two_rules};
use crate::show::{Answer, Shown};
use crate::source::{Source, Unread};
use crate::{show, swaps_calls};
use rules::{Hit, Refusal, Rule, RuleList, Wire};
use words::Word;

// `width` and `list`.
pub fn width_and_list(case: &mut Source) -> Result<(u32, List), Unread> {
    let width = case.named(b"width")?;
    let list = read_list(case, b"list")?;
    Ok((width, list))
}

fn check_list(case: &mut Source, out: &mut String) -> Result<(), Unread> {
    let (width, l) = width_and_list(case)?;
    case.end()?;
    rules::check_list(width, l.rules()).put(out)?;
    Ok(())
}

fn check_list_as(case: &mut Source, out: &mut String) -> Result<(), Unread> {
    let (width, l) = width_and_list(case)?;
    let number = case.named(b"as")?;
    case.end()?;
    rules::check_list_as(number, width, l.rules()).put(out)?;
    Ok(())
}

fn check_rule(case: &mut Source, out: &mut String) -> Result<(), Unread> {
    let width = case.named(b"width")?;
    let list = case.named(b"list")?;
    let number = case.named(b"number")?;
    let rule = one_rule(case, b"rule")?;
    case.end()?;
    rules::check_rule(width, list, number, rule).put(out)?;
    Ok(())
}

// `headers`: each of them is looked up in the list.
fn look_up<F: Fn(u32, RuleList<'_>, Word) -> Result<Option<Hit>, Refusal>>(
    case: &mut Source,
    out: &mut String,
    looked: F,
) -> Result<(), Unread>
    requires { F.IsAlwaysCallable looked }
{
    let (width, list) = width_and_list(case)?;
    case.name(b"headers")?;
    let headers: Vec<Word> = numbers(case, 128, MOST)?;
    case.end()?;
    for (i, header) in headers.iter().enumerate() {
        if i != 0 {
            out.push_str(", ")?;
        }
        looked(width, list.rules(), *header).put(out)?;
    }
    Ok(())
}

fn lookup(case: &mut Source, out: &mut String) -> Result<(), Unread> {
    look_up(case, out, |width, rules, header| {
        rules::lookup(width, rules, Wire(header))
    })
}

fn lookup_number(case: &mut Source, out: &mut String) -> Result<(), Unread> {
    // A closure round the call alone: the check finds no contract of another crate's function that is passed by name.
    look_up(case, out, |width, rules, header| {
        rules::lookup_number(width, rules, header)
    })
}

fn lookup_swapped(case: &mut Source, out: &mut String) -> Result<(), Unread> {
    look_up(case, out, swaps_calls::looked)
}

// `width`, and `rules`: two of them.
fn width_and_two(case: &mut Source) -> Result<(u32, Rule, Rule), Unread> {
    let width = case.named(b"width")?;
    let (first, second) = two_rules(case, b"rules")?;
    case.end()?;
    Ok((width, first, second))
}

fn covers(case: &mut Source, out: &mut String) -> Result<(), Unread> {
    let (width, first, second) = width_and_two(case)?;
    pairs::covers(width, first, second).put(out)?;
    Ok(())
}

fn crosses(case: &mut Source, out: &mut String) -> Result<(), Unread> {
    let (width, first, second) = width_and_two(case)?;
    pairs::crosses(width, first, second).put(out)?;
    Ok(())
}

fn distance(case: &mut Source, out: &mut String) -> Result<(), Unread> {
    let (width, first, second) = width_and_two(case)?;
    pairs::distance(width, first, second).put(out)?;
    Ok(())
}

fn rule_covers(case: &mut Source, out: &mut String) -> Result<(), Unread> {
    let (first, second) = two_rules(case, b"rules")?;
    case.end()?;
    pairs::rule_covers(first, second).put(out)?;
    Ok(())
}

fn rule_crosses(case: &mut Source, out: &mut String) -> Result<(), Unread> {
    let (first, second) = two_rules(case, b"rules")?;
    case.end()?;
    pairs::rule_crosses(first, second).put(out)?;
    Ok(())
}

fn rule_at(case: &mut Source, out: &mut String) -> Result<(), Unread> {
    let l = read_list(case, b"list")?;
    let place = case.named(b"place")?;
    case.end()?;
    Shown::new(0, rules::rule_at(l.rules(), place)).put(out)?;
    Ok(())
}

// The list is shown as it is then.
fn put_rule(case: &mut Source, out: &mut String) -> Result<(), Unread> {
    let mut l = read_list(case, b"list")?;
    let place = case.named(b"place")?;
    let rule = one_rule(case, b"rule")?;
    case.end()?;
    rules::put_rule(&mut l.care, &mut l.value, &mut l.decision, place, rule);
    out.push_str("list ")?;
    show::list(out, 0, l.rules())?;
    Ok(())
}

// Makes the call with this name, where it is one of these.
pub fn make(name: &[u8], case: &mut Source, out: &mut String) -> Option<Result<(), Unread>> {
    Some(match name {
        b"check_list" => check_list(case, out),
        b"check_list_as" => check_list_as(case, out),
        b"check_rule" => check_rule(case, out),
        b"lookup" => lookup(case, out),
        b"lookup_number" => lookup_number(case, out),
        b"lookup_swapped" => lookup_swapped(case, out),
        b"covers" => covers(case, out),
        b"crosses" => crosses(case, out),
        b"distance" => distance(case, out),
        b"rule_covers" => rule_covers(case, out),
        b"rule_crosses" => rule_crosses(case, out),
        b"rule_at" => rule_at(case, out),
        b"put_rule" => put_rule(case, out),
        _ => return None,
    })
}
