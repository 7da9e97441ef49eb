// The calls on five-field rules, and the one that makes a header of five numbers: the crates `five_fields` and `five_numbers`.
use crate::five_field_rules::read_rules;
use crate::given::{numbers, read_list};
use crate::show;
use crate::show::Answer;
use crate::source::{Source, Unread};
use five_numbers::Numbers;

// The places of a header of five fields.
const PLACES: u32 = 104;

fn expansion_count(case: &mut Source, out: &mut String) -> Result<(), Unread> {
    let r = read_rules(case)?;
    case.end()?;
    five_fields::expansion_count(r.rules()).put(out)?;
    Ok(())
}

// `into`: the list that takes the entries.
fn expand(case: &mut Source, out: &mut String) -> Result<(), Unread> {
    let r = read_rules(case)?;
    let mut into = read_list(case, b"into")?;
    case.end()?;
    let answer = five_fields::expand(
        r.rules(),
        &mut into.care,
        &mut into.value,
        &mut into.decision,
    );
    answer.put(out)?;
    out.push_str(" into ")?;
    show::list(out, PLACES, into.rules())?;
    Ok(())
}

// `numbers`: the five numbers of a header.
fn header(case: &mut Source, out: &mut String) -> Result<(), Unread> {
    case.name(b"numbers")?;
    let start = case.here();
    let numbers: Vec<u32> = numbers(case, 32, 5)?;
    let [source, destination, source_port, destination_port, protocol] = numbers.as_slice() else {
        return Err(start);
    };
    case.end()?;
    let numbers = Numbers {
        source: *source,
        destination: *destination,
        source_port: *source_port,
        destination_port: *destination_port,
        protocol: *protocol,
    };
    five_numbers::header(numbers).put(out)?;
    Ok(())
}

// Makes the call with this name, where it is one of these.
pub fn make(name: &[u8], case: &mut Source, out: &mut String) -> Option<Result<(), Unread>> {
    Some(match name {
        b"expand" => expand(case, out),
        b"expansion_count" => expansion_count(case, out),
        b"header" => header(case, out),
        _ => return None,
    })
}
