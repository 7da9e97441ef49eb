// The calls on ranges of a field: the crate `ranges`.
use crate::given::read_shorts;
use crate::show;
use crate::show::Answer;
use crate::source::{Source, Unread};

// `bits`, `low` and `high`.
fn read_range(case: &mut Source) -> Result<(u32, u32, u32), Unread> {
    let bits = case.named(b"bits")?;
    let low = case.named(b"low")?;
    let high = case.named(b"high")?;
    Ok((bits, low, high))
}

fn range_prefix_count(case: &mut Source, out: &mut String) -> Result<(), Unread> {
    let (bits, low, high) = read_range(case)?;
    case.end()?;
    ranges::range_prefix_count(bits, low, high).put(out)?;
    Ok(())
}

// `care` and `value`: the slices that take the words of the prefixes.
fn range_prefixes(case: &mut Source, out: &mut String) -> Result<(), Unread> {
    let (bits, low, high) = read_range(case)?;
    let mut care = read_shorts(case, b"care")?;
    let mut value = read_shorts(case, b"value")?;
    case.end()?;
    ranges::range_prefixes(bits, low, high, &mut care, &mut value).put(out)?;
    out.push_str(" care ")?;
    show::numbers(out, &care)?;
    out.push_str(" value ")?;
    show::numbers(out, &value)?;
    Ok(())
}

// Makes the call with this name, where it is one of these.
pub fn make(name: &[u8], case: &mut Source, out: &mut String) -> Option<Result<(), Unread>> {
    Some(match name {
        b"range_prefixes" => range_prefixes(case, out),
        b"range_prefix_count" => range_prefix_count(case, out),
        _ => return None,
    })
}
