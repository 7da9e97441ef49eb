// The calls that cut, weave and prune a list: the crates `weaving` and `pruning`.
use crate::given::{read_list, read_numbers, read_shorts};
use crate::rules_calls::width_and_list;
use crate::show;
use crate::show::Answer;
use crate::source::{Source, Unread};
use std::alloc::AllocError;

impl Answer for weaving::Tally {
    fn put(self, out: &mut String) -> Result<(), AllocError> {
        write!(
            out,
            "kept {} dropped {} merged {}",
            self.kept, self.dropped, self.merged
        )
    }
}

impl Answer for pruning::Tally {
    fn put(self, out: &mut String) -> Result<(), AllocError> {
        write!(out, "kept {} dropped {}", self.kept, self.dropped)
    }
}

// `into`: the slice that takes the sizes.
fn runs(case: &mut Source, out: &mut String) -> Result<(), Unread> {
    let (width, l) = width_and_list(case)?;
    let mut sizes = read_shorts(case, b"into")?;
    case.end()?;
    weaving::runs(width, l.rules(), &mut sizes).put(out)?;
    out.push_str(" into ")?;
    show::numbers(out, &sizes)?;
    Ok(())
}

// `into`: the list that takes the woven rules.
fn weave(case: &mut Source, out: &mut String) -> Result<(), Unread> {
    let (width, l) = width_and_list(case)?;
    let mut into = read_list(case, b"into")?;
    case.end()?;
    let woven = weaving::weave(
        width,
        l.rules(),
        &mut into.care,
        &mut into.value,
        &mut into.decision,
    );
    woven.put(out)?;
    out.push_str(" into ")?;
    show::list(out, width, into.rules())?;
    Ok(())
}

// `into` and `headers`: the list that takes the rules that are kept, and the slice that takes a header for each.
fn prune(case: &mut Source, out: &mut String) -> Result<(), Unread> {
    let (width, l) = width_and_list(case)?;
    let mut into = read_list(case, b"into")?;
    let mut headers = read_numbers(case, b"headers")?;
    case.end()?;
    let pruned = pruning::prune(
        width,
        l.rules(),
        &mut into.care,
        &mut into.value,
        &mut into.decision,
        &mut headers,
    );
    pruned.put(out)?;
    out.push_str(" into ")?;
    show::list(out, width, into.rules())?;
    out.push_str(" headers ")?;
    show::slice(out, &headers)?;
    Ok(())
}

// Makes the call with this name, where it is one of these.
pub fn make(name: &[u8], case: &mut Source, out: &mut String) -> Option<Result<(), Unread>> {
    Some(match name {
        b"runs" => runs(case, out),
        b"weave" => weave(case, out),
        b"prune" => prune(case, out),
        _ => return None,
    })
}
