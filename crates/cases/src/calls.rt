// Which call a case makes, by the name that it starts with.
use crate::source::{Source, Unread};
use crate::{
    compare_calls, five_fields_calls, image_calls, ranges_calls, rules_calls, swaps_calls,
    weaving_calls,
};
use std::alloc::Global;

// Makes the call with this name, where there is one.
fn made(name: &[u8], case: &mut Source, out: &mut String) -> Option<Result<(), Unread>> {
    rules_calls::make(name, case, out)
        .or_else(|| swaps_calls::make(name, case, out))
        .or_else(|| ranges_calls::make(name, case, out))
        .or_else(|| five_fields_calls::make(name, case, out))
        .or_else(|| weaving_calls::make(name, case, out))
        .or_else(|| compare_calls::make(name, case, out))
        .or_else(|| image_calls::make(name, case, out))
}

// Makes the call that a case asks for: what it answers.
pub fn answer(case: &[u8], alloc: Global) -> Result<String, Unread> {
    let mut case = Source::new(case, alloc);
    let mut out = String::new(alloc);
    let name = case.word();
    made(name, &mut case, &mut out).unwrap_or(Err(Unread::Call))?;
    Ok(out)
}
