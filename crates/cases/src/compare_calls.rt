// The comparison of two lists, and what a list needs a rule for: the crate `compare`. The comparison of lists of two images: the crate
// `image_compare`.
use crate::given::{read_bytes, read_list};
use crate::rules_calls::width_and_list;
use crate::runs::{Runs, read_runs};
use crate::show;
use crate::show::Answer;
use crate::source::{Source, Unread};
use compare::Compared;
use rules::{Refusal, Wire};

fn needed_at(case: &mut Source, out: &mut String) -> Result<(), Unread> {
    let (width, l) = width_and_list(case)?;
    let position = case.named(b"position")?;
    case.end()?;
    compare::needed_at(width, l.rules(), position).put(out)?;
    Ok(())
}

// The argument `default`: a decision, or `none`, which is no number here.
fn read_default(case: &mut Source) -> Result<Option<u16>, Unread> {
    case.name(b"default")?;
    if case.is_next(b"none") {
        case.name(b"none")?;
        return Ok(None);
    }
    Ok(Some(case.number()?))
}

// `start` and `into`, the last arguments of every comparison.
fn start_and_into(case: &mut Source) -> Result<(Wire, Runs), Unread> {
    let start = case.header(b"start")?;
    let into = read_runs(case)?;
    case.end()?;
    Ok((Wire(start), into))
}

// The answer, behind the number of runs also where it is a refusal, and the runs.
fn put_compared(
    out: &mut String,
    answer: Result<Compared, Refusal>,
    into: &Runs,
) -> Result<(), Unread> {
    if answer.is_err() {
        out.push_str("0 ")?;
    }
    answer.put(out)?;
    out.push_str(" into ")?;
    show::runs(out, into)?;
    Ok(())
}

fn compare(case: &mut Source, out: &mut String) -> Result<(), Unread> {
    let width = case.named(b"width")?;
    let old = read_list(case, b"old")?;
    let new = read_list(case, b"new")?;
    let (start, mut into) = start_and_into(case)?;
    let answer = compare::compare(
        width,
        old.rules(),
        new.rules(),
        start,
        &mut into.first,
        &mut into.last,
        &mut into.old,
        &mut into.new,
    );
    put_compared(out, answer, &into)
}

fn compare_outcomes(case: &mut Source, out: &mut String) -> Result<(), Unread> {
    let width = case.named(b"width")?;
    let old = read_list(case, b"old")?;
    let old_default = read_default(case)?;
    let new = read_list(case, b"new")?;
    let new_default = read_default(case)?;
    let (start, mut into) = start_and_into(case)?;
    let answer = compare::compare_outcomes(
        width,
        old.rules(),
        old_default,
        new.rules(),
        new_default,
        start,
        &mut into.first,
        &mut into.last,
        &mut into.old,
        &mut into.new,
    );
    put_compared(out, answer, &into)
}

fn compare_first(case: &mut Source, out: &mut String) -> Result<(), Unread> {
    let old = read_bytes(case, b"old")?;
    let new = read_bytes(case, b"new")?;
    let (start, mut into) = start_and_into(case)?;
    let answer = image_compare::compare_first(
        &old,
        &new,
        start,
        &mut into.first,
        &mut into.last,
        &mut into.old,
        &mut into.new,
    );
    put_compared(out, answer, &into)
}

fn compare_lists(case: &mut Source, out: &mut String) -> Result<(), Unread> {
    let old = read_bytes(case, b"old")?;
    let old_id = case.named(b"id")?;
    let new = read_bytes(case, b"new")?;
    let new_id = case.named(b"id")?;
    let (start, mut into) = start_and_into(case)?;
    let answer = image_compare::compare_lists(
        &old,
        old_id,
        &new,
        new_id,
        start,
        &mut into.first,
        &mut into.last,
        &mut into.old,
        &mut into.new,
    );
    put_compared(out, answer, &into)
}

fn compare_first_outcomes(case: &mut Source, out: &mut String) -> Result<(), Unread> {
    let old = read_bytes(case, b"old")?;
    let old_default = read_default(case)?;
    let new = read_bytes(case, b"new")?;
    let new_default = read_default(case)?;
    let (start, mut into) = start_and_into(case)?;
    let answer = image_compare::compare_first_outcomes(
        &old,
        old_default,
        &new,
        new_default,
        start,
        &mut into.first,
        &mut into.last,
        &mut into.old,
        &mut into.new,
    );
    put_compared(out, answer, &into)
}

fn compare_list_outcomes(case: &mut Source, out: &mut String) -> Result<(), Unread> {
    let old = read_bytes(case, b"old")?;
    let old_id = case.named(b"id")?;
    let old_default = read_default(case)?;
    let new = read_bytes(case, b"new")?;
    let new_id = case.named(b"id")?;
    let new_default = read_default(case)?;
    let (start, mut into) = start_and_into(case)?;
    let answer = image_compare::compare_list_outcomes(
        &old,
        old_id,
        old_default,
        &new,
        new_id,
        new_default,
        start,
        &mut into.first,
        &mut into.last,
        &mut into.old,
        &mut into.new,
    );
    put_compared(out, answer, &into)
}

// Makes the call with this name, where it is one of these.
pub fn make(name: &[u8], case: &mut Source, out: &mut String) -> Option<Result<(), Unread>> {
    Some(match name {
        b"needed_at" => needed_at(case, out),
        b"compare" => compare(case, out),
        b"compare_outcomes" => compare_outcomes(case, out),
        b"compare_lists" => compare_lists(case, out),
        b"compare_first" => compare_first(case, out),
        b"compare_list_outcomes" => compare_list_outcomes(case, out),
        b"compare_first_outcomes" => compare_first_outcomes(case, out),
        _ => return None,
    })
}
