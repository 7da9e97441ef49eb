// The checks of an image: nothing is believed before it is checked.
ghost use Rattle.std.specs.Prelude.{◌≡◌, ◌+◌, ◌*◌, ◌≤◌, ◌<◌, length, drop};
ghost use Rattle.rules.specs.Replies.{verdict_reply};
ghost use Rattle.rules.specs.Checks.{widest, rules_check};
ghost use Rattle.image_form.specs.Formats.{rule_size};
ghost use Rattle.image_form.specs.Images.{rules_in, format_in, count_in, width_in, entries_of, total};
ghost use Rattle.image_check.specs.Checks.{head_check, entry_check, contents_check, bodies_check, image_check};

use image_form::{Entry, byte_at, entry_in, layout, rule_in};
use rules::{Reason, Refusal, check_rule, refused};

// The size, the first four bytes, and room for the contents.
#[tactic(auto, unfolding(crate::specs::Checks::head_check, image_form::specs::Formats::format_check, image_form::specs::Formats::range_check))]
fn head(b: &[u8]) -> Result<(), Refusal>
    ensures { verdict_reply result ≡ head_check b.now }
{
    if b.len() < 4 {
        return refused(Reason::Size, 0, 0);
    }
    if b.len() > 65536 {
        return refused(Reason::Size, 0, 0);
    }
    let layout = layout(b[0]);
    if !layout.known {
        return refused(Reason::Format, 0, 0);
    }
    if b[3] != 0 {
        return refused(Reason::Format, 0, 0);
    }
    let width = byte_at(b, 1);
    if width < 1 {
        return refused(Reason::Width, 0, 0);
    }
    if width as u32 > layout.places {
        return refused(Reason::Width, 0, 0);
    }
    let lists = byte_at(b, 2);
    if lists < 1 {
        return refused(Reason::Lists, 0, 0);
    }
    if lists > 16 {
        return refused(Reason::Lists, 0, 0);
    }
    if 4 + 8 * lists > b.len() {
        return refused(Reason::Lists, 0, 0);
    }
    Ok(())
}

// Contents entry number `list` of an image of `size` bytes: its id is `least` or more, its body starts at byte `next`.
#[tactic(auto, unfolding(crate::specs::Checks::entry_check, crate::specs::Checks::count_check, rules::specs::Checks::size_check, image_form::specs::Formats::rule_size, image_form::specs::Formats::word_bytes))]
fn entry_verdict(
    format: u8,
    size: usize,
    next: usize,
    least: usize,
    list: usize,
    entry: Entry,
) -> Result<(), Refusal>
    requires { next ≤ 65536 }
    ensures { verdict_reply result ≡ entry_check format size next least list entry }
{
    if entry.id < least {
        return refused(Reason::Ids, list, 0);
    }
    if entry.offset != next {
        return refused(Reason::Offset, list, 0);
    }
    if entry.count < 1 {
        return refused(Reason::EmptyList, list, 0);
    }
    if entry.count > 1024 {
        return refused(Reason::Rules, list, 0);
    }
    if next + layout(format).rule * entry.count > size {
        return refused(Reason::Size, list, 0);
    }
    Ok(())
}

// The contents of an image whose head is right. Bodies are counted from the end of the one before and not from the
// offsets, so that no offset is used before it is known to be right.
fn contents(b: &[u8]) -> Result<(), Refusal>
    requires { (4 ≤ length b.now) × (length b.now ≤ 65536) × (4 + 8 * count_in b.now ≤ length b.now) }
    ensures { verdict_reply result ≡ contents_check b.now }
{
    let format = b[0];
    let rule = layout(format).rule;
    let lists = byte_at(b, 2);
    let mut next = 4 + 8 * lists;
    let mut least = 0;
    for k in 0..lists {
        let entry = entry_in(b, 4 + 8 * k);
        entry_verdict(format, b.len(), next, least, k + 1, entry)?;
        next += rule * entry.count;
        least = entry.id + 1;
    }
    if next != b.len() {
        return refused(Reason::Size, 0, 0);
    }
    Ok(())
}

// The `count` rules from byte `from` on, the lower rule first.
fn rules_at(
    format: u8,
    b: &[u8],
    from: usize,
    count: usize,
    width: u32,
    list: usize,
) -> Result<(), Refusal>
    requires { (from + rule_size format * count ≤ length b.now) × (count < 65536) × (1 ≤ width) × (width ≤ widest) }
    ensures { verdict_reply result ≡ rules_check width list 1 (rules_in format count (drop from b.now)) }
{
    let rule = layout(format).rule;
    for i in 0..count {
        check_rule(width, list, i + 1, rule_in(format, b, from + rule * i))?;
    }
    Ok(())
}

// The rules of all lists of an image whose head and contents are right.
fn bodies(b: &[u8]) -> Result<(), Refusal>
    requires { (4 ≤ length b.now) × (length b.now ≤ 65536) × (1 ≤ width_in b.now) × (width_in b.now ≤ widest)
        × (4 + 8 * count_in b.now + rule_size (format_in b.now) * total (entries_of b.now) ≡ length b.now) }
    ensures { verdict_reply result ≡ bodies_check b.now }
{
    let format = b[0];
    let rule = layout(format).rule;
    let width = byte_at(b, 1) as u32;
    let lists = byte_at(b, 2);
    let mut from = 4 + 8 * lists;
    for k in 0..lists {
        let count = entry_in(b, 4 + 8 * k).count;
        rules_at(format, b, from, count, width, k + 1)?;
        from += rule * count;
    }
    Ok(())
}

// Checks an image: its first refusal by the order of the checks.
pub fn check(image: &[u8]) -> Result<(), Refusal>
    ensures { verdict_reply result ≡ image_check image.now }
{
    head(image)?;
    contents(image)?;
    bodies(image)
}
