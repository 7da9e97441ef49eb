// Bytes into a slice: the head, contents entries and rules.
ghost use Rattle.std.specs.Prelude.{◌≡◌, ◌+◌, ◌*◌, ◌≤◌, ◌<◌, [], ◌∷◌, length};
ghost use Rattle.words.specs.Halves.{num};
ghost use Rattle.rules.specs.Rule.{rule_of};
ghost use Rattle.rules.specs.Checks.{widest};
ghost use Rattle.rules.specs.Slices.{rules_in, LentIn};
ghost use Rattle.image_form.specs.Bytes.{bytes};
ghost use Rattle.image_form.specs.Formats.{word_bytes, rule_size};
ghost use Rattle.image_form.specs.Images.{entry_with, entry_bytes, rule_bytes, rules_bytes, contents_bytes};
ghost use Rattle.image_writer.specs.Writing.{sum_of};
ghost use Rattle.image_writer.specs.Putting.{over, entries_given};

use image_form::layout;
use rules::{Rule, RuleList, rule_at};
use words::Word;

// These bytes, from byte `at` on.
fn put(out: &mut [u8], at: usize, bytes: &[u8])
    requires { at + length bytes.now ≤ length out.old }
    ensures { out.new ≡ over out.old at bytes.now }
{
    out[at..at + bytes.len()].copy_from_slice(bytes);
}

// A word: its low half, and in format 2 the high half after it. In format 1 no word has more than a low half.
fn put_word(out: &mut [u8], at: usize, format: u8, word: Word)
    requires { at + word_bytes format ≤ length out.old }
    ensures { out.new ≡ over out.old at (bytes (word_bytes format) (num word)) }
{
    put(out, at, &word.low.to_le_bytes());
    if format != 1 {
        put(out, at + 8, &word.high.to_le_bytes());
    }
}

fn put_rule_bytes(out: &mut [u8], at: usize, format: u8, rule: Rule)
    requires { at + rule_size format ≤ length out.old }
    ensures { out.new ≡ over out.old at (rule_bytes format (rule_of rule)) }
{
    let size = layout(format).word;
    put_word(out, at, format, rule.care);
    put_word(out, at + size, format, rule.value);
    put(out, at + size + size, &rule.decision.to_le_bytes());
}

fn put_entry(out: &mut [u8], at: usize, offset: u32, count: u16, id: u16)
    requires { at + 8 ≤ length out.old }
    ensures { out.new ≡ over out.old at (entry_bytes (entry_with offset count id)) }
{
    put(out, at, &offset.to_le_bytes());
    put(out, at + 4, &count.to_le_bytes());
    put(out, at + 6, &id.to_le_bytes());
}

// The first four bytes.
pub(crate) fn put_head(out: &mut [u8], format: u8, width: u32, lists: usize)
    requires { (4 ≤ length out.old) × (width ≤ widest) × (lists ≤ 16) }
    ensures { out.new ≡ over out.old 0 (format ∷ width ∷ lists ∷ 0 ∷ []) }
{
    put(out, 0, &[format, width as u8, lists as u8, 0]);
}

// The contents of lists with these ids and counts: each body starts where the one before ends.
pub(crate) fn put_contents(out: &mut [u8], format: u8, ids: &[u16], counts: &[u16])
    requires { (length counts.now ≡ length ids.now) × (4 + 8 * length ids.now ≤ length out.old)
        × (4 + 8 * length ids.now + rule_size format * sum_of counts.now ≤ 65536) }
    ensures { out.new ≡ over out.old 4
        (contents_bytes (entries_given format (4 + 8 * length ids.now) ids.now counts.now)) }
{
    let rule = layout(format).rule;
    let mut next = 4 + 8 * ids.len();
    for i in 0..ids.len() {
        put_entry(out, 4 + 8 * i, next as u32, counts[i], ids[i]);
        next += rule * usize::from(counts[i]);
    }
}

// The rules of a list, from byte `from` on.
pub(crate) fn put_rules(out: &mut [u8], format: u8, from: usize, rules: RuleList)
    requires { (from + rule_size format * length rules.decision.now ≤ length out.old) × LentIn rules }
    ensures { out.new ≡ over out.old from (rules_bytes format (rules_in rules.entry)) }
{
    let rule = layout(format).rule;
    for i in 0..rules.decision.len() {
        put_rule_bytes(out, from + rule * i, format, rule_at(rules, i));
    }
}
