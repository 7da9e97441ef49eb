// Reading a list of an image out into three slices.
ghost use Rattle.std.specs.Prelude.{◌≡◌, ◌+◌, ◌*◌, ◌≤◌, length, drop};
ghost use Rattle.rules.specs.Slices.{Lent};
ghost use Rattle.image_form.specs.Formats.{rule_size};
ghost use Rattle.image_form.specs.Images.{rules_in};
ghost use Rattle.image.specs.Calls.{ReadOut};
ghost use Rattle.image.specs.Filled.{Filled};

use crate::places::found;
use image_form::{layout, rule_in};
use rules::{Refusal, RuleList, check_results, put_rule};

// Puts the `count` rules from byte `from` on into three slices. Later places keep their contents.
fn fill(
    format: u8,
    b: &[u8],
    from: usize,
    count: usize,
    care: &mut [u64],
    value: &mut [u64],
    decision: &mut [u16],
)
    requires { (from + rule_size format * count ≤ length b.now) × (count ≤ length decision.old)
        × Lent care.old value.old decision.old }
    ensures { Filled (rules_in format count (drop from b.now))
        care.old value.old decision.old
        care.new value.new decision.new }
{
    let rule = layout(format).rule;
    for i in 0..count {
        let r = rule_in(format, b, from + rule * i);
        put_rule(care, value, decision, i, r);
    }
}

// Reads the list with that id out: the number of rules, and the rules in the three slices, which take two numbers to a rule for
// care and for value, the low half first. The image's checks and 15, then 2 and 7.
pub fn read(
    image: &[u8],
    id: u16,
    care: &mut [u64],
    value: &mut [u64],
    decision: &mut [u16],
) -> Result<usize, Refusal>
    ensures { ReadOut image.now id
        care.old value.old decision.old result
        care.new value.new decision.new }
{
    let p = found(image, id)?;
    check_results(
        p.count,
        RuleList {
            care,
            value,
            decision,
        },
    )?;
    fill(image[0], image, p.from, p.count, care, value, decision);
    Ok(p.count)
}
