// One list of an image, squeezed into slices that are lent, and what weaving it counts.
ghost use Rattle.std.specs.Prelude.{◌≡◌};
ghost use Rattle.rules.specs.Slices.{rules_in};
ghost use Rattle.weaving.specs.Calls.{woven_reply};
ghost use Rattle.image_weaving.specs.Weaving.{tally_reply};
ghost use Rattle.image_weaving.specs.Parts.{ReadyIn, RulesSqueezed, RoomFor, ListSqueezed};
ghost use Rattle.image_weaving.specs.declared.Squeeze.{Squeeze as Way};

use crate::Squeeze;
use image::read;
use image_form::byte_at;
use pruning::prune;
use rules::{Refusal, RuleList};
use weaving::{Tally, weave};

// Prunes a list into the first places of the three slices, as many as it has rules. Nothing is merged.
fn prune_rules(
    width: u32,
    rules: RuleList,
    care: &mut [u64],
    value: &mut [u64],
    decision: &mut [u16],
) -> Tally
    requires { ReadyIn width rules care.old value.old decision.old }
    ensures { RulesSqueezed Way.Prune width (rules_in rules.entry) result
        care.new value.new decision.new }
{
    let mut header = [0; 2048];
    let n = rules.decision.len();
    let t = prune(
        width,
        rules,
        &mut care[..n * 2],
        &mut value[..n * 2],
        &mut decision[..n],
        &mut header[..n * 2],
    )
    .unwrap();
    Tally {
        kept: t.kept,
        dropped: t.dropped,
        merged: 0,
    }
}

// Squeezes a list into the first places of the three slices. It is not refused, as it has passed its checks and there is room.
fn squeeze_rules(
    squeeze: Squeeze,
    width: u32,
    rules: RuleList,
    care: &mut [u64],
    value: &mut [u64],
    decision: &mut [u16],
) -> Tally
    requires { ReadyIn width rules care.old value.old decision.old }
    ensures { RulesSqueezed squeeze width (rules_in rules.entry) result
        care.new value.new decision.new }
{
    match squeeze {
        Squeeze::Weave => weave(width, rules, care, value, decision).unwrap(),
        Squeeze::Prune => prune_rules(width, rules, care, value, decision),
    }
}

// Squeezes the list with that id into the three slices, from their first places on. The image's refusal and its 15.
pub(crate) fn squeeze_list(
    squeeze: Squeeze,
    image: &[u8],
    id: u16,
    care: &mut [u64],
    value: &mut [u64],
    decision: &mut [u16],
) -> Result<Tally, Refusal>
    requires { RoomFor image.now id care.old value.old decision.old }
    ensures { ListSqueezed squeeze image.now id result
        care.new value.new decision.new }
{
    let mut cares = [0; 2048];
    let mut values = [0; 2048];
    let mut decisions = [0; 1024];
    let n = read(image, id, &mut cares, &mut values, &mut decisions)?;
    let halves = n * 2;
    let rules = RuleList {
        care: &cares[..halves],
        value: &values[..halves],
        decision: &decisions[..n],
    };
    let width = byte_at(image, 1) as u32;
    Ok(squeeze_rules(squeeze, width, rules, care, value, decision))
}

// What weaving the list with that id keeps, drops and merges. The image's refusal and its 15.
pub fn tally(image: &[u8], id: u16) -> Result<Tally, Refusal>
    ensures { woven_reply result ≡ tally_reply image.now id }
{
    let mut care = [0; 2048];
    let mut value = [0; 2048];
    let mut decision = [0; 1024];
    squeeze_list(
        Squeeze::Weave,
        image,
        id,
        &mut care,
        &mut value,
        &mut decision,
    )
}
