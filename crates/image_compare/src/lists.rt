// The comparison of a list of one image with a list of another.
ghost use Rattle.std.specs.Prelude.{◌≡◌, eqb};
ghost use Rattle.words.specs.Halves.{num};
ghost use Rattle.rules.specs.Replies.{need, verdict_reply};
ghost use Rattle.image_form.specs.Images.{width_in};
ghost use Rattle.image_form.specs.Parts.{entry_from};
ghost use Rattle.image_compare.specs.Comparing.{ListsCompared, FirstCompared, ListOutcomesCompared, FirstOutcomesCompared};
ghost use Rattle.image_compare.specs.Parts.{Read};

use compare::{Compared, compare_outcomes};
use image_form::{byte_at, entry_in};
use rules::{Reason, Refusal, RuleList, Wire, refused};

// 16 where the widths of two images differ.
fn check_widths(old: &[u8], new: &[u8]) -> Result<(), Refusal>
    ensures { verdict_reply result ≡ need (eqb (width_in old.now) (width_in new.now)) 16 0 0 }
{
    if byte_at(old, 1) == byte_at(new, 1) {
        return Ok(());
    }
    refused(Reason::Widths, 0, 0)
}

// Room for any list of an image.
#[derive(Drop)]
struct Room {
    care: [u64; 2048],
    value: [u64; 2048],
    decision: [u16; 1024],
}

impl Room {
    fn new() -> Room {
        Room {
            care: [0; 2048],
            value: [0; 2048],
            decision: [0; 1024],
        }
    }

    // Reads the list with that id out. The image's refusal and its 15.
    fn read<'a>(&'a mut self, image: &[u8], id: u16) -> Result<RuleList<'a>, Refusal>
        ensures { Read image.now id result }
    {
        let n = image::read(
            image,
            id,
            &mut self.care,
            &mut self.value,
            &mut self.decision,
        )?;
        Ok(RuleList {
            care: &self.care[..n * 2],
            value: &self.value[..n * 2],
            decision: &self.decision[..n],
        })
    }
}

// Compares the outcomes of the old image's list `old_id` and of the new image's list `new_id` from a header on, as `compare_outcomes`
// does those of two lists. The images may be of different formats.
// The old image's refusal and its 15, the new image's and its 15, then 16; then 5 of the old default and of the new one; then 6, 2 and 7.
pub fn compare_list_outcomes(
    old: &[u8],
    old_id: u16,
    old_default: Option<u16>,
    new: &[u8],
    new_id: u16,
    new_default: Option<u16>,
    start: Wire,
    first: &mut [u64],
    last: &mut [u64],
    old_answer: &mut [u16],
    new_answer: &mut [u16],
) -> Result<Compared, Refusal>
    ensures { ListOutcomesCompared old.now old_id old_default new.now new_id new_default (num start.0)
        first.old last.old old_answer.old new_answer.old
        first.new last.new old_answer.new new_answer.new result }
{
    let mut old_room = Room::new();
    let source = old_room.read(old, old_id)?;
    let mut new_room = Room::new();
    let candidate = new_room.read(new, new_id)?;
    check_widths(old, new)?;
    compare_outcomes(
        byte_at(old, 1) as u32,
        source,
        old_default,
        candidate,
        new_default,
        start,
        first,
        last,
        old_answer,
        new_answer,
    )
}

// Compares the old image's list `old_id` with the new image's list `new_id` from a header on: as `compare_list_outcomes` with no default
// on both sides, so that a miss is no match.
pub fn compare_lists(
    old: &[u8],
    old_id: u16,
    new: &[u8],
    new_id: u16,
    start: Wire,
    first: &mut [u64],
    last: &mut [u64],
    old_answer: &mut [u16],
    new_answer: &mut [u16],
) -> Result<Compared, Refusal>
    ensures { ListsCompared old.now old_id new.now new_id (num start.0)
        first.old last.old old_answer.old new_answer.old
        first.new last.new old_answer.new new_answer.new result }
{
    compare_list_outcomes(
        old, old_id, None, new, new_id, None, start, first, last, old_answer, new_answer,
    )
}

// The id of an image's first list; 0 where the bytes end before it. It is asked before the image is checked.
fn first_id(image: &[u8]) -> u16
    ensures { result ≡ (entry_from 4 image.now).id }
{
    entry_in(image, 4).id as u16
}

// Compares the outcomes of the first list of the old image and of the first of the new one, from a header on. The old image's refusal,
// then the new one's, then 16; then 5 of the old default and of the new one; then 6, 2 and 7.
pub fn compare_first_outcomes(
    old: &[u8],
    old_default: Option<u16>,
    new: &[u8],
    new_default: Option<u16>,
    start: Wire,
    first: &mut [u64],
    last: &mut [u64],
    old_answer: &mut [u16],
    new_answer: &mut [u16],
) -> Result<Compared, Refusal>
    ensures { FirstOutcomesCompared old.now old_default new.now new_default (num start.0)
        first.old last.old old_answer.old new_answer.old
        first.new last.new old_answer.new new_answer.new result }
{
    compare_list_outcomes(
        old,
        first_id(old),
        old_default,
        new,
        first_id(new),
        new_default,
        start,
        first,
        last,
        old_answer,
        new_answer,
    )
}

// Compares the first list of the old image with the first of the new one, from a header on: as `compare_first_outcomes` with no default
// on both sides.
pub fn compare_first(
    old: &[u8],
    new: &[u8],
    start: Wire,
    first: &mut [u64],
    last: &mut [u64],
    old_answer: &mut [u16],
    new_answer: &mut [u16],
) -> Result<Compared, Refusal>
    ensures { FirstCompared old.now new.now (num start.0)
        first.old last.old old_answer.old new_answer.old
        first.new last.new old_answer.new new_answer.new result }
{
    compare_first_outcomes(
        old, None, new, None, start, first, last, old_answer, new_answer,
    )
}
