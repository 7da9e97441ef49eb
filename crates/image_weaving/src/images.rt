// All lists of an image, squeezed one after the other and written as an image again.
ghost use Rattle.std.specs.Prelude.{◌≡◌, ◌+◌, ◌<◌};
ghost use Rattle.rules.specs.Replies.{passed};
ghost use Rattle.image_form.specs.Images.{count_in};
ghost use Rattle.image_check.specs.Checks.{image_check};
ghost use Rattle.image_weaving.specs.Squeezing.{ImageSqueezed};
ghost use Rattle.image_weaving.specs.Weaving.{ImageWoven, ImagePruned};
ghost use Rattle.image_weaving.specs.Parts.{RoomForAll, ListsSqueezed};

use crate::Squeeze;
use crate::lists::squeeze_list;
use image::check;
use image_form::{byte_at, entry_in};
use image_writer::write;
use rules::{Refusal, RuleList};

// Squeezes list k of an accepted image, counted from 0, after the lists before it, whose rules end at `from`. The answer is where its
// own rules end.
fn squeeze_next(
    squeeze: Squeeze,
    image: &[u8],
    k: usize,
    from: usize,
    ids: &mut [u16],
    counts: &mut [u16],
    care: &mut [u64],
    value: &mut [u64],
    decision: &mut [u16],
) -> usize
    requires { RoomForAll image.now ids.old counts.old care.old value.old decision.old × (k < count_in image.now)
        × ListsSqueezed squeeze image.now k from ids.old counts.old care.old value.old decision.old }
    ensures { ListsSqueezed squeeze image.now (k + 1) result
        ids.new counts.new care.new value.new decision.new }
{
    let entry = entry_in(image, 4 + 8 * k);
    let id = entry.id as u16;
    let first = from * 2;
    let t = squeeze_list(
        squeeze,
        image,
        id,
        &mut care[first..],
        &mut value[first..],
        &mut decision[from..],
    )
    .unwrap();
    ids[k] = id;
    counts[k] = t.kept as u16;
    from + t.kept
}

// Squeezes every list of an accepted image, and answers how many rules there are then.
fn squeeze_lists(
    squeeze: Squeeze,
    image: &[u8],
    ids: &mut [u16],
    counts: &mut [u16],
    care: &mut [u64],
    value: &mut [u64],
    decision: &mut [u16],
) -> usize
    requires { RoomForAll image.now ids.old counts.old care.old value.old decision.old }
    ensures { ListsSqueezed squeeze image.now (count_in image.now) result
        ids.new counts.new care.new value.new decision.new
        × RoomForAll image.now ids.new counts.new care.new value.new decision.new }
{
    let mut from = 0;
    for k in 0..byte_at(image, 2) {
        from = squeeze_next(squeeze, image, k, from, ids, counts, care, value, decision);
    }
    from
}

// Squeezes and writes an accepted image. No image has more than 3,640 rules: a rule takes 18 bytes or more of its 65,536.
fn squeeze_accepted(squeeze: Squeeze, image: &[u8], out: &mut [u8]) -> Result<usize, Refusal>
    requires { image_check image.now ≡ passed }
    ensures { ImageSqueezed squeeze image.now out.old result out.new }
{
    let mut ids = [0; 16];
    let mut counts = [0; 16];
    let mut care = [0; 7280];
    let mut value = [0; 7280];
    let mut decision = [0; 3640];
    let n = squeeze_lists(
        squeeze,
        image,
        &mut ids,
        &mut counts,
        &mut care,
        &mut value,
        &mut decision,
    );
    let lists = byte_at(image, 2);
    let rules = RuleList {
        care: &care[..n * 2],
        value: &value[..n * 2],
        decision: &decision[..n],
    };
    write(
        image[0],
        byte_at(image, 1) as u32,
        &ids[..lists],
        &counts[..lists],
        rules,
        out,
    )
}

// Squeezes every list of an image into `out`. The image's refusal, then 7.
fn squeeze_image(squeeze: Squeeze, image: &[u8], out: &mut [u8]) -> Result<usize, Refusal>
    ensures { ImageSqueezed squeeze image.now out.old result out.new }
{
    check(image)?;
    squeeze_accepted(squeeze, image, out)
}

// Weaves every list of an image into `out`: an image of the same format, width and ids. The image's refusal, then 7.
pub fn weave_image(image: &[u8], out: &mut [u8]) -> Result<usize, Refusal>
    ensures { ImageWoven image.now out.old result out.new }
{
    squeeze_image(Squeeze::Weave, image, out)
}

// Prunes every list of an image into `out`: an image of the same format, width and ids. The image's refusal, then 7.
pub fn prune_image(image: &[u8], out: &mut [u8]) -> Result<usize, Refusal>
    ensures { ImagePruned image.now out.old result out.new }
{
    squeeze_image(Squeeze::Prune, image, out)
}
