// Patterns written in 0, 1 and *.
ghost use Rattle.std.specs.Prelude.{◌≡◌, ◌≤◌};
ghost use Rattle.rules.specs.Rule.{rule_of};
ghost use Rattle.text.specs.Patterns.{glyph_at, pattern_text};
ghost use Rattle.text.specs.Put.{Put};

use rules::Rule;

// What stands for a place.
#[tactic(auto, unfolding(crate::specs::Patterns::glyph_at))]
fn glyph(width: u32, rule: Rule, place: u32) -> u8
    requires { place ≤ width }
    ensures { result ≡ glyph_at width (rule_of rule) place }
{
    let weight = width - place;
    if bits::bit_at(rule.care, weight) == 0 {
        return b'*';
    }
    b'0' + bits::bit_at(rule.value, weight) as u8
}

// Puts the pattern of a rule at the start of `out`, place 1 first, and answers how many bytes it takes, the width; None
// where the width is not 1 to 128 or `out` is too short, and then nothing changes.
pub fn write_pattern(width: u32, rule: Rule, out: &mut [u8]) -> Option<usize>
    ensures { Put (pattern_text width (rule_of rule)) out.old result out.new }
{
    let size = width as usize;
    if width < 1 {
        return None;
    }
    if 128 < width {
        return None;
    }
    if out.len() < size {
        return None;
    }
    for k in 0..width {
        out[k as usize] = glyph(width, rule, k + 1);
    }
    Some(size)
}
