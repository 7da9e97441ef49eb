// The two formats of an image: what a reader and a writer have to know of each.
ghost use Rattle.std.specs.Prelude.{◌≡◌};
ghost use Rattle.image_form.specs.Formats.{layout_of};

use crate::FormatLayout;

// The layout of a format. A number that is no format has that of format 2, and is not known.
#[tactic(auto, unfolding(crate::specs::Formats::known, crate::specs::Formats::word_bytes, crate::specs::Formats::rule_size, crate::specs::Formats::most_places))]
pub fn layout(format: u8) -> FormatLayout
    ensures { result ≡ layout_of format }
{
    if format == 1 {
        return FormatLayout {
            known: true,
            word: 8,
            rule: 18,
            places: 64,
        };
    }
    FormatLayout {
        known: format == 2,
        word: 16,
        rule: 34,
        places: 128,
    }
}
