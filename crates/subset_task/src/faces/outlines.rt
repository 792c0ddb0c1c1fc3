//! What the outlines of a face are.

ghost use Rattle.std.specs.Prelude.{◌≡◌};
ghost use Rattle.subsetter_sfnt.specs.Extras.{all_extras};
ghost use Rattle.subset_task.specs.Faces.Outlines.{outlines_of, other_outlines};

use subset_lines::Outlines;
use subsetter::Tag;
use subsetter_sfnt::directory::table;

/// What the outlines of a face are.
pub fn outlines_of(font: &[u8], index: u32) -> Outlines
    ensures { result ≡ outlines_of (record { bytes = font.now; index = index; extras = all_extras }) }
{
    match table(font, index, Tag::GLYF) {
        Some(_) => Outlines::TrueType,
        None => other_outlines(font, index),
    }
}

/// What the outlines of a face without `glyf` are.
fn other_outlines(font: &[u8], index: u32) -> Outlines
    ensures { result ≡ other_outlines (record { bytes = font.now; index = index; extras = all_extras }) }
{
    match (table(font, index, Tag::CFF), table(font, index, Tag::CFF2)) {
        (Some(_), _) => Outlines::Cff,
        (None, Some(_)) => Outlines::Cff2,
        (None, None) => Outlines::Missing,
    }
}
