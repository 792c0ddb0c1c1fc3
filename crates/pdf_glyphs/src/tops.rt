//! The tops of characters' glyphs.

ghost use Rattle.std.specs.Prelude.{◌≡◌};
ghost use Rattle.std.specs.Option.{option_copied};
ghost use Rattle.pdf_glyphs.specs.Boxes.{outlines_view};
ghost use Rattle.pdf_glyphs.specs.Tops.{glyph_by, top_of};

use crate::boxes::{OutlineTables, glyph_box};
use cmap::find_subtable;

/// The glyph of a character by `cmap`, which has 0 for one that the font lacks.
pub fn glyph_by(cmap: Option<&[u8]>, character: char) -> Option<u16>
    ensures { result ≡ glyph_by (option_copied cmap.entry) character }
{
    let bytes = cmap?;
    let subtable = find_subtable(bytes)?;
    Some(subtable.glyph_of(character))
}

/// The top of a character's glyph, in the font's units, by the header of its outline; none where the font lacks the
/// character, or its glyph is empty or cut.
pub fn top_of(tables: OutlineTables<'_>, cmap: Option<&[u8]>, character: char) -> Option<i16>
    ensures { result ≡ top_of (outlines_view tables.entry) (option_copied cmap.entry) character }
{
    let glyph = glyph_by(cmap, character)?;
    if glyph == 0 {
        return None;
    }
    let header = glyph_box(tables, glyph)?;
    Some(header.y_max)
}
