//! Kinds of pictures of glyphs, handed to C.

ghost use Rattle.subsetter_sfnt.specs.Extras.{all_extras};
ghost use Rattle.subsetter_sfnt.specs.FontAt.{font_at};
ghost use Rattle.glyph_kinds.specs.Kinds.{kinds_of};
ghost use Rattle.subsetter_c.specs.Kinds.{AreKindsOf};

use crate::answers::handing::begin_with;
use crate::answers::status::{DONE, TOO_SMALL, status_of};
use glyph_kinds::kinds_of;
use std::alloc::Global;

/// All kinds of pictures that a font has of glyphs, in a buffer of the caller: of each glyph a number with a bit for each kind.
///
/// Status 0: the first numbers of `kinds` are those of the glyphs, the rest of it is unchanged. Else it is unchanged. Status 8: it
/// is too small; status 1, 2 or 7: an error.
#[unsafe(no_mangle)]
pub extern "C" fn subsetter_glyph_kinds(
    alloc: Global,
    font: &[u8],
    index: u32,
    glyphs: &[u16],
    kinds: &mut [u32],
) -> u32
    ensures { AreKindsOf (kinds_of (font_at font.now index all_extras) glyphs.now) kinds.old kinds.new result }
{
    let found = match kinds_of(alloc, font, index, glyphs) {
        Ok(found) => found,
        Err(error) => return status_of(error),
    };
    if found.len() > kinds.len() {
        return TOO_SMALL;
    }
    begin_with(kinds, &found);
    DONE
}
