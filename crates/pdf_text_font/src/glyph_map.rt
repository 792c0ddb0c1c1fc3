//! CIDToGIDMap as a stream.

ghost use Rattle.std.specs.Prelude.{◌≡◌, ◌≤◌, ◌+◌, IfOk, IfErr};
ghost use Rattle.subsetter_base.specs.declared.error.Error.TheVariants.{OutOfMemory};
ghost use Rattle.pdf_text_font.specs.GlyphMap.{glyph_number, map_bytes};

use crate::pairs::Drawing;
use std::alloc::Global;
use subsetter_base::Error;

/// The number of the glyph that draws a code: `owns` own glyphs come after the others, from `first` on, and after them the
/// blank.
fn glyph_number(first: u16, owns: u16, drawing: Drawing) -> u16
    requires { first + owns ≤ 65535 }
    ensures { result ≡ glyph_number first owns drawing }
{
    match drawing {
        Drawing::Glyph(number) => number,
        Drawing::Own(place) => first + place.min(owns),
        Drawing::Nothing => first + owns,
    }
}

/// The map from CIDs, which are codes, to the numbers of their glyphs.
///
/// # Errors
///
/// `OutOfMemory` alone.
pub fn map_to_glyphs(
    alloc: Global,
    first: u16,
    owns: u16,
    drawings: &[Drawing],
) -> Result<Vec<u8>, Error>
    requires { first + owns ≤ 65535 }
    ensures ok { IfOk result (λ map. map.items ≡ map_bytes first owns drawings.now) }
    ensures err { IfErr result (λ e. e ≡ OutOfMemory) }
{
    let mut map = Vec::new(alloc);
    for drawing in drawings {
        map.extend_from_slice(&glyph_number(first, owns, *drawing).to_be_bytes())?;
    }
    Ok(map)
}
