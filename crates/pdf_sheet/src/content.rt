//! The content of a page (ISO 32000-1, 9.4).

ghost use Rattle.std.specs.Prelude.{◌≡◌, ◌++◌, ◌∷◌, [], IfErr, IfOk, OnOk, codes};
ghost use Rattle.subsetter_base.specs.declared.error.Error.TheVariants.{OutOfMemory};
ghost use Rattle.pdf_sheet.specs.Content.{content, glyph_position, glyphs_text, shown_text};

use crate::frame::{Frame, write_glyph_position};
use crate::glyphs::{SheetGlyph, write_glyph};
use std::alloc::Global;
use subsetter_base::Error;

/// Writes a glyph at its place.
#[tactic(auto, using(pdf_text::proofs::Pieces::two_written))]
fn write_positioned(
    text: &mut Vec<u8>,
    frame: Frame,
    place: usize,
    glyph: SheetGlyph<'_>,
) -> Result<(), Error>
    ensures ok { OnOk result (text.new.items ≡ text.old.items ++ (glyph_position frame.layout frame.vertical frame.height place ++ shown_text glyph.entry)) }
    ensures err { IfErr result (λ e. e ≡ OutOfMemory) }
{
    write_glyph_position(text, frame, place)?;
    write_glyph(text, glyph)
}

/// Writes glyphs, one after the other.
#[tactic(auto, using(pdf_text::proofs::Written::one_more_written))]
fn write_glyphs(text: &mut Vec<u8>, frame: Frame, glyphs: &[SheetGlyph<'_>]) -> Result<(), Error>
    ensures ok { OnOk result (text.new.items ≡ text.old.items ++ glyphs_text frame 0 glyphs.now) }
    ensures err { IfErr result (λ e. e ≡ OutOfMemory) }
{
    let mut place = 0;
    for glyph in glyphs {
        write_positioned(text, frame, place, *glyph)?;
        place += 1;
    }
    Ok(())
}

/// The content of a page with these glyphs.
#[tactic(auto, using(pdf_text::proofs::Written::three_after_nothing))]
pub fn content_of(alloc: Global, frame: Frame, glyphs: &[SheetGlyph<'_>]) -> Result<Vec<u8>, Error>
    ensures ok { IfOk result (λ text. text.items ≡ content frame glyphs.now) }
    ensures err { IfErr result (λ e. e ≡ OutOfMemory) }
{
    let mut text = Vec::new(alloc);
    text.extend_from_slice(b"BT\n/F0 36 Tf\n")?;
    write_glyphs(&mut text, frame, glyphs)?;
    text.extend_from_slice(b"ET")?;
    Ok(text)
}
