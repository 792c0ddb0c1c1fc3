//! The glyphs of characters.

ghost use Rattle.std.specs.Prelude.{◌≡◌, map, IfOk, IfErr, IfSome, None, Err, codes, true};
ghost use Rattle.std.specs.Option.{option_and_then, option_map};
ghost use Rattle.subsetter_base.specs.declared.error.Error.{Error as SpecError};
ghost use Rattle.subsetter_base.specs.declared.error.Error.TheVariants.{OutOfMemory};
ghost use Rattle.subsetter_sfnt.specs.Extras.{all_extras};
ghost use Rattle.subsetter_sfnt.specs.FontAt.{font_at};
ghost use Rattle.subsetter_sfnt.specs.Plain.{opened};
ghost use Rattle.subsetter_sfnt.specs.Read.{table_in};
ghost use Rattle.text_glyphs.specs.Choice.{character_glyph};
ghost use Rattle.text_glyphs.specs.Faces.{face_source};
ghost use Rattle.text_glyphs.specs.Reading.{source_of};
ghost use Rattle.text_glyphs.specs.View.{source_view};
ghost use Rattle.subsetter_pdf_c.specs.Entries.{are_scalars};
ghost use Rattle.subsetter_c.specs.Answers.Handed.{IsHandedOver, IsNothingHanded};
ghost use Rattle.subsetter_c.specs.Answers.Status.{no_cmap};

use crate::answers::handing::hand_glyphs;
use crate::answers::status::NO_CMAP;
use std::alloc::Global;
use subsetter::{Error, Extras, Tag};
use subsetter_pdf_c::characters_of;
use subsetter_sfnt::face::Face;
use subsetter_sfnt::parse::parse;
use text_glyphs::{TextSource, find_source, glyphs_of};

/// The tables of a face by which a text is read.
fn source_by<'a>(face: &Face<'a>) -> Option<TextSource<'a>>
    ensures { option_map source_view result ≡ option_and_then source_of (table_in face.now.«data».now face.now.records.now (codes "cmap")) }
{
    let cmap = face.stored(Tag::new(b"cmap"))?;
    find_source(cmap)
}

/// The tables of a font by which a text is read, if it has them. It needs no outlines.
pub fn source_for(font: &[u8], index: u32) -> Result<Option<TextSource<'_>>, Error>
    ensures ok { IfOk result (λ found. face_source (font_at font.now index all_extras) ≡ option_map source_view found) }
    ensures opens { IfOk result (λ found. (e : SpecError) → ¬ (opened (font_at font.now index all_extras) ≡ Err e)) }
    ensures err { IfErr result (λ e. opened (font_at font.now index all_extras) ≡ Err e) }
{
    let face = parse(font, index, Extras::ALL)?;
    Ok(source_by(&face))
}

/// The glyph of each character of a text.
pub fn glyphs_by(alloc: Global, source: &TextSource<'_>, text: &[u32]) -> Result<Vec<u16>, Error>
    requires { are_scalars text.now ≡ true }
    ensures ok { IfOk result (λ glyphs. glyphs.items ≡ map (character_glyph (source_view source.now).table) text.now) }
    ensures err { IfErr result (λ e. e ≡ OutOfMemory) }
{
    let characters = characters_of(alloc, text)?;
    Ok(glyphs_of(alloc, &source.table, &characters)?)
}

/// Hands the glyph of each character of a text over: the status.
pub fn hand_glyphs_by(
    alloc: Global,
    source: Option<TextSource<'_>>,
    text: &[u32],
    glyphs: &mut [u16],
    length: &mut usize,
) -> u32
    requires { are_scalars text.now ≡ true }
    ensures none { source.entry ≡ None → IsNothingHanded no_cmap glyphs.old glyphs.new length.new result }
    ensures some { IfSome source.entry (λ s. IsHandedOver (λ found. found ≡ map (character_glyph (source_view s).table) text.now) (λ e. e ≡ OutOfMemory) glyphs.old glyphs.new length.new result) }
{
    match source {
        Some(source) => hand_glyphs(glyphs_by(alloc, &source, text), glyphs, length),
        None => {
            *length = 0;
            NO_CMAP
        }
    }
}
