//! What `CFF ` says of a font (Technical Note 5176).

ghost use Rattle.std.specs.Prelude.{◌≡◌, Ok, IfErr};
ghost use Rattle.std.specs.Option.{option_copied};
ghost use Rattle.subsetter_base.specs.Gives.{Gives};
ghost use Rattle.subsetter_base.specs.declared.error.Error.TheVariants.{OutOfMemory};
ghost use Rattle.subsetter_sfnt.specs.Read.{table_in};
ghost use Rattle.pdf_cff.specs.View.{cff_values_view};
ghost use Rattle.pdf_source.specs.Cff.{cff_box, cff_values_by, font_stem};

use pdf_boxes::kept_box;
use pdf_cff::{CffValues, cff_values_in};
use pdf_values::{GlyphBox, units_per_em};
use std::alloc::Global;
use subsetter_base::{Error, Tag};
use subsetter_sfnt::face::Face;

/// What `CFF ` says, of a font that has it.
#[tactic(auto, unfolding(crate::specs::Cff::cff_values_by))]
pub fn cff_values_by<'a>(alloc: Global, face: &Face<'a>) -> Result<CffValues<'a>, Error>
    ensures value { Gives cff_values_view result (Ok (cff_values_by (table_in face.now.«data».now face.now.records.now))) }
    ensures err { IfErr result (λ e. e ≡ OutOfMemory) }
{
    match face.stored(Tag::CFF) {
        None => Ok(CffValues {
            name: None,
            stem: None,
        }),
        Some(cff) => cff_values_in(alloc, cff, units_per_em(face.stored(Tag::HEAD))),
    }
}

/// The least box around the first `count` glyphs of a `CFF `.
pub fn cff_box(alloc: Global, cff: Option<&[u8]>, count: u16) -> Result<Option<GlyphBox>, Error>
    ensures value { Gives (λ kept. kept) result (Ok (cff_box (option_copied cff.entry) count)) }
    ensures err { IfErr result (λ e. e ≡ OutOfMemory) }
{
    match cff {
        None => Ok(None),
        Some(cff) => kept_box(alloc, cff, count),
    }
}

/// The stem that the `CFF ` of a font says.
fn stem_of(alloc: Global, face: &Face<'_>) -> Result<Option<u32>, Error>
    ensures value { Gives (λ stem. stem) result (Ok ((cff_values_by (table_in face.now.«data».now face.now.records.now)).stem)) }
    ensures err { IfErr result (λ e. e ≡ OutOfMemory) }
{
    let said = cff_values_by(alloc, face)?;
    Ok(said.stem)
}

/// The vertical stem of a font: the one that its `CFF ` says, else that of the new font, whose private dicts have the blends of
/// outlines in `CFF2` resolved.
pub fn font_stem(alloc: Global, face: &Face<'_>, new: &Face<'_>) -> Result<Option<u32>, Error>
    ensures value { Gives (λ stem. stem) result (Ok (font_stem (table_in face.now.«data».now face.now.records.now) (table_in new.now.«data».now new.now.records.now))) }
    ensures err { IfErr result (λ e. e ≡ OutOfMemory) }
{
    match face.stored(Tag::CFF) {
        None => stem_of(alloc, new),
        Some(_) => stem_of(alloc, face),
    }
}
