//! The tops of glyphs of the source, in the font's units.

ghost use Rattle.std.specs.Prelude.{◌≡◌, ◌⊎◌, [], ◌∷◌, Ok, IfOk, IfErr};
ghost use Rattle.std.specs.Option.{option_copied};
ghost use Rattle.subsetter_base.specs.Gives.{Gives};
ghost use Rattle.subsetter_base.specs.Indexes.{HasAllAboveZero, with_glyphs};
ghost use Rattle.subsetter_base.specs.declared.error.Error.TheVariants.{OutOfMemory, OverflowError};
ghost use Rattle.subsetter_sfnt.specs.Read.{table_in};
ghost use Rattle.pdf_source.specs.Tops.{are_wanted, character_top, drawn_top, known_of, tops_if, tops_of};

use crate::described::outlines_of;
use pdf_boxes::{glyph_top, glyph_tops};
use pdf_glyphs::{glyph_by, top_of};
use pdf_values::{GlyphBox, Known};
use std::alloc::Global;
use subsetter_base::{Error, GlyphRemapper, Tag};
use subsetter_sfnt::face::Face;
use subsetter_type2::limits::Limits;

/// The top of a glyph of `CFF `, but for glyph 0.
fn drawn_top(
    alloc: Global,
    cff: Option<&[u8]>,
    limits: &Limits,
    glyph: u16,
) -> Result<Option<i16>, Error>
    ensures value { Gives (λ top. top) result (Ok (drawn_top (option_copied cff.entry) limits.now glyph)) }
    ensures err { IfErr result (λ e. e ≡ OutOfMemory) }
{
    match cff {
        None => Ok(None),
        Some(cff) => {
            if glyph == 0 {
                return Ok(None);
            }
            glyph_top(alloc, cff, limits, glyph)
        }
    }
}

/// The top of a character's glyph: by the header of its outline in `glyf`, or by its charstring in `CFF `, run within these limits.
pub(crate) fn character_top(
    alloc: Global,
    face: &Face<'_>,
    limits: &Limits,
    character: char,
) -> Result<Option<i16>, Error>
    ensures value { Gives (λ top. top) result (Ok (character_top (table_in face.now.«data».now face.now.records.now) limits.now character)) }
    ensures err { IfErr result (λ e. e ≡ OutOfMemory) }
{
    let cmap = face.stored(Tag::new(b"cmap"));
    match face.stored(Tag::GLYF) {
        Some(_) => Ok(top_of(outlines_of(face), cmap, character)),
        None => match glyph_by(cmap, character) {
            Some(glyph) => drawn_top(alloc, face.stored(Tag::CFF), limits, glyph),
            None => Ok(None),
        },
    }
}

/// What is known of glyphs: the tops of two of the source, and a stem and the box of the kept ones, which are given.
pub(crate) fn known_of(
    alloc: Global,
    face: &Face<'_>,
    limits: &Limits,
    stem: Option<u32>,
    kept: Option<GlyphBox>,
) -> Result<Known, Error>
    ensures value { Gives (λ known. known) result (Ok (known_of (table_in face.now.«data».now face.now.records.now) limits.now stem kept)) }
    ensures err { IfErr result (λ e. e ≡ OutOfMemory) }
{
    let cap_top = character_top(alloc, face, limits, 'H')?;
    let x_top = character_top(alloc, face, limits, 'x')?;
    Ok(Known {
        cap_top,
        x_top,
        kept,
        stem,
    })
}

/// Whether tops of glyphs and their bearings say the origins of columns, but for those of `glyf`.
fn are_wanted(face: &Face<'_>) -> bool
    ensures { result ≡ are_wanted (table_in face.now.«data».now face.now.records.now) }
{
    face.stored(Tag::GLYF).is_none()
        && (face.stored(Tag::new(b"vmtx")).is_some() && face.stored(Tag::new(b"VORG")).is_none())
}

/// The tops of glyphs of `CFF `, where they are wanted.
fn tops_if(
    alloc: Global,
    wanted: bool,
    cff: Option<&[u8]>,
    limits: &Limits,
    glyphs: &[u16],
) -> Result<Vec<i16>, Error>
    ensures ok { IfOk result (λ tops. tops.items ≡ tops_if wanted (option_copied cff.entry) limits.now glyphs.now) }
    ensures err { IfErr result (λ e. e ≡ OutOfMemory) }
{
    if !wanted {
        return Ok(Vec::new(alloc));
    }
    match cff {
        None => Ok(Vec::new(alloc)),
        Some(cff) => glyph_tops(alloc, cff, limits, glyphs),
    }
}

/// Glyph 0 and these glyphs, each once, in the order of their numbers in the new font.
fn numbered(alloc: Global, glyphs: &[u16]) -> Result<Vec<u16>, Error>
    ensures ok { IfOk result (λ all. all.items ≡ with_glyphs (0 ∷ []) glyphs.now) }
    ensures err { IfErr result (λ e. (e ≡ OutOfMemory) ⊎ ((e ≡ OverflowError) × HasAllAboveZero glyphs.now)) }
{
    let mapper = GlyphRemapper::new_from_glyphs(alloc, glyphs)?;
    Ok(mapper.remapped_gids().collect(alloc)?)
}

/// The tops of glyph 0 and of these glyphs, each once, by which columns have their origins: of outlines in `CFF ` with `vmtx` and without
/// `VORG`, whose charstrings run within these limits. Else none.
///
/// # Errors
///
/// - `OverflowError`: all glyphs above 0 are in use.
/// - `OutOfMemory`: a request for memory was refused.
pub fn tops_of(
    alloc: Global,
    face: &Face<'_>,
    limits: &Limits,
    glyphs: &[u16],
) -> Result<Vec<i16>, Error>
    ensures ok { IfOk result (λ tops. tops.items ≡ tops_of (table_in face.now.«data».now face.now.records.now) limits.now (with_glyphs (0 ∷ []) glyphs.now)) }
    ensures err { IfErr result (λ e. (e ≡ OutOfMemory) ⊎ ((e ≡ OverflowError) × HasAllAboveZero glyphs.now)) }
{
    let all = numbered(alloc, glyphs)?;
    tops_if(alloc, are_wanted(face), face.stored(Tag::CFF), limits, &all)
}
