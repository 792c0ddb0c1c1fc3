//! The call.

ghost use Rattle.std.specs.Prelude.{◌≡◌, ◌≢◌, ◌⊎◌, ℕ, List, Err, IfOk, IfErr, codes, false, true};
ghost use Rattle.subsetter_base.specs.declared.error.Error.{Error as SpecError};
ghost use Rattle.subsetter_base.specs.declared.error.Error.TheVariants.{OutOfMemory};
ghost use Rattle.subsetter_variable.specs.Subset.{HasOpeningFaultAt};
ghost use Rattle.subsetter_sfnt.specs.Extras.{all_extras};
ghost use Rattle.subsetter_sfnt.specs.FontAt.{font_at};
ghost use Rattle.subsetter_sfnt.specs.Read.{stored, table_in};
ghost use Rattle.pdf_codes.specs.Shown.{uses_of};
ghost use Rattle.pdf_values.specs.Permission.{permission};
ghost use Rattle.pdf_font.specs.First.{IsFoundFirst};
ghost use Rattle.pdf_font.specs.Opened.{IsOpened};
ghost use Rattle.pdf_font.specs.PdfFont.{HasFontFault, HasNoPdfFont, IsEmbeddedFor, IsPdfFont, font_of, lacks_outlines};
ghost use Rattle.pdf_font.specs.declared.error.FontError.{FontError as SpecFontError};
ghost use Rattle.pdf_font.specs.declared.error.FontError.TheVariants.{Subset};

use crate::error::FontError;
use crate::font::{PdfFont, filled};
use cid_embed_at::embed_with_variations_and_options;
use pdf_codes::{Shown, glyphs_of, has_long_text};
use pdf_source::{FontOptions, new_font};
use pdf_values::{Permission, is_permitted, permission_of};
use std::alloc::Global;
use subsetter::{Extras, Options, Tag};
use subsetter_base::Error;
use subsetter_sfnt::alone::has_outlines;
use subsetter_sfnt::directory::records;
use subsetter_sfnt::face::Face;
use subsetter_sfnt::parse::parse;
use subsetter_variable::check_opening_at;

/// Whether a face's directory is read, and has no table of outlines: neither `glyf` nor `CFF ` nor `CFF2`.
pub fn lacks_outlines(data: &[u8], index: u32) -> bool
    ensures { result ≡ lacks_outlines (font_at «data».now index all_extras) }
{
    records(data, index).is_some() && !has_outlines(data, index)
}

/// The face of a font that can be opened.
fn opened_face(data: &[u8], index: u32, extras: Extras) -> Result<Face<'_>, Error>
    ensures ok { IfOk result (λ face. IsOpened (font_at «data».now index extras) face) }
    ensures err { IfErr result (λ e. HasOpeningFaultAt (font_at «data».now index extras) e) }
{
    check_opening_at(data, index, extras)?;
    parse(data, index, extras)
}

/// What a PDF has of a font that can be opened, for the glyphs in use; it permits this.
fn made(
    alloc: Global,
    data: &[u8],
    index: u32,
    face: &Face<'_>,
    coordinates: &[(Tag, i32)],
    shown: &[Shown<'_>],
    options: &FontOptions,
    permission: Permission,
) -> Result<PdfFont, Error>
    requires { IsOpened (font_of «data».now index options.now) face.now }
    ensures ok { IfOk result (λ f. IsEmbeddedFor (font_of «data».now index options.now) coordinates.now options.now (uses_of shown.now) f) }
    ensures permission { IfOk result (λ f. f.permission ≡ permission) }
    ensures err { IfErr result (λ e. (e ≡ OutOfMemory) ⊎ ((order : List ℕ) × HasFontFault (font_of «data».now index options.now) coordinates.now options.now (uses_of shown.now) order (Subset e))) }
    ensures no_answer { IfErr result (λ e. (e ≡ OutOfMemory) ⊎ HasNoPdfFont (font_of «data».now index options.now) coordinates.now options.now (uses_of shown.now)) }
{
    let glyphs = glyphs_of(alloc, shown)?;
    let chosen = Options {
        limits: options.limits,
        extras: Extras {
            hinting: options.hinting,
            names: false,
            glyph_names: false,
        },
    };
    let embedded = embed_with_variations_and_options(
        alloc,
        data,
        index,
        coordinates,
        &glyphs,
        &chosen,
    )?;
    let requested = embedded.widths.len() as u16;
    let new = new_font(alloc, face, embedded.font, coordinates, options, requested)?;
    filled(
        alloc,
        face,
        coordinates,
        shown,
        options,
        &glyphs,
        embedded.cids,
        &embedded.widths,
        new,
        permission,
    )
}

/// What a PDF has of a font for the glyphs in use: the new font of these glyphs, as `embed_with_variations` makes it, the
/// codes, the widths, the values of the font descriptor, the ToUnicode CMap and the CMap of the codes.
///
/// `data`, `index` and `coordinates` are as for `embed_with_variations`.
///
/// # Errors
///
/// The first of these that comes:
///
/// - `BitmapsAlone`: the face's directory is read, and has no table of outlines (`glyf`, `CFF `, `CFF2`).
/// - `Subset`: the font can't be opened.
/// - `NotPermitted`: `fsType` forbids it, and the caller holds no rights.
/// - `TextTooLong`: a text has more than 256 UTF-16 units.
/// - `Subset`: an error of `embed_with_variations`; a TrueType font without `maxp` (`MalformedFont`); more than 65,535
///   pairs of a glyph and a text (`OverflowError`); a request for memory was refused (`OutOfMemory`).
pub fn pdf_font(
    alloc: Global,
    data: &[u8],
    index: u32,
    coordinates: &[(Tag, i32)],
    shown: &[Shown<'_>],
    options: &FontOptions,
) -> Result<PdfFont, FontError>
    // What is answered is what a PDF has of the font.
    ensures ok { IfOk result (λ f. IsPdfFont (font_of «data».now index options.now) coordinates.now options.now (uses_of shown.now) f) }
    // What is refused has a fault of that name.
    ensures err { IfErr result (λ e. (e ≡ Subset OutOfMemory) ⊎ ((order : List ℕ) × HasFontFault (font_of «data».now index options.now) coordinates.now options.now (uses_of shown.now) order e)) }
    // And, unless memory ran out, it has no answer.
    ensures no_answer { IfErr result (λ e. (e ≡ Subset OutOfMemory) ⊎ HasNoPdfFont (font_of «data».now index options.now) coordinates.now options.now (uses_of shown.now)) }
    // Where a fault is found before memory is taken, the answer isn't out of memory.
    ensures before_memory { (e : SpecError) → HasOpeningFaultAt (font_of «data».now index options.now) e → result ≢ Err (Subset OutOfMemory) }
    // Such faults come first, in this order: no outlines, opening, permission, texts.
    ensures first { IsFoundFirst (font_of «data».now index options.now) options.now (uses_of shown.now) result }
{
    if lacks_outlines(data, index) {
        return Err(FontError::BitmapsAlone);
    }
    let face = match opened_face(data, index, options.extras()) {
        Ok(face) => face,
        Err(error) => return Err(FontError::Subset(error)),
    };
    let permission = permission_of(face.stored(Tag::new(b"OS/2")));
    if !is_permitted(permission, options.rights) {
        return Err(FontError::NotPermitted(permission));
    }
    if has_long_text(shown) {
        return Err(FontError::TextTooLong);
    }
    match made(
        alloc,
        data,
        index,
        &face,
        coordinates,
        shown,
        options,
        permission,
    ) {
        Ok(font) => Ok(font),
        Err(error) => Err(FontError::Subset(error)),
    }
}
