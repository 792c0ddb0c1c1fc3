//! The call.

ghost use Rattle.std.specs.Prelude.{◌≡◌, ◌⊎◌, ◌<◌, ◌≤◌, ◌+◌, length, IfOk, IfErr};
ghost use Rattle.subsetter_base.specs.declared.error.Error.TheVariants.{OutOfMemory};
ghost use Rattle.pdf_font.specs.PdfFont.{IsPdfFont, font_of};
ghost use Rattle.pdf_font.specs.declared.error.FontError.TheVariants.{Subset};
ghost use Rattle.pdf_text_font.specs.Own.{all_parts};
ghost use Rattle.pdf_text_font.specs.Pairs.{by_code, uses_of};
ghost use Rattle.pdf_text_font.specs.TextFont.{HasNoSubset, HasTextFault, IsTextFont, subset_options};

use crate::font::{TextFont, font_by_code};
use crate::own::all_parts;
use crate::pairs::{by_code, shown_of};
use pdf_figures::{OwnInk, Placed};
use pdf_font::{Codes, FontError, FontOptions, PdfFont, ProgramChoice, Tag, pdf_font};
use pdf_runs::Pair;
use std::alloc::Global;
use subsetter_base::remapper::Remapper;

/// What is chosen of the subset: it has no codes of its own, nor a CIDSet, and outlines of CFF as the bare table.
fn subset_options(options: &FontOptions) -> FontOptions
    ensures { result ≡ subset_options options.now }
{
    FontOptions {
        program: ProgramChoice::Smallest,
        codes: Codes::Consecutive,
        cid_set: false,
        ..*options
    }
}

/// The subset of glyph 0, the glyphs that codes want, and these parts.
fn subset_of(
    alloc: Global,
    data: &[u8],
    index: u32,
    coordinates: &[(Tag, i32)],
    pairs: &[Pair],
    count: usize,
    parts: &[Placed],
    options: &FontOptions,
) -> Result<PdfFont, FontError>
    ensures ok { IfOk result (λ f. IsPdfFont (font_of «data».now index options.now) coordinates.now (subset_options options.now) (uses_of count pairs.now parts.now) f) }
    ensures err { IfErr result (λ e. (e ≡ Subset OutOfMemory) ⊎ HasNoSubset (font_of «data».now index options.now) coordinates.now options.now (uses_of count pairs.now parts.now) e) }
{
    match shown_of(alloc, count, pairs, parts) {
        Ok(shown) => pdf_font(
            alloc,
            data,
            index,
            coordinates,
            &shown,
            &subset_options(options),
        ),
        Err(error) => Err(FontError::Subset(error)),
    }
}

/// What a PDF has of the font of a text with these pairs by code, and with own glyphs of these parts.
fn made(
    alloc: Global,
    data: &[u8],
    index: u32,
    coordinates: &[(Tag, i32)],
    pairs: &[Pair],
    count: usize,
    own: &[OwnInk],
    parts: &[Placed],
    options: &FontOptions,
) -> Result<TextFont, FontError>
    requires parts { parts.now ≡ all_parts own.now }
    requires some { 0 < length pairs.now }
    requires few { length pairs.now ≤ 65535 }
    ensures ok { IfOk result (λ t. IsTextFont (font_of «data».now index options.now) coordinates.now options.now count own.now pairs.now t) }
    ensures err { IfErr result (λ e. (e ≡ Subset OutOfMemory) ⊎ HasTextFault (font_of «data».now index options.now) coordinates.now options.now count own.now pairs.now e) }
{
    let subset = subset_of(
        alloc,
        data,
        index,
        coordinates,
        pairs,
        count,
        parts,
        options,
    )?;
    match font_by_code(alloc, subset, pairs, count, own, parts, options) {
        Ok(font) => Ok(font),
        Err(error) => Err(FontError::Subset(error)),
    }
}

/// What a PDF has of the font of a text with these pairs by code, and with own glyphs.
fn with_own(
    alloc: Global,
    data: &[u8],
    index: u32,
    coordinates: &[(Tag, i32)],
    pairs: &[Pair],
    count: usize,
    own: &[OwnInk],
    options: &FontOptions,
) -> Result<TextFont, FontError>
    requires some { 0 < length pairs.now }
    requires few { length pairs.now ≤ 65535 }
    ensures ok { IfOk result (λ t. IsTextFont (font_of «data».now index options.now) coordinates.now options.now count own.now pairs.now t) }
    ensures err { IfErr result (λ e. (e ≡ Subset OutOfMemory) ⊎ HasTextFault (font_of «data».now index options.now) coordinates.now options.now count own.now pairs.now e) }
{
    match all_parts(alloc, own) {
        Ok(parts) => made(
            alloc,
            data,
            index,
            coordinates,
            pairs,
            count,
            own,
            &parts,
            options,
        ),
        Err(error) => Err(FontError::Subset(error)),
    }
}

/// What a PDF has of the font of a text: of the subset of glyph 0 and the glyphs that its codes draw, by these codes, which are
/// its CIDs.
///
/// `data`, `index` and `coordinates` are as for `pdf_font`; the pairs are those of the runs. Their figures are the `count`
/// glyphs of the source, and after these own glyphs, whose parts are glyphs of the source: the subset has them too, and after its
/// glyphs the own ones. An own glyph that doesn't exist is a blank. In vertical writing an own glyph has no column. With outlines
/// of CFF an own glyph is its part's charstring again, with its advance as the width, where that can be encoded. The options
/// `codes` and `program` have no effect: outlines of CFF are the bare table.
///
/// # Errors
///
/// - those of `pdf_font`, but for `TextTooLong`
/// - `Subset`: there would be more than 65,535 glyphs, with own ones and a blank (`OverflowError`), or another error of
///   `with_own_glyphs`; or with outlines of CFF an own glyph has several parts or one that isn't at the origin (`OverflowError`),
///   or an error of `with_repeats`
/// - `Subset`: a request for memory was refused (`OutOfMemory`)
pub fn text_font(
    alloc: Global,
    data: &[u8],
    index: u32,
    coordinates: &[(Tag, i32)],
    pairs: &Remapper<u16, Pair>,
    count: usize,
    own: &[OwnInk],
    options: &FontOptions,
) -> Result<TextFont, FontError>
    ensures ok { IfOk result (λ t. IsTextFont (font_of «data».now index options.now) coordinates.now options.now count own.now (by_code pairs.now) t) }
    ensures err { IfErr result (λ e. (e ≡ Subset OutOfMemory) ⊎ HasTextFault (font_of «data».now index options.now) coordinates.now options.now count own.now (by_code pairs.now) e) }
{
    match by_code(alloc, pairs) {
        Ok(pairs) => with_own(alloc, data, index, coordinates, &pairs, count, own, options),
        Err(error) => Err(FontError::Subset(error)),
    }
}
