//! A font for a PDF, handed to C.

ghost use Rattle.std.specs.Prelude.{◌≡◌, ◌≢◌, ◌⊎◌, IfOk, IfErr, Ok, Err, map, true, length};
ghost use Rattle.subsetter_base.specs.declared.error.Error.{Error as SpecError};
ghost use Rattle.subsetter_base.specs.declared.error.Error.TheVariants.{OutOfMemory};
ghost use Rattle.subsetter_sfnt.specs.FontAt.{font_at};
ghost use Rattle.subsetter_variable.specs.Subset.{HasOpeningFaultAt};
ghost use Rattle.pdf_codes.specs.declared.shown.Shown.{Shown as SpecShown};
ghost use Rattle.pdf_font.specs.PdfFont.{IsPdfFont, font_of};
ghost use Rattle.subsetter_pdf_c.specs.Entries.{AreTexts, are_ascending, are_scalars, texts_from, uses_in};
ghost use Rattle.pdf_codes.specs.Shown.{texts_of};
ghost use Rattle.subsetter_c.specs.Documents.PdfFonts.{AreNumbersOf, IsEmpty, IsFontRefused, IsHandedBy, IsLaidOut, bytes_of, cmap_name, cmap_text, columns_of, default_column, is_there, kind_number, no_numbers, number_of, or_zero, refusal_status, usage_number, vertical_number};
ghost use Rattle.subsetter_c.specs.Settings.{settings_of};

use crate::answers::kept::{kept_bytes, kept_columns, kept_flags, kept_shorts, kept_words};
use crate::answers::status::{BITMAPS_ALONE, DONE, INVALID_TEXT, NOT_PERMITTED, status_of};
use crate::settings::{Coordinate, settings_for};
use pdf_font::{
    Column, Columns, FontError, FontOptions, NamedCmap, PdfFont, ProgramKind, Shown, Usage,
    lacks_outlines, pdf_font,
};
use std::alloc::Global;
use subsetter::{Error, Extras, Tag};
use subsetter_pdf_c::{PdfMade, PdfNumbers, characters_of, shown_of};
use subsetter_variable::check_opening_at;

// ---- numbers

/// The number of a kind of programs.
fn kind_number(kind: ProgramKind) -> u32
    ensures { result ≡ kind_number kind }
{
    match kind {
        ProgramKind::TrueType => 0,
        ProgramKind::BareCff => 1,
        ProgramKind::OpenType => 2,
    }
}

/// The number of a usage.
fn usage_number(usage: Usage) -> u32
    ensures { result ≡ usage_number usage }
{
    match usage {
        Usage::Unsaid => 0,
        Usage::Installable => 1,
        Usage::Editable => 2,
        Usage::PreviewAndPrint => 3,
        Usage::Restricted => 4,
    }
}

/// 1 for yes.
pub fn number_of(flag: bool) -> u32
    ensures { result ≡ number_of flag }
{
    if flag { 1 } else { 0 }
}

/// Whether a length is there.
fn is_there(length: Option<i32>) -> u32
    ensures { result ≡ is_there length }
{
    match length {
        None => 0,
        Some(_) => 1,
    }
}

/// A length, or 0.
fn or_zero(length: Option<i32>) -> i32
    ensures { result ≡ or_zero length }
{
    match length {
        None => 0,
        Some(length) => length,
    }
}

/// Whether text runs from top to bottom.
fn vertical_number(columns: &Option<Columns>) -> u32
    ensures { result ≡ vertical_number columns.now }
{
    match columns {
        None => 0,
        Some(_) => 1,
    }
}

/// DW2: y, and advance; 0 and 0 in horizontal writing.
fn default_column(columns: &Option<Columns>) -> [i32; 2]
    ensures { result ≡ default_column columns.now }
{
    match columns {
        None => [0, 0],
        Some(columns) => [columns.default.y, columns.default.advance],
    }
}

/// The numbers of a font.
fn numbers_of(font: &PdfFont) -> PdfNumbers
    ensures { AreNumbersOf font.now result }
{
    let values = font.descriptor.values;
    let edges = values.bounds;
    let heights = values.heights;
    PdfNumbers {
        kind: kind_number(font.kind),
        is_vertical: vertical_number(&font.columns),
        default_width: font.default_width,
        default_column: default_column(&font.columns),
        flags: values.flags,
        bounds: [edges.x_min, edges.y_min, edges.x_max, edges.y_max],
        italic_angle: values.italic_angle,
        ascent: heights.ascent,
        descent: heights.descent,
        cap_height: heights.cap_height,
        has_x_height: is_there(heights.x_height),
        x_height: or_zero(heights.x_height),
        stem_v: values.stem_v,
        font_weight: u32::from(values.font_weight),
        usage: usage_number(font.permission.usage),
        may_subset: number_of(font.permission.subsetting),
        may_embed_outlines: number_of(font.permission.outlines),
    }
}

/// No numbers.
fn no_numbers() -> PdfNumbers
    ensures { result ≡ no_numbers }
{
    PdfNumbers {
        kind: 0,
        is_vertical: 0,
        default_width: 0,
        default_column: [0, 0],
        flags: 0,
        bounds: [0, 0, 0, 0],
        italic_angle: 0,
        ascent: 0,
        descent: 0,
        cap_height: 0,
        has_x_height: 0,
        x_height: 0,
        stem_v: 0,
        font_weight: 0,
        usage: 0,
        may_subset: 0,
        may_embed_outlines: 0,
    }
}

// ---- lists

/// The columns of a font, if there are any.
fn kept_each(columns: Option<Columns>) -> &'static [Column]
    ensures { result.now ≡ columns_of columns }
{
    match columns {
        None => &[],
        Some(columns) => kept_columns(columns.each),
    }
}

/// The text and the name of a CMap, if there is one.
fn kept_cmap(cmap: Option<NamedCmap>) -> (&'static [u8], &'static [u8])
    ensures text { result.0.now ≡ cmap_text cmap }
    ensures name { result.1.now ≡ cmap_name cmap }
{
    match cmap {
        None => (&[], &[]),
        Some(cmap) => {
            let NamedCmap { name, text } = cmap;
            (kept_bytes(text), kept_bytes(name))
        }
    }
}

/// A CIDSet, if there is one.
fn kept_set(set: Option<Vec<u8>>) -> &'static [u8]
    ensures { result.now ≡ bytes_of set }
{
    match set {
        None => &[],
        Some(set) => kept_bytes(set),
    }
}

/// No font.
pub fn no_font() -> PdfMade
    ensures { IsEmpty result }
{
    PdfMade {
        program: &[],
        cids: &[],
        codes: &[],
        is_said: &[],
        widths: &[],
        columns: &[],
        font_name: &[],
        to_unicode: &[],
        encoding: &[],
        encoding_name: &[],
        cid_set: &[],
        numbers: no_numbers(),
    }
}

/// A font that stays until the caller gives it back.
pub fn laid_out(font: PdfFont) -> PdfMade
    ensures { IsLaidOut font result }
{
    let numbers = numbers_of(&font);
    let (encoding, encoding_name) = kept_cmap(font.encoding);
    PdfMade {
        program: kept_bytes(font.program),
        cids: kept_shorts(font.cids),
        codes: kept_shorts(font.codes),
        is_said: kept_flags(font.is_said),
        widths: kept_words(font.widths),
        columns: kept_each(font.columns),
        font_name: kept_bytes(font.descriptor.font_name),
        to_unicode: kept_bytes(font.to_unicode),
        encoding,
        encoding_name,
        cid_set: kept_set(font.cid_set),
        numbers,
    }
}

// ---- a font

/// The number of a refusal.
pub fn refusal_status(error: FontError) -> u32
    ensures { result ≡ refusal_status error }
{
    match error {
        FontError::Subset(error) => status_of(error),
        FontError::NotPermitted(_) => NOT_PERMITTED,
        FontError::TextTooLong => INVALID_TEXT,
        FontError::BitmapsAlone => BITMAPS_ALONE,
    }
}

/// Characters and coordinates as the calls below take them.
#[derive(Drop)]
struct Prepared {
    settings: Vec<(Tag, i32)>,
    characters: Vec<char>,
}

/// The characters of a text, for a font that can't be opened its fault in place of want of memory.
fn characters_for(
    alloc: Global,
    font: &[u8],
    index: u32,
    text: &[u32],
    extras: Extras,
) -> Result<Vec<char>, Error>
    requires { are_scalars text.now ≡ true }
    ensures ok { IfOk result (λ v. v.items ≡ text.now) }
    ensures err { IfErr result (λ e. (e ≡ OutOfMemory) ⊎ HasOpeningFaultAt (font_at font.now index extras) e) }
    ensures before_memory { (e : SpecError) → HasOpeningFaultAt (font_at font.now index extras) e → result ≢ Err OutOfMemory }
{
    match characters_of(alloc, text) {
        Ok(characters) => Ok(characters),
        Err(error) => {
            check_opening_at(font, index, extras)?;
            Err(error)
        }
    }
}

/// The glyphs with their texts, for a font that can't be opened its fault in place of want of memory.
fn shown_for<'a>(
    alloc: Global,
    font: &[u8],
    index: u32,
    glyphs: &[u16],
    characters: &'a [char],
    ends: &[usize],
    extras: Extras,
) -> Result<Vec<Shown<'a>>, Error>
    requires count { length glyphs.now ≡ length ends.now }
    requires ascending { are_ascending 0 ends.now (length characters.now) ≡ true }
    ensures glyphs { IfOk result (λ shown. map (λ (s : SpecShown). s.glyph) shown.items ≡ glyphs.now) }
    ensures texts { IfOk result (λ shown. texts_of shown.items ≡ texts_from characters.now 0 ends.now) }
    ensures err { IfErr result (λ e. (e ≡ OutOfMemory) ⊎ HasOpeningFaultAt (font_at font.now index extras) e) }
    ensures before_memory { (e : SpecError) → HasOpeningFaultAt (font_at font.now index extras) e → result ≢ Err OutOfMemory }
{
    match shown_of(alloc, glyphs, characters, ends) {
        Ok(shown) => Ok(shown),
        Err(error) => {
            check_opening_at(font, index, extras)?;
            Err(error)
        }
    }
}

/// Characters and coordinates.
fn prepare(
    alloc: Global,
    font: &[u8],
    index: u32,
    coordinates: &[Coordinate],
    text: &[u32],
    extras: Extras,
) -> Result<Prepared, Error>
    requires { are_scalars text.now ≡ true }
    ensures settings { IfOk result (λ p. p.settings.items ≡ settings_of coordinates.now) }
    ensures characters { IfOk result (λ p. p.characters.items ≡ text.now) }
    ensures err { IfErr result (λ e. (e ≡ OutOfMemory) ⊎ HasOpeningFaultAt (font_at font.now index extras) e) }
    ensures before_memory { (e : SpecError) → HasOpeningFaultAt (font_at font.now index extras) e → result ≢ Err OutOfMemory }
{
    let settings = settings_for(alloc, font, index, coordinates, extras)?;
    let characters = characters_for(alloc, font, index, text, extras)?;
    Ok(Prepared {
        settings,
        characters,
    })
}

/// What a PDF has of a font for glyphs with their texts.
pub fn font_for(
    alloc: Global,
    font: &[u8],
    index: u32,
    coordinates: &[Coordinate],
    glyphs: &[u16],
    text: &[u32],
    ends: &[usize],
    options: &FontOptions,
) -> Result<PdfFont, FontError>
    requires { AreTexts (length glyphs.now) text.now ends.now }
    ensures ok { IfOk result (λ f. IsPdfFont (font_of font.now index options.now) (settings_of coordinates.now) options.now (uses_in glyphs.now text.now ends.now) f) }
    ensures err { IfErr result (λ e. IsFontRefused (font_of font.now index options.now) (settings_of coordinates.now) options.now (uses_in glyphs.now text.now ends.now) e) }
{
    if lacks_outlines(font, index) {
        return Err(FontError::BitmapsAlone);
    }
    let extras = options.extras();
    let ready = match prepare(alloc, font, index, coordinates, text, extras) {
        Ok(ready) => ready,
        Err(error) => return Err(FontError::Subset(error)),
    };
    let shown = match shown_for(alloc, font, index, glyphs, &ready.characters, ends, extras) {
        Ok(shown) => shown,
        Err(error) => return Err(FontError::Subset(error)),
    };
    pdf_font(alloc, font, index, &ready.settings, &shown, options)
}

/// Hands a font over, or the error: the status.
pub fn hand_font(answer: Result<PdfFont, FontError>, made: &mut PdfMade) -> u32
    ensures { IsHandedBy (λ f. answer ≡ Ok f) (λ e. answer ≡ Err e) made.new result }
{
    match answer {
        Ok(font) => {
            *made = laid_out(font);
            DONE
        }
        Err(error) => {
            *made = no_font();
            refusal_status(error)
        }
    }
}
