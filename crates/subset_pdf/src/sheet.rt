//! The PDF.

ghost use Rattle.std.specs.Prelude.{◌≡◌, ◌≢◌, ◌⊎◌, false, IfOk, IfErr, OnOk};
ghost use Rattle.std.specs.Option.{option_copied, option_map};
ghost use Rattle.pdf_objects.specs.Glyphs.{IsSheetOfFont};
ghost use Rattle.subset_pdf.specs.Sheet.{HasCodedFault, HasFaultFor, HasNoPage, HasSheetFault, HasSheetFaultAs, HasSheetFaultBy, HasTextFaultFor, HasTextSheetFault, IsCodedSheet, IsFontFor, IsGrid, IsPage, IsSheetAs, IsSheetBy, IsSheetFor, IsShownAs, IsTextFor, IsTextSheet, IsTooLargeAs, IsUnshownAs, is_coded, named};
ghost use Rattle.subset_pdf.specs.declared.sheet.SheetError.TheVariants.{Font as RefusedFont};
ghost use Rattle.subsetter_base.specs.declared.error.Error.TheVariants.{OutOfMemory, OverflowError};

use crate::cells::{are_single, cells_of};
use crate::line::{Line, line_for};
use crate::options::{PdfRequest, options_of};
use crate::shown::shown_of;
use pdf_font::{FontError, PdfFont, Permission, Shown, pdf_font};
use pdf_objects::{Layout, view_of, view_with, write_sheet};
use pdf_sheet::{SheetLine, write_lines};
use pdf_text_font::{TextFont, text_font};
use std::alloc::Global;
use subsetter_base::Error;

/// A PDF that shows glyphs, and all that it has of their font.
#[derive(Drop)]
pub struct Sheet {
    /// What the PDF has of the font. Its codes are those that are shown, in order.
    pub font: PdfFont,
    /// The bytes of the PDF.
    pub file: Vec<u8>,
}

/// Why there is no PDF.
#[derive(Drop)]
pub enum SheetError {
    /// The font is refused, the PDF would be too large, or memory ran out.
    Font(Error),
    /// The font's maker doesn't permit it, and the user holds no rights.
    NotPermitted(Permission),
    /// The text of a glyph is too long.
    TextTooLong,
}

impl From<Error> for SheetError {
    ghost from_gives = { λ error why. why ≡ RefusedFont error };

    fn from(error: Error) -> SheetError {
        SheetError::Font(error)
    }
}

impl From<FontError> for SheetError {
    ghost from_gives = { λ error why. why ≡ named error };

    fn from(error: FontError) -> SheetError {
        match error {
            FontError::Subset(error) => SheetError::Font(error),
            FontError::NotPermitted(permission) => SheetError::NotPermitted(permission),
            FontError::TextTooLong => SheetError::TextTooLong,
            FontError::BitmapsAlone => SheetError::Font(Error::UnknownKind),
        }
    }
}

// ---- by codes

/// What the PDF has of the font for glyphs in use.
#[tactic(auto, using(crate::proofs::Sheets::font_made))]
fn font_for(
    alloc: Global,
    data: &[u8],
    request: &PdfRequest<'_>,
    shown: &[Shown<'_>],
) -> Result<PdfFont, SheetError>
    ensures ok { IfOk result (IsFontFor «data».now request.now shown.now) }
    ensures err { IfErr result (λ e. (e ≡ RefusedFont OutOfMemory) ⊎ HasFaultFor «data».now request.now shown.now e) }
{
    let options = options_of(request);
    let font = pdf_font(alloc, data, request.index, request.at, shown, &options)?;
    Ok(font)
}

/// The PDF of a font.
#[tactic(auto, using(crate::proofs::Sheets::sheet_of_font, crate::proofs::Sheets::too_large_as))]
fn drawn(
    alloc: Global,
    request: &PdfRequest<'_>,
    font: PdfFont,
    shown: &[Shown<'_>],
) -> Result<Sheet, SheetError>
    ensures font { IfOk result (λ sheet. sheet.font ≡ font) }
    ensures ok { IfOk result (λ sheet. IsSheetOfFont sheet.font shown.now request.now.layout sheet.file.items) }
    ensures err { IfErr result (λ e. (e ≡ RefusedFont OutOfMemory) ⊎ IsTooLargeAs font shown.now request.now.layout e) }
{
    let file = write_sheet(alloc, view_of(&font), shown, request.layout)?;
    Ok(Sheet { font, file })
}

/// The PDF that shows glyphs in use by their codes.
#[tactic(auto, using(crate::proofs::Sheets::sheet_by, crate::proofs::Sheets::no_sheet_by, crate::proofs::Sheets::no_font_by))]
fn coded_sheet(
    alloc: Global,
    data: &[u8],
    request: &PdfRequest<'_>,
    shown: &[Shown<'_>],
) -> Result<Sheet, SheetError>
    ensures ok { IfOk result (IsCodedSheet «data».now request.now shown.now) }
    ensures err { IfErr result (λ e. (e ≡ RefusedFont OutOfMemory) ⊎ HasCodedFault «data».now request.now shown.now e) }
{
    let font = font_for(alloc, data, request, shown)?;
    drawn(alloc, request, font, shown)
}

// ---- as a text

/// What a PDF has of the font of a line.
#[tactic(auto, using(crate::proofs::Sheets::text_made))]
fn text_for(
    alloc: Global,
    data: &[u8],
    request: &PdfRequest<'_>,
    line: &Line,
) -> Result<TextFont, SheetError>
    ensures ok { IfOk result (IsTextFor «data».now request.now line.now) }
    ensures err { IfErr result (λ e. (e ≡ RefusedFont OutOfMemory) ⊎ HasTextFaultFor «data».now request.now line.now e) }
{
    let options = options_of(request);
    let text = text_font(
        alloc,
        data,
        request.index,
        request.at,
        &line.pairs,
        line.glyph_count,
        &[],
        &options,
    )?;
    Ok(text)
}

/// The bytes of CIDToGIDMap, if that is a stream.
pub fn map_of(text: &TextFont) -> Option<&[u8]>
    ensures { option_copied result ≡ option_map (λ m. m.items) text.now.cid_to_gid_map }
{
    match &text.cid_to_gid_map {
        None => None,
        Some(map) => Some(map),
    }
}

/// The page of a line.
#[tactic(auto, using(crate::proofs::Sheets::page_made, crate::proofs::Sheets::page_unmade))]
fn page_of(alloc: Global, text: &TextFont, line: &Line) -> Result<Vec<u8>, Error>
    ensures ok { IfOk result (λ file. IsPage text.now line.now file.items) }
    ensures err { IfErr result (λ e. (e ≡ OutOfMemory) ⊎ ((e ≡ OverflowError) × HasNoPage text.now line.now)) }
{
    let view = view_with(&text.font, map_of(text));
    let shown = SheetLine {
        operators: &line.operators,
        advance: line.advance,
    };
    let file = write_lines(alloc, view.values, &[shown])?;
    Ok(file)
}

/// The pages of a line's glyphs.
fn pages_of(
    alloc: Global,
    layout: Layout,
    text: &TextFont,
    line: &Line,
    shown: &[Shown<'_>],
) -> Result<Vec<u8>, Error>
    ensures ok { IfOk result (λ file. IsShownAs layout text.now line.now shown.now file.items) }
    ensures err { IfErr result (λ e. (e ≡ OutOfMemory) ⊎ ((e ≡ OverflowError) × IsUnshownAs layout text.now line.now shown.now)) }
{
    match layout {
        Layout::Line => page_of(alloc, text, line),
        Layout::Grid => cells_of(alloc, text, line, shown),
    }
}

/// The PDF that shows glyphs in use as the line of a text.
#[tactic(auto, using(crate::proofs::Sheets::text_drawn, crate::proofs::Sheets::no_line_for, crate::proofs::Sheets::no_text_for, crate::proofs::Sheets::no_page_for))]
fn text_sheet(
    alloc: Global,
    data: &[u8],
    request: &PdfRequest<'_>,
    shown: &[Shown<'_>],
) -> Result<Sheet, SheetError>
    ensures ok { IfOk result (IsTextSheet «data».now request.now shown.now) }
    ensures err { IfErr result (λ e. (e ≡ RefusedFont OutOfMemory) ⊎ HasTextSheetFault «data».now request.now shown.now e) }
{
    let line = line_for(alloc, data, request, shown)?;
    let text = text_for(alloc, data, request, &line)?;
    let file = pages_of(alloc, request.layout, &text, &line, shown)?;
    let font = PdfFont {
        codes: line.codes,
        ..text.font
    };
    Ok(Sheet { font, file })
}

// ---- both

/// The error, where memory ran out; another one is passed over.
fn unless_memory(error: SheetError) -> Result<(), SheetError>
    ensures ok { OnOk result (error ≢ RefusedFont OutOfMemory) }
    ensures err { IfErr result (λ e. e ≡ RefusedFont OutOfMemory) }
{
    match error {
        SheetError::Font(Error::OutOfMemory) => Err(SheetError::Font(Error::OutOfMemory)),
        _ => Ok(()),
    }
}

/// The PDF that shows glyphs in use in a grid.
#[tactic(auto, using(crate::proofs::Sheets::grid_by, crate::proofs::Sheets::is_fault))]
fn grid_sheet(
    alloc: Global,
    data: &[u8],
    request: &PdfRequest<'_>,
    shown: &[Shown<'_>],
) -> Result<Sheet, SheetError>
    ensures ok { IfOk result (IsGrid «data».now request.now shown.now) }
    ensures err { IfErr result (λ e. (e ≡ RefusedFont OutOfMemory) ⊎ HasCodedFault «data».now request.now shown.now e) }
{
    if !are_single(shown) {
        return coded_sheet(alloc, data, request, shown);
    }
    match text_sheet(alloc, data, request, shown) {
        Ok(sheet) => Ok(sheet),
        Err(error) => {
            unless_memory(error)?;
            coded_sheet(alloc, data, request, shown)
        }
    }
}

/// The PDF that shows glyphs in use, where no way of getting codes is given.
fn plain_sheet(
    alloc: Global,
    data: &[u8],
    request: &PdfRequest<'_>,
    shown: &[Shown<'_>],
) -> Result<Sheet, SheetError>
    ensures ok { IfOk result (IsSheetAs false request.now.layout «data».now request.now shown.now) }
    ensures err { IfErr result (λ e. (e ≡ RefusedFont OutOfMemory) ⊎ HasSheetFaultAs false request.now.layout «data».now request.now shown.now e) }
{
    match request.layout {
        Layout::Line => text_sheet(alloc, data, request, shown),
        Layout::Grid => grid_sheet(alloc, data, request, shown),
    }
}

/// Whether a way of getting codes is given.
fn is_coded(request: &PdfRequest<'_>) -> bool
    ensures { result ≡ is_coded request.now }
{
    request.choice.coding.is_some()
}

/// The PDF that shows glyphs in use.
#[tactic(auto, using(crate::proofs::Sheets::sheet_as, crate::proofs::Sheets::no_sheet_as))]
fn sheet_of(
    alloc: Global,
    data: &[u8],
    request: &PdfRequest<'_>,
    shown: &[Shown<'_>],
) -> Result<Sheet, SheetError>
    ensures ok { IfOk result (IsSheetBy «data».now request.now shown.now) }
    ensures err { IfErr result (λ e. (e ≡ RefusedFont OutOfMemory) ⊎ HasSheetFaultBy «data».now request.now shown.now e) }
{
    if is_coded(request) {
        coded_sheet(alloc, data, request, shown)
    } else {
        plain_sheet(alloc, data, request, shown)
    }
}

/// A PDF that shows glyphs of a font in 36 points, in a line, or in a grid of 12 by 16 a page. Each has its text: as many of the
/// next characters as its length says. They are those of a text, by its codes, unless it is chosen how glyphs get codes; a grid is
/// of what `pdf_font` returns also where a glyph has several characters, and where the font is refused as a text's.
///
/// # Errors
///
/// - `NotPermitted`: `fsType` forbids it, and the user holds no rights.
/// - `TextTooLong`: the text of a glyph is too long.
/// - `Font`: what `pdf_font` returns, and for a line `text_metrics`; a glyph of a line isn't the font's (`MalformedFont`), or its
///   text is too long (`OverflowError`); the PDF would have 10,000,000,000 bytes or more (`OverflowError`); a request for memory was
///   refused (`OutOfMemory`).
#[tactic(auto, using(crate::proofs::Sheets::sheet_for, crate::proofs::Sheets::no_sheet_for))]
pub fn make_sheet(
    alloc: Global,
    data: &[u8],
    request: &PdfRequest<'_>,
    text: &[char],
    lengths: &[usize],
    glyphs: &[u16],
) -> Result<Sheet, SheetError>
    // What is made is the sheet of what `pdf_font` returns for the glyphs, or of their line and what `text_font` returns for it.
    ensures ok { IfOk result (IsSheetFor «data».now request.now text.now lengths.now glyphs.now) }
    // What is refused has a fault of that name.
    ensures err { IfErr result (λ e. (e ≡ RefusedFont OutOfMemory) ⊎ HasSheetFault «data».now request.now text.now lengths.now glyphs.now e) }
{
    let shown = shown_of(alloc, text, lengths, glyphs)?;
    sheet_of(alloc, data, request, &shown)
}
