//! The objects of a font that C holds, and sheets.

ghost use Rattle.std.specs.Prelude.{◌≡◌, ◌⊎◌, length, IfOk, IfErr};
ghost use Rattle.subsetter_base.specs.declared.error.Error.TheVariants.{OutOfMemory, OverflowError};
ghost use Rattle.pdf_codes.specs.Shown.{texts_of};
ghost use Rattle.subsetter_pdf_c.specs.Entries.{AreTexts, texts_from};
ghost use Rattle.subsetter_pdf_c.specs.Written.{AreLinesOf, AreObjectsOf, AreTooLargeFor, HaveNoNumbers, IsSheetOf, IsTooLargeFor};

use crate::entries::{characters_of, shown_of};
use crate::made::PdfMade;
use crate::view::view_of;
use pdf_codes::Shown;
use pdf_sheet::{Layout, SheetLine};
use pdf_text::FontObjects;
use std::alloc::Global;
use subsetter_base::Error;

/// The objects of a font with these bytes of CIDToGIDMap, whole, one after the other, with numbers from `first` on, and where
/// each begins: as `pdf_text::write_objects` writes them.
///
/// # Errors
///
/// - `OverflowError`: seven numbers from `first` on don't fit 32 bits, eight with a CIDToGIDMap, or there are more columns than
///   CIDs.
/// - `OutOfMemory`: a request for memory was refused.
pub fn write_objects(
    alloc: Global,
    made: &PdfMade,
    cid_to_gid_map: &'static [u8],
    first: u32,
) -> Result<FontObjects, Error>
    ensures ok { IfOk result (λ o. AreObjectsOf made.now cid_to_gid_map.now first o.text.items o.offsets.items) }
    ensures err { IfErr result (λ e. (e ≡ OutOfMemory) ⊎ ((e ≡ OverflowError) × HaveNoNumbers made.now cid_to_gid_map.now first)) }
{
    pdf_text::write_objects(alloc, view_of(made, cid_to_gid_map).values, first)
}

/// A sheet of glyphs with their texts.
fn write_sheet(
    alloc: Global,
    made: &PdfMade,
    shown: &[Shown<'_>],
    layout: Layout,
) -> Result<Vec<u8>, Error>
    ensures ok { IfOk result (λ file. IsSheetOf made.now (texts_of shown.now) layout file.items) }
    ensures err { IfErr result (λ e. (e ≡ OutOfMemory) ⊎ ((e ≡ OverflowError) × IsTooLargeFor made.now (texts_of shown.now) layout)) }
{
    pdf_objects::write_sheet(alloc, view_of(made, &[]), shown, layout)
}

/// A whole PDF that shows the glyphs that a font was made for, with their texts as C has them: as `pdf_objects::write_sheet`
/// writes it.
///
/// # Errors
///
/// - `OverflowError`: the objects have 10,000,000,000 bytes or more, their numbers don't fit 32 bits, or there are more columns
///   than CIDs.
/// - `OutOfMemory`: a request for memory was refused.
pub fn sheet_of(
    alloc: Global,
    made: &PdfMade,
    glyphs: &[u16],
    text: &[u32],
    ends: &[usize],
    layout: Layout,
) -> Result<Vec<u8>, Error>
    requires { AreTexts (length glyphs.now) text.now ends.now }
    ensures ok { IfOk result (λ file. IsSheetOf made.now (texts_from text.now 0 ends.now) layout file.items) }
    ensures err { IfErr result (λ e. (e ≡ OutOfMemory) ⊎ ((e ≡ OverflowError) × IsTooLargeFor made.now (texts_from text.now 0 ends.now) layout)) }
{
    let characters = characters_of(alloc, text)?;
    let shown = shown_of(alloc, glyphs, &characters, ends)?;
    write_sheet(alloc, made, &shown, layout)
}

/// A whole PDF that shows lines of a font with these bytes of CIDToGIDMap: as `pdf_sheet::write_lines` writes it.
///
/// # Errors
///
/// Those of [`sheet_of`].
pub fn lines_of(
    alloc: Global,
    made: &PdfMade,
    cid_to_gid_map: &'static [u8],
    lines: &[SheetLine<'_>],
) -> Result<Vec<u8>, Error>
    ensures ok { IfOk result (λ file. AreLinesOf made.now cid_to_gid_map.now lines.now file.items) }
    ensures err { IfErr result (λ e. (e ≡ OutOfMemory) ⊎ ((e ≡ OverflowError) × AreTooLargeFor made.now cid_to_gid_map.now lines.now)) }
{
    pdf_sheet::write_lines(alloc, view_of(made, cid_to_gid_map).values, lines)
}
