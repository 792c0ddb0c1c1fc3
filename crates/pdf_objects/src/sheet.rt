//! A sheet of a font.

ghost use Rattle.std.specs.Prelude.{◌≡◌, ◌⊎◌, IfOk, IfErr};
ghost use Rattle.subsetter_base.specs.declared.error.Error.TheVariants.{OutOfMemory, OverflowError};
ghost use Rattle.pdf_codes.specs.Shown.{texts_of};
ghost use Rattle.pdf_objects.specs.Glyphs.{IsSheetOf, IsTooLargeFor};

use crate::glyphs::glyphs_of;
use crate::view::FontView;
use pdf_font::Shown;
use pdf_sheet::Layout;
use std::alloc::Global;
use subsetter_base::Error;

/// A whole PDF that shows the glyphs that a font was made for, in 36 points: in a line, or in a grid of 12 by 16 a page. The
/// entries are those that the font was made for; where there are more entries or fewer, what has both a code and a text is shown.
///
/// # Errors
///
/// - `OverflowError`: the objects have 10,000,000,000 bytes or more, their numbers don't fit 32 bits, or there are more columns
///   than CIDs.
/// - `OutOfMemory`: a request for memory was refused.
pub fn write_sheet(
    alloc: Global,
    view: FontView<'_>,
    shown: &[Shown<'_>],
    layout: Layout,
) -> Result<Vec<u8>, Error>
    ensures ok { IfOk result (λ file. IsSheetOf view.entry (texts_of shown.now) layout file.items) }
    ensures err { IfErr result (λ e. (e ≡ OutOfMemory) ⊎ ((e ≡ OverflowError) × IsTooLargeFor view.entry (texts_of shown.now) layout)) }
{
    let glyphs = glyphs_of(alloc, view, shown)?;
    pdf_sheet::write_sheet(alloc, view.values, &glyphs, layout)
}
