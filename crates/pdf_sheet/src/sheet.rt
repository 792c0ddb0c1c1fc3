//! A sheet, and what is known of it.

ghost use Rattle.std.specs.Prelude.{◌≡◌, ◌≤◌, ◌<◌, ◌+◌, ◌^◌, ◌++◌, ◌⊎◌, IfErr, IfOk, is_some, length};
ghost use Rattle.subsetter_base.specs.declared.error.Error.TheVariants.{OutOfMemory, OverflowError};
ghost use Rattle.pdf_text.specs.Dictionaries.Widths.{HasManyColumns};
ghost use Rattle.pdf_text.specs.Objects.{font_objects, most_objects};
ghost use Rattle.pdf_sheet.specs.Content.{frame_of};
ghost use Rattle.pdf_sheet.specs.Pages.{page_count, font_number, font_values, front_values, sheet_values, HasNoFile, IsTooLarge};
ghost use Rattle.pdf_sheet.specs.Lines.{AreTooLarge, lines_front, lines_values};
ghost use Rattle.pdf_sheet.specs.File.{body_of, offsets_of, file_of, AreInTable, ObjectsAreInTable};
ghost use Rattle.pdf_sheet.specs.Read.{AreShown};
ghost use Rattle.pdf_sheet.specs.View.{texts_view};

use crate::file::{Body, body_of, checked, push_objects, write_table};
use crate::frame::{Frame, Layout, frame_of};
use crate::glyphs::SheetGlyph;
use crate::lines::{SheetLine, lines_front};
use crate::pages::{front_values, page_count};
use pdf_text::{FontValues, most_objects, write_objects};
use std::alloc::Global;
use subsetter_base::Error;

/// The number of the font's first object after `count` pages, where the font has at most `most` objects.
fn font_number(count: usize, most: u32) -> Result<u32, Error>
    requires { most ≤ 8 }
    ensures ok { IfOk result (λ first. first ≡ font_number count) }
    ensures err { IfErr result (λ e. (e ≡ OverflowError) × (2 ^ 32 ≤ font_number count + most)) }
{
    if count >= 2_147_483_648 {
        return Err(Error::OverflowError);
    }
    let number = 3 + 2 * count as u64;
    if number + u64::from(most) >= 4_294_967_296 {
        return Err(Error::OverflowError);
    }
    Ok(number as u32)
}

/// The page.
fn frame_for(layout: Layout, values: FontValues<'_>, glyphs: &[SheetGlyph<'_>]) -> Frame
    ensures { result ≡ frame_of layout (is_some values.entry.columns) glyphs.now }
{
    frame_of(layout, values.columns.is_some(), glyphs)
}

/// The values before the font, whose number this is.
fn front_for(
    alloc: Global,
    values: FontValues<'_>,
    first: u32,
    lines: &[SheetLine<'_>],
) -> Result<Vec<Vec<u8>>, Error>
    requires { first ≡ font_number (length lines.now) }
    ensures ok { IfOk result (λ front. texts_view front.items ≡ lines_front (is_some values.entry.columns) lines.now) }
    ensures err { IfErr result (λ e. e ≡ OutOfMemory) }
{
    lines_front(alloc, values.columns.is_some(), first, lines)
}

/// Header and objects of a file: these values, and after them those of a font, of which this is the number.
fn body_with(
    alloc: Global,
    front: &[Vec<u8>],
    values: FontValues<'_>,
    first: u32,
) -> Result<Body, Error>
    requires { first ≡ 1 + length front.now }
    ensures text { IfOk result (λ body. body.text.items ≡ body_of (texts_view front.now ++ font_values first values.entry)) }
    ensures offsets { IfOk result (λ body. body.offsets.items ≡ offsets_of (texts_view front.now ++ font_values first values.entry)) }
    ensures err { IfErr result (λ e. (e ≡ OutOfMemory) ⊎ ((e ≡ OverflowError) × ((2 ^ 32 ≤ first + most_objects values.entry) ⊎ HasManyColumns values.entry.columns))) }
{
    let mut body = body_of(alloc, front)?;
    let font = write_objects(alloc, values, first)?;
    push_objects(&mut body, &font.text, &font.offsets)?;
    Ok(body)
}

/// The file of these values, and of those of a font after them, of which this is the number.
fn file_with(
    alloc: Global,
    front: &[Vec<u8>],
    values: FontValues<'_>,
    first: u32,
) -> Result<Vec<u8>, Error>
    requires { first ≡ 1 + length front.now }
    ensures file { IfOk result (λ file. file.items ≡ file_of (texts_view front.now ++ font_values first values.entry)) }
    ensures at { IfOk result (λ file. AreInTable file.items (length (body_of (texts_view front.now ++ font_values first values.entry))) (texts_view front.now ++ font_values first values.entry)) }
    ensures err { IfErr result (λ e. (e ≡ OutOfMemory) ⊎ ((e ≡ OverflowError) × HasNoFile first values.entry (texts_view front.now ++ font_values first values.entry))) }
{
    let mut body = body_with(alloc, front, values, first)?;
    checked(body.text.len() as u64)?;
    write_table(&mut body.text, &body.offsets)?;
    Ok(body.text)
}

/// A whole PDF that shows glyphs of a font in 36 points, in a line or in a grid of as many pages as they need, at least one.
/// The text runs as the font's values have it. An em of a line and its margins are 36 points; its page has at most 14,400 points,
/// and what is longer is outside of it.
///
/// # Errors
///
/// - `OverflowError`: the numbers of objects don't fit 32 bits, the objects have 10,000,000,000 bytes or more, or there are more
///   columns than CIDs.
/// - `OutOfMemory`: a request for memory was refused.
pub fn write_sheet(
    alloc: Global,
    values: FontValues<'_>,
    glyphs: &[SheetGlyph<'_>],
    layout: Layout,
) -> Result<Vec<u8>, Error>
    ensures file { IfOk result (λ file. file.items ≡ file_of (sheet_values layout values.entry glyphs.now)) }
    ensures at { IfOk result (λ file. AreInTable file.items (length (body_of (sheet_values layout values.entry glyphs.now))) (sheet_values layout values.entry glyphs.now)) }
    ensures err { IfErr result (λ e. (e ≡ OutOfMemory) ⊎ ((e ≡ OverflowError) × IsTooLarge layout values.entry glyphs.now)) }
{
    let first = font_number(page_count(layout, glyphs.len()), most_objects(values))?;
    let frame = frame_for(layout, values, glyphs);
    let front = front_values(alloc, layout, frame, first as usize, glyphs)?;
    file_with(alloc, &front, values, first)
}

/// A whole PDF that shows lines of a font in 36 points by their operators, each on a page of its own. The text runs as the font's
/// values have it. A page is as long as its line with margins of 36 points, and has at most 14,400 points; what is longer is
/// outside of it. Without lines there are no pages.
///
/// # Errors
///
/// Those of [`write_sheet`].
pub fn write_lines(
    alloc: Global,
    values: FontValues<'_>,
    lines: &[SheetLine<'_>],
) -> Result<Vec<u8>, Error>
    ensures file { IfOk result (λ file. file.items ≡ file_of (lines_values values.entry lines.now)) }
    ensures at { IfOk result (λ file. AreInTable file.items (length (body_of (lines_values values.entry lines.now))) (lines_values values.entry lines.now)) }
    ensures err { IfErr result (λ e. (e ≡ OutOfMemory) ⊎ ((e ≡ OverflowError) × AreTooLarge values.entry lines.now)) }
{
    let first = font_number(lines.len(), most_objects(values))?;
    let front = front_for(alloc, values, first, lines)?;
    file_with(alloc, &front, values, first)
}

/// In the table of a file each object is found.
pub fn objects_are_in_table()
    ensures { ObjectsAreInTable }
{}

/// A reader of the pages finds each glyph's code, in order, and its text where the code doesn't say it.
pub fn glyphs_are_shown()
    ensures { AreShown }
{}
