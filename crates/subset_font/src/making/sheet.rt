//! The PDF that is made beside the font.

ghost use Rattle.std.specs.Prelude.{◌≡◌, ◌⊎◌, ◌++◌, IfOk, IfErr, Some};
ghost use Rattle.std.specs.Option.{option_copied};
ghost use Rattle.subset_font.specs.Making.Sheet.{layout_by, layout_of, settings_of, is_blank, pdf_text, pdf_text_of, IsRequestOf, IsShown, IsSheetIf, IsUnshownIf};
ghost use Rattle.subset_task.specs.declared.refusals.failure.Failure.TheVariants.{Error as Refused};
ghost use Rattle.subsetter_base.specs.declared.error.Error.TheVariants.{OutOfMemory};

use crate::making::subset::Made;
use glyph_kinds::unseen_glyphs;
use std::alloc::{AllocError, Global};
use subset_args::PdfChoice;
use subset_lines::json_pdf;
use subset_pdf::{Layout, PdfRequest, Sheet, SheetError, make_sheet};
use subset_task::refusals::failure::Failure;
use subset_task::task::{RequestedGlyphs, Task};
use subsetter::{Error, Tag};

/// How the glyphs of one request are shown: those of a text in a line, others in a grid.
fn layout_by(asked: &RequestedGlyphs<'_>) -> Layout
    ensures { result ≡ layout_by asked.now }
{
    match asked {
        RequestedGlyphs::ByText(_) => Layout::Line,
        RequestedGlyphs::These(_) => Layout::Grid,
        RequestedGlyphs::Every => Layout::Grid,
        RequestedGlyphs::ByCharacters(_) => Layout::Grid,
    }
}

/// How the glyphs of requests are shown: where there are several in a grid.
fn layout_of(asked: &[RequestedGlyphs<'_>]) -> Layout
    ensures { result ≡ layout_of asked.now }
{
    match asked {
        [one] => layout_by(one),
        _ => Layout::Grid,
    }
}

/// The user coordinates, of which there are none where none are given.
fn settings_of<'a>(at: Option<&'a [(Tag, i32)]>) -> &'a [(Tag, i32)]
    ensures { result.now ≡ settings_of (option_copied at.entry) }
{
    match at {
        Some(at) => at,
        None => &[],
    }
}

/// The PDF that a task requests.
fn request_of<'a>(task: &Task<'a>, choice: PdfChoice) -> PdfRequest<'a>
    ensures { IsRequestOf task.now choice result }
{
    PdfRequest {
        index: task.index,
        at: settings_of(task.at),
        limits: task.options.limits,
        hinting: task.options.extras.hinting,
        choice,
        layout: layout_of(task.requested.pieces),
    }
}

/// The PDF of what a task made, by a choice.
fn make_shown(
    alloc: Global,
    font: &[u8],
    choice: PdfChoice,
    task: &Task<'_>,
    made: &Made,
) -> Result<Sheet, Failure>
    ensures ok { IfOk result (IsShown choice task.now font.now made.now) }
    ensures err { IfErr result (λ e. (e ≡ Refused OutOfMemory) ⊎ IsUnshownIf (Some choice) task.now font.now made.now e) }
{
    let request = request_of(task, choice);
    let picked = &made.picked;
    match make_sheet(
        alloc,
        font,
        &request,
        &picked.text,
        &picked.lengths,
        &picked.glyphs,
    ) {
        Ok(sheet) => Ok(sheet),
        Err(SheetError::Font(error)) => Err(Failure::Error(error)),
        Err(SheetError::NotPermitted(permission)) => Err(Failure::NotPermitted(permission)),
        Err(SheetError::TextTooLong) => Err(Failure::TextTooLong),
    }
}

/// Whether the PDF shows a blank of a glyph that has another picture, and may show none.
fn is_blank(
    alloc: Global,
    font: &[u8],
    choice: PdfChoice,
    task: &Task<'_>,
    made: &Made,
) -> Result<bool, AllocError>
    ensures { IfOk result (λ b. b ≡ is_blank choice task.now font.now made.now) }
{
    if choice.allow_blank {
        return Ok(false);
    }
    match unseen_glyphs(alloc, font, task.index, &made.picked.glyphs) {
        Ok(unseen) => Ok(unseen.len() > 0),
        Err(Error::OutOfMemory) => Err(AllocError),
        Err(_) => Ok(false),
    }
}

/// The PDF, unless it shows a blank and may show none.
fn unless_blank(
    alloc: Global,
    font: &[u8],
    choice: PdfChoice,
    task: &Task<'_>,
    made: &Made,
    sheet: Sheet,
) -> Result<Option<Sheet>, Failure>
    requires { IsShown choice task.now font.now made.now sheet }
    ensures ok { IfOk result (IsSheetIf (Some choice) task.now font.now made.now) }
    ensures err { IfErr result (λ e. (e ≡ Refused OutOfMemory) ⊎ IsUnshownIf (Some choice) task.now font.now made.now e) }
{
    match is_blank(alloc, font, choice, task, made) {
        Ok(false) => Ok(Some(sheet)),
        Ok(true) => Err(Failure::BlankGlyphs),
        Err(_) => Err(Failure::Error(Error::OutOfMemory)),
    }
}

/// The PDF of what a task made, if one is requested.
pub fn sheet_if(
    alloc: Global,
    font: &[u8],
    choice: Option<PdfChoice>,
    task: &Task<'_>,
    made: &Made,
) -> Result<Option<Sheet>, Failure>
    ensures ok { IfOk result (IsSheetIf choice task.now font.now made.now) }
    ensures err { IfErr result (λ e. (e ≡ Refused OutOfMemory) ⊎ IsUnshownIf choice task.now font.now made.now e) }
{
    match choice {
        Some(choice) => match make_shown(alloc, font, choice, task, made) {
            Ok(sheet) => unless_blank(alloc, font, choice, task, made, sheet),
            Err(failure) => Err(failure),
        },
        None => Ok(None),
    }
}

/// The member of a PDF.
fn member_of(alloc: Global, sheet: &Sheet) -> Result<Vec<u8>, AllocError>
    ensures { IfOk result (λ v. v.items ≡ pdf_text_of sheet.now) }
{
    let name = &sheet.font.descriptor.font_name;
    let size = sheet.file.len() as u64;
    json_pdf(alloc, size, name, &sheet.font.codes).map_err(|_| AllocError)
}

/// Members of a JSON object, and after them that of a PDF, if there is one.
#[tactic(auto, using(crate::proofs::MakingLaws::Sheets::nothing_more))]
pub fn with_pdf(
    alloc: Global,
    members: Vec<u8>,
    sheet: &Option<Sheet>,
) -> Result<Vec<u8>, AllocError>
    ensures { IfOk result (λ v. v.items ≡ members.items ++ pdf_text sheet.now) }
{
    let mut text = members;
    if let Some(sheet) = sheet {
        text.extend_from_slice(&member_of(alloc, sheet)?)?;
    }
    Ok(text)
}
