//! What a plan makes of the font that is read: a subset, and what is printed after its numbers.

ghost use Rattle.std.specs.Prelude.{◌≡◌, ◌⊎◌, true, false, IfOk, IfErr, Some, None, length, map};
ghost use Rattle.std.specs.Option.{option_copied, option_map};
ghost use Rattle.subset_lines.specs.Faces.Sizes.{sizes_text};
ghost use Rattle.subsetter_sfnt.specs.Extras.{all_extras};
ghost use Rattle.subset_font.specs.Making.Made.{face_of, IsMade, IsUnmade};
ghost use Rattle.subset_task.specs.Faces.Named.{face_settings};
ghost use Rattle.subsetter_sfnt.specs.Read.{kind_at, stored};
ghost use Rattle.subset_font.specs.Making.Outcome.{is_cff2, takes_default, sizes_of, sizes_if, is_single, other_face, members_of, more_text, names_of, names_for, IsOutcome, IsNoOutcome};
ghost use Rattle.subset_font.specs.Making.Sheet.{IsSheetIf, IsUnshownIf};
ghost use Rattle.font_reasons.specs.Directory.{bytes_or_none};
ghost use Rattle.subset_task.specs.declared.refusals.failure.Failure.TheVariants.{Error as Refused};
ghost use Rattle.subsetter_base.specs.declared.error.Error.TheVariants.{OutOfMemory};

use crate::making::sheet::{sheet_if, with_pdf};
use crate::making::subset::{Made, make_of};
use font_reasons::directory_of;
use glyph_names::glyph_names;
use std::alloc::{AllocError, Global};
use subset_lines::{Outlines, TableSize, json_members, size_lines};
use subset_pdf::Sheet;
use subset_task::faces::missing::first_missing;
use subset_task::faces::named::face_settings;
use subset_task::faces::outlines::outlines_of;
use subset_task::faces::tables::table_sizes;
use subset_task::notes::{known_axes, notes_for};
use subset_task::refusals::failure::Failure;
use subset_task::task::{Form, Plan, Task};
use subsetter::{Error, Tag};
use subsetter_sfnt::directory::{kind_at, table};
use subsetter_sfnt::face::FontKind;

/// What a plan makes of a font.
#[derive(Drop)]
pub struct Outcome<'a> {
    /// The subset and its numbers.
    pub made: Made,
    /// What is printed after the numbers: further lines, or further members of the JSON object.
    pub more: Vec<u8>,
    /// The names of the requested glyphs in the font that is read, as far as they are printed; an empty one is none.
    pub names: Vec<&'a [u8]>,
    /// The PDF, if one is requested.
    pub sheet: Option<Sheet>,
}

/// The tables of the font that is read and of the new one, with their sizes.
fn sizes_of(
    alloc: Global,
    font: &[u8],
    index: u32,
    new: &[u8],
) -> Result<Vec<TableSize>, AllocError>
    ensures { IfOk result (λ v. v.items ≡ sizes_of (record { bytes = font.now; index = index; extras = all_extras }) new.now) }
{
    table_sizes(alloc, directory_of(font, index), directory_of(new, 0))
}

/// The lines of these tables.
fn lines_of_sizes(alloc: Global, font: &[u8], index: u32, new: &[u8]) -> Result<Vec<u8>, AllocError>
    ensures { IfOk result (λ v. v.items ≡ sizes_text (sizes_of (record { bytes = font.now; index = index; extras = all_extras }) new.now) (length font.now) (length new.now)) }
{
    let tables = sizes_of(alloc, font, index, new)?;
    size_lines(alloc, &tables, font.len() as u64, new.len() as u64).map_err(|_| AllocError)
}

/// The tables, if they are to be printed.
fn sizes_if(
    alloc: Global,
    verbose: bool,
    font: &[u8],
    index: u32,
    new: &[u8],
) -> Result<Option<Vec<TableSize>>, AllocError>
    ensures { IfOk result (λ tables. option_map (λ v. v.items) tables ≡ sizes_if verbose (record { bytes = font.now; index = index; extras = all_extras }) new.now) }
{
    if verbose {
        Ok(Some(sizes_of(alloc, font, index, new)?))
    } else {
        Ok(None)
    }
}

/// The tables as a slice.
fn as_given(tables: &Option<Vec<TableSize>>) -> Option<&[TableSize]>
    ensures { option_copied result ≡ option_map (λ v. v.items) tables.now }
{
    match tables {
        Some(tables) => Some(tables.as_slice()),
        None => None,
    }
}

/// Whether a file holds one font.
fn is_single(font: &[u8]) -> bool
    ensures { result ≡ is_single (kind_at font.now 0) }
{
    match kind_at(font, 0) {
        Some(FontKind::Single) => true,
        Some(FontKind::Collection) => false,
        None => false,
    }
}

/// The index of another face than the only one of a file, where an option requests the glyphs.
pub fn other_face(by_option: bool, font: &[u8], index: u32) -> Option<u32>
    ensures { result ≡ other_face by_option (record { bytes = font.now; index = index; extras = all_extras }) }
{
    if by_option && (index > 0 && is_single(font)) {
        return Some(index);
    }
    None
}

/// The further members of the JSON object.
fn members_of(
    alloc: Global,
    font: &[u8],
    index: u32,
    verbose: bool,
    by_option: bool,
    at: Option<&[(Tag, i32)]>,
    made: &Made,
) -> Result<Vec<u8>, AllocError>
    ensures { IfOk result (λ v. v.items ≡ members_of verbose by_option (option_copied at.entry) (record { bytes = font.now; index = index; extras = all_extras }) made.now) }
{
    let tables = sizes_if(alloc, verbose, font, index, &made.font)?;
    let axes = known_axes(alloc, font, index)?;
    let notes = notes_for(alloc, &axes, at)?;
    let characters = first_missing(alloc, &made.picked.missing)?;
    json_members(
        alloc,
        font.len() as u64,
        made.font.len() as u64,
        as_given(&tables),
        &axes,
        &notes,
        &characters,
        other_face(by_option, font, index),
    )
    .map_err(|_| AllocError)
}

/// What is printed after the numbers.
fn more_of(
    alloc: Global,
    font: &[u8],
    plan: &Plan<'_>,
    made: &Made,
    sheet: &Option<Sheet>,
) -> Result<Vec<u8>, AllocError>
    ensures { IfOk result (λ v. v.items ≡ more_text plan.now font.now made.now sheet.now) }
{
    let index = plan.task.index;
    match plan.task.form {
        Form::Lines if plan.verbose => lines_of_sizes(alloc, font, index, &made.font),
        Form::Json => {
            let at = plan.task.at;
            let members = members_of(alloc, font, index, plan.verbose, plan.by_option, at, made)?;
            with_pdf(alloc, members, sheet)
        }
        Form::Lines => Ok(Vec::new(alloc)),
        Form::Silence => Ok(Vec::new(alloc)),
    }
}

/// The bytes of a table, none where the face hasn't got it.
fn bytes_of(font: &[u8], index: u32, tag: Tag) -> &[u8]
    ensures { result.now ≡ bytes_or_none (stored (record { bytes = font.now; index = index; extras = all_extras }) tag.0) }
{
    match table(font, index, tag) {
        Some(bytes) => bytes,
        None => &[],
    }
}

/// The names of glyphs in a face.
fn names_of<'a>(
    alloc: Global,
    font: &'a [u8],
    index: u32,
    glyphs: &[u16],
) -> Result<Vec<&'a [u8]>, AllocError>
    ensures { IfOk result (λ v. map (λ name. name.now) v.items ≡ names_of (record { bytes = font.now; index = index; extras = all_extras }) glyphs.now) }
{
    let post = bytes_of(font, index, Tag::POST);
    let cff = bytes_of(font, index, Tag::CFF);
    glyph_names(alloc, post, cff, glyphs)
}

/// The names of glyphs, if they are printed.
fn names_for<'a>(
    alloc: Global,
    font: &'a [u8],
    plan: &Plan<'_>,
    glyphs: &[u16],
) -> Result<Vec<&'a [u8]>, AllocError>
    ensures { IfOk result (λ v. map (λ name. name.now) v.items ≡ names_for plan.now font.now glyphs.now) }
{
    match plan.task.form {
        Form::Json => names_of(alloc, font, plan.task.index, glyphs),
        Form::Lines => Ok(Vec::new(alloc)),
        Form::Silence => Ok(Vec::new(alloc)),
    }
}

/// What was made by a task, which is kept, with the names of its glyphs, and the PDF, if one is requested.
fn with_more<'a>(
    alloc: Global,
    font: &'a [u8],
    plan: &Plan<'_>,
    task: &Task<'_>,
    made: Made,
) -> Result<Outcome<'a>, Failure>
    ensures made { IfOk result (λ o. o.made ≡ made) }
    ensures sheet { IfOk result (λ o. IsSheetIf plan.now.pdf task.now font.now made o.sheet) }
    ensures more { IfOk result (λ o. o.more.items ≡ more_text plan.now font.now made o.sheet) }
    ensures names { IfOk result (λ o. map (λ name. name.now) o.names.items ≡ names_for plan.now font.now made.picked.glyphs.items) }
    ensures err { IfErr result (λ e. (e ≡ Refused OutOfMemory) ⊎ IsUnshownIf plan.now.pdf task.now font.now made e) }
{
    let sheet = sheet_if(alloc, font, plan.pdf, task, &made)?;
    let Ok(more) = more_of(alloc, font, plan, &made, &sheet) else {
        return Err(Failure::Error(Error::OutOfMemory));
    };
    match names_for(alloc, font, plan, &made.picked.glyphs) {
        Ok(names) => Ok(Outcome {
            made,
            more,
            names,
            sheet,
        }),
        Err(_) => Err(Failure::Error(Error::OutOfMemory)),
    }
}

/// The task of a plan at coordinates.
pub fn task_at<'a>(task: &Task<'a>, at: &'a [(Tag, i32)]) -> Task<'a>
    ensures { result ≡ record task.now { at = Some at.entry } }
{
    Task {
        requested: task.requested,
        index: task.index,
        options: task.options,
        widths: task.widths,
        form: task.form,
        at: Some(at),
    }
}

/// What a plan makes of a font at the coordinates of the named instance.
fn make_instance<'a>(
    alloc: Global,
    font: &'a [u8],
    plan: &Plan<'_>,
    name: &str,
    at: &[(Tag, i32)],
) -> Result<Outcome<'a>, Failure>
    requires name { option_copied plan.now.instance ≡ Some name.now }
    requires at { face_settings (face_of plan.now.task font.now) name.now ≡ Some at.now }
    ensures ok { IfOk result (IsOutcome plan.now font.now) }
    ensures err { IfErr result (IsNoOutcome plan.now font.now) }
{
    let task = task_at(&plan.task, at);
    match make_of(alloc, font, &task) {
        Ok(made) => with_more(alloc, font, plan, &task, made),
        Err(failure) => Err(failure),
    }
}

/// What a plan makes of a font at the named instance of a name.
fn make_at_instance<'a>(
    alloc: Global,
    font: &'a [u8],
    plan: &Plan<'_>,
    name: &str,
) -> Result<Outcome<'a>, Failure>
    requires { option_copied plan.now.instance ≡ Some name.now }
    ensures ok { IfOk result (IsOutcome plan.now font.now) }
    ensures err { IfErr result (IsNoOutcome plan.now font.now) }
{
    match face_settings(alloc, font, plan.task.index, name) {
        Ok(at) => make_instance(alloc, font, plan, name, &at),
        Err(failure) => Err(failure),
    }
}

/// Whether outlines are in `CFF2` alone.
fn is_cff2(outlines: Outlines) -> bool
    ensures { result ≡ is_cff2 outlines }
{
    match outlines {
        Outlines::Cff2 => true,
        Outlines::TrueType => false,
        Outlines::Cff => false,
        Outlines::Missing => false,
    }
}

/// Whether a font is taken at its default, which it has to be with `CFF2`: an option requests the glyphs, and none says
/// coordinates.
pub fn takes_default(font: &[u8], plan: &Plan<'_>) -> bool
    ensures { result ≡ takes_default plan.now font.now }
{
    plan.by_option && (plan.task.at.is_none() && is_cff2(outlines_of(font, plan.task.index)))
}

/// What a plan makes of a font at its default.
fn make_default<'a>(alloc: Global, font: &'a [u8], plan: &Plan<'_>) -> Result<Outcome<'a>, Failure>
    requires instance { option_copied plan.now.instance ≡ None }
    requires default { takes_default plan.now font.now ≡ true }
    ensures ok { IfOk result (IsOutcome plan.now font.now) }
    ensures err { IfErr result (IsNoOutcome plan.now font.now) }
{
    let task = task_at(&plan.task, &[]);
    match make_of(alloc, font, &task) {
        Ok(made) => with_more(alloc, font, plan, &task, made),
        Err(failure) => Err(failure),
    }
}

/// What a plan makes of a font that is taken as it is, or at given coordinates.
fn make_as_given<'a>(alloc: Global, font: &'a [u8], plan: &Plan<'_>) -> Result<Outcome<'a>, Failure>
    requires instance { option_copied plan.now.instance ≡ None }
    requires default { takes_default plan.now font.now ≡ false }
    ensures ok { IfOk result (IsOutcome plan.now font.now) }
    ensures err { IfErr result (IsNoOutcome plan.now font.now) }
{
    match make_of(alloc, font, &plan.task) {
        Ok(made) => with_more(alloc, font, plan, &plan.task, made),
        Err(failure) => Err(failure),
    }
}

/// What a plan without an instance makes of a font.
fn make_without_name<'a>(
    alloc: Global,
    font: &'a [u8],
    plan: &Plan<'_>,
) -> Result<Outcome<'a>, Failure>
    requires { option_copied plan.now.instance ≡ None }
    ensures ok { IfOk result (IsOutcome plan.now font.now) }
    ensures err { IfErr result (IsNoOutcome plan.now font.now) }
{
    if takes_default(font, plan) {
        make_default(alloc, font, plan)
    } else {
        make_as_given(alloc, font, plan)
    }
}

/// What a plan makes of the bytes of a font.
pub fn make_planned<'a>(
    alloc: Global,
    font: &'a [u8],
    plan: &Plan<'_>,
) -> Result<Outcome<'a>, Failure>
    ensures ok { IfOk result (IsOutcome plan.now font.now) }
    ensures err { IfErr result (IsNoOutcome plan.now font.now) }
{
    match plan.instance {
        Some(name) => make_at_instance(alloc, font, plan, name),
        None => make_without_name(alloc, font, plan),
    }
}
