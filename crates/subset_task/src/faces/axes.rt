//! The outlines and the axes of the font that is read.

ghost use Rattle.std.specs.Prelude.{◌≡◌, ◌⊎◌, ◌≢◌, IfOk, IfErr, IfSome, OnOk, codes, map, [], Some, None, false, unwrap_or};
ghost use Rattle.subsetter_base.specs.declared.error.Error.TheVariants.{OutOfMemory, MalformedFont};
ghost use Rattle.subsetter_sfnt.specs.Extras.{all_extras};
ghost use Rattle.subsetter_sfnt.specs.Read.{stored};
ghost use Rattle.subset_task.specs.Faces.Axes.{axes_shown, text_of_axes, IsAxesReport, IsAxesFault, axes_or_none};
ghost use Rattle.subset_task.specs.declared.refusals.failure.Failure.TheVariants.{Error as Refused, Read as CannotRead, Output, Usage};
ghost use Rattle.std.specs.Io.KnownBytes.{Appends};

use crate::faces::outlines::outlines_of;
use crate::reading::read_whole;
use crate::refusals::failure::Failure;
use std::alloc::Global;
use std::io::{Read, Write};
use subset_lines::{FontAxes, NameTable, Outlines, read_axes, write_axes, write_axes_json};
use subsetter::{Error, Tag};
use subsetter_sfnt::directory::{header_offset, table};
use subsetter_variation::locations::axes::{Axis, axes};

/// Writes outlines and axes, as lines or as JSON.
fn write_shown<L: Write>(
    alloc: Global,
    outlines: Outlines,
    is_variable: bool,
    all: &FontAxes<'_>,
    json: bool,
    lines: &mut L,
) -> Result<(), Failure>
    ensures ok { OnOk result (Appends (L.contents lines.old) (L.contents lines.new) (axes_shown json outlines is_variable all.now.axes.items all.now.names (map (λ bytes. bytes.now) all.now.instances.items))) }
    ensures err { IfErr result (λ e. e ≡ Output) }
{
    let written = if json {
        write_axes_json(alloc, outlines, is_variable, all, lines)
    } else {
        write_axes(outlines, is_variable, all, lines)
    };
    written.map_err(|_| Failure::Output)
}

/// Writes outlines and the axes of `fvar`, with the names of `name`.
fn report_fvar<L: Write>(
    alloc: Global,
    outlines: Outlines,
    fvar: &[u8],
    names: &[u8],
    json: bool,
    lines: &mut L,
) -> Result<(), Failure>
    ensures ok { OnOk result (IfSome (text_of_axes json outlines names.now fvar.now) (λ text. Appends (L.contents lines.old) (L.contents lines.new) text)) }
    ensures there { OnOk result (text_of_axes json outlines names.now fvar.now ≢ None) }
    ensures err { IfErr result (λ e. (e ≡ Output) ⊎ ((e ≡ Refused OutOfMemory) ⊎ ((e ≡ Refused MalformedFont) × (text_of_axes json outlines names.now fvar.now ≡ None)))) }
    ensures kind { IfErr result (λ e. e ≢ Usage) }
{
    let all = match read_axes(alloc, fvar, names) {
        Ok(all) => all,
        Err(error) => return Err(Failure::Error(error)),
    };
    write_shown(alloc, outlines, true, &all, json, lines)
}

/// Writes outlines, and that a face has no axes.
fn report_none<L: Write>(
    alloc: Global,
    outlines: Outlines,
    names: &[u8],
    json: bool,
    lines: &mut L,
) -> Result<(), Failure>
    ensures ok { OnOk result (Appends (L.contents lines.old) (L.contents lines.new) (axes_shown json outlines false [] names.now [])) }
    ensures err { IfErr result (λ e. (e ≡ Output) ⊎ (e ≡ Refused OutOfMemory)) }
{
    let Ok(names) = NameTable::new(alloc, names) else {
        return Err(Failure::Error(Error::OutOfMemory));
    };
    let none = FontAxes {
        axes: Vec::new(alloc),
        instances: Vec::new(alloc),
        names,
    };
    write_shown(alloc, outlines, false, &none, json, lines)
}

/// The names of a face, no bytes where it has none.
pub fn names_of(font: &[u8], index: u32) -> &[u8]
    ensures { result.now ≡ unwrap_or (stored (record { bytes = font.now; index = index; extras = all_extras }) (codes "name")) [] }
{
    match table(font, index, Tag::NAME) {
        Some(names) => names,
        None => &[],
    }
}

/// Writes the outlines, the axes and the named instances of a face, as lines or as one JSON object; no axes of a face that isn't variable.
///
/// `UnknownKind` where the file has no font at the index, `MalformedFont` where `fvar` is cut; `Output` where the writer fails.
pub fn report_axes<L: Write>(
    alloc: Global,
    font: &[u8],
    index: u32,
    json: bool,
    lines: &mut L,
) -> Result<(), Failure>
    ensures ok { OnOk result (IsAxesReport json (record { bytes = font.now; index = index; extras = all_extras }) (L.contents lines.old) (L.contents lines.new)) }
    ensures err { IfErr result (λ e. (e ≡ Output) ⊎ ((e ≡ Refused OutOfMemory) ⊎ IsAxesFault json (record { bytes = font.now; index = index; extras = all_extras }) e)) }
    ensures kind { IfErr result (λ e. e ≢ Usage) }
{
    if header_offset(font, index).is_none() {
        return Err(Failure::Error(Error::UnknownKind));
    }
    let outlines = outlines_of(font, index);
    match table(font, index, Tag::new(b"fvar")) {
        Some(fvar) => report_fvar(alloc, outlines, fvar, names_of(font, index), json, lines),
        None => report_none(alloc, outlines, names_of(font, index), json, lines),
    }
}

/// Reads the font from the reader, and writes the axes of a face. The bytes that were read are kept. Memory for `room` bytes
/// is reserved at once.
pub fn carry_axes<R: Read, L: Write>(
    alloc: Global,
    index: u32,
    json: bool,
    reader: &mut R,
    room: usize,
    source: &mut Vec<u8>,
    lines: &mut L,
) -> Result<(), Failure>
    ensures ok { OnOk result (IfSome (R.remaining reader.old) (λ bytes. IsAxesReport json (record { bytes = bytes; index = index; extras = all_extras }) (L.contents lines.old) (L.contents lines.new))) }
    ensures err { IfErr result (λ e. (e ≡ CannotRead) ⊎ ((e ≡ Output) ⊎ ((e ≡ Refused OutOfMemory) ⊎ IfSome (R.remaining reader.old) (λ bytes. IsAxesFault json (record { bytes = bytes; index = index; extras = all_extras }) e)))) }
    ensures kind { IfErr result (λ e. e ≢ Usage) }
{
    let font = read_whole(alloc, reader, room)?;
    let told = report_axes(alloc, &font, index, json, lines);
    *source = font;
    told
}

/// The axes of a face, none of one that isn't variable.
pub fn axes_there(alloc: Global, font: &[u8], index: u32) -> Result<Vec<Axis>, Error>
    ensures ok { IfOk result (λ v. axes_or_none (stored (record { bytes = font.now; index = index; extras = all_extras }) (codes "fvar")) ≡ Some v.items) }
    ensures err { IfErr result (λ e. (e ≡ OutOfMemory) ⊎ ((e ≡ MalformedFont) × (axes_or_none (stored (record { bytes = font.now; index = index; extras = all_extras }) (codes "fvar")) ≡ None))) }
{
    match table(font, index, Tag::new(b"fvar")) {
        Some(fvar) => axes(alloc, fvar),
        None => Ok(Vec::new(alloc)),
    }
}
