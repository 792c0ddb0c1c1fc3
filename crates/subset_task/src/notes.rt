//! What is noted of coordinates that a font doesn't have.

ghost use Rattle.std.specs.Prelude.{◌≡◌, ◌++◌, OnOk, IfOk};
ghost use Rattle.std.specs.Option.{option_copied};
ghost use Rattle.subsetter_sfnt.specs.Extras.{all_extras};
ghost use Rattle.subset_task.specs.Faces.Axes.{axes_known};
ghost use Rattle.subset_task.specs.Notes.{least, greatest, clamped, note_of, if_noted, notes_of, notes_for};

use crate::faces::axes::axes_there;
use std::alloc::{AllocError, Global};
use subset_lines::Note;
use subsetter::{Error, Tag};
use subsetter_variation::locations::axes::{Axis, find_axis};

/// The least coordinate of an axis, which is its default where that is less.
fn least(axis: &Axis) -> i32
    ensures { result ≡ least axis.now }
{
    if axis.minimum < axis.default {
        axis.minimum
    } else {
        axis.default
    }
}

/// The greatest coordinate of an axis, which is its default where that is greater.
fn greatest(axis: &Axis) -> i32
    ensures { result ≡ greatest axis.now }
{
    if axis.default < axis.maximum {
        axis.maximum
    } else {
        axis.default
    }
}

/// What is noted of a coordinate on an axis, if it is outside.
fn clamped(axis: &Axis, setting: (Tag, i32)) -> Option<Note>
    ensures { result ≡ clamped axis.now setting }
{
    let (tag, value) = setting;
    if value < least(axis) {
        return Some(Note::Clamped(tag, value, least(axis)));
    }
    if greatest(axis) < value {
        return Some(Note::Clamped(tag, value, greatest(axis)));
    }
    None
}

/// What is noted of a coordinate.
#[tactic(auto, using(crate::proofs::Steps::axis_is))]
fn note_of(axes: &[Axis], setting: (Tag, i32)) -> Option<Note>
    ensures { result ≡ note_of axes.now setting }
{
    match find_axis(axes, setting.0) {
        Some(axis) => clamped(&axis, setting),
        None => Some(Note::NoAxis(setting.0)),
    }
}

/// Adds what is noted of a coordinate.
fn push_note(notes: &mut Vec<Note>, axes: &[Axis], setting: (Tag, i32)) -> Result<(), AllocError>
    ensures { OnOk result (notes.new.items ≡ notes.old.items ++ if_noted (note_of axes.now setting)) }
{
    if let Some(note) = note_of(axes, setting) {
        notes.push(note)?;
    }
    Ok(())
}

/// What is noted of coordinates.
pub fn notes_of(alloc: Global, axes: &[Axis], at: &[(Tag, i32)]) -> Result<Vec<Note>, AllocError>
    ensures { IfOk result (λ v. v.items ≡ notes_of axes.now at.now) }
{
    let mut notes = Vec::new(alloc);
    for setting in at {
        push_note(&mut notes, axes, *setting)?;
    }
    Ok(notes)
}

/// The axes of a face, none where they can't be read.
pub fn known_axes(alloc: Global, font: &[u8], index: u32) -> Result<Vec<Axis>, AllocError>
    ensures { IfOk result (λ v. v.items ≡ axes_known (record { bytes = font.now; index = index; extras = all_extras })) }
{
    match axes_there(alloc, font, index) {
        Ok(axes) => Ok(axes),
        Err(Error::OutOfMemory) => Err(AllocError),
        Err(_) => Ok(Vec::new(alloc)),
    }
}

/// What is noted of the coordinates, if some are given.
pub fn notes_for(
    alloc: Global,
    axes: &[Axis],
    at: Option<&[(Tag, i32)]>,
) -> Result<Vec<Note>, AllocError>
    ensures { IfOk result (λ v. v.items ≡ notes_for axes.now (option_copied at.entry)) }
{
    match at {
        Some(at) => notes_of(alloc, axes, at),
        None => Ok(Vec::new(alloc)),
    }
}
