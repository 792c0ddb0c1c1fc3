//! What is known of a refusal by its error.

ghost use Rattle.std.specs.Prelude.{◌≡◌};
ghost use Rattle.std.specs.Option.{option_map};
ghost use Rattle.subsetter_sfnt.specs.Extras.{all_extras};
ghost use Rattle.subset_font.specs.declared.refusals.hint.text.Hint.TheVariants.{Font};
ghost use Rattle.subset_font.specs.Refusals.Hint.{is_cff2, no_coordinates, hint_of_error, hint_of_mapping, no_axes, axes_hint_of_error, axes_hint, forbidden, hint_of};

use crate::refusals::hint::text::Hint;
use font_reasons::{Reason, directory_of, missing_table, no_font, no_mapping};
use subset_lines::Outlines;
use subset_pdf::Permission;
use subset_task::faces::outlines::outlines_of;
use subset_task::refusals::failure::Failure;
use subset_task::task::Task;
use subsetter::{Error, Tag};
use subsetter_sfnt::directory::{find_record, table};
use subsetter_sfnt::fields::os2::fs_type;

/// What the tables of the font show, if they show anything.
pub fn shown(reason: Option<Reason>) -> Option<Hint>
    ensures { result ≡ option_map Font reason }
{
    match reason {
        Some(reason) => Some(Hint::Font(reason)),
        None => None,
    }
}

/// Whether a face has outlines of `CFF2`.
fn is_cff2(font: &[u8], index: u32) -> Option<Hint>
    ensures { result ≡ is_cff2 (record { bytes = font.now; index = index; extras = all_extras }) }
{
    match outlines_of(font, index) {
        Outlines::Cff2 => Some(Hint::Cff2),
        _ => None,
    }
}

/// Whether a face has outlines of `CFF2`, where no coordinates are given.
fn no_coordinates(font: &[u8], task: &Task<'_>) -> Option<Hint>
    ensures { result ≡ no_coordinates task.now font.now }
{
    match task.at {
        Some(_) => None,
        None => is_cff2(font, task.index),
    }
}

/// What more is known of a font that is refused by an error, but for what a second look shows.
fn hint_of_error(error: Error, font: &[u8], task: &Task<'_>) -> Option<Hint>
    ensures { result ≡ hint_of_error error task.now font.now }
{
    match error {
        Error::Unimplemented => no_coordinates(font, task),
        _ => None,
    }
}

/// What more is known of a font without a mapping of Unicode characters.
fn hint_of_mapping(font: &[u8], index: u32) -> Option<Hint>
    ensures { result ≡ hint_of_mapping (record { bytes = font.now; index = index; extras = all_extras }) }
{
    shown(no_font(font, index).or(no_mapping(font, index)))
}

/// What more is known of a font whose axes can't be printed, by an error.
fn axes_hint_of_error(error: Error, font: &[u8], index: u32) -> Option<Hint>
    ensures { result ≡ axes_hint_of_error error font.now index }
{
    match error {
        Error::UnknownKind => shown(no_font(font, index)),
        Error::MalformedFont => Some(Hint::WrongAxes),
        _ => None,
    }
}

/// What is noted of a face without axes: it has no `fvar`, or the file is cut before its end.
pub fn no_axes(font: &[u8], index: u32) -> Option<Hint>
    ensures { result ≡ no_axes (record { bytes = font.now; index = index; extras = all_extras }) }
{
    let tag = Tag::new(b"fvar");
    let place = find_record(directory_of(font, index), tag);
    match (table(font, index, tag), place) {
        (Some(_), _) => None,
        (None, None) => Some(Hint::NoAxes),
        (None, Some(_)) => Some(Hint::Font(missing_table(font, index, tag))),
    }
}

/// What more is known of a font whose axes can't be printed.
pub fn find_axes_hint(failure: &Failure, font: &[u8], index: u32) -> Option<Hint>
    ensures { result ≡ axes_hint failure.now font.now index }
{
    match failure {
        Failure::Error(error) => axes_hint_of_error(*error, font, index),
        _ => None,
    }
}

/// What `fsType` of a font forbids, by what is permitted.
fn forbidden(font: &[u8], index: u32, permission: Permission) -> Option<Hint>
    ensures { result ≡ forbidden (record { bytes = font.now; index = index; extras = all_extras }) permission }
{
    let fs_type = fs_type(table(font, index, Tag::new(b"OS/2")))?;
    Some(Hint::Forbidden(Reason::Forbidden(fs_type, permission)))
}

/// What more is known of a font that is refused, but for what a second look shows.
pub fn find_hint(failure: &Failure, font: &[u8], task: &Task<'_>) -> Option<Hint>
    ensures { result ≡ hint_of failure.now task.now font.now }
{
    match failure {
        Failure::Error(error) => hint_of_error(*error, font, task),
        Failure::NoMapping | Failure::MissingCharacters => hint_of_mapping(font, task.index),
        Failure::NotPermitted(permission) => forbidden(font, task.index, *permission),
        _ => None,
    }
}
