//! Axes that a caller asks for (OpenType, "fvar").

ghost use Rattle.std.specs.Prelude.{◌≡◌, [], IfOk, IfErr};
ghost use Rattle.subsetter_base.specs.declared.error.Error.TheVariants.{OutOfMemory};
ghost use Rattle.subsetter_sfnt.specs.Read.{table_in};
ghost use Rattle.pdf_source.specs.UnknownAxes.{has_axis, is_listed, is_set, unknown_axes, unknown_after};

use crate::moved::axes_of;
use std::alloc::Global;
use subsetter_base::{Error, Tag};
use subsetter_sfnt::face::Face;
use subsetter_variation::locations::axes::{Axis, find_axis};

/// Whether an axis has a tag.
fn has_axis(axes: &[Axis], tag: Tag) -> bool
    ensures { result ≡ has_axis axes.now tag }
{
    find_axis(axes, tag).is_some()
}

/// Whether one of these settings is for a tag.
fn is_set(settings: &[(Tag, i32)], tag: Tag) -> bool
    ensures { result ≡ is_set settings.now tag }
{
    settings.iter().any(|setting| setting.0 == tag)
}

/// Whether a tag is listed after these settings: no axis has it, and none of the settings is for it.
fn is_listed(axes: &[Axis], before: &[(Tag, i32)], tag: Tag) -> bool
    ensures { result ≡ is_listed axes.now before.now tag }
{
    !has_axis(axes, tag) && !is_set(before, tag)
}

/// The tags of settings that none of these axes has, each once.
fn unknown_among(alloc: Global, axes: &[Axis], settings: &[(Tag, i32)]) -> Result<Vec<Tag>, Error>
    ensures ok { IfOk result (λ v. v.items ≡ unknown_after axes.now [] settings.now) }
    ensures err { IfErr result (λ e. e ≡ OutOfMemory) }
{
    let mut unknown = Vec::new(alloc);
    for place in 0..settings.len() {
        let tag = settings[place].0;
        if is_listed(axes, &settings[..place], tag) {
            unknown.push(tag)?;
        }
    }
    Ok(unknown)
}

/// The axes that are asked for and that a font doesn't have, in the order asked, each once.
pub fn unknown_axes(
    alloc: Global,
    face: &Face<'_>,
    settings: &[(Tag, i32)],
) -> Result<Vec<Tag>, Error>
    ensures ok { IfOk result (λ v. v.items ≡ unknown_axes (table_in face.now.«data».now face.now.records.now) settings.now) }
    ensures err { IfErr result (λ e. e ≡ OutOfMemory) }
{
    match axes_of(alloc, face.stored(Tag::new(b"fvar")))? {
        Some(axes) => unknown_among(alloc, &axes, settings),
        None => unknown_among(alloc, &[], settings),
    }
}
