//! Where a font is off its default (OpenType, "fvar", "avar").

ghost use Rattle.std.specs.Prelude.{◌≡◌, codes, Ok};
ghost use Rattle.std.specs.Option.{option_copied, option_map};
ghost use Rattle.std.specs.Result.{result_ok};
ghost use Rattle.subsetter_base.specs.Gives.{Gives};
ghost use Rattle.subsetter_sfnt.specs.Read.{table_in};
ghost use Rattle.subsetter_instance.specs.Source.{normalized_coordinates};
ghost use Rattle.pdf_values.specs.Movement.{movement_view};
ghost use Rattle.pdf_source.specs.Moved.{are_zero, axes_in, can_move, movement_of, moves, location_by, location_in, location_seen, unless_zero};

use pdf_cff::unless_memory;
use pdf_values::Movement;
use std::alloc::Global;
use subsetter_base::{Error, Tag};
use subsetter_instance::source::normalized_coordinates;
use subsetter_sfnt::face::Face;
use subsetter_variation::locations::axes::{Axis, axes};

/// Where a font is off its default.
#[derive(Drop)]
pub struct Location {
    /// The normalized coordinates, in 16384ths.
    pub at: Vec<i32>,
    pub axes: Vec<Axis>,
}

/// The normalized coordinates, if they can be read.
fn coordinates_of(
    alloc: Global,
    face: &Face<'_>,
    settings: &[(Tag, i32)],
) -> Result<Option<Vec<i32>>, Error>
    ensures { Gives (λ o. option_map (λ v. v.items) o) result (Ok (result_ok (normalized_coordinates (table_in face.now.«data».now face.now.records.now) settings.now))) }
{
    match normalized_coordinates(alloc, face, settings) {
        Ok(at) => Ok(Some(at)),
        Err(error) => {
            unless_memory(error)?;
            Ok(None)
        }
    }
}

/// The axes that `fvar` lists, if it can be read.
pub(crate) fn axes_of(alloc: Global, fvar: Option<&[u8]>) -> Result<Option<Vec<Axis>>, Error>
    ensures { Gives (λ o. option_map (λ v. v.items) o) result (Ok (axes_in (option_copied fvar.entry))) }
{
    let Some(fvar) = fvar else {
        return Ok(None);
    };
    match axes(alloc, fvar) {
        Ok(axes) => Ok(Some(axes)),
        Err(error) => {
            unless_memory(error)?;
            Ok(None)
        }
    }
}

/// Whether each coordinate is 0.
fn are_zero(at: &[i32]) -> bool
    ensures { result ≡ are_zero at.now }
{
    at.iter().all(|v| *v == 0)
}

/// What is read, unless each coordinate is 0.
fn location_by(at: Option<Vec<i32>>, axes: Option<Vec<Axis>>) -> Option<Location>
    ensures { option_map location_seen result ≡ location_by (option_map (λ v. v.items) at) (option_map (λ v. v.items) axes) }
{
    let at = at?;
    let axes = axes?;
    if are_zero(&at) {
        return None;
    }
    Some(Location { at, axes })
}

/// Whether outlines move along axes, by what was found: those of `glyf` do, and those of `CFF2` alone.
fn can_move(glyf: Option<&[u8]>, cff: Option<&[u8]>, cff2: Option<&[u8]>) -> bool
    ensures { result ≡ can_move (option_copied glyf.entry) (option_copied cff.entry) (option_copied cff2.entry) }
{
    match glyf {
        Some(_) => true,
        None => match cff {
            Some(_) => false,
            None => cff2.is_some(),
        },
    }
}

/// Whether the outlines of a font move along axes.
pub fn moves(face: &Face<'_>) -> bool
    ensures { result ≡ moves (table_in face.now.«data».now face.now.records.now) }
{
    let glyf = face.stored(Tag::GLYF);
    let cff = face.stored(Tag::CFF);
    let cff2 = face.stored(Tag::CFF2);
    can_move(glyf, cff, cff2)
}

/// Where a font is off its default; none at its default, and none of outlines in `CFF `.
pub fn location_in(
    alloc: Global,
    face: &Face<'_>,
    settings: &[(Tag, i32)],
) -> Result<Option<Location>, Error>
    ensures { Gives (λ o. option_map location_seen o) result (Ok (location_in (table_in face.now.«data».now face.now.records.now) settings.now)) }
{
    if !moves(face) {
        return Ok(None);
    }
    let at = coordinates_of(alloc, face, settings)?;
    let axes = axes_of(alloc, face.stored(Tag::new(b"fvar")))?;
    Ok(location_by(at, axes))
}

/// Where a font is moved to.
pub fn movement_of<'a>(
    face: &Face<'a>,
    settings: &'a [(Tag, i32)],
    location: &'a Location,
) -> Movement<'a>
    ensures { movement_view result ≡ movement_of (table_in face.now.«data».now face.now.records.now) settings.now (location_seen location.now) }
{
    Movement {
        at: &location.at,
        axes: &location.axes,
        settings,
        mvar: face.stored(Tag::new(b"MVAR")),
    }
}
