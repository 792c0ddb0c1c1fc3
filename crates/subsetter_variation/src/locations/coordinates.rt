//! The coordinates of an instance on the axes of its font.
//!
//! A user coordinate is clamped to its axis first, normalized in 16.16, mapped by `avar` in 16.16, and then in F2Dot14, each
//! rounded by `nearest`. Below the default of an axis that has nothing below it the coordinate is 0, as in HarfBuzz and
//! fontTools.

ghost use Rattle.std.specs.Prelude.{◌≡◌, ◌≤◌, ◌^◌, length, map, Some, None, Ok, unsigned_abs};
ghost use Rattle.std.specs.Option.{ok_or, option_copied};
ghost use Rattle.subsetter_base.specs.Gives.{Gives};
ghost use Rattle.subsetter_base.specs.declared.error.Error.TheVariants.{MalformedFont};
ghost use Rattle.subsetter_variation.specs.Nearest.{nearest};
ghost use Rattle.subsetter_variation.specs.Locations.Segments.{axis_value_maps};
ghost use Rattle.subsetter_variation.specs.Locations.Coordinates.{coordinate, unmapped_coordinates, coordinates_at, mapped_coordinates, coordinates_by, is_other_version, normalized_or_fault};

use crate::locations::axes::{Axis, axes, default_normalized, user_coordinate};
use crate::locations::segments::{AxisValueMap, mapped, next_segment_map};
use crate::rounding::nearest;
use std::alloc::{AllocError, Global};
use subsetter_base::read::{LazyArray16, Reader};
use subsetter_base::{Error, Tag};

/// axisCount of `avar`, two bytes.
const AXIS_COUNT: usize = 6;
/// axisSegmentMaps of `avar`.
const AXIS_SEGMENT_MAPS: usize = 8;

/// 65536ths as 16384ths.
fn fixed_to_f2dot14(n: i64) -> i32
    requires { unsigned_abs n ≤ 2 ^ 19 }
    ensures value { result ≡ nearest n 4 }
    ensures bound { unsigned_abs result ≤ 2 ^ 17 }
{
    nearest(n, 4) as i32
}

/// The coordinate on one axis, in 16384ths.
#[tactic(auto, unfolding(crate::specs::Locations::Coordinates::coordinate))]
fn coordinate(axis: &Axis, ends: LazyArray16<'_, AxisValueMap>, settings: &[(Tag, i32)]) -> i32
    ensures { result ≡ coordinate axis.now (axis_value_maps ends.entry) settings.now }
{
    let place = default_normalized(axis, user_coordinate(axis, settings));
    fixed_to_f2dot14(mapped(ends, place))
}

/// On each axis, where none is mapped.
fn unmapped_coordinates(
    alloc: Global,
    axes: &[Axis],
    settings: &[(Tag, i32)],
) -> Result<Vec<i32>, Error>
    ensures { Gives (λ v. v.items) result (Ok (unmapped_coordinates settings.now axes.now)) }
{
    let mut coordinates = Vec::with_capacity(alloc, axes.len())?;
    for axis in axes {
        coordinates.push(coordinate(axis, LazyArray16::default(), settings))?;
    }
    Ok(coordinates)
}

/// On each axis, whose segments are after those of the axis before.
#[tactic(auto, using(crate::proofs::PackingLaws::Listed::coordinates_cut))]
fn coordinates_at(
    alloc: Global,
    axes: &[Axis],
    settings: &[(Tag, i32)],
    avar: &[u8],
) -> Result<Vec<i32>, Error>
    ensures { Gives (λ v. v.items) result (ok_or (coordinates_at axes.now settings.now avar.now 8) MalformedFont) }
{
    let mut r = Reader::new_at(avar, AXIS_SEGMENT_MAPS);
    let mut coordinates = Vec::with_capacity(alloc, axes.len())?;
    for axis in axes {
        let ends = next_segment_map(&mut r).ok_or(Error::MalformedFont)?;
        coordinates.push(coordinate(axis, ends, settings))?;
    }
    Ok(coordinates)
}

/// On each axis, where `avar` has the segments of as many.
#[tactic(auto, unfolding(crate::specs::Locations::Coordinates::mapped_coordinates))]
fn mapped_coordinates(
    alloc: Global,
    axes: &[Axis],
    settings: &[(Tag, i32)],
    avar: &[u8],
) -> Result<Vec<i32>, Error>
    ensures { Gives (λ v. v.items) result (ok_or (mapped_coordinates axes.now settings.now avar.now) MalformedFont) }
{
    let count = Reader::new_at(avar, AXIS_COUNT)
        .read::<u16>()
        .ok_or(Error::MalformedFont)?;
    if count as usize != axes.len() {
        return Err(Error::MalformedFont);
    }
    coordinates_at(alloc, axes, settings, avar)
}

/// On each axis, where no axis is mapped or `avar` has the segments of as many.
fn coordinates_by(
    alloc: Global,
    axes: &[Axis],
    settings: &[(Tag, i32)],
    avar: Option<&[u8]>,
) -> Result<Vec<i32>, Error>
    ensures { Gives (λ v. v.items) result (ok_or (coordinates_by (option_copied avar.entry) settings.now axes.now) MalformedFont) }
{
    match avar {
        None => unmapped_coordinates(alloc, axes, settings),
        Some(avar) => mapped_coordinates(alloc, axes, settings, avar),
    }
}

/// Whether a table is there and has another major version than 1.
pub fn is_other_version(table: Option<&[u8]>) -> bool
    ensures { result ≡ is_other_version (option_copied table.entry) }
{
    let Some(table) = table else {
        return false;
    };
    let Some(version) = Reader::new(table).read::<u16>() else {
        return false;
    };
    version != 1
}

/// The coordinates on the axes of `fvar`, in 16384ths, for settings in 65536ths: the last one of an axis' tag, and else its
/// default. A major version of `fvar` or `avar` other than 1 is `Unimplemented`, a cut table `MalformedFont`.
#[tactic(auto, unfolding(crate::specs::Locations::Coordinates::normalized_or_fault, crate::specs::Locations::Coordinates::normalized))]
pub fn coordinates(
    alloc: Global,
    fvar: &[u8],
    avar: Option<&[u8]>,
    settings: &[(Tag, i32)],
) -> Result<Vec<i32>, Error>
    ensures { Gives (λ v. v.items) result (normalized_or_fault fvar.now (option_copied avar.entry) settings.now) }
{
    if is_other_version(Some(fvar)) || is_other_version(avar) {
        return Err(Error::Unimplemented);
    }
    let axes = axes(alloc, fvar)?;
    coordinates_by(alloc, &axes, settings, avar)
}
