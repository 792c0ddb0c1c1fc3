//! The axes of a variable font (OpenType, "fvar").
//!
//! An axis whose least coordinate is above its default, which OpenType doesn't allow, has nothing below its default.

ghost use Rattle.std.specs.Prelude.{◌≡◌, ◌<◌, ◌≤◌, ◌-ℤ◌, ◌<ℤ◌, length, unsigned_abs};
ghost use Rattle.std.specs.Option.{ok_or};
ghost use Rattle.subsetter_base.specs.Gives.{Gives};
ghost use Rattle.subsetter_base.specs.declared.error.Error.TheVariants.{MalformedFont};
ghost use Rattle.subsetter_variation.specs.Locations.Axes.{axis_of, find_axis, axes_at, axes, user_coordinate, within, clamped, toward, below_default, above_default, default_normalized};
ghost use Rattle.subsetter_base.specs.Bytes.{long_signed_at};

use crate::fvar::{axes_array_offset, axis_count, axis_size};
use crate::rounding::mul_div_nearest;
use std::alloc::Global;
use subsetter_base::read::{Reader, long_signed_at};
use subsetter_base::{Error, Tag};

/// How many bytes an axis record has, or more where axisSize says so.
const VARIATION_AXIS_RECORD_SIZE: u16 = 20;
/// 1 in 65536ths.
const ONE: i64 = 65536;

/// An axis: its name, and its coordinates in 65536ths.
#[derive(Clone, Copy, PartialEq, Eq)]
pub struct Axis {
    pub tag: Tag,
    pub minimum: i32,
    /// The default.
    pub default: i32,
    pub maximum: i32,
}

/// The axis whose record these bytes begin.
fn axis_of(bytes: &[u8]) -> Axis
    requires { 20 ≤ length bytes.now }
    ensures { result ≡ axis_of bytes.now }
{
    Axis {
        tag: Tag::new(&[bytes[0], bytes[1], bytes[2], bytes[3]]),
        minimum: long_signed_at(bytes, 4),
        default: long_signed_at(bytes, 8),
        maximum: long_signed_at(bytes, 12),
    }
}

/// The first axis of a tag.
pub fn find_axis(axes: &[Axis], tag: Tag) -> Option<Axis>
    ensures { result ≡ find_axis tag.0 axes.now }
{
    for axis in axes {
        if axis.tag == tag {
            return Some(*axis);
        }
    }
    None
}

/// `count` axes, of `size` bytes each.
#[tactic(auto, using(crate::proofs::PackingLaws::Listed::axes_step, crate::proofs::PackingLaws::Listed::axes_cut))]
fn axes_at(
    alloc: Global,
    count: u16,
    size: usize,
    fvar: &[u8],
    at: usize,
) -> Result<Vec<Axis>, Error>
    requires { 20 ≤ size }
    ensures { Gives (λ v. v.items) result (ok_or (axes_at count size fvar.now at) MalformedFont) }
{
    let mut r = Reader::new_at(fvar, at);
    let mut axes = Vec::new(alloc);
    for i in 0..count {
        let bytes = r.read_bytes(size).ok_or(Error::MalformedFont)?;
        axes.push(axis_of(bytes))?;
    }
    Ok(axes)
}

/// The axes that `fvar` lists. A cut table is `MalformedFont`.
#[tactic(auto, unfolding(crate::specs::Locations::Axes::axes))]
pub fn axes(alloc: Global, fvar: &[u8]) -> Result<Vec<Axis>, Error>
    ensures { Gives (λ v. v.items) result (ok_or (axes fvar.now) MalformedFont) }
{
    let at = axes_array_offset(fvar).ok_or(Error::MalformedFont)?;
    let count = axis_count(fvar).ok_or(Error::MalformedFont)?;
    let size = axis_size(fvar).ok_or(Error::MalformedFont)?;
    if size < VARIATION_AXIS_RECORD_SIZE {
        return Err(Error::MalformedFont);
    }
    axes_at(alloc, count, size as usize, fvar, at as usize)
}

/// The coordinate on an axis: the last setting of its tag, else its default.
pub fn user_coordinate(axis: &Axis, settings: &[(Tag, i32)]) -> i32
    ensures { result ≡ user_coordinate axis.now settings.now }
{
    let mut value = axis.default;
    for setting in settings {
        if setting.0 == axis.tag {
            value = setting.1;
        }
    }
    value
}

/// A number that is no greater than one and no less than another.
#[tactic(auto, unfolding(crate::specs::Locations::Axes::within))]
fn within(greatest: i32, least: i32, coordinate: i32) -> i32
    ensures { result ≡ within greatest least coordinate }
{
    coordinate.min(greatest).max(least)
}

/// The coordinate on an axis, clamped to it.
pub fn clamped(axis: Axis, settings: &[(Tag, i32)]) -> i32
    ensures { result ≡ clamped axis settings.now }
{
    let greatest = axis.maximum.max(axis.default);
    let least = axis.minimum.min(axis.default);
    within(greatest, least, user_coordinate(&axis, settings))
}

/// How far a coordinate is from the default, in 65536ths of the way from it to an end.
fn toward(end: i32, default: i32, coordinate: i32) -> i64
    requires apart { 0 < unsigned_abs (end -ℤ default) }
    requires between { unsigned_abs (coordinate -ℤ default) ≤ unsigned_abs (end -ℤ default) }
    ensures value { result ≡ toward end default coordinate }
    ensures bound { unsigned_abs result ≤ 65536 }
{
    mul_div_nearest(
        i64::from(coordinate) - i64::from(default),
        u64::from(end.abs_diff(default)),
        ONE,
    )
}

/// The normalized coordinate of one below the default.
fn below_default(axis: &Axis, coordinate: i32) -> i64
    requires { coordinate <ℤ axis.now.default }
    ensures value { result ≡ below_default axis.now coordinate }
    ensures bound { unsigned_abs result ≤ 65536 }
{
    if axis.default <= axis.minimum {
        0
    } else if coordinate <= axis.minimum {
        -ONE
    } else {
        toward(axis.minimum, axis.default, coordinate)
    }
}

/// The normalized coordinate of one above the default.
fn above_default(axis: &Axis, coordinate: i32) -> i64
    requires { axis.now.default <ℤ coordinate }
    ensures value { result ≡ above_default axis.now coordinate }
    ensures bound { unsigned_abs result ≤ 65536 }
{
    if axis.maximum <= axis.default {
        0
    } else if axis.maximum <= coordinate {
        ONE
    } else {
        toward(axis.maximum, axis.default, coordinate)
    }
}

/// The normalized coordinate of a user coordinate on an axis: from -65536 at its least one to 65536 at its greatest one.
#[tactic(auto, unfolding(crate::specs::Locations::Axes::default_normalized))]
pub fn default_normalized(axis: &Axis, coordinate: i32) -> i64
    ensures value { result ≡ default_normalized axis.now coordinate }
    ensures bound { unsigned_abs result ≤ 65536 }
{
    if coordinate < axis.default {
        below_default(axis, coordinate)
    } else if axis.default < coordinate {
        above_default(axis, coordinate)
    } else {
        0
    }
}
