//! The bounding box of an outline.

ghost use Rattle.std.specs.Prelude.{◌≡◌, ◌++◌, OnOk};
ghost use Rattle.subsetter_points.specs.Bounds.{with_point, box_around, bounds_bytes, bounds_of};

use crate::outline::Point;
use std::alloc::AllocError;
use subsetter_base::compare::{larger, smaller};

/// A box around points.
#[derive(Clone, Copy)]
pub struct Bounds {
    /// The left side.
    pub x_min: i16,
    /// The lower side.
    pub y_min: i16,
    /// The right side.
    pub x_max: i16,
    /// The upper side.
    pub y_max: i16,
}

/// The least box around a box and a point.
#[inline]
fn with_point(bounds: Bounds, point: Point) -> Bounds
    ensures { result ≡ with_point bounds point }
{
    Bounds {
        x_min: smaller(bounds.x_min, point.x),
        y_min: smaller(bounds.y_min, point.y),
        x_max: larger(bounds.x_max, point.x),
        y_max: larger(bounds.y_max, point.y),
    }
}

/// The least box around a point and others.
fn box_around(first: Point, rest: &[Point]) -> Bounds
    ensures { result ≡ box_around first rest.now }
{
    let mut bounds = Bounds {
        x_min: first.x,
        y_min: first.y,
        x_max: first.x,
        y_max: first.y,
    };
    for point in rest {
        bounds = with_point(bounds, *point);
    }
    bounds
}

/// The least box around points, at 0 without points.
pub fn bounds_of(points: &[Point]) -> Bounds
    ensures { result ≡ bounds_of points.now }
{
    match points {
        [first, rest @ ..] => box_around(*first, rest),
        [] => Bounds {
            x_min: 0,
            y_min: 0,
            x_max: 0,
            y_max: 0,
        },
    }
}

/// xMin, yMin, xMax and yMax.
pub fn bounds_bytes(bounds: Bounds) -> [u8; 8]
    ensures { result ≡ bounds_bytes bounds }
{
    let [a, b] = bounds.x_min.to_be_bytes();
    let [c, d] = bounds.y_min.to_be_bytes();
    let [e, f] = bounds.x_max.to_be_bytes();
    let [g, h] = bounds.y_max.to_be_bytes();
    [a, b, c, d, e, f, g, h]
}

/// Appends xMin, yMin, xMax and yMax.
pub fn write_bounds(out: &mut Vec<u8>, bounds: Bounds) -> Result<(), AllocError>
    ensures { OnOk result (out.new.items ≡ out.old.items ++ bounds_bytes bounds) }
{
    out.extend_from_slice(&bounds_bytes(bounds))
}
