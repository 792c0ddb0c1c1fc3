//! Whether an outline can be written.
//!
//! An outline has at most 65,535 points, which is the greatest maxPoints of `maxp`, though endPtsOfContours can number
//! 65,536, and at most 32,767 contours, as numberOfContours is an int16. None of its contours is empty.

ghost use Rattle.std.specs.Prelude.{◌≡◌, ◌&&◌, pos};
ghost use Rattle.subsetter_points.specs.Simple.{are_ends, column_of, deltas_fit, points_fit, parts_fit};

use crate::lists::deltas::delta_fits;
use crate::outline::{Column, Outline, Point, coordinate_in};

/// The most contours of an outline (`numberOfContours`).
const MOST_CONTOURS: usize = 0x7FFF;
/// The most points of an outline (`maxPoints` of `maxp`).
const MOST_POINTS: usize = 0xFFFF;

/// Whether these are the last points of contours that have `points` points in all.
fn are_ends(ends: &[u16], points: usize) -> bool
    ensures { result ≡ are_ends 0 ends.now points }
{
    let mut from = 0;
    for end in ends {
        let end = usize::from(*end);
        if end < from {
            return false;
        }
        from = end + 1;
    }
    from == points
}

/// Whether both hold.
fn both(one: bool, other: bool) -> bool
    ensures { result ≡ (one && other) }
{
    one && other
}

/// Whether each delta in a column has 16 bits. All are looked at, as a loop with one exit is the faster.
#[inline]
fn column_fits(column: Column, points: &[Point]) -> bool
    ensures { result ≡ deltas_fit (pos 0) (column_of column points.now) }
{
    let mut before = 0;
    let mut fit = true;
    for point in points {
        let coordinate = coordinate_in(column, *point);
        fit = both(fit, delta_fits(before, coordinate));
        before = coordinate;
    }
    fit
}

/// Whether points can be written.
fn points_fit(points: &[Point]) -> bool
    ensures { result ≡ points_fit points.now }
{
    points.len() <= MOST_POINTS
        && column_fits(Column::XCoordinates, points)
        && column_fits(Column::YCoordinates, points)
}

/// Whether an outline can be written: at most 32767 contours, each with a point, at most 65535 points, and a delta of 16 bits
/// from each coordinate to the next.
pub fn fits(outline: &Outline) -> bool
    ensures { result ≡ parts_fit outline.now.ends.items outline.now.points.items }
{
    are_ends(&outline.ends, outline.points.len())
        && outline.ends.len() <= MOST_CONTOURS
        && points_fit(&outline.points)
}
