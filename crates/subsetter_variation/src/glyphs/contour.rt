//! The points of a contour, from one touched point to the next.

ghost use Rattle.std.specs.Prelude.{◌≡◌, ◌≤◌, ◌^◌, ◌+ℤ◌, pos, length, unsigned_abs, slice_index_or, EachIndex};
ghost use Rattle.subsetter_variation.specs.Glyphs.Inferred.{touched, first_touched, last_touched, delta_or, moved};

use crate::glyphs::inference::{Point, Touched, between};
use crate::rounding::scalar_times_delta;

/// A point as a touched one, if the tuple gives it a delta.
fn touched(point: Point) -> Option<Touched>
    ensures { result ≡ touched point }
{
    match point.delta {
        Some(delta) => Some(Touched {
            at: point.at,
            delta,
        }),
        None => None,
    }
}

/// The touched point with the lowest number.
fn first_touched(points: &[Point]) -> Option<Touched>
    ensures { result ≡ first_touched points.now }
{
    for point in points {
        if let Some(found) = touched(*point) {
            return Some(found);
        }
    }
    None
}

/// The touched point with the highest number.
fn last_touched(points: &[Point]) -> Option<Touched>
    ensures { result ≡ last_touched points.now }
{
    let mut last = None;
    for point in points {
        last = touched(*point).or(last);
    }
    last
}

/// What a tuple moves a point by: its own delta, or the inferred one.
fn delta_or(point: Point, before: Option<Touched>, after: Option<Touched>, scalar: i64) -> i64
    requires scalar { unsigned_abs scalar ≤ 2 ^ 30 }
    ensures value { result ≡ delta_or point.delta point.at before after scalar }
    ensures bound { unsigned_abs result ≤ 2 ^ 45 }
{
    if let Some(delta) = point.delta {
        return scalar_times_delta(scalar, delta);
    }
    match (before, after) {
        (Some(one), Some(other)) => between(point.at, one, other, scalar),
        _ => 0,
    }
}

/// Adds to the sums of a contour's points what a tuple moves each by.
pub fn add_contour(sums: &mut [i64], contour: &[Point], scalar: i64)
    requires same { length sums.old ≡ length contour.now }
    requires scalar { unsigned_abs scalar ≤ 2 ^ 30 }
    requires room { EachIndex sums.old (λ k. unsigned_abs (slice_index_or sums.old k (pos 0)) ≤ 2 ^ 62) }
    ensures added { EachIndex contour.now (λ k. slice_index_or sums.new k (pos 0) ≡ slice_index_or sums.old k (pos 0) +ℤ moved contour.now k scalar) }
    ensures bound { EachIndex contour.now (λ k. unsigned_abs (moved contour.now k scalar) ≤ 2 ^ 45) }
{
    let first = first_touched(contour);
    let mut before = last_touched(contour);
    let mut after = first;
    for (k, point) in contour.iter().enumerate() {
        sums[k] += delta_or(*point, before, after, scalar);
        if let Some(found) = touched(*point) {
            before = Some(found);
            after = first_touched(&contour[k + 1..]).or(first);
        }
    }
}
