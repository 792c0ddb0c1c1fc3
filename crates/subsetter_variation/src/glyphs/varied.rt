//! Where the points of a glyph go along one axis, by one tuple.

ghost use Rattle.std.specs.Prelude.{None, Some, ◌≡◌, ◌+◌, ◌+ℤ◌, ◌*ℤ◌, ◌≤◌, ◌^◌, ℕ, pos, length, map, unsigned_abs, slice_get, slice_index_or, slice_set, vec_len, All, EachIndex, IfOk, IfSome, MatchOption, Ok};
ghost use Rattle.std.specs.Option.{option_map};
ghost use Rattle.subsetter_base.specs.Gives.{Gives};
ghost use Rattle.subsetter_variation.specs.Glyphs.Varied.{AreEnds, added, added_to_each, ats_of, deltas_by_point, deltas_of, in_units, points, untouched};

use crate::glyphs::glyph::add_tuple;
use crate::glyphs::inference::Point;
use crate::packing::packed_sums::add_deltas;
use crate::rounding::scalar_times_delta;
use std::alloc::{AllocError, Global};
use std::mem;
use subsetter_base::Error;

/// The unit of a scalar, and of a sum: 2^30.
pub const UNIT: i64 = 1 << 30;

/// The points of a glyph before a tuple gives any of them a delta, in the memory of a list that is spare.
fn untouched(spare: Vec<Point>, coordinates: &[i16]) -> Result<Vec<Point>, AllocError>
    ensures { IfOk result (λ v. v.items ≡ untouched coordinates.now) }
{
    let mut points = spare;
    points.clear();
    points.reserve(coordinates.len())?;
    for at in coordinates {
        points.push_reserved(Point {
            at: *at,
            delta: None,
        });
    }
    Ok(points)
}

/// The points with the delta of one of them, if there is such a point.
#[tactic(auto, using(crate::proofs::Touching::past_points))]
fn with_delta(points: Vec<Point>, number: usize, delta: i16) -> Vec<Point>
    ensures at { ats_of result.items ≡ ats_of points.items }
    ensures delta { deltas_of result.items ≡ slice_set (deltas_of points.items) number (Some delta) }
{
    if number >= points.len() {
        return points;
    }
    let mut points = points;
    points[number].delta = Some(delta);
    points
}

/// The points of a glyph, each with the delta that is listed for its number, if any, in the memory of a list that is spare.
fn listed_points(
    spare: Vec<Point>,
    coordinates: &[i16],
    numbers: &[u32],
    deltas: &[i16],
) -> Result<Vec<Point>, AllocError>
    ensures { IfOk result (λ v. v.items ≡ points coordinates.now (deltas_by_point (length coordinates.now) (Some numbers.now) deltas.now)) }
{
    let mut points = untouched(spare, coordinates)?;
    let count = numbers.len().min(deltas.len());
    for i in 0..count {
        points = with_delta(points, numbers[i] as usize, deltas[i]);
    }
    Ok(points)
}

/// The delta of a point, if there are as many.
fn own_delta(deltas: &[i16], k: usize) -> Option<i16>
    ensures { result ≡ slice_get deltas.now k }
{
    deltas.get(k).copied()
}

/// The delta of each of `n` points, if it has one.
fn all_by_point(alloc: Global, n: usize, deltas: &[i16]) -> Result<Vec<Option<i16>>, AllocError>
    ensures { IfOk result (λ v. v.items ≡ deltas_by_point n None deltas.now) }
{
    let mut list = Vec::with_capacity(alloc, n)?;
    for k in 0..n {
        list.push(own_delta(deltas, k))?;
    }
    Ok(list)
}

/// The points of a glyph with these deltas.
fn points(
    alloc: Global,
    coordinates: &[i16],
    deltas: &[Option<i16>],
) -> Result<Vec<Point>, AllocError>
    ensures { IfOk result (λ v. v.items ≡ points coordinates.now deltas.now) }
{
    coordinates
        .iter()
        .zip(deltas)
        .map(|(at, delta)| Point {
            at: *at,
            delta: *delta,
        })
        .collect(alloc)
}

/// The points of a glyph, each with its own delta, if there are as many.
fn own_points(alloc: Global, coordinates: &[i16], deltas: &[i16]) -> Result<Vec<Point>, AllocError>
    ensures { IfOk result (λ v. v.items ≡ points coordinates.now (deltas_by_point (length coordinates.now) None deltas.now)) }
{
    let own = all_by_point(alloc, coordinates.len(), deltas)?;
    let points = points(alloc, coordinates, &own)?;
    Ok(points)
}

/// The points of a glyph with the deltas that a tuple gives: those that are listed for their numbers, or without numbers their own.
/// Those that are listed use the memory of the spare list.
fn points_of_tuple(
    alloc: Global,
    spare: Vec<Point>,
    coordinates: &[i16],
    numbers: &Option<Vec<u32>>,
    deltas: &[i16],
) -> Result<Vec<Point>, AllocError>
    ensures { IfOk result (λ v. v.items ≡ points coordinates.now (deltas_by_point (length coordinates.now) (option_map (λ x. x.items) numbers.now) deltas.now)) }
{
    match numbers {
        None => own_points(alloc, coordinates, deltas),
        Some(numbers) => listed_points(spare, coordinates, numbers, deltas),
    }
}

/// Writes coordinates in parts of 2^30.
fn write_units(sums: &mut [i64], coordinates: &[i16])
    requires same { length sums.old ≡ length coordinates.now }
    ensures value { EachIndex coordinates.now (λ k. slice_index_or sums.new k (pos 0) ≡ pos (2 ^ 30) *ℤ slice_index_or coordinates.now k (pos 0)) }
    ensures bound { EachIndex coordinates.now (λ k. unsigned_abs (slice_index_or sums.new k (pos 0)) ≤ 2 ^ 45) }
{
    for (k, x) in coordinates.iter().enumerate() {
        sums[k] = scalar_times_delta(UNIT, *x);
    }
}

/// `count` zeros, in the memory of the spare list.
fn zeros(spare: Vec<i64>, count: usize) -> Result<Vec<i64>, AllocError>
    ensures len { IfOk result (λ v. vec_len v ≡ count) }
{
    let mut sums = spare;
    sums.clear();
    sums.resize(count, 0)?;
    Ok(sums)
}

/// Coordinates in parts of 2^30, in the memory of a list that is spare.
pub fn in_units(spare: Vec<i64>, coordinates: &[i16]) -> Result<Vec<i64>, AllocError>
    ensures value { IfOk result (λ v. v.items ≡ in_units coordinates.now) }
    ensures bound { IfOk result (λ v. All (λ x. unsigned_abs x ≤ 2 ^ 45) v.items) }
{
    let mut sums = zeros(spare, coordinates.len())?;
    write_units(&mut sums, coordinates);
    Ok(sums)
}

/// The sums of the points, and what a tuple moves each by on top, along one axis, contour by contour. The list of points that is spare
/// is used, and kept.
pub fn added(
    alloc: Global,
    spare: &mut Vec<Point>,
    coordinates: &[i16],
    ends: &[usize],
    numbers: &Option<Vec<u32>>,
    deltas: &[i16],
    scalar: i64,
    sums: Vec<i64>,
) -> Result<Vec<i64>, AllocError>
    requires ends { AreEnds 0 ends.now (length coordinates.now) }
    requires scalar { unsigned_abs scalar ≤ 2 ^ 30 }
    requires same { length sums.items ≡ length coordinates.now }
    requires room { All (λ z. unsigned_abs z ≤ 2 ^ 62) sums.items }
    ensures value { IfOk result (λ v. v.items ≡ added coordinates.now ends.now (deltas_by_point (length coordinates.now) (option_map (λ x. x.items) numbers.now) deltas.now) scalar sums.items) }
    ensures count { IfOk result (λ v. length v.items ≡ length sums.items) }
    ensures bound { (b : ℕ) → All (λ z. unsigned_abs z ≤ b) sums.items → IfOk result (λ v. All (λ z. unsigned_abs z ≤ b + 2 ^ 45) v.items) }
{
    let list = mem::replace(spare, Vec::new(alloc));
    let points = points_of_tuple(alloc, list, coordinates, numbers, deltas)?;
    let mut sums = sums;
    add_tuple(&mut sums, &points, ends, scalar);
    *spare = points;
    Ok(sums)
}

/// The sums of the points, and what a tuple that gives each a delta moves it by on top, along one axis, and the bytes after these
/// deltas, unless they are cut.
pub fn added_to_each<'a>(
    coordinates: &[i16],
    ends: &[usize],
    bytes: &'a [u8],
    scalar: i64,
    sums: Vec<i64>,
) -> Option<(Vec<i64>, &'a [u8])>
    requires ends { AreEnds 0 ends.now (length coordinates.now) }
    requires scalar { unsigned_abs scalar ≤ 2 ^ 30 }
    requires same { length sums.items ≡ length coordinates.now }
    requires room { All (λ z. unsigned_abs z ≤ 2 ^ 62) sums.items }
    ensures value { MatchOption result (added_to_each coordinates.now ends.now bytes.now scalar sums.items ≡ None) (λ r. added_to_each coordinates.now ends.now bytes.now scalar sums.items ≡ Some (r.0.items, r.1.now)) }
    ensures count { IfSome result (λ r. length r.0.items ≡ length sums.items) }
    ensures bound { (b : ℕ) → All (λ z. unsigned_abs z ≤ b) sums.items → IfSome result (λ r. All (λ z. unsigned_abs z ≤ b + 2 ^ 45) r.0.items) }
{
    let mut sums = sums;
    let rest = add_deltas(&mut sums, bytes, scalar)?;
    Some((sums, rest))
}
