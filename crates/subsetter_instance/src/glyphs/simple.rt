//! A simple glyph at a location.

ghost use Rattle.std.specs.Prelude.{◌≡◌, ◌≤◌, ◌<◌, ◌^◌, ◌+◌, ◌++◌, ◌∷◌, [], ◌*ℤ◌, ◌+ℤ◌, ◌&&◌, ℕ, nat_le, pos, length, take, slice_index_or, unsigned_abs, All, IsTrue, IfOk};
ghost use Rattle.std.specs.Option.{option_copied};
ghost use Rattle.subsetter_base.specs.Gives.{Gives};
ghost use Rattle.subsetter_points.specs.Simple.{are_ends};
ghost use Rattle.subsetter_variation.specs.Glyphs.Movement.{AreWithin, IsOutline};
ghost use Rattle.subsetter_instance.specs.Source.{HasAxes};
ghost use Rattle.subsetter_instance.specs.Glyphs.Unfolded.{IsInReach, are_near, left_point, left_side, moved, in_range_or_fault, outline_by_flags, right_point, unfolded_by_flags, unfolded_simple, with_phantoms, IsShaped, x_min};

use crate::glyphs::spare::Spare;
use crate::glyphs::unfolding::Unfolded;
use crate::source::Source;
use std::alloc::{AllocError, Global};
use subsetter_base::Error;
use subsetter_base::read::Reader;
use subsetter_points::header::X_MIN;
use subsetter_points::{Columns, read_columns};
use subsetter_sfnt::fields::hmtx::LongHorMetric;
use subsetter_variation::glyphs::movement::{Outline as DefaultOutline, moved_points, spent};
use subsetter_variation::glyphs::spare::SpareLists;
use subsetter_variation::glyphs::tuples::Gvar;
use subsetter_variation::glyphs::varied::in_units;
use subsetter_variation::rounding::plus;

/// xMin of a description, 0 of a glyph without bytes.
fn x_min(bytes: &[u8]) -> i16
    ensures { result ≡ x_min bytes.now }
{
    match Reader::new_at(bytes, X_MIN).read::<u16>() {
        Some(bits) => bits.cast_signed(),
        None => 0,
    }
}

/// x of the left side of the default.
fn left_side(bytes: &[u8], metric: LongHorMetric) -> i32
    ensures value { result ≡ left_side bytes.now metric }
    ensures bound { unsigned_abs result ≤ 2 ^ 16 }
{
    i32::from(x_min(bytes)) - i32::from(metric.lsb.cast_signed())
}

/// Whole units in parts of 2^30.
fn in_parts(units: i32) -> i64
    requires { unsigned_abs units ≤ 2 ^ 18 }
    ensures value { result ≡ pos (2 ^ 30) *ℤ units }
    ensures bound { unsigned_abs result ≤ 2 ^ 48 }
{
    (1 << 30) * i64::from(units)
}

/// The coordinate of a point, 0 where there is no such point.
pub fn coordinate_at(xs: &[i64], number: usize) -> i64
    requires { All (λ x. unsigned_abs x ≤ 2 ^ 57) xs.now }
    ensures value { result ≡ slice_index_or xs.now number (pos 0) }
    ensures bound { unsigned_abs result ≤ 2 ^ 57 }
{
    match xs.get(number) {
        Some(x) => *x,
        None => 0,
    }
}

/// x of the left phantom point after n points.
pub fn left_point(bytes: &[u8], metric: LongHorMetric, n: usize, xs: &[i64]) -> i64
    requires { All (λ x. unsigned_abs x ≤ 2 ^ 57) xs.now }
    ensures value { result ≡ left_point bytes.now metric n xs.now }
    ensures bound { unsigned_abs result ≤ 2 ^ 58 }
{
    plus(in_parts(left_side(bytes, metric)), coordinate_at(xs, n))
}

/// x of the right side of the default.
fn right_side(bytes: &[u8], metric: LongHorMetric) -> i32
    ensures value { result ≡ left_side bytes.now metric +ℤ pos metric.advance_width }
    ensures bound { unsigned_abs result ≤ 2 ^ 18 }
{
    left_side(bytes, metric) + i32::from(metric.advance_width)
}

/// x of the right phantom point after n points.
pub fn right_point(bytes: &[u8], metric: LongHorMetric, n: usize, xs: &[i64]) -> i64
    requires bound { All (λ x. unsigned_abs x ≤ 2 ^ 57) xs.now }
    requires count { n < 2 ^ 32 }
    ensures value { result ≡ right_point bytes.now metric n xs.now }
    ensures bound { unsigned_abs result ≤ 2 ^ 58 }
{
    plus(
        in_parts(right_side(bytes, metric)),
        coordinate_at(xs, n + 1),
    )
}

/// Whether it held so far, and a coordinate isn't more than 32768 units from 0.
pub fn is_near_too(near: bool, v: i64) -> bool
    ensures { result ≡ (near && nat_le (unsigned_abs v) (2 ^ 45)) }
{
    near && v.unsigned_abs() <= 1 << 45
}

/// Whether no coordinate is more than 32768 units from 0. All are looked at, as a loop with one way out is the faster.
#[tactic(auto, using(crate::proofs::GlyphsLaws::Reach::close_step, crate::proofs::GlyphsLaws::Reach::close_end))]
pub fn are_near(coordinates: &[i64]) -> bool
    ensures value { result ≡ are_near coordinates.now }
    ensures within { IsTrue result → All (λ v. unsigned_abs v ≤ 2 ^ 45) coordinates.now }
{
    let mut near = true;
    for v in coordinates {
        near = is_near_too(near, *v);
    }
    near
}

/// A glyph whose points are near, else `OverflowError`.
pub fn in_range_or_fault(unfolded: Unfolded, steps: u32) -> Result<(Unfolded, u32), Error>
    requires { IsShaped unfolded }
    ensures value { result ≡ in_range_or_fault unfolded steps }
    ensures bound { IfOk result (λ r. IsInReach r.0) }
{
    if are_near(&unfolded.xs) && are_near(&unfolded.ys) {
        Ok((unfolded, steps))
    } else {
        Err(Error::OverflowError)
    }
}

/// Where the points of an outline go.
pub fn moved(
    alloc: Global,
    lists: &mut SpareLists,
    gvar: Option<&Gvar<'_>>,
    glyph: u16,
    default: &DefaultOutline<'_>,
    at: &[i32],
    steps: u32,
) -> Result<(Vec<i64>, Vec<i64>, u32), Error>
    requires outline { IsOutline default.now }
    requires axes { HasAxes (option_copied gvar) (length at.now) }
    ensures value { Gives (λ r. (r.0.items, r.1.items, r.2)) result (moved (option_copied gvar.entry) glyph default.now at.now steps) }
    ensures bound { IfOk result (λ r. AreWithin (2 ^ 57) default.now r.0.items r.1.items) }
{
    match gvar {
        None => {
            let xs = in_units(lists.take_xs(alloc), default.xs)?;
            let ys = in_units(lists.take_ys(alloc), default.ys)?;
            Ok((xs, ys, steps))
        }
        Some(table) => moved_points(alloc, lists, table, glyph, default, at, steps),
    }
}

/// Coordinates, and 0 for each of the four phantom points.
fn with_phantoms(coordinates: Vec<i16>) -> Result<Vec<i16>, AllocError>
    ensures { IfOk result (λ v. v.items ≡ coordinates.items ++ (pos 0 ∷ pos 0 ∷ pos 0 ∷ pos 0 ∷ [])) }
{
    let mut all = coordinates;
    all.extend_from_slice(&[0; 4])?;
    Ok(all)
}

/// The ends of contours of n points, and of the four phantom points, each a contour of its own, in the memory of a list that is spare.
fn ends_with_phantoms(spare: Vec<usize>, ends: &[u16], n: usize) -> Result<Vec<usize>, AllocError>
    requires { n < 2 ^ 32 }
    ensures { IfOk result (λ v. v.items ≡ ends.now ++ (n ∷ (n + 1) ∷ (n + 2) ∷ (n + 3) ∷ [])) }
{
    let mut all = spare;
    all.clear();
    all.reserve(ends.len().saturating_add(4))?;
    for end in ends {
        all.push_reserved(*end as usize);
    }
    all.extend_from_slice(&[n, n + 1, n + 2, n + 3])?;
    Ok(all)
}

/// Where the points of a simple outline go, and its phantom points.
fn moved_simple(
    alloc: Global,
    spare: &mut Spare,
    gvar: Option<&Gvar<'_>>,
    glyph: u16,
    ends: &[u16],
    xs: Vec<i16>,
    ys: Vec<i16>,
    at: &[i32],
    steps: u32,
) -> Result<(Vec<i64>, Vec<i64>, u32), Error>
    requires sound { IsTrue (are_ends 0 ends.now (length xs.items)) }
    requires as_many { length ys.items ≡ length xs.items }
    requires few { length xs.items + 4 < 2 ^ 32 }
    requires axes { HasAxes (option_copied gvar) (length at.now) }
    ensures value { Gives (λ r. (r.0.items, r.1.items, r.2)) result (moved (option_copied gvar.entry) glyph (with_phantoms ends.now xs.items ys.items) at.now steps) }
    ensures bound { IfOk result (λ r. AreWithin (2 ^ 57) (with_phantoms ends.now xs.items ys.items) r.0.items r.1.items) }
{
    let all_ends = ends_with_phantoms(spare.take_ends(alloc), ends, xs.len())?;
    let all_xs = with_phantoms(xs)?;
    let all_ys = with_phantoms(ys)?;
    let default = DefaultOutline {
        xs: &all_xs,
        ys: &all_ys,
        ends: &all_ends,
    };
    let answer = moved(alloc, &mut spare.lists, gvar, glyph, &default, at, steps);
    spare.keep_default(all_xs, all_ys, all_ends);
    answer
}

/// Moved points, without their phantom points.
fn simple_outline(
    bytes: &[u8],
    metric: LongHorMetric,
    ends: Vec<u16>,
    on: Vec<u8>,
    xs: Vec<i64>,
    ys: Vec<i64>,
) -> Unfolded
    requires sound { IsTrue (are_ends 0 ends.items (length on.items)) }
    requires few { length on.items + 4 < 2 ^ 32 }
    requires xs_count { length xs.items ≡ length on.items + 4 }
    requires ys_count { length ys.items ≡ length on.items + 4 }
    requires bound { All (λ x. unsigned_abs x ≤ 2 ^ 57) xs.items }
    ensures value { result ≡ outline_by_flags bytes.now metric ends.items on.items xs.items ys.items }
    ensures shape { IsShaped result }
{
    let n = on.len();
    let left = left_point(bytes, metric, n, &xs);
    let right = right_point(bytes, metric, n, &xs);
    let mut xs = xs;
    let mut ys = ys;
    xs.truncate(n);
    ys.truncate(n);
    Unfolded {
        ends,
        on,
        xs,
        ys,
        left,
        right,
    }
}

/// A simple glyph at a location, of which the description is read, and the steps that are left.
#[tactic(auto, unfolding(crate::specs::Glyphs::Unfolded::unfolded_by_flags))]
fn unfold_columns(
    alloc: Global,
    spare: &mut Spare,
    source: &Source<'_>,
    at: &[i32],
    steps: u32,
    glyph: u16,
    bytes: &[u8],
    metric: LongHorMetric,
    columns: Columns,
) -> Result<(Unfolded, u32), Error>
    requires xs { length columns.xs.items ≡ length columns.flags.items }
    requires ys { length columns.ys.items ≡ length columns.flags.items }
    requires sound { IsTrue (are_ends 0 columns.ends.items (length columns.flags.items)) }
    requires axes { HasAxes source.now.gvar (length at.now) }
    ensures value { Gives (λ r. (r.0, r.1)) result (unfolded_by_flags source.now at.now steps glyph bytes.now metric columns.ends.items columns.flags.items columns.xs.items columns.ys.items) }
    ensures bound { IfOk result (λ r. IsInReach r.0) }
{
    let Columns {
        ends,
        flags,
        xs,
        ys,
    } = columns;
    let steps = spent(flags.len() + 5, steps)?;
    let gvar = source.gvar();
    let (xs, ys, steps) = moved_simple(alloc, spare, gvar, glyph, &ends, xs, ys, at, steps)?;
    let unfolded = simple_outline(bytes, metric, ends, flags, xs, ys);
    in_range_or_fault(unfolded, steps)
}

/// A simple glyph at a location, and the steps that are left.
#[tactic(auto, unfolding(crate::specs::Glyphs::Unfolded::unfolded_simple))]
pub fn unfold_simple(
    alloc: Global,
    spare: &mut Spare,
    source: &Source<'_>,
    at: &[i32],
    steps: u32,
    glyph: u16,
    bytes: &[u8],
    metric: LongHorMetric,
) -> Result<(Unfolded, u32), Error>
    requires { HasAxes source.now.gvar (length at.now) }
    ensures value { Gives (λ r. (r.0, r.1)) result (unfolded_simple source.now at.now steps glyph bytes.now metric) }
    ensures bound { IfOk result (λ r. IsInReach r.0) }
{
    let lists = spare.take_columns(alloc);
    let columns = read_columns(alloc, lists, bytes)?.ok_or(Error::MalformedFont)?;
    unfold_columns(
        alloc, spare, source, at, steps, glyph, bytes, metric, columns,
    )
}
