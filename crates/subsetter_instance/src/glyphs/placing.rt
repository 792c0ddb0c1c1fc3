//! A component of a composite glyph: through its matrix, moved, and after the components before it.

ghost use Rattle.std.specs.Prelude.{◌≡◌, ◌≤◌, ◌<◌, ◌^◌, ◌+◌, ◌++◌, ◌*ℤ◌, ◌+ℤ◌, ℕ, length, map, zip, slice_get, unsigned_abs, All, IfOk, IfSome};
ghost use Rattle.subsetter_base.specs.Gives.{Gives};
ghost use Rattle.subsetter_variation.specs.Nearest.{nearest};
ghost use Rattle.subsetter_instance.specs.Glyphs.Unfolded.{IsInReach, are_near, is_identity, is_scaled, joined_moved, joined_parts, matched, moved_part, point_at, shift_by, shifted, swapped, transformed_x, with_metrics, with_part, with_points};

use crate::glyphs::components::{Arguments, Component, Matrix, has};
use crate::glyphs::simple::is_near_too;
use crate::glyphs::unfolding::Unfolded;
use std::alloc::{AllocError, Global};
use subsetter_base::Error;
use subsetter_points::component::{
    SCALED_COMPONENT_OFFSET, UNSCALED_COMPONENT_OFFSET, USE_MY_METRICS,
};
use subsetter_variation::rounding::{minus, nearest, plus};

/// A coordinate times a scale.
fn product(scale: i16, v: i64) -> i64
    requires { unsigned_abs v ≤ 2 ^ 45 }
    ensures value { result ≡ scale *ℤ v }
    ensures bound { unsigned_abs result ≤ 2 ^ 60 }
{
    i64::from(scale) * v
}

/// A sum of two products.
fn sum(a: i16, x: i64, b: i16, y: i64) -> i64
    requires x { unsigned_abs x ≤ 2 ^ 45 }
    requires y { unsigned_abs y ≤ 2 ^ 45 }
    ensures value { result ≡ a *ℤ x +ℤ b *ℤ y }
    ensures bound { unsigned_abs result ≤ 2 ^ 61 }
{
    plus(product(a, x), product(b, y))
}

/// 1 as an F2DOT14.
const ONE: i16 = 16384;
/// How many units 1 has in an F2DOT14.
const F2DOT14_UNITS: u64 = 16384;

/// A number of 16384ths, to the nearest whole number.
fn quotient(v: i64) -> i64
    requires { unsigned_abs v ≤ 2 ^ 61 }
    ensures value { result ≡ nearest v 16384 }
    ensures bound { unsigned_abs result ≤ 2 ^ 47 }
{
    nearest(v, F2DOT14_UNITS)
}

/// x of a point through a matrix.
fn transformed_x(m: Matrix, x: i64, y: i64) -> i64
    requires x { unsigned_abs x ≤ 2 ^ 45 }
    requires y { unsigned_abs y ≤ 2 ^ 45 }
    ensures value { result ≡ transformed_x m (x, y) }
    ensures bound { unsigned_abs result ≤ 2 ^ 47 }
{
    quotient(sum(m.xx, x, m.xy, y))
}

/// A matrix with its rows swapped, by which x is y of the other.
fn swapped(m: Matrix) -> Matrix
    ensures { result ≡ swapped m }
{
    Matrix {
        xx: m.yx,
        yx: m.xx,
        xy: m.yy,
        yy: m.xy,
    }
}

/// x of points through a matrix.
#[tactic(auto, using(crate::proofs::GlyphsLaws::Reach::zip_step, crate::proofs::GlyphsLaws::Reach::zip_end))]
fn transformed_column(
    alloc: Global,
    m: Matrix,
    xs: &[i64],
    ys: &[i64],
) -> Result<Vec<i64>, AllocError>
    requires same { length ys.now ≡ length xs.now }
    requires xs { All (λ v. unsigned_abs v ≤ 2 ^ 45) xs.now }
    requires ys { All (λ v. unsigned_abs v ≤ 2 ^ 45) ys.now }
    ensures len { IfOk result (λ v. length v.items ≡ length xs.now) }
    ensures value { IfOk result (λ v. v.items ≡ map (transformed_x m) (zip xs.now ys.now)) }
    ensures bound { IfOk result (λ v. All (λ z. unsigned_abs z ≤ 2 ^ 47) v.items) }
{
    let mut all = Vec::with_capacity(alloc, xs.len())?;
    for i in 0..xs.len() {
        all.push(transformed_x(m, xs[i], ys[i]))?;
    }
    Ok(all)
}

/// Whether a matrix changes nothing.
fn is_identity(m: Matrix) -> bool
    ensures { result ≡ is_identity m }
{
    m.xx == ONE && m.yx == 0 && m.xy == 0 && m.yy == ONE
}

/// Whether an offset is to be scaled. Where the flags say both, it isn't, as by default.
fn is_scaled(flags: u16, matrix: Option<Matrix>) -> bool
    ensures { result ≡ is_scaled flags matrix }
{
    match matrix {
        None => false,
        Some(m) => {
            has(flags, SCALED_COMPONENT_OFFSET)
                && !(has(flags, UNSCALED_COMPONENT_OFFSET) || is_identity(m))
        }
    }
}

/// A point by its number.
fn point_at(xs: &[i64], ys: &[i64], number: u16) -> Option<(i64, i64)>
    requires xs { All (λ v. unsigned_abs v ≤ 2 ^ 47) xs.now }
    requires ys { All (λ v. unsigned_abs v ≤ 2 ^ 47) ys.now }
    ensures value { result ≡ point_at xs.now ys.now number }
    ensures bound { IfSome result (λ p. (unsigned_abs p.0 ≤ 2 ^ 47) × (unsigned_abs p.1 ≤ 2 ^ 47)) }
{
    let x = *xs.get(number as usize)?;
    let y = *ys.get(number as usize)?;
    Some((x, y))
}

/// How far a point of a component is from the one that it is to match. `MalformedFont` where one isn't there.
#[tactic(auto, unfolding(crate::specs::Glyphs::Unfolded::matched))]
fn matched(parent: Option<(i64, i64)>, child: Option<(i64, i64)>) -> Result<(i64, i64), Error>
    requires parent { IfSome parent (λ p. (unsigned_abs p.0 ≤ 2 ^ 47) × (unsigned_abs p.1 ≤ 2 ^ 47)) }
    requires child { IfSome child (λ p. (unsigned_abs p.0 ≤ 2 ^ 47) × (unsigned_abs p.1 ≤ 2 ^ 47)) }
    ensures value { result ≡ matched parent child }
    ensures bound { IfOk result (λ p. (unsigned_abs p.0 ≤ 2 ^ 57) × (unsigned_abs p.1 ≤ 2 ^ 57)) }
{
    let (x, y) = parent.ok_or(Error::MalformedFont)?;
    let (from_x, from_y) = child.ok_or(Error::MalformedFont)?;
    Ok((minus(x, from_x), minus(y, from_y)))
}

/// How far a component moves. `Unimplemented` for an offset that is to be scaled.
fn shift_by(
    arguments: Arguments,
    scaled: bool,
    x: i64,
    y: i64,
    before: &Unfolded,
    xs: &[i64],
    ys: &[i64],
) -> Result<(i64, i64), Error>
    requires x { unsigned_abs x ≤ 2 ^ 57 }
    requires y { unsigned_abs y ≤ 2 ^ 57 }
    requires before_xs { All (λ v. unsigned_abs v ≤ 2 ^ 47) before.now.xs }
    requires before_ys { All (λ v. unsigned_abs v ≤ 2 ^ 47) before.now.ys }
    requires xs { All (λ v. unsigned_abs v ≤ 2 ^ 47) xs.now }
    requires ys { All (λ v. unsigned_abs v ≤ 2 ^ 47) ys.now }
    ensures value { result ≡ shift_by arguments scaled x y before.now xs.now ys.now }
    ensures bound { IfOk result (λ p. (unsigned_abs p.0 ≤ 2 ^ 57) × (unsigned_abs p.1 ≤ 2 ^ 57)) }
{
    match arguments {
        Arguments::Offset(..) => {
            if scaled {
                Err(Error::Unimplemented)
            } else {
                Ok((x, y))
            }
        }
        Arguments::Points(parent, child) => matched(
            point_at(&before.xs, &before.ys, parent),
            point_at(xs, ys, child),
        ),
    }
}

/// Whether no coordinate is more than 32768 units from 0 when it is moved. All are looked at, as a loop with one way out is the
/// faster.
#[tactic(auto, using(crate::proofs::GlyphsLaws::Reach::near_step, crate::proofs::GlyphsLaws::Reach::near_end))]
fn are_near_moved(by: i64, vs: &[i64]) -> bool
    requires by { unsigned_abs by ≤ 2 ^ 57 }
    requires vs { All (λ v. unsigned_abs v ≤ 2 ^ 47) vs.now }
    ensures { result ≡ are_near (shifted by vs.now) }
{
    let mut near = true;
    for v in vs {
        near = is_near_too(near, plus(*v, by));
    }
    near
}

/// Coordinates, and after them those of a component, moved.
fn joined_coordinates(before: Vec<i64>, by: i64, vs: &[i64]) -> Result<Vec<i64>, AllocError>
    requires by { unsigned_abs by ≤ 2 ^ 57 }
    requires vs { All (λ v. unsigned_abs v ≤ 2 ^ 47) vs.now }
    ensures { IfOk result (λ v. v.items ≡ before.items ++ shifted by vs.now) }
{
    let mut all = before;
    all.reserve(vs.len())?;
    for v in vs {
        all.push_reserved(plus(*v, by));
    }
    Ok(all)
}

/// The ends of contours, and those of a component of m points after n points.
fn joined_ends(ends: Vec<u16>, n: usize, m: usize, part: &[u16]) -> Result<Vec<u16>, AllocError>
    requires few { n + m < 65536 }
    requires below { All (λ e. e < m) part.now }
    ensures { IfOk result (λ v. v.items ≡ ends.items ++ map (λ e. e + n) part.now) }
{
    let mut ends = ends;
    ends.reserve(part.len())?;
    for end in part {
        ends.push_reserved(*end + n as u16);
    }
    Ok(ends)
}

/// A component, of which these are the points, moved, after those before it.
#[tactic(auto, using(crate::proofs::GlyphsLaws::Reach::on_count))]
fn joined_parts(
    before: Unfolded,
    part: &Unfolded,
    across: i64,
    up: i64,
    xs: &[i64],
    ys: &[i64],
) -> Result<Unfolded, AllocError>
    requires across { unsigned_abs across ≤ 2 ^ 57 }
    requires up { unsigned_abs up ≤ 2 ^ 57 }
    requires xs { All (λ v. unsigned_abs v ≤ 2 ^ 47) xs.now }
    requires ys { All (λ v. unsigned_abs v ≤ 2 ^ 47) ys.now }
    requires ends { All (λ e. e < length part.now.on) part.now.ends }
    requires few { length before.on + length part.now.on < 65536 }
    ensures value { IfOk result (λ u. u ≡ joined_parts before (moved_part part.now across up xs.now ys.now)) }
{
    let Unfolded {
        ends,
        on,
        xs: before_xs,
        ys: before_ys,
        left,
        right,
    } = before;
    let ends = joined_ends(ends, on.len(), part.on.len(), &part.ends)?;
    let mut on = on;
    on.extend_from_slice(&part.on)?;
    let xs = joined_coordinates(before_xs, across, xs)?;
    let ys = joined_coordinates(before_ys, up, ys)?;
    Ok(Unfolded {
        ends,
        on,
        xs,
        ys,
        left,
        right,
    })
}

/// A component, of which these are the points, moved, after those before it, and the steps that are left. `OverflowError` where
/// one of its coordinates is more than 32768 units from 0, or where there are more than 65535 points.
#[tactic(auto, unfolding(crate::specs::Glyphs::Unfolded::joined_moved), using(crate::proofs::GlyphsLaws::Reach::on_count))]
fn joined_moved(
    before: Unfolded,
    part: &Unfolded,
    across: i64,
    up: i64,
    xs: &[i64],
    ys: &[i64],
    steps: u32,
) -> Result<(Unfolded, u32), Error>
    requires across { unsigned_abs across ≤ 2 ^ 57 }
    requires up { unsigned_abs up ≤ 2 ^ 57 }
    requires xs { All (λ v. unsigned_abs v ≤ 2 ^ 47) xs.now }
    requires ys { All (λ v. unsigned_abs v ≤ 2 ^ 47) ys.now }
    requires before { IsInReach before }
    requires part { IsInReach part.now }
    requires many_xs { length xs.now ≡ length part.now.on }
    requires many_ys { length ys.now ≡ length part.now.on }
    ensures value { Gives (λ r. (r.0, r.1)) result (joined_moved before part.now across up xs.now ys.now steps) }
    ensures bound { IfOk result (λ r. IsInReach r.0) }
{
    if !(are_near_moved(across, xs) && are_near_moved(up, ys)) {
        return Err(Error::OverflowError);
    }
    if before.on.len() + part.on.len() >= 65536 {
        return Err(Error::OverflowError);
    }
    Ok((joined_parts(before, part, across, up, xs, ys)?, steps))
}

/// A component, of which these are the points through its matrix, placed after those before it, and the steps that are left.
#[tactic(auto, unfolding(crate::specs::Glyphs::Unfolded::with_points), using(crate::proofs::GlyphsLaws::Reach::wider_47))]
fn with_points(
    component: Component,
    x: i64,
    y: i64,
    before: Unfolded,
    part: &Unfolded,
    xs: &[i64],
    ys: &[i64],
    steps: u32,
) -> Result<(Unfolded, u32), Error>
    requires x { unsigned_abs x ≤ 2 ^ 57 }
    requires y { unsigned_abs y ≤ 2 ^ 57 }
    requires xs { All (λ v. unsigned_abs v ≤ 2 ^ 47) xs.now }
    requires ys { All (λ v. unsigned_abs v ≤ 2 ^ 47) ys.now }
    requires before { IsInReach before }
    requires part { IsInReach part.now }
    requires many_xs { length xs.now ≡ length part.now.on }
    requires many_ys { length ys.now ≡ length part.now.on }
    ensures value { Gives (λ r. (r.0, r.1)) result (with_points component x y before part.now xs.now ys.now steps) }
    ensures bound { IfOk result (λ r. IsInReach r.0) }
{
    let scaled = is_scaled(component.flags, component.matrix);
    let (across, up) = shift_by(component.arguments, scaled, x, y, &before, xs, ys)?;
    joined_moved(before, part, across, up, xs, ys, steps)
}

/// The components before a component, with its phantom points where it has USE_MY_METRICS.
#[tactic(auto, using(crate::proofs::GlyphsLaws::Reach::metrics_reach))]
pub fn with_metrics(flags: u16, before: Unfolded, part: &Unfolded) -> Unfolded
    requires before { IsInReach before }
    requires part { IsInReach part.now }
    ensures value { result ≡ with_metrics flags before part.now }
    ensures bound { IsInReach result }
{
    if !has(flags, USE_MY_METRICS) {
        return before;
    }
    let Unfolded {
        ends,
        on,
        xs,
        ys,
        ..
    } = before;
    Unfolded {
        ends,
        on,
        xs,
        ys,
        left: part.left,
        right: part.right,
    }
}

/// The components before a component, and itself, and the steps that are left.
#[tactic(auto, using(crate::proofs::GlyphsLaws::PartLemmas::plain_part, crate::proofs::GlyphsLaws::Reach::wider_47))]
pub fn with_part(
    alloc: Global,
    component: Component,
    x: i64,
    y: i64,
    before: Unfolded,
    part: &Unfolded,
    steps: u32,
) -> Result<(Unfolded, u32), Error>
    requires x { unsigned_abs x ≤ 2 ^ 57 }
    requires y { unsigned_abs y ≤ 2 ^ 57 }
    requires before { IsInReach before }
    requires part { IsInReach part.now }
    ensures value { Gives (λ r. (r.0, r.1)) result (with_part component x y before part.now steps) }
    ensures bound { IfOk result (λ r. IsInReach r.0) }
{
    match component.matrix {
        None => with_points(component, x, y, before, part, &part.xs, &part.ys, steps),
        Some(m) => {
            let xs = transformed_column(alloc, m, &part.xs, &part.ys)?;
            let ys = transformed_column(alloc, swapped(m), &part.xs, &part.ys)?;
            with_points(component, x, y, before, part, &xs, &ys, steps)
        }
    }
}
