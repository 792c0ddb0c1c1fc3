//! The path construction operators of one byte (Technical Note 5177, section 4.1).

ghost use Rattle.std.specs.Prelude.{◌≡◌, ◌≤◌, ◌<◌, ◌^◌, ◌==◌, ◌%◌, ◌∷◌, [], All, length, true, false, unsigned_abs};
ghost use Rattle.subsetter_blend.specs.Axes.{along_y};
ghost use Rattle.subsetter_blend.specs.Drawn.{lines, alternating_lines, curves, curves_line, lines_curve, horizontal_curves, vertical_curves, odd_horizontal, odd_vertical, alternating_curves, moves, moves_along};
ghost use Rattle.subsetter_blend.specs.Runs.Number.{IsWithin};
ghost use Rattle.subsetter_blend.specs.Writing.Placed.{IsPosition};
ghost use Rattle.subsetter_boxes.specs.Traced.{traced, IsHeld};

use crate::pen::{Pen, curve, go, go_along};

/// rmoveto.
pub fn moves(pen: Pen, operands: &[i64]) -> Option<Pen>
    requires at { IsPosition pen.at }
    requires within { All IsWithin operands.now }
    ensures value { result ≡ traced (moves pen.at operands.now) pen }
    ensures held { IsHeld result }
{
    match operands {
        [dx, dy] => go(pen, *dx, *dy),
        _ => Some(pen),
    }
}

/// hmoveto and vmoveto.
pub fn moves_along(y: bool, pen: Pen, operands: &[i64]) -> Option<Pen>
    requires at { IsPosition pen.at }
    requires within { All IsWithin operands.now }
    ensures value { result ≡ traced (moves_along (along_y y) pen.at operands.now) pen }
    ensures held { IsHeld result }
{
    match operands {
        [d] => go_along(y, pen, *d),
        _ => Some(pen),
    }
}

/// rlineto.
pub fn lines(pen: Pen, operands: &[i64]) -> Option<Pen>
    requires at { IsPosition pen.at }
    requires within { All IsWithin operands.now }
    ensures value { result ≡ traced (lines pen.at operands.now) pen }
    ensures held { IsHeld result }
{
    match operands {
        [dx, dy, rest @ ..] => lines(go(pen, *dx, *dy)?, rest),
        _ => Some(pen),
    }
}

/// hlineto and vlineto.
pub fn alternating_lines(vertical: bool, pen: Pen, operands: &[i64]) -> Option<Pen>
    requires at { IsPosition pen.at }
    requires within { All IsWithin operands.now }
    ensures value { result ≡ traced (alternating_lines vertical pen.at operands.now) pen }
    ensures held { IsHeld result }
{
    match operands {
        [d, rest @ ..] => alternating_lines(!vertical, go_along(vertical, pen, *d)?, rest),
        [] => Some(pen),
    }
}

/// rrcurveto, and flex.
pub fn curves(pen: Pen, operands: &[i64]) -> Option<Pen>
    requires at { IsPosition pen.at }
    requires within { All IsWithin operands.now }
    ensures value { result ≡ traced (curves pen.at operands.now) pen }
    ensures held { IsHeld result }
{
    match operands {
        [dxa, dya, dxb, dyb, dxc, dyc, rest @ ..] => {
            curves(curve(pen, *dxa, *dya, *dxb, *dyb, *dxc, *dyc)?, rest)
        }
        _ => Some(pen),
    }
}

/// The line after curves, where two operands are left.
fn end_of_curves(pen: Pen, operands: &[i64]) -> Option<Pen>
    requires at { IsPosition pen.at }
    requires within { All IsWithin operands.now }
    requires few { length operands.now < 6 }
    ensures value { result ≡ traced (curves_line pen.at operands.now) pen }
    ensures held { IsHeld result }
{
    if operands.len() == 2 {
        return lines(pen, operands);
    }
    Some(pen)
}

/// rcurveline.
pub fn curves_line(pen: Pen, operands: &[i64]) -> Option<Pen>
    requires at { IsPosition pen.at }
    requires within { All IsWithin operands.now }
    ensures value { result ≡ traced (curves_line pen.at operands.now) pen }
    ensures held { IsHeld result }
{
    match operands {
        [dxa, dya, dxb, dyb, dxc, dyc, rest @ ..] => {
            curves_line(curve(pen, *dxa, *dya, *dxb, *dyb, *dxc, *dyc)?, rest)
        }
        _ => end_of_curves(pen, operands),
    }
}

/// The curve after lines, where six operands are left, else the last lines.
fn end_of_lines(pen: Pen, operands: &[i64]) -> Option<Pen>
    requires at { IsPosition pen.at }
    requires within { All IsWithin operands.now }
    requires few { length operands.now < 8 }
    ensures value { result ≡ traced (lines_curve pen.at operands.now) pen }
    ensures held { IsHeld result }
{
    if operands.len() == 6 {
        return curves(pen, operands);
    }
    lines(pen, operands)
}

/// rlinecurve.
pub fn lines_curve(pen: Pen, operands: &[i64]) -> Option<Pen>
    requires at { IsPosition pen.at }
    requires within { All IsWithin operands.now }
    ensures value { result ≡ traced (lines_curve pen.at operands.now) pen }
    ensures held { IsHeld result }
{
    if operands.len() < 8 {
        return end_of_lines(pen, operands);
    }
    match operands {
        [dx, dy, rest @ ..] => lines_curve(go(pen, *dx, *dy)?, rest),
        _ => Some(pen),
    }
}

/// Curves that begin and end horizontal.
fn horizontal_curves(pen: Pen, operands: &[i64]) -> Option<Pen>
    requires at { IsPosition pen.at }
    requires within { All IsWithin operands.now }
    ensures value { result ≡ traced (horizontal_curves pen.at operands.now) pen }
    ensures held { IsHeld result }
{
    match operands {
        [dxa, dxb, dyb, dxc, rest @ ..] => {
            horizontal_curves(curve(pen, *dxa, 0, *dxb, *dyb, *dxc, 0)?, rest)
        }
        _ => Some(pen),
    }
}

/// Curves that begin and end vertical.
fn vertical_curves(pen: Pen, operands: &[i64]) -> Option<Pen>
    requires at { IsPosition pen.at }
    requires within { All IsWithin operands.now }
    ensures value { result ≡ traced (vertical_curves pen.at operands.now) pen }
    ensures held { IsHeld result }
{
    match operands {
        [dya, dxb, dyb, dyc, rest @ ..] => {
            vertical_curves(curve(pen, 0, *dya, *dxb, *dyb, 0, *dyc)?, rest)
        }
        _ => Some(pen),
    }
}

/// Curves that begin and end horizontal, of which the first begins by the height in front, too.
fn raised_curves(pen: Pen, operands: &[i64]) -> Option<Pen>
    requires at { IsPosition pen.at }
    requires within { All IsWithin operands.now }
    ensures value { result ≡ traced (odd_horizontal true pen.at operands.now) pen }
    ensures held { IsHeld result }
{
    match operands {
        [dya, dxa, dxb, dyb, dxc, rest @ ..] => {
            horizontal_curves(curve(pen, *dxa, *dya, *dxb, *dyb, *dxc, 0)?, rest)
        }
        _ => Some(pen),
    }
}

/// hhcurveto.
pub fn hh_curves(pen: Pen, operands: &[i64]) -> Option<Pen>
    requires at { IsPosition pen.at }
    requires within { All IsWithin operands.now }
    ensures value { result ≡ traced (odd_horizontal (length operands.now % 4 == 1) pen.at operands.now) pen }
    ensures held { IsHeld result }
{
    if operands.len() % 4 == 1 {
        return raised_curves(pen, operands);
    }
    horizontal_curves(pen, operands)
}

/// Curves that begin and end vertical, of which the first begins by the width in front, too.
fn shifted_curves(pen: Pen, operands: &[i64]) -> Option<Pen>
    requires at { IsPosition pen.at }
    requires within { All IsWithin operands.now }
    ensures value { result ≡ traced (odd_vertical true pen.at operands.now) pen }
    ensures held { IsHeld result }
{
    match operands {
        [dxa, dya, dxb, dyb, dyc, rest @ ..] => {
            vertical_curves(curve(pen, *dxa, *dya, *dxb, *dyb, 0, *dyc)?, rest)
        }
        _ => Some(pen),
    }
}

/// vvcurveto.
pub fn vv_curves(pen: Pen, operands: &[i64]) -> Option<Pen>
    requires at { IsPosition pen.at }
    requires within { All IsWithin operands.now }
    ensures value { result ≡ traced (odd_vertical (length operands.now % 4 == 1) pen.at operands.now) pen }
    ensures held { IsHeld result }
{
    if operands.len() % 4 == 1 {
        return shifted_curves(pen, operands);
    }
    vertical_curves(pen, operands)
}

/// A curve that begins vertical and ends horizontal, but for the last operand.
fn curve_from_vertical(pen: Pen, da: i64, dxb: i64, dyb: i64, dc: i64, last: i64) -> Option<Pen>
    requires at { IsPosition pen.at }
    requires da { unsigned_abs da ≤ 2 ^ 45 }
    requires dxb { unsigned_abs dxb ≤ 2 ^ 45 }
    requires dyb { unsigned_abs dyb ≤ 2 ^ 45 }
    requires dc { unsigned_abs dc ≤ 2 ^ 45 }
    requires last { unsigned_abs last ≤ 2 ^ 45 }
    ensures value { result ≡ traced (alternating_curves true pen.at (da ∷ dxb ∷ dyb ∷ dc ∷ last ∷ [])) pen }
    ensures held { IsHeld result }
{
    curve(pen, 0, da, dxb, dyb, dc, last)
}

/// A curve that begins horizontal and ends vertical, but for the last operand.
fn curve_from_horizontal(pen: Pen, da: i64, dxb: i64, dyb: i64, dc: i64, last: i64) -> Option<Pen>
    requires at { IsPosition pen.at }
    requires da { unsigned_abs da ≤ 2 ^ 45 }
    requires dxb { unsigned_abs dxb ≤ 2 ^ 45 }
    requires dyb { unsigned_abs dyb ≤ 2 ^ 45 }
    requires dc { unsigned_abs dc ≤ 2 ^ 45 }
    requires last { unsigned_abs last ≤ 2 ^ 45 }
    ensures value { result ≡ traced (alternating_curves false pen.at (da ∷ dxb ∷ dyb ∷ dc ∷ last ∷ [])) pen }
    ensures held { IsHeld result }
{
    curve(pen, da, 0, dxb, dyb, last, dc)
}

/// One of the two.
fn alternating_curve(
    vertical: bool,
    pen: Pen,
    da: i64,
    dxb: i64,
    dyb: i64,
    dc: i64,
    last: i64,
) -> Option<Pen>
    requires at { IsPosition pen.at }
    requires da { unsigned_abs da ≤ 2 ^ 45 }
    requires dxb { unsigned_abs dxb ≤ 2 ^ 45 }
    requires dyb { unsigned_abs dyb ≤ 2 ^ 45 }
    requires dc { unsigned_abs dc ≤ 2 ^ 45 }
    requires last { unsigned_abs last ≤ 2 ^ 45 }
    ensures value { result ≡ traced (alternating_curves vertical pen.at (da ∷ dxb ∷ dyb ∷ dc ∷ last ∷ [])) pen }
    ensures held { IsHeld result }
{
    if vertical {
        curve_from_vertical(pen, da, dxb, dyb, dc, last)
    } else {
        curve_from_horizontal(pen, da, dxb, dyb, dc, last)
    }
}

/// The last curve, with a fifth operand.
fn last_curve(vertical: bool, pen: Pen, operands: &[i64]) -> Option<Pen>
    requires at { IsPosition pen.at }
    requires within { All IsWithin operands.now }
    requires five { length operands.now ≡ 5 }
    ensures value { result ≡ traced (alternating_curves vertical pen.at operands.now) pen }
    ensures held { IsHeld result }
{
    match operands {
        [da, dxb, dyb, dc, last] => {
            alternating_curve(vertical, pen, *da, *dxb, *dyb, *dc, *last)
        }
        _ => Some(pen),
    }
}

/// hvcurveto and vhcurveto.
pub fn alternating_curves(vertical: bool, pen: Pen, operands: &[i64]) -> Option<Pen>
    requires at { IsPosition pen.at }
    requires within { All IsWithin operands.now }
    ensures value { result ≡ traced (alternating_curves vertical pen.at operands.now) pen }
    ensures held { IsHeld result }
{
    if operands.len() == 5 {
        return last_curve(vertical, pen, operands);
    }
    match operands {
        [da, dxb, dyb, dc, rest @ ..] => {
            alternating_curves(
                !vertical,
                alternating_curve(vertical, pen, *da, *dxb, *dyb, *dc, 0)?,
                rest,
            )
        }
        _ => Some(pen),
    }
}
