//! The short forms of flex (Technical Note 5177, section 4.1).

ghost use Rattle.std.specs.Prelude.{◌≡◌, ◌≤◌, ◌^◌, ◌+◌, ◌-ℤ◌, ◌∷◌, [], All, nat_lt, unsigned_abs};
ghost use Rattle.subsetter_blend.specs.declared.axes.Along.TheVariants.{X, Y};
ghost use Rattle.subsetter_blend.specs.Drawn.{by, hflex_drawn, hflex1_drawn, flex1_drawn, flex1_end, level_with, plumb_with};
ghost use Rattle.subsetter_blend.specs.Runs.Number.{IsWithin};
ghost use Rattle.subsetter_blend.specs.Writing.Flex.{operand_at};
ghost use Rattle.subsetter_blend.specs.Writing.Placed.{IsPosition, position_after};
ghost use Rattle.subsetter_boxes.specs.Traced.{followed, traced, IsHeld};

use crate::pen::{Pen, visit};
use subsetter_blend::writing::placing::Position;
use subsetter_variation::rounding::{minus, plus};

/// The operand of this number.
fn operand(operands: &[i64], i: usize) -> i64
    requires within { All IsWithin operands.now }
    ensures value { result ≡ operand_at operands.now i }
    ensures bound { unsigned_abs result ≤ 2 ^ 45 }
{
    match operands.get(i) {
        Some(operand) => *operand,
        None => 0,
    }
}

/// So far along both axes as these operands say.
fn further(at: Position, operands: &[i64], dx: usize, dy: usize) -> Position
    requires x { unsigned_abs at.x ≤ 2 ^ 60 }
    requires y { unsigned_abs at.y ≤ 2 ^ 60 }
    requires within { All IsWithin operands.now }
    ensures value { result ≡ by (operand_at operands.now dx) (operand_at operands.now dy) at }
    ensures x { unsigned_abs result.x ≤ unsigned_abs at.x + 2 ^ 45 }
    ensures y { unsigned_abs result.y ≤ unsigned_abs at.y + 2 ^ 45 }
{
    Position {
        x: plus(at.x, operand(operands, dx)),
        y: plus(at.y, operand(operands, dy)),
    }
}

/// So far along the x axis as this operand says.
fn level(at: Position, operands: &[i64], dx: usize) -> Position
    requires x { unsigned_abs at.x ≤ 2 ^ 60 }
    requires within { All IsWithin operands.now }
    ensures value { result ≡ position_after X (operand_at operands.now dx) at }
    ensures x { unsigned_abs result.x ≤ unsigned_abs at.x + 2 ^ 45 }
    ensures y { result.y ≡ at.y }
{
    Position {
        x: plus(at.x, operand(operands, dx)),
        y: at.y,
    }
}

/// So far along the x axis, at the height of the start.
fn level_end(start: Position, at: Position, operands: &[i64], dx: usize) -> Position
    requires x { unsigned_abs at.x ≤ 2 ^ 60 }
    requires within { All IsWithin operands.now }
    ensures value { result ≡ level_with start (position_after X (operand_at operands.now dx) at) }
    ensures x { unsigned_abs result.x ≤ unsigned_abs at.x + 2 ^ 45 }
    ensures y { result.y ≡ start.y }
{
    Position {
        x: plus(at.x, operand(operands, dx)),
        y: start.y,
    }
}

/// So far along the y axis, with the x of the start.
fn plumb_end(start: Position, at: Position, operands: &[i64], dy: usize) -> Position
    requires y { unsigned_abs at.y ≤ 2 ^ 60 }
    requires within { All IsWithin operands.now }
    ensures { result ≡ plumb_with start (position_after Y (operand_at operands.now dy) at) }
{
    Position {
        x: start.x,
        y: plus(at.y, operand(operands, dy)),
    }
}

/// How far apart two coordinates are.
fn distance(a: i64, b: i64) -> u64
    requires first { unsigned_abs a ≤ 2 ^ 60 }
    requires second { unsigned_abs b ≤ 2 ^ 60 }
    ensures { result ≡ unsigned_abs (a -ℤ b) }
{
    minus(a, b).unsigned_abs()
}

/// Whether a position is further from the start along the x axis than along the y axis.
fn is_wide(start: Position, at: Position) -> bool
    requires start { IsPosition start }
    requires x { unsigned_abs at.x ≤ 2 ^ 60 }
    requires y { unsigned_abs at.y ≤ 2 ^ 60 }
    ensures { result ≡ nat_lt (unsigned_abs (at.y -ℤ start.y)) (unsigned_abs (at.x -ℤ start.x)) }
{
    distance(at.y, start.y) < distance(at.x, start.x)
}

/// The end of flex1, which began at this start.
fn end_of_flex1(start: Position, at: Position, operands: &[i64], last: usize) -> Position
    requires start { IsPosition start }
    requires x { unsigned_abs at.x ≤ 2 ^ 60 }
    requires y { unsigned_abs at.y ≤ 2 ^ 60 }
    requires within { All IsWithin operands.now }
    ensures { result ≡ flex1_end start (operand_at operands.now last) at }
{
    if is_wide(start, at) {
        return level_end(start, at, operands, last);
    }
    plumb_end(start, at, operands, last)
}

/// A curve by its points.
fn curve_to(pen: Pen, first: Position, second: Position, to: Position) -> Option<Pen>
    ensures value { result ≡ followed (first ∷ second ∷ to ∷ []) pen }
    ensures held { IsHeld result }
{
    let begun = visit(pen, first)?;
    let bent = visit(begun, second)?;
    visit(bent, to)
}

/// Two curves by their points.
fn curves_to(
    pen: Pen,
    p1: Position,
    p2: Position,
    p3: Position,
    p4: Position,
    p5: Position,
    p6: Position,
) -> Option<Pen>
    ensures value { result ≡ followed (p1 ∷ p2 ∷ p3 ∷ p4 ∷ p5 ∷ p6 ∷ []) pen }
    ensures held { IsHeld result }
{
    curve_to(curve_to(pen, p1, p2, p3)?, p4, p5, p6)
}

/// hflex.
pub fn hflex(pen: Pen, operands: &[i64]) -> Option<Pen>
    requires at { IsPosition pen.at }
    requires within { All IsWithin operands.now }
    ensures value { result ≡ traced (hflex_drawn pen.at (operand_at operands.now)) pen }
    ensures held { IsHeld result }
{
    let p1 = level(pen.at, operands, 0);
    let p2 = further(p1, operands, 1, 2);
    let p3 = level(p2, operands, 3);
    let p4 = level(p3, operands, 4);
    let p5 = level_end(pen.at, p4, operands, 5);
    let p6 = level(p5, operands, 6);
    curves_to(pen, p1, p2, p3, p4, p5, p6)
}

/// hflex1.
pub fn hflex1(pen: Pen, operands: &[i64]) -> Option<Pen>
    requires at { IsPosition pen.at }
    requires within { All IsWithin operands.now }
    ensures value { result ≡ traced (hflex1_drawn pen.at (operand_at operands.now)) pen }
    ensures held { IsHeld result }
{
    let p1 = further(pen.at, operands, 0, 1);
    let p2 = further(p1, operands, 2, 3);
    let p3 = level(p2, operands, 4);
    let p4 = level(p3, operands, 5);
    let p5 = further(p4, operands, 6, 7);
    let p6 = level_end(pen.at, p5, operands, 8);
    curves_to(pen, p1, p2, p3, p4, p5, p6)
}

/// flex1.
pub fn flex1(pen: Pen, operands: &[i64]) -> Option<Pen>
    requires at { IsPosition pen.at }
    requires within { All IsWithin operands.now }
    ensures value { result ≡ traced (flex1_drawn pen.at (operand_at operands.now)) pen }
    ensures held { IsHeld result }
{
    let p1 = further(pen.at, operands, 0, 1);
    let p2 = further(p1, operands, 2, 3);
    let p3 = further(p2, operands, 4, 5);
    let p4 = further(p3, operands, 6, 7);
    let p5 = further(p4, operands, 8, 9);
    let p6 = end_of_flex1(pen.at, p5, operands, 10);
    curves_to(pen, p1, p2, p3, p4, p5, p6)
}
