//! A path, followed from point to point.

ghost use Rattle.std.specs.Prelude.{◌≡◌, ◌≤◌, ◌^◌, ◌∷◌, [], IfSome, unsigned_abs};
ghost use Rattle.subsetter_blend.specs.Axes.{along_y};
ghost use Rattle.subsetter_blend.specs.Drawn.{by, curves};
ghost use Rattle.subsetter_blend.specs.Writing.Placed.{IsPosition, position_after};
ghost use Rattle.subsetter_boxes.specs.CharstringBox.{in_units, point_box};
ghost use Rattle.subsetter_boxes.specs.Traced.{traced, visited, IsHeld};

use crate::joining::joined;
use subsetter_blend::runs::parts::{is_within, whole};
use subsetter_blend::writing::placing::Position;
use subsetter_points::Bounds;

/// Where the path has come, and the least box around its points so far.
#[derive(Clone, Copy)]
pub struct Pen {
    /// In parts of 2^30 of a unit.
    pub at: Position,
    pub bounds: Option<Bounds>,
}

/// A coordinate, rounded to units, if it is of 16 bits.
#[tactic(auto, unfolding(crate::specs::CharstringBox::in_units))]
fn in_units(parts: i64) -> Option<i16>
    ensures value { result ≡ in_units parts }
    ensures within { IfSome result (λ _. unsigned_abs parts ≤ 2 ^ 45) }
{
    if !is_within(parts) {
        return None;
    }
    let units = whole(parts);
    if -32768 <= units && units <= 32767 {
        return Some(units as i16);
    }
    None
}

/// The box of one point.
fn point_box(at: Position) -> Option<Bounds>
    ensures value { result ≡ point_box at }
    ensures within { IfSome result (λ _. IsPosition at) }
{
    let x = in_units(at.x)?;
    let y = in_units(at.y)?;
    Some(Bounds {
        x_min: x,
        y_min: y,
        x_max: x,
        y_max: y,
    })
}

/// A point more; none where it isn't of 16 bits.
#[tactic(auto, unfolding(crate::specs::Traced::visited))]
pub fn visit(pen: Pen, to: Position) -> Option<Pen>
    ensures value { result ≡ visited to pen }
    ensures at { IfSome result (λ p. p.at ≡ to) }
    ensures held { IsHeld result }
{
    let own = point_box(to)?;
    Some(Pen {
        at: to,
        bounds: joined(pen.bounds, Some(own)),
    })
}

/// A point more, so far from the last one.
pub fn go(pen: Pen, dx: i64, dy: i64) -> Option<Pen>
    requires at { IsPosition pen.at }
    requires dx { unsigned_abs dx ≤ 2 ^ 45 }
    requires dy { unsigned_abs dy ≤ 2 ^ 45 }
    ensures value { result ≡ visited (by dx dy pen.at) pen }
    ensures at { IfSome result (λ p. p.at ≡ by dx dy pen.at) }
    ensures held { IsHeld result }
{
    visit(
        pen,
        Position {
            x: pen.at.x + dx,
            y: pen.at.y + dy,
        },
    )
}

/// A point more, so far from the last one along the y axis, or else along the x axis.
pub fn go_along(y: bool, pen: Pen, d: i64) -> Option<Pen>
    requires at { IsPosition pen.at }
    requires d { unsigned_abs d ≤ 2 ^ 45 }
    ensures value { result ≡ visited (position_after (along_y y) d pen.at) pen }
    ensures at { IfSome result (λ p. p.at ≡ position_after (along_y y) d pen.at) }
    ensures held { IsHeld result }
{
    if y {
        return visit(
            pen,
            Position {
                x: pen.at.x,
                y: pen.at.y + d,
            },
        );
    }
    visit(
        pen,
        Position {
            x: pen.at.x + d,
            y: pen.at.y,
        },
    )
}

/// A curve, each point so far from the one before.
pub fn curve(pen: Pen, dxa: i64, dya: i64, dxb: i64, dyb: i64, dxc: i64, dyc: i64) -> Option<Pen>
    requires at { IsPosition pen.at }
    requires dxa { unsigned_abs dxa ≤ 2 ^ 45 }
    requires dya { unsigned_abs dya ≤ 2 ^ 45 }
    requires dxb { unsigned_abs dxb ≤ 2 ^ 45 }
    requires dyb { unsigned_abs dyb ≤ 2 ^ 45 }
    requires dxc { unsigned_abs dxc ≤ 2 ^ 45 }
    requires dyc { unsigned_abs dyc ≤ 2 ^ 45 }
    ensures value { result ≡ traced (curves pen.at (dxa ∷ dya ∷ dxb ∷ dyb ∷ dxc ∷ dyc ∷ [])) pen }
    ensures held { IsHeld result }
{
    let first = go(pen, dxa, dya)?;
    let second = go(first, dxb, dyb)?;
    go(second, dxc, dyc)
}
