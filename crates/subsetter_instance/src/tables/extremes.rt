//! The extremes of the glyphs that are drawn (OpenType, "head" and "hhea").

ghost use Rattle.std.specs.Prelude.{◌≡◌, ◌-ℤ◌, pos};
ghost use Rattle.subsetter_points.specs.Bounds.{bounds_of};
ghost use Rattle.subsetter_instance.specs.Tables.Extremes.{extents_of, glyph_extents, both, joined, all_extents, widest, box_bytes, saturated, side_bytes, extreme_bytes};

use crate::glyphs::drawn::Drawn;
use subsetter_base::compare::{larger, smaller};
use subsetter_points::{Bounds, Point, bounds_bytes};

/// The extents of a glyph with contours, or of several.
#[derive(Clone, Copy)]
pub struct Extents {
    /// The least box around all points.
    pub bounds: Bounds,
    /// The least right side bearing, at most 32767.
    pub right: i16,
}

/// The right side bearing of a glyph, by its advance and its greatest x: 32767 where it is greater.
fn right_bearing(advance: u16, x_max: i16) -> i16
    ensures { result ≡ saturated (pos advance -ℤ x_max) }
{
    let right = i32::from(advance) - i32::from(x_max);
    if right < 32767 { right as i16 } else { 32767 }
}

/// The extents of a glyph of such an advance, whose points are in a box.
pub fn extents_of(advance: u16, bounds: Bounds) -> Extents
    ensures { result ≡ extents_of advance bounds }
{
    Extents {
        bounds,
        right: right_bearing(advance, bounds.x_max),
    }
}

/// The extents of a glyph whose points are in a box, if it has points.
pub fn glyph_extents(advance: u16, points: &[Point], bounds: Bounds) -> Option<Extents>
    requires { bounds ≡ bounds_of points.now }
    ensures { result ≡ glyph_extents advance points.now }
{
    match points {
        [_, ..] => Some(extents_of(advance, bounds)),
        [] => None,
    }
}

/// The extents of two.
fn both(a: Extents, b: Extents) -> Extents
    ensures { result ≡ both a b }
{
    Extents {
        bounds: Bounds {
            x_min: smaller(a.bounds.x_min, b.bounds.x_min),
            y_min: smaller(a.bounds.y_min, b.bounds.y_min),
            x_max: larger(a.bounds.x_max, b.bounds.x_max),
            y_max: larger(a.bounds.y_max, b.bounds.y_max),
        },
        right: smaller(a.right, b.right),
    }
}

/// The extents of glyphs, and of one more.
pub fn joined(before: Option<Extents>, glyph: Option<Extents>) -> Option<Extents>
    ensures { result ≡ joined before glyph }
{
    match before {
        None => glyph,
        Some(a) => match glyph {
            None => Some(a),
            Some(b) => Some(both(a, b)),
        },
    }
}

/// The extents of all glyphs, none where none has contours.
pub fn all_extents(drawn: &[Drawn]) -> Option<Extents>
    ensures { result ≡ all_extents drawn.now }
{
    let mut all = None;
    for glyph in drawn {
        all = joined(all, glyph.extents());
    }
    all
}

/// The greatest advance.
fn widest(drawn: &[Drawn]) -> u16
    ensures { result ≡ widest drawn.now }
{
    let mut most = 0;
    for glyph in drawn {
        most = most.max(glyph.advance);
    }
    most
}

/// The box of `head`: 0 where no glyph has contours.
pub fn box_bytes(extents: Option<Extents>) -> [u8; 8]
    ensures { result ≡ box_bytes extents }
{
    match extents {
        None => [0; 8],
        Some(e) => bounds_bytes(e.bounds),
    }
}

/// The least left and the least right side bearing and the greatest extent of `hhea`: 0 where no glyph has contours.
pub fn side_bytes(extents: Option<Extents>) -> [u8; 6]
    ensures { result ≡ side_bytes extents }
{
    match extents {
        None => [0; 6],
        Some(e) => {
            let [a, b] = e.bounds.x_min.to_be_bytes();
            let [c, d] = e.right.to_be_bytes();
            let [f, g] = e.bounds.x_max.to_be_bytes();
            [a, b, c, d, f, g]
        }
    }
}

/// The greatest advance, and what is after it in `hhea`.
pub fn extreme_bytes(drawn: &[Drawn]) -> [u8; 8]
    ensures { result ≡ extreme_bytes drawn.now }
{
    let [a, b] = widest(drawn).to_be_bytes();
    let [c, d, e, f, g, h] = side_bytes(all_extents(drawn));
    [a, b, c, d, e, f, g, h]
}
