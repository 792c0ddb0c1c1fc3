//! The least box around boxes (Technical Note 5176, section 9, "FontBBox").

ghost use Rattle.std.specs.Prelude.{◌≡◌};
ghost use Rattle.subsetter_boxes.specs.Joined.{around, font_box, joined, least_box};

use subsetter_base::compare::{larger, smaller};
use subsetter_points::Bounds;

/// The least box around two.
fn around(a: Bounds, b: Bounds) -> Bounds
    ensures { result ≡ around a b }
{
    Bounds {
        x_min: smaller(a.x_min, b.x_min),
        y_min: smaller(a.y_min, b.y_min),
        x_max: larger(a.x_max, b.x_max),
        y_max: larger(a.y_max, b.y_max),
    }
}

/// The least box around those that are there.
pub fn joined(first: Option<Bounds>, second: Option<Bounds>) -> Option<Bounds>
    ensures { result ≡ joined first second }
{
    let Some(a) = first else {
        return second;
    };
    let Some(b) = second else {
        return Some(a);
    };
    Some(around(a, b))
}

/// The least box around those of all glyphs; none where no glyph has one.
pub fn least_box(boxes: &[Option<Bounds>]) -> Option<Bounds>
    ensures { result ≡ least_box boxes.now }
{
    let mut all = None;
    for bounds in boxes {
        all = joined(all, *bounds);
    }
    all
}

/// FontBBox: xMin, yMin, xMax and yMax, in the font's units; 0 where no glyph has a box.
pub fn font_box(bounds: Option<Bounds>) -> [i16; 4]
    ensures { result ≡ font_box bounds }
{
    match bounds {
        None => [0; 4],
        Some(b) => [b.x_min, b.y_min, b.x_max, b.y_max],
    }
}
