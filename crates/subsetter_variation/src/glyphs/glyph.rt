//! The points of a glyph, contour by contour.

ghost use Rattle.std.specs.Prelude.{◌≡◌, ◌≤◌, ◌^◌, ◌+ℤ◌, pos, length, unsigned_abs, slice_index_or, EachIndex};
ghost use Rattle.subsetter_variation.specs.Glyphs.Varied.{AreEnds, moved_in};

use crate::glyphs::contour::add_contour;
use crate::glyphs::inference::Point;

/// Adds to the sums of a glyph's points what a tuple moves each by.
pub fn add_tuple(sums: &mut [i64], points: &[Point], ends: &[usize], scalar: i64)
    requires same { length sums.old ≡ length points.now }
    requires ends { AreEnds 0 ends.now (length points.now) }
    requires scalar { unsigned_abs scalar ≤ 2 ^ 30 }
    requires room { EachIndex sums.old (λ k. unsigned_abs (slice_index_or sums.old k (pos 0)) ≤ 2 ^ 62) }
    ensures added { EachIndex points.now (λ k. slice_index_or sums.new k (pos 0) ≡ slice_index_or sums.old k (pos 0) +ℤ moved_in points.now 0 ends.now k scalar) }
    ensures bound { EachIndex points.now (λ k. unsigned_abs (moved_in points.now 0 ends.now k scalar) ≤ 2 ^ 45) }
{
    let mut start = 0;
    for end in ends {
        let past = *end + 1;
        add_contour(&mut sums[start..past], &points[start..past], scalar);
        start = past;
    }
}
