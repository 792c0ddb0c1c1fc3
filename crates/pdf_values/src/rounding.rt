//! Lengths of a font's units in thousandths of the em (ISO 32000-1, 9.2.4).

ghost use Rattle.std.specs.Prelude.{◌≡◌, ◌<◌, ◌≤◌, ◌^◌, ◌*◌, unsigned_abs};
ghost use Rattle.pdf_values.specs.Rounding.{thousandfold, thousandths, lowered, raised, IsNearest, IsBelow, IsAbove};

use subsetter_variation::rounding::nearest;

/// A thousand times a number.
fn thousandfold(v: i32) -> i64
    ensures value { result ≡ thousandfold v }
    ensures size { unsigned_abs result ≡ 1000 * unsigned_abs v }
{
    1000 * i64::from(v)
}

/// A length in thousandths of the em, at `units` units per em, to the nearest, halves up.
#[tactic(auto, unfolding(crate::specs::Rounding::thousandths))]
pub fn thousandths(v: i32, units: u32) -> i32
    requires above { 0 < units }
    requires small { unsigned_abs v ≤ 2 ^ 16 * units }
    ensures value { result ≡ thousandths v units }
    ensures nearest { IsNearest v units result }
{
    nearest(thousandfold(v), u64::from(units)) as i32
}

/// A length in thousandths of the em, at `units` units per em, rounded down.
#[tactic(auto, unfolding(crate::specs::Rounding::lowered))]
pub fn lowered(v: i32, units: u32) -> i32
    requires above { 0 < units }
    requires small { unsigned_abs v ≤ 2 ^ 16 }
    ensures value { result ≡ lowered v units }
    ensures below { IsBelow v units result }
    ensures size { unsigned_abs result ≤ 2 ^ 26 }
{
    thousandfold(v).div_euclid(i64::from(units)) as i32
}

/// A length in thousandths of the em, at `units` units per em, rounded up.
#[tactic(auto, unfolding(crate::specs::Rounding::raised))]
pub fn raised(v: i32, units: u32) -> i32
    requires above { 0 < units }
    requires small { unsigned_abs v ≤ 2 ^ 16 }
    ensures value { result ≡ raised v units }
    ensures above { IsAbove v units result }
{
    -lowered(-v, units)
}
