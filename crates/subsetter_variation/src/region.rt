//! How far a part of the design space counts at a location (OpenType, "OpenType Font Variations Overview").

ghost use Rattle.std.specs.Prelude.{◌≡◌, ◌≤◌, ◌<◌, ◌^◌, pos, ◌-ℤ◌, ◌≤ℤ◌, unsigned_abs, length};
ghost use Rattle.subsetter_variation.specs.Region.{is_ignored, proportion, times_axis_scalar, scalar};

use crate::rounding::mul_div_nearest;

/// 1 in parts of 2^30.
pub(crate) const ONE: i64 = 1073741824;

/// What a region is on one axis, in 16384ths: where it begins to count, where it counts in full, and where it ends.
#[derive(Clone, Copy, Debug, PartialEq, Eq)]
pub struct RegionAxis {
    pub start: i16,
    pub peak: i16,
    pub end: i16,
}

/// The axis is passed over.
fn is_ignored(t: RegionAxis) -> bool
    ensures { result ≡ is_ignored t }
{
    t.peak == 0 || t.peak < t.start || t.end < t.peak || (t.start < 0 && 0 < t.end)
}

/// Of a whole as great a part as a coordinate has passed of the distance from an end to the peak.
fn proportion(end: i16, peak: i16, at: i32, whole: i64) -> i64
    requires apart { 0 < unsigned_abs (peak -ℤ end) }
    requires between { unsigned_abs (at -ℤ end) ≤ unsigned_abs (peak -ℤ end) }
    requires not_negative { pos 0 ≤ℤ whole }
    requires small { unsigned_abs whole ≤ 2 ^ 30 }
    ensures value { result ≡ proportion end peak at whole }
    ensures low { pos 0 ≤ℤ result }
    ensures high { result ≤ℤ whole }
{
    let passed = i64::from(at.abs_diff(i32::from(end)));
    let way = u64::from(i32::from(peak).abs_diff(i32::from(end)));
    mul_div_nearest(passed, way, whole)
}

/// What of a whole counts at a coordinate on the axis.
#[tactic(auto, unfolding(crate::specs::Region::times_axis_scalar))]
pub(crate) fn times_axis_scalar(t: RegionAxis, at: i32, whole: i64) -> i64
    requires not_negative { pos 0 ≤ℤ whole }
    requires small { unsigned_abs whole ≤ 2 ^ 30 }
    ensures value { result ≡ times_axis_scalar t at whole }
    ensures low { pos 0 ≤ℤ result }
    ensures high { result ≤ℤ whole }
{
    let peak = i32::from(t.peak);
    if is_ignored(t) {
        whole
    } else if at < peak {
        if at <= i32::from(t.start) {
            0
        } else {
            proportion(t.start, t.peak, at, whole)
        }
    } else if peak < at {
        if i32::from(t.end) <= at {
            0
        } else {
            proportion(t.end, t.peak, at, whole)
        }
    } else {
        whole
    }
}

/// The scalar of a region at a location, in parts of 2^30.
pub fn scalar(region: &[RegionAxis], at: &[i32]) -> i64
    requires { length region.now ≡ length at.now }
    ensures value { result ≡ scalar region.now at.now }
    ensures low { pos 0 ≤ℤ result }
    ensures high { result ≤ℤ pos (2 ^ 30) }
{
    let mut whole = ONE;
    for i in 0..region.len() {
        whole = times_axis_scalar(region[i], at[i], whole);
    }
    whole
}
