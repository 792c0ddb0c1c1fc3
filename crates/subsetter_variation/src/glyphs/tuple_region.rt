//! Where a tuple counts, read from the bytes of its header (OpenType, "gvar": "Tuple Variation Header").

ghost use Rattle.std.specs.Prelude.{◌≡◌, ◌≤◌, ◌+◌, ◌^◌, pos, ◌≤ℤ◌, true, false, length, drop};
ghost use Rattle.subsetter_variation.specs.Region.{scalar};
ghost use Rattle.subsetter_variation.specs.Glyphs.Tuples.{short, plain_region_axis, region_axis_of, region_axes, tuple_size};

use crate::region::{ONE, RegionAxis, times_axis_scalar};
use std::marker::Model;
use subsetter_base::read::signed_at;

/// Where a tuple counts: of each axis the two bytes of its peak, and those of its start and its end where the header has them.
#[derive(Drop)]
pub struct TupleRegion<'a> {
    axes: u16,
    inner: bool,
    peaks: &'a [u8],
    starts: &'a [u8],
    ends: &'a [u8],
}

impl<'a> Model for TupleRegion<'a> {
    ghost use Rattle.std.specs.Prelude.{◌≡◌, List, length};
    ghost use Rattle.subsetter_variation.specs.Glyphs.Tuples.{region_axes, tuple_size};
    ghost use Rattle.subsetter_variation.specs.declared.region.RegionAxis.{RegionAxis};

    ghost Value = { List RegionAxis };

    ghost view = { λ r. region_axes r.inner r.axes r.peaks.now r.starts.now r.ends.now };

    ghost invariant = { λ r. (length r.peaks.now ≡ tuple_size r.axes) × (length r.starts.now ≡ tuple_size r.axes) × (length r.ends.now ≡ tuple_size r.axes) };
}

/// The signed number of the first two bytes.
fn short(bytes: &[u8]) -> i16
    requires { 2 ≤ length bytes.now }
    ensures { result ≡ short bytes.now }
{
    signed_at(bytes, 0)
}

/// A peak without ends of its own.
fn plain_region_axis(peak: i16) -> RegionAxis
    ensures { result ≡ plain_region_axis peak }
{
    if peak < 0 {
        RegionAxis {
            start: peak,
            peak,
            end: 0,
        }
    } else {
        RegionAxis {
            start: 0,
            peak,
            end: peak,
        }
    }
}

/// The region on the first axis, with ends of its own.
fn inner_region_axis(peaks: &[u8], starts: &[u8], ends: &[u8]) -> RegionAxis
    requires peak { 2 ≤ length peaks.now }
    requires start { 2 ≤ length starts.now }
    requires end { 2 ≤ length ends.now }
    ensures { result ≡ region_axis_of true peaks.now starts.now ends.now }
{
    RegionAxis {
        start: short(starts),
        peak: short(peaks),
        end: short(ends),
    }
}

/// The bytes after the first two.
fn after_two(bytes: &[u8]) -> &[u8]
    requires { 2 ≤ length bytes.now }
    ensures value { result.now ≡ drop 2 bytes.now }
    ensures len { length result.now + 2 ≡ length bytes.now }
{
    &bytes[2..]
}

/// The region on `axes` axes, with these peaks and with ends of its own or without.
#[tactic(auto, using(crate::proofs::Regions::axes_count))]
pub(crate) fn tuple_region<'a>(
    inner: bool,
    axes: u16,
    peaks: &'a [u8],
    starts: &'a [u8],
    ends: &'a [u8],
) -> TupleRegion<'a>
    requires peak { length peaks.now ≡ tuple_size axes }
    requires start { length starts.now ≡ tuple_size axes }
    requires end { length ends.now ≡ tuple_size axes }
    ensures value { result ≡ region_axes inner axes peaks.now starts.now ends.now }
    ensures axes { length result ≡ axes }
{
    TupleRegion {
        axes,
        inner,
        peaks,
        starts,
        ends,
    }
}

/// The scalar at a location of a region without ends of its own. The axes after one that makes it 0 aren't read.
#[tactic(auto, using(crate::proofs::Regions::scalar_step, crate::proofs::Regions::scalar_end))]
fn peak_scalar(peaks: &[u8], at: &[i32]) -> i64
    requires { length peaks.now ≡ tuple_size (length at.now) }
    ensures value { result ≡ scalar (region_axes false (length at.now) peaks.now peaks.now peaks.now) at.now }
    ensures low { pos 0 ≤ℤ result }
    ensures high { result ≤ℤ pos (2 ^ 30) }
{
    let mut whole = ONE;
    let mut rest = peaks;
    for i in 0..at.len() {
        whole = times_axis_scalar(plain_region_axis(short(rest)), at[i], whole);
        if whole == 0 {
            return 0;
        }
        rest = after_two(rest);
    }
    whole
}

/// The scalar at a location of a region with ends of its own.
#[tactic(auto, using(crate::proofs::Regions::scalar_step, crate::proofs::Regions::scalar_end))]
fn intermediate_scalar(peaks: &[u8], starts: &[u8], ends: &[u8], at: &[i32]) -> i64
    requires peak { length peaks.now ≡ tuple_size (length at.now) }
    requires start { length starts.now ≡ tuple_size (length at.now) }
    requires end { length ends.now ≡ tuple_size (length at.now) }
    ensures value { result ≡ scalar (region_axes true (length at.now) peaks.now starts.now ends.now) at.now }
    ensures low { pos 0 ≤ℤ result }
    ensures high { result ≤ℤ pos (2 ^ 30) }
{
    let mut whole = ONE;
    let mut p = peaks;
    let mut s = starts;
    let mut e = ends;
    for i in 0..at.len() {
        whole = times_axis_scalar(inner_region_axis(p, s, e), at[i], whole);
        if whole == 0 {
            return 0;
        }
        p = after_two(p);
        s = after_two(s);
        e = after_two(e);
    }
    whole
}

impl<'a> TupleRegion<'a> {
    /// The scalar at a location, in parts of 2^30.
    #[tactic(auto, using(crate::proofs::Regions::axes_count, crate::proofs::Regions::same_plain))]
    pub fn scalar(&self, at: &[i32]) -> i64
        requires { length self.now ≡ length at.now }
        ensures value { result ≡ scalar self.now at.now }
        ensures low { pos 0 ≤ℤ result }
        ensures high { result ≤ℤ pos (2 ^ 30) }
    {
        if self.inner {
            intermediate_scalar(self.peaks, self.starts, self.ends, at)
        } else {
            peak_scalar(self.peaks, at)
        }
    }
}
