//! The segments that bend an axis (OpenType, "avar").
//!
//! OpenType requests numbers that ascend, and new numbers that don't descend: an end that comes otherwise is ignored. Where the others
//! lack the pairs of -1, 0 and 1, past which there is no number, the coordinate isn't modified. The major version has to be 1.

ghost use Rattle.std.specs.Prelude.{if◌then◌else◌, ◌&&◌, ◌≡◌, ◌+◌, ◌*◌, ◌<◌, ◌≤◌, ◌^◌, Some, true, ◌-ℤ◌, ◌≤ℤ◌, ◌<ℤ◌, IfSome, true, unsigned_abs};
ghost use Rattle.subsetter_variation.specs.Locations.Segments.{axis_value_map_of, segment_map_at, axis_value_maps, f2dot14_to_fixed, interpolated, on_segment, is_on, by_segments, counts, topmost, counting, stays, keeps, is_segment_map, mapped};

use crate::rounding::{minus, mul_div_nearest, plus};
use subsetter_base::read::{LazyArray16, Readable, Reader, signed_at};

/// How many bytes the end of a segment has.
const AXIS_VALUE_MAP_SIZE: usize = 4;
/// 1 in 16384ths.
const ONE: i16 = 16384;

/// The end of a segment: a number and its new one, in 16384ths.
#[derive(Clone, Copy, PartialEq, Eq)]
pub struct AxisValueMap {
    pub from: i16,
    pub to: i16,
}

impl Readable<'_> for AxisValueMap {
    const SIZE: usize = 4;

    ghost SIZE = { 4 };

    ghost value_of = { λ bytes. Some (axis_value_map_of bytes) };

    fn read(r: &mut Reader<'_>) -> Option<Self> {
        let b = r.read_bytes(AXIS_VALUE_MAP_SIZE)?;
        Some(AxisValueMap {
            from: signed_at(b, 0),
            to: signed_at(b, 2),
        })
    }
}

/// 16384ths as 65536ths.
fn f2dot14_to_fixed(z: i16) -> i64
    ensures value { result ≡ f2dot14_to_fixed z }
    ensures bound { unsigned_abs result ≤ 2 ^ 17 }
{
    4 * i64::from(z)
}

/// Of a whole as great a part as a number has passed of the way from one end to another.
fn interpolated(from: i64, to: i64, n: i64, whole: i64) -> i64
    requires following { from ≤ℤ n }
    requires before { n <ℤ to }
    requires start { unsigned_abs from ≤ 2 ^ 20 }
    requires end { unsigned_abs to ≤ 2 ^ 20 }
    requires small { unsigned_abs whole ≤ 2 ^ 20 }
    ensures value { result ≡ interpolated from to n whole }
    ensures bound { unsigned_abs result ≤ unsigned_abs whole }
{
    let way = (to - from).unsigned_abs();
    mul_div_nearest(n - from, way, whole)
}

/// A number between two ends, at the same part of the distance between their new numbers.
#[tactic(auto, unfolding(crate::specs::Locations::Segments::on_segment))]
fn on_segment(p: AxisValueMap, q: AxisValueMap, n: i64) -> i64
    requires following { f2dot14_to_fixed p.from ≤ℤ n }
    requires before { n <ℤ f2dot14_to_fixed q.from }
    ensures value { result ≡ on_segment p q n }
    ensures bound { unsigned_abs result ≤ 2 ^ 19 }
{
    let to = f2dot14_to_fixed(p.to);
    let whole = minus(f2dot14_to_fixed(q.to), to);
    let more = interpolated(f2dot14_to_fixed(p.from), f2dot14_to_fixed(q.from), n, whole);
    plus(to, more)
}

/// The number is between two ends, and isn't the second.
fn is_on(p: AxisValueMap, q: AxisValueMap, n: i64) -> bool
    ensures value { result ≡ is_on p q n }
    ensures following { result ≡ true → f2dot14_to_fixed p.from ≤ℤ n }
    ensures before { result ≡ true → n <ℤ f2dot14_to_fixed q.from }
{
    f2dot14_to_fixed(p.from) <= n && n < f2dot14_to_fixed(q.from)
}

/// The ends of the segments of the next axis.
pub fn next_segment_map<'a>(r: &mut Reader<'a>) -> Option<LazyArray16<'a, AxisValueMap>>
    ensures value { result ≡ segment_map_at r.old.bytes r.old.offset }
    ensures bytes { r.new.bytes ≡ r.old.bytes }
    ensures offset { IfSome result (λ x. r.new.offset ≡ r.old.offset + 2 + x.count * 4) }
{
    let count = r.read::<u16>()?;
    r.read_array16(count)
}

/// What ends so far say: the greatest number, and the last one that counts.
#[derive(Clone, Copy)]
pub struct Passed {
    top: i16,
    last: AxisValueMap,
}

/// Whether an end counts after others: its number is above the greatest so far, and its new number isn't less than that of the last end
/// that counts.
fn counts(passed: Passed, q: AxisValueMap) -> bool
    ensures { result ≡ counts passed.top passed.last q }
{
    passed.top < q.from && passed.last.to <= q.to
}

/// The greatest number so far.
fn topmost(top: i16, q: AxisValueMap) -> i16
    ensures { result ≡ topmost top q }
{
    if top < q.from { q.from } else { top }
}

/// What ends say with one more.
fn with_end(passed: Passed, q: AxisValueMap) -> Passed
    ensures top { result.top ≡ topmost passed.top q }
    ensures last { result.last ≡ (if counts passed.top passed.last q then q else passed.last) }
{
    let top = topmost(passed.top, q);
    if counts(passed, q) {
        return Passed { top, last: q };
    }
    Passed {
        top,
        last: passed.last,
    }
}

/// Whether an end has a number as its new number.
fn stays(p: AxisValueMap, number: i16) -> bool
    ensures { result ≡ stays number p }
{
    p.from == number && p.to == number
}

/// Whether an end counts and has a number as its new number.
fn counts_and_stays(passed: Passed, q: AxisValueMap, number: i16) -> bool
    ensures { result ≡ (counts passed.top passed.last q && stays number q) }
{
    counts(passed, q) && stays(q, number)
}

/// Whether a number has itself as its new number, by an end that counts.
fn keeps(ends: &LazyArray16<'_, AxisValueMap>, number: i16) -> bool
    ensures { result ≡ keeps number (counting (axis_value_maps ends.now)) }
{
    let mut rest = ends.iter();
    let Some(first) = rest.next() else {
        return false;
    };
    if stays(first, number) {
        return true;
    }
    let mut passed = Passed {
        top: first.from,
        last: first,
    };
    for q in rest {
        if counts_and_stays(passed, q, number) {
            return true;
        }
        passed = with_end(passed, q);
    }
    false
}

/// Whether the ends that count are those of segments: -1, 0 and 1 are kept.
fn is_segment_map(ends: &LazyArray16<'_, AxisValueMap>) -> bool
    ensures { result ≡ is_segment_map (counting (axis_value_maps ends.now)) }
{
    keeps(ends, -ONE) && keeps(ends, 0) && keeps(ends, ONE)
}

/// A number by the segments of an axis; one that is in none is unchanged, and so is each where the ends that count lack -1, 0 or 1.
pub fn mapped(ends: LazyArray16<'_, AxisValueMap>, n: i64) -> i64
    requires { unsigned_abs n ≤ 2 ^ 19 }
    ensures value { result ≡ mapped (axis_value_maps ends.entry) n }
    ensures bound { unsigned_abs result ≤ 2 ^ 19 }
{
    if is_segment_map(&ends) {
        by_segments(ends, n)
    } else {
        n
    }
}

/// Whether an end counts, and a number is between the last one that does and it.
fn counts_and_is_on(passed: Passed, q: AxisValueMap, n: i64) -> bool
    ensures value { result ≡ (counts passed.top passed.last q && is_on passed.last q n) }
    ensures following { result ≡ true → f2dot14_to_fixed passed.last.from ≤ℤ n }
    ensures before { result ≡ true → n <ℤ f2dot14_to_fixed q.from }
{
    counts(passed, q) && is_on(passed.last, q, n)
}

/// A number by the first segment in which it is, of ends that count; one that is in none is unchanged.
fn by_segments(ends: LazyArray16<'_, AxisValueMap>, n: i64) -> i64
    requires { unsigned_abs n ≤ 2 ^ 19 }
    ensures value { result ≡ by_segments (counting (axis_value_maps ends.entry)) n }
    ensures bound { unsigned_abs result ≤ 2 ^ 19 }
{
    let mut rest = ends.iter();
    let Some(first) = rest.next() else {
        return n;
    };
    let mut passed = Passed {
        top: first.from,
        last: first,
    };
    for q in rest {
        if counts_and_is_on(passed, q, n) {
            return on_segment(passed.last, q, n);
        }
        passed = with_end(passed, q);
    }
    n
}
