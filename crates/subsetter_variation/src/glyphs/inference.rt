//! Inferred deltas, along one axis.

ghost use Rattle.std.specs.Prelude.{◌≡◌, ◌<◌, ◌≤◌, ◌<ℤ◌, ◌-ℤ◌, ◌^◌, ◌*ℤ◌, ◌+ℤ◌, unsigned_abs};
ghost use Rattle.subsetter_variation.specs.Glyphs.Inferred.{between, between_ordered, interpolated};

use crate::rounding::{delta_times_distance, nearest, scalar_times_delta, scaled};

/// A point of a contour, and its delta if the tuple gives it one.
#[derive(Clone, Copy)]
pub struct Point {
    pub at: i16,
    pub delta: Option<i16>,
}

/// A point that the tuple gives a delta.
#[derive(Clone, Copy)]
pub struct Touched {
    pub at: i16,
    pub delta: i16,
}

/// How far it is from one coordinate to another.
fn distance(from: i16, to: i16) -> i64
    ensures value { result ≡ to -ℤ from }
    ensures bound { unsigned_abs result ≤ 2 ^ 16 }
{
    i64::from(to) - i64::from(from)
}

/// How far a coordinate is above another.
fn width(low: i16, high: i16) -> u64
    requires { low <ℤ high }
    ensures value { result ≡ unsigned_abs (high -ℤ low) }
    ensures above { 0 < result }
    ensures bound { result ≤ 2 ^ 16 }
{
    let over = distance(low, high);
    over.unsigned_abs()
}

/// The sum of two deltas, each times a distance.
fn blend(low: i64, over: i64, high: i64, under: i64) -> i64
    requires low { unsigned_abs low ≤ 2 ^ 15 }
    requires over { unsigned_abs over ≤ 2 ^ 16 }
    requires high { unsigned_abs high ≤ 2 ^ 15 }
    requires under { unsigned_abs under ≤ 2 ^ 16 }
    ensures value { result ≡ low *ℤ over +ℤ high *ℤ under }
    ensures bound { unsigned_abs result ≤ 2 ^ 32 }
{
    let first = delta_times_distance(low, over);
    let second = delta_times_distance(high, under);
    first + second
}

/// The scaled delta of a point at x between two touched points, the lower one first.
#[tactic(auto, unfolding(crate::specs::Glyphs::Inferred::interpolated))]
fn interpolated(x: i16, low: Touched, high: Touched, scalar: i64) -> i64
    requires above { low.at <ℤ x }
    requires below { x <ℤ high.at }
    requires scalar { unsigned_abs scalar ≤ 2 ^ 30 }
    ensures value { result ≡ interpolated x low high scalar }
    ensures bound { unsigned_abs result ≤ 2 ^ 45 }
{
    let toward = blend(
        i64::from(low.delta),
        distance(x, high.at),
        i64::from(high.delta),
        distance(low.at, x),
    );
    nearest(scaled(scalar, toward), width(low.at, high.at))
}

/// The scaled delta of a point at x, from two touched points of which the first isn't higher than the second.
#[tactic(auto, unfolding(crate::specs::Glyphs::Inferred::between_ordered))]
fn between_ordered(x: i16, low: Touched, high: Touched, scalar: i64) -> i64
    requires scalar { unsigned_abs scalar ≤ 2 ^ 30 }
    ensures value { result ≡ between_ordered x low high scalar }
    ensures bound { unsigned_abs result ≤ 2 ^ 45 }
{
    if low.at == high.at {
        return if low.delta == high.delta {
            scalar_times_delta(scalar, low.delta)
        } else {
            0
        };
    }
    if x <= low.at {
        return scalar_times_delta(scalar, low.delta);
    }
    if high.at <= x {
        return scalar_times_delta(scalar, high.delta);
    }
    interpolated(x, low, high, scalar)
}

/// The scaled delta of a point at x, between two touched points.
#[tactic(auto, unfolding(crate::specs::Glyphs::Inferred::between))]
pub fn between(x: i16, one: Touched, other: Touched, scalar: i64) -> i64
    requires scalar { unsigned_abs scalar ≤ 2 ^ 30 }
    ensures value { result ≡ between x one other scalar }
    ensures bound { unsigned_abs result ≤ 2 ^ 45 }
{
    if one.at <= other.at {
        between_ordered(x, one, other, scalar)
    } else {
        between_ordered(x, other, one, scalar)
    }
}
