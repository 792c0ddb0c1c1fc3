//! Rounding to whole numbers: the one function that rounds, and the products that it takes.
//!
//! `nearest a b` is a / b to the nearest whole number, halves up. Scalars and sums are in parts of 2^30: sums stay
//! within 2^57 and an inferred numerator within 2^62, so all fit 64 bits.

ghost use Rattle.std.specs.Prelude.{◌≡◌, ◌<◌, ◌≤◌, ◌^◌, ◌*◌, ◌+◌, ℕ, pos, ◌≤ℤ◌, ◌+ℤ◌, ◌-ℤ◌, ◌*ℤ◌, unsigned_abs};
ghost use Rattle.subsetter_variation.specs.Nearest.{nearest, mul_div_nearest};

/// a / b to the nearest whole number, halves up.
#[tactic(auto, unfolding(crate::specs::Nearest::nearest))]
pub fn nearest(a: i64, b: u64) -> i64
    requires above { 0 < b }
    requires divisor { b < 2 ^ 32 }
    requires dividend { unsigned_abs a ≤ 2 ^ 62 }
    ensures value { result ≡ nearest a b }
    ensures within { (k : ℕ) → unsigned_abs a ≤ k * b → unsigned_abs result ≤ k }
{
    let size = a.unsigned_abs();
    if a < 0 {
        -(((2 * size + b - 1) / (2 * b)) as i64)
    } else {
        ((2 * size + b) / (2 * b)) as i64
    }
}

/// A sum whose terms are small enough.
pub fn plus(a: i64, b: i64) -> i64
    requires first { unsigned_abs a ≤ 2 ^ 61 }
    requires second { unsigned_abs b ≤ 2 ^ 61 }
    ensures value { result ≡ a +ℤ b }
    ensures bound { unsigned_abs result ≤ unsigned_abs a + unsigned_abs b }
{
    a + b
}

/// A sum of many terms, and a further one.
pub fn wide_plus(sum: i128, more: i64) -> i128
    requires { unsigned_abs sum ≤ 2 ^ 100 }
    ensures value { result ≡ sum +ℤ more }
    ensures bound { unsigned_abs result ≤ unsigned_abs sum + unsigned_abs more }
{
    sum + i128::from(more)
}

/// A difference whose terms are small enough.
pub fn minus(a: i64, b: i64) -> i64
    requires first { unsigned_abs a ≤ 2 ^ 61 }
    requires second { unsigned_abs b ≤ 2 ^ 61 }
    ensures value { result ≡ a -ℤ b }
    ensures bound { unsigned_abs result ≤ unsigned_abs a + unsigned_abs b }
{
    a - b
}

/// A product whose factors are small enough.
fn times(a: i64, b: i64) -> i64
    requires first { unsigned_abs a ≤ 2 ^ 32 }
    requires second { unsigned_abs b ≤ 2 ^ 30 }
    ensures value { result ≡ a *ℤ b }
    ensures bound { unsigned_abs result ≤ 2 ^ 62 }
{
    a * b
}

/// n of the b equal parts of m, to the nearest whole number, halves up.
#[tactic(auto, unfolding(crate::specs::Nearest::mul_div_nearest))]
pub fn mul_div_nearest(n: i64, b: u64, m: i64) -> i64
    requires above { 0 < b }
    requires divisor { b < 2 ^ 32 }
    requires count { unsigned_abs n ≤ b }
    requires whole { unsigned_abs m ≤ 2 ^ 30 }
    ensures value { result ≡ mul_div_nearest n b m }
    ensures within { unsigned_abs result ≤ unsigned_abs m }
    ensures sign { pos 0 ≤ℤ n → pos 0 ≤ℤ m → pos 0 ≤ℤ result }
{
    nearest(times(n, m), b)
}

/// A scalar, at most 2^30, times a sum of deltas times distances.
pub fn scaled(scalar: i64, delta: i64) -> i64
    requires first { unsigned_abs scalar ≤ 2 ^ 30 }
    requires second { unsigned_abs delta ≤ 2 ^ 32 }
    ensures value { result ≡ scalar *ℤ delta }
    ensures bound { unsigned_abs result ≤ 2 ^ 62 }
{
    scalar * delta
}

/// A product of a delta and a distance.
pub fn delta_times_distance(delta: i64, distance: i64) -> i64
    requires first { unsigned_abs delta ≤ 2 ^ 15 }
    requires second { unsigned_abs distance ≤ 2 ^ 16 }
    ensures value { result ≡ delta *ℤ distance }
    ensures bound { unsigned_abs result ≤ 2 ^ 31 }
{
    delta * distance
}

/// A scalar, at most 2^30, times a delta.
pub fn scalar_times_delta(scalar: i64, delta: i16) -> i64
    requires { unsigned_abs scalar ≤ 2 ^ 30 }
    ensures value { result ≡ scalar *ℤ delta }
    ensures bound { unsigned_abs result ≤ 2 ^ 45 }
{
    scalar * i64::from(delta)
}
