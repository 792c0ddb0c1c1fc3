//! Numbers in parts of 2^30.

ghost use Rattle.std.specs.Prelude.{◌≡◌, ◌≤◌, ◌^◌, IfSome, unsigned_abs};
ghost use Rattle.subsetter_cffdata.specs.Numerals.CharStringNumber.{NumberFits};
ghost use Rattle.subsetter_blend.specs.Runs.Number.{in_parts, is_within, whole, whole_in, natural_in};

use subsetter_cffdata::numerals::charstring_number::CharStringNumber;

/// The parts of a unit.
pub const UNIT: i64 = 1 << 30;

/// A number in parts.
#[inline(always)]
pub fn in_parts(number: CharStringNumber) -> i64
    requires { NumberFits number }
    ensures value { result ≡ in_parts number }
    ensures within { unsigned_abs result ≤ 2 ^ 45 }
{
    match number {
        CharStringNumber::Integer(value) => i64::from(value) * 1073741824,
        CharStringNumber::Fixed(value) => i64::from(value) * 16384,
    }
}

/// Whether parts are within 32768 units.
#[inline(always)]
pub fn is_within(parts: i64) -> bool
    ensures { result ≡ is_within parts }
{
    parts.unsigned_abs() <= 35184372088832
}

/// The nearest whole number of units, halves up.
#[inline(always)]
#[tactic(auto, unfolding(crate::specs::Runs::Number::whole, subsetter_variation::specs::Nearest::nearest))]
pub fn whole(parts: i64) -> i64
    requires { unsigned_abs parts ≤ 2 ^ 59 }
    ensures value { result ≡ whole parts }
    ensures bound { unsigned_abs result ≤ 2 ^ 29 }
{
    let above = (parts + 1152921505143717888) as u64;
    (above / 1073741824) as i64 - 1073741824
}

/// The whole number that parts are, where they are one.
#[inline(always)]
#[tactic(auto, unfolding(crate::specs::Runs::Number::whole_in))]
pub fn whole_in(parts: i64) -> Option<i32>
    requires { unsigned_abs parts ≤ 2 ^ 45 }
    ensures value { result ≡ whole_in parts }
    ensures bound { IfSome result (λ v. unsigned_abs v ≤ 32768) }
{
    if parts % UNIT != 0 {
        return None;
    }
    Some((parts / UNIT) as i32)
}

/// The whole number that parts are, where they are one that isn't below 0.
#[inline(always)]
#[tactic(auto, unfolding(crate::specs::Runs::Number::natural_in))]
pub fn natural_in(parts: i64) -> Option<u16>
    requires { unsigned_abs parts ≤ 2 ^ 45 }
    ensures { result ≡ natural_in parts }
{
    let whole = whole_in(parts)?;
    if whole < 0 {
        return None;
    }
    Some(whole as u16)
}
