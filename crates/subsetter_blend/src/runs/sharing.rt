//! What deltas count, and the results of a blend.

ghost use Rattle.std.specs.Prelude.{◌≡◌, ◌≤◌, ◌+◌, ◌*◌, ◌^◌, ◌++◌, ◌*ℤ◌, ◌+ℤ◌, false, take, drop, All, OnOk, IfErr, length, unsigned_abs};
ghost use Rattle.subsetter_blend.specs.Runs.Blend.{share, varied, results, scalars_in};
ghost use Rattle.subsetter_blend.specs.Runs.Number.{IsWithin, are_within};

use crate::runs::parts::is_within;
use crate::runs::regions::Regions;
use subsetter_base::error::Error;

/// A product whose factors are small enough.
fn product(scalar: i64, delta: i64) -> i128
    requires first { unsigned_abs scalar ≤ 2 ^ 30 }
    requires second { unsigned_abs delta ≤ 2 ^ 45 }
    ensures value { result ≡ scalar *ℤ delta }
    ensures bound { unsigned_abs result ≤ 2 ^ 75 }
{
    i128::from(scalar) * i128::from(delta)
}

/// What a delta counts at a region's scalar. 2^76 parts of 2^30 are added, so that the shift rounds a number above 0, and half a part.
#[inline(always)]
#[tactic(auto, unfolding(crate::specs::Runs::Blend::share, subsetter_variation::specs::Nearest::nearest))]
pub fn share(scalar: i64, delta: i64) -> i64
    requires first { unsigned_abs scalar ≤ 2 ^ 30 }
    requires second { unsigned_abs delta ≤ 2 ^ 45 }
    ensures value { result ≡ share scalar delta }
    ensures bound { unsigned_abs result ≤ 2 ^ 46 }
{
    let above = (product(scalar, delta) + 75557863725914860290048) as u128;
    (above / 1073741824) as i64 - 70368744177664
}

/// A sum that has had few terms.
pub fn plus(sum: i64, more: i64) -> i64
    requires sum { unsigned_abs sum ≤ 2 ^ 61 }
    requires more { unsigned_abs more ≤ 2 ^ 46 }
    ensures value { result ≡ sum +ℤ more }
    ensures bound { unsigned_abs result ≤ unsigned_abs sum + unsigned_abs more }
{
    sum + more
}

/// A default with the shares of its deltas, one for each region.
#[inline(always)]
fn vary<R: Regions>(default: i64, regions: &R, data_index: u16, deltas: &[i64]) -> i64
    requires few { length deltas.now ≤ 513 }
    requires regions { length deltas.now ≡ length (scalars_in (R.scalars regions.now data_index)) }
    requires default { unsigned_abs default ≤ 2 ^ 45 }
    requires within { All IsWithin deltas.now }
    ensures { result ≡ varied default (scalars_in (R.scalars regions.now data_index)) deltas.now }
{
    let mut value = default;
    for k in 0..deltas.len() {
        value = plus(value, share(regions.scalar(data_index, k), deltas[k]));
    }
    value
}

/// Each default gives way to its result. `OverflowError` where one isn't within 32768 units.
fn vary_each<R: Regions>(
    defaults: &mut [i64],
    regions: &R,
    data_index: u16,
    count: usize,
    deltas: &[i64],
) -> Result<(), Error>
    requires regions { count ≡ length (scalars_in (R.scalars regions.now data_index)) }
    requires deltas { length defaults.old * count ≤ length deltas.now }
    requires few { length deltas.now ≤ 513 }
    requires defaults { All IsWithin defaults.old }
    requires within { All IsWithin deltas.now }
    ensures ok { OnOk result (defaults.new ≡ results (scalars_in (R.scalars regions.now data_index)) defaults.old deltas.now) }
    ensures within { All IsWithin defaults.new }
    ensures err { IfErr result (λ e. (e ≡ Error.OverflowError) × (are_within (results (scalars_in (R.scalars regions.now data_index)) defaults.old deltas.now) ≡ false)) }
{
    let mut rest = deltas;
    for i in 0..defaults.len() {
        let (own, following) = rest.split_at(count);
        let value = vary(defaults[i], regions, data_index, own);
        if !is_within(value) {
            return Err(Error::OverflowError);
        }
        defaults[i] = value;
        rest = following;
    }
    Ok(())
}

/// The first n of these are defaults, which are replaced by their results; after them are their deltas.
pub fn vary_front<R: Regions>(
    all: &mut [i64],
    n: usize,
    regions: &R,
    data_index: u16,
    count: usize,
) -> Result<(), Error>
    requires regions { count ≡ length (scalars_in (R.scalars regions.now data_index)) }
    requires enough { n + n * count ≤ length all.old }
    requires few { length all.old ≤ 513 }
    requires within { All IsWithin all.old }
    ensures ok { OnOk result (all.new ≡ results (scalars_in (R.scalars regions.now data_index)) (take n all.old) (drop n all.old) ++ drop n all.old) }
    ensures within { All IsWithin all.new }
    ensures err { IfErr result (λ e. (e ≡ Error.OverflowError) × (are_within (results (scalars_in (R.scalars regions.now data_index)) (take n all.old) (drop n all.old)) ≡ false)) }
{
    let (defaults, deltas) = all.split_at_mut(n);
    vary_each(defaults, regions, data_index, count, deltas)
}
