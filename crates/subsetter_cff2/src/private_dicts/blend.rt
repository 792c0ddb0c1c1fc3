//! The numbers of a DICT in parts of 2^30, which not all of them have, and what a blend makes of them.

ghost use Rattle.std.specs.Option.{option_map};
ghost use Rattle.std.specs.Prelude.{◌≡◌, ℕ, ◌≤◌, ◌+◌, ◌*◌, ◌^◌, ◌++◌, All, IfSome, length, take, drop, unsigned_abs};
ghost use Rattle.subsetter_cffdata.specs.Views.{number_of};
ghost use Rattle.subsetter_blend.specs.Runs.Blend.{share, scalars_in};
ghost use Rattle.subsetter_cff2.specs.PrivateDicts.Blend.{in_parts, integer_in_parts, added, varied, held, results, result_at, blended_from};
ghost use Rattle.subsetter_cff2.specs.PrivateDicts.Held.{IsHeld, IsBoundedBy};
ghost use Rattle.subsetter_cff2.specs.Variation.{data_scalars};

use crate::variation::Variation;
use subsetter_blend::runs::parts::is_within;
use subsetter_blend::runs::sharing::{plus, share};
use subsetter_cffdata::numerals::number::Number;

/// A whole number of 16 bits in parts.
fn integer_in_parts(value: i32) -> Option<i64>
    ensures value { result ≡ integer_in_parts value }
    ensures held { IsHeld result }
{
    if -32768 <= value && value <= 32767 {
        Some(i64::from(value) * 1073741824)
    } else {
        None
    }
}

/// A number of a DICT in parts, where it is a whole one of 16 bits.
#[tactic(auto, unfolding(crate::specs::PrivateDicts::Blend::in_parts))]
pub fn in_parts(number: &Number) -> Option<i64>
    ensures value { result ≡ in_parts (number_of number.now) }
    ensures held { IsHeld result }
{
    match number {
        Number::Integer(integer) => integer_in_parts(integer.0),
        Number::Real(_) => None,
        Number::Fixed(_) => None,
    }
}

/// A sum with the share of a delta, where both are there.
fn with_share(sum: Option<i64>, scalar: i64, delta: Option<i64>) -> Option<i64>
    requires sum { IsBoundedBy (2 ^ 61) sum }
    requires scalar { unsigned_abs scalar ≤ 2 ^ 30 }
    requires delta { IsHeld delta }
    ensures value { result ≡ added sum (option_map (share scalar) delta) }
    ensures bound { (k : ℕ) → IsBoundedBy k sum → IsBoundedBy (k + 2 ^ 46) result }
{
    let sum = sum?;
    let delta = delta?;
    Some(plus(sum, share(scalar, delta)))
}

/// No parts where they leave 32768 units.
fn held(parts: Option<i64>) -> Option<i64>
    ensures value { result ≡ held parts }
    ensures held { IsHeld result }
{
    let parts = parts?;
    if is_within(parts) { Some(parts) } else { None }
}

/// A default with the shares of its deltas, one for each of `count` regions.
fn vary(
    default: Option<i64>,
    variation: &Variation<'_>,
    outer: u32,
    count: usize,
    deltas: &[Option<i64>],
) -> Option<i64>
    requires few { count ≤ 513 }
    requires regions { count ≡ length (scalars_in (data_scalars variation.now outer)) }
    requires deltas { count ≤ length deltas.now }
    requires default { IsHeld default }
    requires held { All IsHeld deltas.now }
    ensures { result ≡ varied default (scalars_in (data_scalars variation.now outer)) deltas.now }
{
    let mut value = default;
    for k in 0..count {
        value = with_share(value, variation.scalar(outer, k), deltas[k]);
    }
    value
}

/// Each default gives way to its result.
fn vary_each(
    defaults: &mut [Option<i64>],
    variation: &Variation<'_>,
    outer: u32,
    count: usize,
    deltas: &[Option<i64>],
)
    requires regions { count ≡ length (scalars_in (data_scalars variation.now outer)) }
    requires deltas { length defaults.old * count ≤ length deltas.now }
    requires few { length deltas.now ≤ 513 }
    requires defaults { All IsHeld defaults.old }
    requires held { All IsHeld deltas.now }
    ensures value { defaults.new ≡ results (scalars_in (data_scalars variation.now outer)) defaults.old deltas.now }
    ensures held { All IsHeld defaults.new }
{
    for i in 0..defaults.len() {
        let value = vary(defaults[i], variation, outer, count, &deltas[i * count..]);
        defaults[i] = held(value);
    }
}

/// The first `n` of these are defaults, which give way to their results; their deltas come after them.
fn vary_front(
    all: &mut [Option<i64>],
    n: usize,
    variation: &Variation<'_>,
    outer: u32,
    count: usize,
)
    requires regions { count ≡ length (scalars_in (data_scalars variation.now outer)) }
    requires enough { n + n * count ≤ length all.old }
    requires few { length all.old ≤ 513 }
    requires held { All IsHeld all.old }
    ensures value { all.new ≡ results (scalars_in (data_scalars variation.now outer)) (take n all.old) (drop n all.old) ++ drop n all.old }
    ensures held { All IsHeld all.new }
{
    let (defaults, deltas) = all.split_at_mut(n);
    vary_each(defaults, variation, outer, count, deltas);
}

/// The operands from an index to another are replaced by n results, which are from the first index on.
pub fn blend_from(
    all: &mut [Option<i64>],
    base: usize,
    end: usize,
    n: usize,
    variation: &Variation<'_>,
    outer: u32,
    count: usize,
)
    requires regions { count ≡ length (scalars_in (data_scalars variation.now outer)) }
    requires enough { base + (n + n * count) ≡ end }
    requires inside { end ≤ length all.old }
    requires few { length all.old ≤ 513 }
    requires held { All IsHeld all.old }
    ensures value { take (base + n) all.new ≡ blended_from base (scalars_in (data_scalars variation.now outer)) n (take end all.old) }
    ensures held { All IsHeld all.new }
{
    vary_front(&mut all[base..end], n, variation, outer, count);
}
