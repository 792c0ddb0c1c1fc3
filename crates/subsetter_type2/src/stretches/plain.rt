//! Tokens that are in the flat form as they are, by their first byte.

ghost use Rattle.std.specs.Prelude.{◌≡◌, ◌≤◌, ◌+◌, ◌*◌, MatchBool, Some, nat_lt, if◌then◌else◌};
ghost use Rattle.subsetter_type2.specs.Stretches.Plain.{is_plain};
ghost use Rattle.subsetter_type2.specs.Token.{one_byte_effect};
ghost use Rattle.subsetter_type2.specs.declared.token.Effect.TheVariants.{Masks};

use crate::operators::first_byte;

/// The least first byte of a number of two bytes.
const TWO_BYTE_NUMBERS: u8 = 247;
/// The least whole number of three bytes above 0, and the greatest below 0, as 16 bits.
const LEAST_LONG: u16 = 1132;

const GREATEST_LONG: u16 = 64404;

/// Whether such a token begins with this byte: a number of one or two bytes, or an operator that takes all operands.
static PLAIN: [bool; 256] = [
    false, false, false, false, true, true, true, true, true, false, false, false, false, false,
    false, false, false, false, false, false, false, true, true, false, true, true, true, true,
    false, false, true, true, true, true, true, true, true, true, true, true, true, true, true,
    true, true, true, true, true, true, true, true, true, true, true, true, true, true, true, true,
    true, true, true, true, true, true, true, true, true, true, true, true, true, true, true, true,
    true, true, true, true, true, true, true, true, true, true, true, true, true, true, true, true,
    true, true, true, true, true, true, true, true, true, true, true, true, true, true, true, true,
    true, true, true, true, true, true, true, true, true, true, true, true, true, true, true, true,
    true, true, true, true, true, true, true, true, true, true, true, true, true, true, true, true,
    true, true, true, true, true, true, true, true, true, true, true, true, true, true, true, true,
    true, true, true, true, true, true, true, true, true, true, true, true, true, true, true, true,
    true, true, true, true, true, true, true, true, true, true, true, true, true, true, true, true,
    true, true, true, true, true, true, true, true, true, true, true, true, true, true, true, true,
    true, true, true, true, true, true, true, true, true, true, true, true, true, true, true, true,
    true, true, true, true, true, true, true, true, true, true, true, true, true, true, true, true,
    true, true, true, true, true, true, true, true, true, true, true, true, true, true, true, true,
    true, true, true, true, false,
];

/// A number of one or two bytes, or an operator of one byte that takes all operands, begins with this byte.
#[inline(always)]
pub fn begins_plain(first: u8) -> bool
    ensures { result ≡ is_plain first }
{
    PLAIN[first as usize]
}

/// How many bytes such a token has.
#[inline(always)]
pub fn plain_size(first: u8) -> usize
    ensures size { result ≡ (if nat_lt first 247 then 1 else 2) }
    ensures few { result ≤ 2 }
    ensures some { 1 ≤ result }
{
    1 + (first >= TWO_BYTE_NUMBERS) as usize
}

/// The whole number of these two bytes has no form of one or two bytes.
#[inline(always)]
pub fn is_shortest(high: u8, low: u8) -> bool
    ensures { MatchBool result ((1132 ≤ high * 256 + low) × (high * 256 + low ≤ 64404)) (Unit {0}) }
{
    let bits = high as u16 * 256 + low as u16;
    bits >= LEAST_LONG && bits <= GREATEST_LONG
}

/// The operator of this byte has a mask.
#[inline(always)]
pub fn is_mask(first: u8) -> bool
    ensures { MatchBool result (one_byte_effect first ≡ Some Masks) (Unit {0}) }
{
    first == first_byte::HINT_MASK || first == first_byte::COUNTER_MASK
}
