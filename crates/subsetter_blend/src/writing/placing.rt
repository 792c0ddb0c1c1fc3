//! Exact operands as whole ones.

ghost use Rattle.std.specs.Prelude.{◌≡◌, ◌≤◌, ◌+◌, ◌^◌, ◌⊎◌, [], All, None, Some, IfSome, IfOk, IfErr, length, unsigned_abs};
ghost use Rattle.subsetter_base.specs.declared.error.Error.TheVariants.{OutOfMemory, OverflowError};
ghost use Rattle.subsetter_blend.specs.Writing.Laid.{laid};
ghost use Rattle.subsetter_blend.specs.Writing.Placed.{IsPosition, position_after, number_of, is_short, step, whole_operand, placed, short};

use crate::axes::{Along, moves_along};
use crate::runs::parts::{is_within, whole};
use subsetter_base::error::Error;
use subsetter_cffdata::dicts::operator::Operator;
use subsetter_cffdata::numerals::charstring_number::CharStringNumber;
use subsetter_variation::rounding::minus;

/// An exact position, in parts.
#[derive(Clone, Copy, Debug)]
pub struct Position {
    pub x: i64,
    pub y: i64,
}

/// A number of 16 bits.
fn is_short(value: i64) -> bool
    ensures { result ≡ is_short value }
{
    -32768 <= value && value <= 32767
}

/// A whole number, if it fits.
fn short(value: i64) -> Option<CharStringNumber>
    ensures { result ≡ short value }
{
    if !is_short(value) {
        return None;
    }
    Some(CharStringNumber::Integer(value as i16))
}

/// From a coordinate to the next one.
#[inline(always)]
#[tactic(auto, unfolding(crate::specs::Writing::Placed::step))]
fn step(old: i64, new: i64) -> Option<CharStringNumber>
    requires old { unsigned_abs old ≤ 2 ^ 45 }
    requires new { unsigned_abs new ≤ 2 ^ 60 }
    ensures value { result ≡ step old new }
    ensures within { IfSome result (λ _. unsigned_abs new ≤ 2 ^ 45) }
{
    if !is_within(new) {
        return None;
    }
    let end = whole(new);
    if !is_short(end) {
        return None;
    }
    short(minus(end, whole(old)))
}

/// An operand that is no move.
#[tactic(auto, unfolding(crate::specs::Writing::Placed::whole_operand))]
fn whole_operand(value: i64) -> Option<CharStringNumber>
    requires { unsigned_abs value ≤ 2 ^ 60 }
    ensures { result ≡ whole_operand value }
{
    if !is_within(value) {
        return None;
    }
    short(whole(value))
}

/// The position after a move.
#[inline(always)]
fn position_after(along: Along, by: i64, at: Position) -> Position
    requires at { IsPosition at }
    requires by { unsigned_abs by ≤ 2 ^ 59 }
    ensures value { result ≡ position_after along by at }
    ensures x { unsigned_abs result.x ≤ 2 ^ 60 }
    ensures y { unsigned_abs result.y ≤ 2 ^ 60 }
{
    match along {
        Along::X => Position {
            x: at.x + by,
            y: at.y,
        },
        Along::Y => Position {
            x: at.x,
            y: at.y + by,
        },
        Along::Still => at,
    }
}

/// The whole operand of a move.
#[inline(always)]
fn number_of(along: Along, by: i64, at: Position, to: Position) -> Option<CharStringNumber>
    requires at { IsPosition at }
    requires by { unsigned_abs by ≤ 2 ^ 59 }
    requires to { to ≡ position_after along by at }
    ensures value { result ≡ number_of along by at }
    ensures within { IfSome result (λ _. IsPosition to) }
{
    match along {
        Along::X => step(at.x, to.x),
        Along::Y => step(at.y, to.y),
        Along::Still => whole_operand(by),
    }
}

/// All moves of an operator: their whole operands are written after these bytes, and the position after them is the answer.
/// `OverflowError` where one doesn't fit.
#[inline(always)]
pub fn place_all(
    operator: Operator,
    operands: &[i64],
    start: Position,
    bytes: &mut Vec<u8>,
) -> Result<Position, Error>
    requires few { length operands.now ≤ 513 }
    requires start { IsPosition start }
    requires small { All (λ v. unsigned_abs v ≤ 2 ^ 59) operands.now }
    ensures ok { IfOk result (λ at. laid bytes.old.items (placed operator (length operands.now) 0 operands.now (record { at = start; numbers = [] })) ≡ Some (record { at = at; bytes = bytes.new.items })) }
    ensures within { IfOk result IsPosition }
    ensures err { IfErr result (λ e. (e ≡ OutOfMemory) ⊎ ((e ≡ OverflowError) × (placed operator (length operands.now) 0 operands.now (record { at = start; numbers = [] }) ≡ None))) }
{
    let mut at = start;
    for i in 0..operands.len() {
        let along = moves_along(operator, operands.len(), i);
        let to = position_after(along, operands[i], at);
        let Some(number) = number_of(along, operands[i], at, to) else {
            return Err(Error::OverflowError);
        };
        number.append(bytes)?;
        at = to;
    }
    Ok(at)
}
