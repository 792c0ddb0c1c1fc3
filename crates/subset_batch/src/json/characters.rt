//! The characters of a string.

ghost use Rattle.std.specs.Prelude.{◌≡◌, ◌<◌, ◌++◌, OnOk, IfOk, IfSome};
ghost use Rattle.subset_batch.specs.Bytes.{escaped, hex_digit, is_high, is_low};
ghost use Rattle.subset_batch.specs.Reading.{digit_at, unit_at, low_at, coded, unicode_at, escape_at, char_at};
ghost use Rattle.subset_batch.specs.View.{Gives, character_view};

use crate::fault::{Unread, Wanted, missing};
use crate::json::blanks::byte_at;
use std::alloc::AllocError;

/// The first code unit that is the first half of a surrogate pair, the first that is the second half, and the first after these.
const FIRST_HIGH: u32 = 0xD800;

const FIRST_LOW: u32 = 0xDC00;

const BEHIND_LOW: u32 = 0xE000;

/// The first character that one code unit doesn't write, and how many characters have the same first half.
const BEHIND_UNITS: u32 = 65536;

const OF_EACH_HIGH: u32 = 1024;

/// What one step reads of a string.
#[derive(Clone, Copy)]
pub enum Character {
    /// A byte of an unescaped character, or what a letter after a backslash means.
    Byte(u8),
    /// What `\u` writes.
    Scalar(char),
}

/// What a letter after a backslash means.
#[tactic(auto, unfolding(crate::specs::Bytes::escaped))]
fn escaped(e: u8) -> Option<u8>
    ensures { result ≡ escaped e }
{
    match e {
        b'"' => Some(b'"'),
        b'\\' => Some(b'\\'),
        b'/' => Some(b'/'),
        b'b' => Some(8),
        b'f' => Some(12),
        b'n' => Some(b'\n'),
        b'r' => Some(b'\r'),
        b't' => Some(b'\t'),
        _ => None,
    }
}

/// The number of a hexadecimal digit.
#[tactic(auto, unfolding(crate::specs::Bytes::hex_digit))]
fn hex_digit(b: u8) -> Option<u32>
    ensures value { result ≡ hex_digit b }
    ensures bound { IfSome result (λ d. d < 16) }
{
    if b >= b'0' && b <= b'9' {
        return Some(u32::from(b) - 48);
    }
    if b >= b'A' && b <= b'F' {
        return Some(u32::from(b) - 65 + 10);
    }
    if b >= b'a' && b <= b'f' {
        return Some(u32::from(b) - 97 + 10);
    }
    None
}

/// A hexadecimal digit.
fn digit_at(bytes: &[u8]) -> Result<(u32, &[u8]), Unread>
    ensures value { Gives (λ x. (x.0, x.1.now)) result (digit_at bytes.now) }
    ensures bound { IfOk result (λ x. x.0 < 16) }
{
    match bytes {
        [] => Err(missing(Wanted::HexDigit, bytes)),
        [b, rest @ ..] => match hex_digit(*b) {
            Some(digit) => Ok((digit, rest)),
            None => Err(missing(Wanted::HexDigit, bytes)),
        },
    }
}

/// The code unit of four hexadecimal digits.
#[tactic(auto, unfolding(crate::specs::Reading::unit_at))]
fn unit_at(bytes: &[u8]) -> Result<(u32, &[u8]), Unread>
    ensures value { Gives (λ x. (x.0, x.1.now)) result (unit_at bytes.now) }
    ensures bound { IfOk result (λ x. x.0 < 65536) }
{
    let (a, rest) = digit_at(bytes)?;
    let (b, rest) = digit_at(rest)?;
    let (c, rest) = digit_at(rest)?;
    let (d, rest) = digit_at(rest)?;
    Ok((((a * 16 + b) * 16 + c) * 16 + d, rest))
}

/// Whether a code unit is the second half of a surrogate pair.
fn is_low(unit: u32) -> bool
    ensures { result ≡ is_low unit }
{
    unit >= FIRST_LOW && unit < BEHIND_LOW
}

/// Whether a code unit is the first half of a surrogate pair.
fn is_high(unit: u32) -> bool
    ensures { result ≡ is_high unit }
{
    unit >= FIRST_HIGH && unit < FIRST_LOW
}

/// The escape of a low surrogate.
#[tactic(auto, unfolding(crate::specs::Reading::low_at))]
fn low_at(bytes: &[u8]) -> Result<(u32, &[u8]), Unread>
    ensures value { Gives (λ x. (x.0, x.1.now)) result (low_at bytes.now) }
    ensures bound { IfOk result (λ x. x.0 < 65536) }
{
    let rest = byte_at(b'\\', Wanted::LowSurrogate, bytes)?;
    let rest = byte_at(b'u', Wanted::LowSurrogate, rest)?;
    let (unit, rest) = unit_at(rest)?;
    if !is_low(unit) {
        return Err(missing(Wanted::LowSurrogate, bytes));
    }
    Ok((unit, rest))
}

/// The character of a code.
fn coded<'a>(code: u32, rest: &'a [u8], bytes: &[u8]) -> Result<(Character, &'a [u8]), Unread>
    ensures { Gives (λ x. (character_view x.0, x.1.now)) result (coded code rest.now bytes.now) }
{
    match char::from_u32(code) {
        Some(scalar) => Ok((Character::Scalar(scalar), rest)),
        None => Err(missing(Wanted::Scalar, bytes)),
    }
}

/// The character that a code unit writes, with a low surrogate where it is a high one.
#[tactic(auto, unfolding(crate::specs::Reading::unicode_at))]
fn unicode_at(bytes: &[u8]) -> Result<(Character, &[u8]), Unread>
    ensures { Gives (λ x. (character_view x.0, x.1.now)) result (unicode_at bytes.now) }
{
    let (unit, rest) = unit_at(bytes)?;
    if !is_high(unit) {
        return coded(unit, rest, bytes);
    }
    let (low, rest) = low_at(rest)?;
    let code = BEHIND_UNITS
        + unit.saturating_sub(FIRST_HIGH) * OF_EACH_HIGH
        + low.saturating_sub(FIRST_LOW);
    coded(code, rest, bytes)
}

/// What is after a backslash.
fn escape_at(bytes: &[u8]) -> Result<(Character, &[u8]), Unread>
    ensures { Gives (λ x. (character_view x.0, x.1.now)) result (escape_at bytes.now) }
{
    match bytes {
        [] => Err(missing(Wanted::Escape, bytes)),
        [e, rest @ ..] => {
            if *e == b'u' {
                return unicode_at(rest);
            }
            match escaped(*e) {
                Some(b) => Ok((Character::Byte(b), rest)),
                None => Err(missing(Wanted::Escape, bytes)),
            }
        }
    }
}

/// A character of a string.
pub fn char_at(bytes: &[u8]) -> Result<(Character, &[u8]), Unread>
    ensures { Gives (λ x. (character_view x.0, x.1.now)) result (char_at bytes.now) }
{
    match bytes {
        [] => Err(missing(Wanted::Quote, bytes)),
        [b, rest @ ..] => {
            if *b == b'\\' {
                escape_at(rest)
            } else if *b < 32 {
                Err(missing(Wanted::Character, bytes))
            } else {
                Ok((Character::Byte(*b), rest))
            }
        }
    }
}

/// Adds a character to a text.
pub fn push_character(text: &mut Vec<u8>, character: Character) -> Result<(), AllocError>
    ensures { OnOk result (text.new.items ≡ text.old.items ++ character_view character) }
{
    match character {
        Character::Byte(b) => text.push(b)?,
        Character::Scalar(c) => {
            let mut bytes = [0u8; 4];
            text.extend_from_slice(c.encode_utf8(&mut bytes).as_bytes())?;
        }
    }
    Ok(())
}
