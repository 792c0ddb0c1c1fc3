//! User coordinates on the axes of a variable font, as an argument writes them.
//!
//! A value is a decimal number of any length, rounded to the nearest 65536th without floats.

ghost use Rattle.std.specs.Prelude.{◌≡◌, ◌⊎◌, ◌≤◌, ◌<◌, ◌*◌, ◌++◌, ◌&&◌, nat_lt, ◌∷◌, [], map, OnOk, IfOk, IfErr, IfSome, Some, None, length, pos, neg_ℤ, unsigned_abs};
ghost use Rattle.std.specs.Option.{option_map};
ghost use Rattle.subset_args.specs.Coordinates.{decimal_of, size_in, below_zero, above_zero, with_minus, value_in, coordinate_of, coordinate_in, coordinates_of, coordinates_in};
ghost use Rattle.subset_args.specs.Halves.{halves, after_digit, halves_after, fixed_above, fixed_below};
ghost use Rattle.std.specs.Str.{all_ascii_digits};
ghost use Rattle.subset_args.specs.declared.jobs.command.ArgsError.TheVariants.{Usage, OutOfMemory};

use crate::jobs::command::ArgsError;
use crate::words::{parts_of, tag_of, u16_of, u32_of};
use std::alloc::{AllocError, Global};
use subsetter_base::Tag;

/// A number without a sign: how many halves of a 65536th it has, and whether there is more.
#[derive(Clone, Copy)]
pub struct Halves {
    pub count: u64,
    pub more: bool,
}

/// The halves of a digit and of those after it.
fn after_digit(digit: u8, following: Halves) -> Halves
    requires { following.count ≤ 3014656 }
    ensures value { result ≡ after_digit digit following }
    ensures bound { result.count ≤ 3014656 }
{
    let count = u64::from(digit.saturating_sub(b'0')) * 131_072 + following.count;
    Halves {
        count: count / 10,
        more: following.more || count % 10 != 0,
    }
}

/// The halves of the digits after a point.
#[tactic(auto, using(crate::proofs::Digits::halves_step, crate::proofs::Digits::halves_none))]
fn halves_after(digits: &[u8]) -> Halves
    ensures value { result ≡ halves_after digits.now }
    ensures bound { result.count ≤ 3014656 }
{
    let mut halves = Halves {
        count: 0,
        more: false,
    };
    for i in 0..digits.len() {
        halves = after_digit(digits[digits.len() - 1 - i], halves);
    }
    halves
}

/// Whether all bytes are ASCII digits.
fn are_digits(bytes: &[u8]) -> bool
    ensures { result ≡ all_ascii_digits bytes.now }
{
    for byte in bytes {
        if !byte.is_ascii_digit() {
            return false;
        }
    }
    true
}

/// Whether a text is one or more ASCII digits.
fn is_digits(text: &str) -> bool
    ensures { result ≡ (nat_lt 0 (length text.now) && all_ascii_digits text.now) }
{
    text.len() > 0 && are_digits(text.as_bytes())
}

/// A number of digits before a point and after it.
#[tactic(auto, using(crate::proofs::Digits::decimal_is))]
fn decimal_of(whole: &str, digits: &str) -> Option<Halves>
    ensures value { result ≡ option_map halves (decimal_of whole.now digits.now) }
    ensures bound { IfSome result (λ h. h.count ≤ 8600000000) }
{
    if !is_digits(digits) {
        return None;
    }
    let units = u16_of(whole)?;
    let following = halves_after(digits.as_bytes());
    Some(Halves {
        count: u64::from(units) * 131_072 + following.count,
        more: following.more,
    })
}

/// The number of a text without a sign.
#[tactic(auto, using(crate::proofs::Digits::whole_halves))]
fn size_of(word: &str) -> Option<Halves>
    ensures value { result ≡ option_map halves (size_in word.now) }
    ensures bound { IfSome result (λ h. h.count ≤ 8600000000) }
{
    match word.split_once('.') {
        Some((whole, digits)) => decimal_of(whole, digits),
        None => {
            let units = u16_of(word)?;
            Some(Halves {
                count: u64::from(units) * 131_072,
                more: false,
            })
        }
    }
}

/// Halves of a 65536th, in the whole 65536th that is nearest, halves up, if it fits.
fn fixed_above(halves: Halves) -> Option<i32>
    requires { halves.count ≤ 8600000000 }
    ensures { result ≡ fixed_above halves }
{
    let count = (halves.count + 1) / 2;
    i32::try_from(count as i64).ok()
}

/// The same below zero.
fn fixed_below(halves: Halves) -> Option<i32>
    requires { halves.count ≤ 8600000000 }
    ensures { result ≡ fixed_below halves }
{
    let count = (halves.count + u64::from(halves.more)) / 2;
    i32::try_from(-(count as i64)).ok()
}

/// A value after a minus, in 65536ths.
#[tactic(auto, using(crate::proofs::Digits::below_is, crate::proofs::Digits::none_below))]
fn below_zero(word: &str) -> Option<i32>
    ensures { result ≡ below_zero word.now }
{
    fixed_below(size_of(word)?)
}

/// A value without a minus, in 65536ths.
#[tactic(auto, using(crate::proofs::Digits::above_is, crate::proofs::Digits::none_above))]
fn above_zero(word: &str) -> Option<i32>
    ensures { result ≡ above_zero word.now }
{
    fixed_above(size_of(word)?)
}

/// A value with a minus between two texts, in 65536ths: nothing is before it.
fn with_minus(front: &str, following: &str) -> Option<i32>
    ensures { result ≡ with_minus front.now following.now }
{
    if front.len() == 0 {
        below_zero(following)
    } else {
        None
    }
}

/// A value, in 65536ths.
fn value_of(word: &str) -> Option<i32>
    ensures { result ≡ value_in word.now }
{
    match word.split_once('-') {
        Some((front, following)) => with_minus(front, following),
        None => above_zero(word),
    }
}

/// The coordinate that a name and a value say.
fn coordinate_from(name: &str, value: &str) -> Option<(Tag, i32)>
    ensures { result ≡ coordinate_of name.now value.now }
{
    let tag = tag_of(name)?;
    Some((tag, value_of(value)?))
}

/// The coordinate that a part of a list says, as `wght=650`.
pub fn coordinate_of(part: &str) -> Option<(Tag, i32)>
    ensures { result ≡ coordinate_in part.now }
{
    let (name, value) = part.split_once('=')?;
    coordinate_from(name, value)
}

/// Adds a coordinate.
fn add(coordinates: &mut Vec<(Tag, i32)>, coordinate: (Tag, i32)) -> Result<(), AllocError>
    ensures { OnOk result (coordinates.new.items ≡ coordinates.old.items ++ coordinate ∷ []) }
{
    coordinates.push(coordinate)?;
    Ok(())
}

/// Adds the coordinate that a part says.
fn push_coordinate(coordinates: &mut Vec<(Tag, i32)>, part: &str) -> Result<(), ArgsError>
    ensures ok { OnOk result (option_map (λ c. coordinates.old.items ++ c ∷ []) (coordinate_in part.now) ≡ Some coordinates.new.items) }
    ensures err { IfErr result (λ e. (e ≡ OutOfMemory) ⊎ ((e ≡ Usage) × (coordinate_in part.now ≡ None))) }
{
    let coordinate = coordinate_of(part).ok_or(ArgsError::Usage)?;
    add(coordinates, coordinate)?;
    Ok(())
}

/// The coordinates that parts say.
fn coordinates_of(alloc: Global, parts: &[&str]) -> Result<Vec<(Tag, i32)>, ArgsError>
    ensures ok { IfOk result (λ v. coordinates_of (map (λ part. part.now) parts.now) ≡ Some v.items) }
    ensures err { IfErr result (λ e. (e ≡ OutOfMemory) ⊎ ((e ≡ Usage) × (coordinates_of (map (λ part. part.now) parts.now) ≡ None))) }
{
    let mut coordinates = Vec::new(alloc);
    for part in parts {
        push_coordinate(&mut coordinates, part)?;
    }
    Ok(coordinates)
}

/// The coordinates of a text, as `wght=650,wdth=87.5`: the tag of an axis, four bytes, and a decimal number, in 65536ths. It is
/// rounded to the nearest, halves up. An empty text has none, which is the default.
///
/// `Usage` where a part isn't one.
pub fn read_coordinates(alloc: Global, text: &str) -> Result<Vec<(Tag, i32)>, ArgsError>
    ensures ok { IfOk result (λ v. coordinates_in text.now ≡ Some v.items) }
    ensures err { IfErr result (λ e. (e ≡ OutOfMemory) ⊎ ((e ≡ Usage) × (coordinates_in text.now ≡ None))) }
{
    if text.len() == 0 {
        return Ok(Vec::new(alloc));
    }
    let parts = parts_of(alloc, text)?;
    coordinates_of(alloc, &parts)
}
