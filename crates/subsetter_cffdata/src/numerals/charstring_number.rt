//! The numbers of a charstring (Technical Note 5177, section 3.2 "Charstring Number Encoding").

ghost use Rattle.std.specs.Prelude.{◌≡◌, ◌++◌, ◌∷◌, [], OnOk, OnErr, Some, None, pos, ◌≤◌, ◌<◌, ℕ, List, MatchOption};
ghost use Rattle.subsetter_cffdata.specs.declared.numerals.charstring_number.CharStringNumber.{CharStringNumber};
ghost use Rattle.subsetter_cffdata.specs.Numerals.CharStringNumber.{number_at, short_number, middle_number, middle_value, fixed_number, written, whole_of, NumberFits, FitsIn, IsReadAgain};

use crate::numerals::first_byte;
use std::alloc::AllocError;
use std::marker::Model;
use subsetter_base::error::Error;
use subsetter_base::write::{Writeable, Writer};

/// A number, and which of the two kinds it is.
#[derive(Clone, Copy, PartialEq, Eq, Debug)]
pub enum CharStringNumber {
    /// A whole number.
    Integer(i16),
    /// A number of 65536ths.
    Fixed(i32),
}

/// The whole number 0.
impl Default for CharStringNumber {
    ghost is_default = { λ x. x ≡ CharStringNumber.Integer (pos 0) };

    fn default() -> Self {
        CharStringNumber::Integer(0)
    }
}

/// The one to five bytes of a number.
#[derive(Drop)]
pub struct NumberBytes {
    bytes: [u8; 5],
    len: usize,
}

impl Model for NumberBytes {
    ghost use Rattle.std.specs.Prelude.{◌≤◌, ℕ, List, take};

    ghost Value = { List ℕ };

    ghost view = { λ n. take n.len n.bytes };

    ghost invariant = { λ n. n.len ≤ 5 };
}

impl NumberBytes {
    /// The bytes.
    #[inline(always)]
    pub fn as_slice(&self) -> &[u8]
        ensures { result.now ≡ self.now }
    {
        &self.bytes[..self.len]
    }
}

/// A number that was read, and the bytes after it.
#[derive(Clone, Copy, Debug)]
pub struct NumberRead<'a> {
    /// The number.
    pub number: CharStringNumber,
    /// The bytes after it.
    pub rest: &'a [u8],
}

/// The number at the front, and the bytes after it; None where no number is there or it is cut short.
#[inline(always)]
#[tactic(auto, unfolding(crate::specs::Numerals::CharStringNumber::number_at))]
pub fn read_number(bytes: &[u8]) -> Option<NumberRead<'_>>
    ensures { MatchOption result (number_at bytes.now ≡ None) (λ r. number_at bytes.now ≡ Some (r.number, r.rest.now)) }
{
    match bytes {
        [first, rest @ ..] => match *first {
            first_byte::SHORT_INTEGER => read_short(rest),
            32..=246 => Some(NumberRead {
                number: CharStringNumber::Integer(*first as i16 - 139),
                rest,
            }),
            247..=254 => read_middle(*first, rest),
            first_byte::FIXED => read_fixed(rest),
            _ => None,
        },
        [] => None,
    }
}

/// A whole number of two bytes.
#[inline(always)]
fn read_short(bytes: &[u8]) -> Option<NumberRead<'_>>
    ensures { MatchOption result (short_number bytes.now ≡ None) (λ r. short_number bytes.now ≡ Some (r.number, r.rest.now)) }
{
    match bytes {
        [high, low, rest @ ..] => {
            let bits = *high as u16 * 256 + *low as u16;
            Some(NumberRead {
                number: CharStringNumber::Integer(bits.cast_signed()),
                rest,
            })
        }
        _ => None,
    }
}

/// A whole number of the first byte and one more.
#[inline(always)]
fn read_middle(first: u8, bytes: &[u8]) -> Option<NumberRead<'_>>
    requires low { 247 ≤ first }
    requires high { first < 255 }
    ensures { MatchOption result (middle_number first bytes.now ≡ None) (λ r. middle_number first bytes.now ≡ Some (r.number, r.rest.now)) }
{
    match bytes {
        [second, rest @ ..] => Some(NumberRead {
            number: middle_of(first, *second),
            rest,
        }),
        [] => None,
    }
}

/// The value of two bytes, the first of them 247 to 254.
#[inline(always)]
fn middle_value(first: u8, second: u8) -> i16
    requires low { 247 ≤ first }
    requires high { first < 255 }
    ensures { result ≡ middle_value first second }
{
    if first < 251 {
        ((first as u16 - 247) * 256 + second as u16 + 108) as i16
    } else {
        -(((first as u16 - 251) * 256 + second as u16 + 108) as i16)
    }
}

/// The whole number of two bytes, the first of them 247 to 254. They are its shortest form.
#[inline(always)]
pub fn middle_of(first: u8, second: u8) -> CharStringNumber
    requires low { 247 ≤ first }
    requires high { first < 255 }
    ensures value { result ≡ CharStringNumber.Integer (middle_value first second) }
    ensures shortest { written result ≡ first ∷ second ∷ [] }
{
    CharStringNumber::Integer(middle_value(first, second))
}

/// A number of 65536ths.
#[inline(always)]
fn read_fixed(bytes: &[u8]) -> Option<NumberRead<'_>>
    ensures { MatchOption result (fixed_number bytes.now ≡ None) (λ r. fixed_number bytes.now ≡ Some (r.number, r.rest.now)) }
{
    match bytes {
        [a, b, c, d, rest @ ..] => {
            let bits = *a as u32 * 16777216 + *b as u32 * 65536 + *c as u32 * 256 + *d as u32;
            Some(NumberRead {
                number: CharStringNumber::Fixed(bits.cast_signed()),
                rest,
            })
        }
        _ => None,
    }
}

/// The bytes of a whole number, in the shortest form.
#[inline(always)]
#[tactic(auto, unfolding(crate::specs::Numerals::CharStringNumber::written))]
fn integer_bytes(value: i16) -> NumberBytes
    ensures { result ≡ written (CharStringNumber.Integer value) }
{
    if value >= -107 && value <= 107 {
        return NumberBytes {
            bytes: [(value + 139) as u8, 0, 0, 0, 0],
            len: 1,
        };
    }
    let size = value.unsigned_abs();
    if size <= 1131 {
        let above = size - 108;
        let first = if value < 0 { 251 } else { 247 };
        return NumberBytes {
            bytes: [(above / 256) as u8 + first, (above % 256) as u8, 0, 0, 0],
            len: 2,
        };
    }
    let bits = value.cast_unsigned();
    NumberBytes {
        bytes: [
            first_byte::SHORT_INTEGER,
            (bits / 256) as u8,
            (bits % 256) as u8,
            0,
            0,
        ],
        len: 3,
    }
}

/// The bytes of a number of 65536ths.
#[inline(always)]
#[tactic(auto, unfolding(crate::specs::Numerals::CharStringNumber::written))]
fn fixed_bytes(value: i32) -> NumberBytes
    ensures { result ≡ written (CharStringNumber.Fixed value) }
{
    let bits = value.cast_unsigned();
    NumberBytes {
        bytes: [
            first_byte::FIXED,
            (bits / 16777216) as u8,
            (bits / 65536 % 256) as u8,
            (bits / 256 % 256) as u8,
            (bits % 256) as u8,
        ],
        len: 5,
    }
}

/// Writes a whole number after these bytes, in the shortest form.
#[inline(always)]
#[tactic(auto, unfolding(crate::specs::Numerals::CharStringNumber::written))]
fn append_integer(bytes: &mut Vec<u8>, value: i16) -> Result<(), AllocError>
    ensures ok { OnOk result (bytes.new.items ≡ bytes.old.items ++ written (CharStringNumber.Integer value)) }
    ensures unchanged { OnErr result (bytes.new.items ≡ bytes.old.items) }
{
    if value >= -107 && value <= 107 {
        bytes.push((value + 139) as u8)?;
        return Ok(());
    }
    let size = value.unsigned_abs();
    if size <= 1131 {
        let above = size - 108;
        let first = if value < 0 { 251 } else { 247 };
        return bytes.extend_from_slice(&[(above / 256) as u8 + first, (above % 256) as u8]);
    }
    let bits = value.cast_unsigned();
    bytes.extend_from_slice(&[
        first_byte::SHORT_INTEGER,
        (bits / 256) as u8,
        (bits % 256) as u8,
    ])
}

impl CharStringNumber {
    /// Writes the number after these bytes, in the shortest form.
    #[inline(always)]
    pub fn append(&self, bytes: &mut Vec<u8>) -> Result<(), AllocError>
        ensures ok { OnOk result (bytes.new.items ≡ bytes.old.items ++ written self.now) }
        ensures unchanged { OnErr result (bytes.new.items ≡ bytes.old.items) }
    {
        match *self {
            CharStringNumber::Integer(value) => append_integer(bytes, value),
            CharStringNumber::Fixed(value) => {
                let number = fixed_bytes(value);
                bytes.extend_from_slice(number.as_slice())
            }
        }
    }

    /// The number's bytes, in the shortest form.
    #[inline(always)]
    pub fn bytes(&self) -> NumberBytes
        ensures { result ≡ written self.now }
    {
        match *self {
            CharStringNumber::Integer(value) => integer_bytes(value),
            CharStringNumber::Fixed(value) => fixed_bytes(value),
        }
    }

    /// The number where it has no fraction.
    #[tactic(auto, unfolding(crate::specs::Numerals::CharStringNumber::whole_of))]
    pub fn whole(&self) -> Option<i32>
        ensures { result ≡ whole_of self.now }
    {
        match *self {
            CharStringNumber::Integer(value) => Some(value as i32),
            CharStringNumber::Fixed(value) => {
                if value % 65536 == 0 {
                    Some(value / 65536)
                } else {
                    None
                }
            }
        }
    }
}

impl Writeable for CharStringNumber {
    ghost bytes_of = { λ number. written number };

    fn write(&self, w: &mut Writer) -> Result<(), Error> {
        w.extend(self.bytes().as_slice())
    }
}

/// A number that is written is read again, whatever follows it.
pub fn number_is_read_again()
    ensures { (number : CharStringNumber) → NumberFits number → IsReadAgain number }
{}

/// A number that is read is one that a charstring can hold.
pub fn read_number_fits()
    ensures { (bytes : List ℕ) → FitsIn (number_at bytes) }
{}
