//! Numbers of a DICT and of a charstring (Technical Note 5176, section 4 "DICT Data").
//!
//! `==` isn't given, as the kinds are kept. `combine` returns None where a power of ten doesn't fit 32 bits; its caller refuses by
//! `OverflowError`, as such a number's text is longer than 64 characters.

ghost use Rattle.std.specs.Prelude.{◌≡◌, ◌∷◌, ◌++◌, map, pos, if◌then◌else◌, Some, None, OnOk, IfErr};
ghost use Rattle.std.specs.Option.{option_map};
ghost use Rattle.std.specs.Int.{w32, cast_unsigned, to_be_bytes};
ghost use Rattle.subsetter_base.specs.declared.error.Error.TheVariants.{OutOfMemory, OverflowError};
ghost use Rattle.subsetter_cffdata.specs.Numerals.Numbers.{Integer as StoredInteger, number as written, is_too_long, integer, fixed, integer_at, integer_from, short_integer, fixed_number_at, dict_number_from, dict_number_at, fixed_as_i32, in_i32, as_i32, as_u32};
ghost use Rattle.subsetter_cffdata.specs.Numerals.CharStringNumber.{as_number, charstring_number_at};
ghost use Rattle.subsetter_cffdata.specs.Reading.{rest, Takes};
ghost use Rattle.subsetter_cffdata.specs.Numerals.Values.{value, thousand, by_1000};
ghost use Rattle.subsetter_cffdata.specs.Views.{decimal_of, number_of};

use crate::numerals::charstring_number::{CharStringNumber, read_number};
use crate::numerals::first_byte;
pub use crate::numerals::string_id::StringId;
pub use crate::numerals::u24::U24;
use crate::numerals::value::{real_of_fixed, real_of_integer, thousandfold_of};
use crate::reading;
pub use crate::reals::real_number::RealNumber;
use subsetter_base::error::Error;
use subsetter_base::read::Reader;
use subsetter_base::write::{Writeable, Writer};

/// A whole number.
#[derive(Clone, Copy, Debug, PartialEq, Eq)]
pub struct IntegerNumber(pub i32);

impl IntegerNumber {
    /// Reads an integer; None where no integer is there or it is cut short.
    pub fn parse(r: &mut Reader<'_>) -> Option<IntegerNumber>
        ensures value { Takes (λ x. x.0) result r.old r.new integer_at }
        ensures same { r.new.bytes ≡ r.old.bytes }
    {
        let b0 = reading::next_byte(r)?;
        Self::parse_from(b0, r)
    }

    /// The integer whose first byte was read.
    #[tactic(auto, unfolding(crate::specs::Numerals::Numbers::integer_from))]
    fn parse_from(b0: u8, r: &mut Reader<'_>) -> Option<IntegerNumber>
        ensures value { Takes (λ x. x.0) result r.old r.new (integer_from b0) }
        ensures same { r.new.bytes ≡ r.old.bytes }
    {
        match b0 {
            first_byte::SHORT_INTEGER => Some(IntegerNumber(i32::from(reading::next_i16(r)?))),
            first_byte::LONG_INTEGER => Some(IntegerNumber(reading::next_i32(r)?)),
            _ => Self::parse_short(b0, r),
        }
    }

    /// 32 to 246 mean themselves less 139; 247 to 254 have one more byte.
    #[tactic(auto, unfolding(crate::specs::Numerals::Numbers::short_integer))]
    fn parse_short(b0: u8, r: &mut Reader<'_>) -> Option<IntegerNumber>
        ensures value { Takes (λ x. x.0) result r.old r.new (short_integer b0) }
        ensures same { r.new.bytes ≡ r.old.bytes }
    {
        match b0 {
            32..=246 => Some(IntegerNumber(i32::from(b0) - 139)),
            247..=250 => {
                let low = u32::from(reading::next_byte(r)?);
                let size = (u32::from(b0) - 247) * 256 + low + 108;
                Some(IntegerNumber(size as i32))
            }
            251..=254 => {
                let low = u32::from(reading::next_byte(r)?);
                let size = (u32::from(b0) - 251) * 256 + low + 108;
                Some(IntegerNumber(-(size as i32)))
            }
            _ => None,
        }
    }

    /// Writes an offset or a length, always in five bytes, so that its value doesn't move what follows.
    pub fn write_as_5_bytes(&self, w: &mut Writer) -> Result<(), Error>
        ensures ok { OnOk result (w.new ≡ w.old ++ (29 ∷ to_be_bytes w32 (cast_unsigned w32 self.now.0))) }
        ensures err { IfErr result (λ e. e ≡ OutOfMemory) }
    {
        let bytes = self.0.to_be_bytes();
        w.extend(&[
            first_byte::LONG_INTEGER,
            bytes[0],
            bytes[1],
            bytes[2],
            bytes[3],
        ])
    }
}

impl IntegerNumber {
    /// Every one fits.
    #[tactic(auto, unfolding(crate::specs::Numerals::Numbers::in_i32))]
    fn as_i32(&self) -> Option<i32>
        ensures { result ≡ in_i32 self.now.0 }
    {
        Some(self.0)
    }
}

impl Writeable for IntegerNumber {
    ghost bytes_of = { λ z. integer z.0 };

    // In the first form that holds it.
    #[tactic(auto, unfolding(crate::specs::Numerals::Numbers::integer))]
    fn write(&self, w: &mut Writer) -> Result<(), Error> {
        let n = self.0;
        if -107 <= n && n <= 107 {
            w.extend(&[(n + 139) as u8])
        } else if 108 <= n && n <= 1131 {
            let above = n as u32 - 108;
            w.extend(&[(above / 256 + 247) as u8, (above % 256) as u8])
        } else if -1131 <= n && n <= -108 {
            let above = n.unsigned_abs() - 108;
            w.extend(&[(above / 256 + 251) as u8, (above % 256) as u8])
        } else if -32768 <= n && n <= 32767 {
            let bytes = (n as i16).to_be_bytes();
            w.extend(&[first_byte::SHORT_INTEGER, bytes[0], bytes[1]])
        } else {
            self.write_as_5_bytes(w)
        }
    }
}

/// A number of 65536ths.
#[derive(Clone, Copy, Debug, PartialEq, Eq)]
pub struct FixedNumber(pub i32);

impl FixedNumber {
    /// Reads a number of 65536ths; None where no byte 255 is there or it is cut short.
    #[tactic(auto, unfolding(crate::specs::Numerals::Numbers::fixed_from))]
    pub fn parse(r: &mut Reader<'_>) -> Option<FixedNumber>
        ensures value { Takes (λ x. x.0) result r.old r.new fixed_number_at }
        ensures same { r.new.bytes ≡ r.old.bytes }
    {
        match reading::next_byte(r)? {
            first_byte::FIXED => Some(FixedNumber(reading::next_i32(r)?)),
            _ => None,
        }
    }
}

impl FixedNumber {
    /// The whole number that this is, where it has no fraction.
    #[tactic(auto, unfolding(crate::specs::Numerals::Numbers::in_i32))]
    fn as_i32(&self) -> Option<i32>
        ensures { result ≡ fixed_as_i32 self.now.0 }
    {
        if self.0 % 65536 == 0 {
            Some(self.0 / 65536)
        } else {
            None
        }
    }
}

impl Writeable for FixedNumber {
    ghost bytes_of = { λ k. fixed k.0 };

    fn write(&self, w: &mut Writer) -> Result<(), Error> {
        let bytes = self.0.to_be_bytes();
        w.extend(&[first_byte::FIXED, bytes[0], bytes[1], bytes[2], bytes[3]])
    }
}

/// A number, and which kind it is.
#[derive(Clone, Copy, Debug)]
pub enum Number {
    /// An exact decimal; of a DICT alone.
    Real(RealNumber),
    /// A whole number.
    Integer(IntegerNumber),
    /// A number of 65536ths; of a charstring alone.
    Fixed(FixedNumber),
}

/// The integer 0.
impl Default for Number {
    ghost is_default = { λ x. number_of x ≡ StoredInteger (pos 0) };

    fn default() -> Self {
        Number::zero()
    }
}

impl Number {
    /// Reads a number of a DICT; None where no number is there or it can't be read.
    pub fn parse_cff_number(r: &mut Reader<'_>) -> Option<Number>
        ensures value { Takes number_of result r.old r.new dict_number_at }
        ensures same { r.new.bytes ≡ r.old.bytes }
    {
        let b0 = reading::next_byte(r)?;
        Self::parse_dict_number(b0, r)
    }

    /// Reads a number of a charstring; None where no number is there or it is cut short. Bytes 29 and 30 begin no number there.
    #[tactic(auto, using(crate::proofs::NumeralsLaws::CharStringNumbers::what_follows))]
    pub fn parse_char_string_number(r: &mut Reader<'_>) -> Option<Number>
        ensures value { Takes number_of result r.old r.new charstring_number_at }
        ensures same { r.new.bytes ≡ r.old.bytes }
    {
        let bytes = reading::tail(r);
        let read = read_number(bytes)?;
        reading::pass(r, bytes.len() - read.rest.len());
        Some(Self::of_charstring(read.number))
    }

    /// A number of a charstring, of the same kind.
    fn of_charstring(number: CharStringNumber) -> Number
        ensures { number_of result ≡ as_number number }
    {
        match number {
            CharStringNumber::Integer(value) => Number::from_i32(i32::from(value)),
            CharStringNumber::Fixed(value) => Number::Fixed(FixedNumber(value)),
        }
    }

    /// The number of a DICT whose first byte was read.
    #[tactic(auto, unfolding(crate::specs::Numerals::Numbers::dict_number_from))]
    pub fn parse_dict_number(b0: u8, r: &mut Reader<'_>) -> Option<Number>
        ensures value { Takes number_of result r.old r.new (dict_number_from b0) }
        ensures same { r.new.bytes ≡ r.old.bytes }
    {
        match b0 {
            first_byte::REAL => Some(Number::Real(RealNumber::parse_text(r)?)),
            _ => Some(Number::Integer(IntegerNumber::parse_from(b0, r)?)),
        }
    }

    /// Becomes the number of a DICT whose first byte was read; None where no number is there or it can't be read.
    #[inline(always)]
    #[tactic(auto, unfolding(crate::specs::Numerals::Numbers::dict_number_from))]
    pub fn read_dict_number(&mut self, b0: u8, r: &mut Reader<'_>) -> Option<()>
        ensures value { dict_number_from b0 (rest r.old) ≡ option_map (λ _. (number_of self.new, rest r.new)) result }
        ensures same { r.new.bytes ≡ r.old.bytes }
    {
        match b0 {
            first_byte::REAL => *self = Number::Real(RealNumber::parse_text(r)?),
            _ => *self = Number::Integer(IntegerNumber::parse_from(b0, r)?),
        }
        Some(())
    }

    /// An integer.
    pub fn from_i32(num: i32) -> Self
        ensures { number_of result ≡ StoredInteger num }
    {
        Number::Integer(IntegerNumber(num))
    }

    /// The integer 0.
    pub fn zero() -> Self
        ensures { number_of result ≡ StoredInteger (pos 0) }
    {
        Number::Integer(IntegerNumber(0))
    }

    /// The integer 1.
    pub fn one() -> Self
        ensures { number_of result ≡ StoredInteger (pos 1) }
    {
        Number::Integer(IntegerNumber(1))
    }

    /// The whole number that this is, where it has no fraction and fits.
    #[tactic(auto, unfolding(crate::specs::Numerals::Numbers::as_i32))]
    pub fn as_i32(&self) -> Option<i32>
        ensures { result ≡ as_i32 (number_of self.now) }
    {
        match self {
            Number::Integer(integer) => integer.as_i32(),
            Number::Real(real) => real.as_i32(),
            Number::Fixed(fixed) => fixed.as_i32(),
        }
    }

    /// The whole number that this is, where it has no fraction, fits, and isn't below zero.
    #[tactic(auto, unfolding(crate::specs::Numerals::Numbers::as_u32))]
    pub fn as_u32(&self) -> Option<u32>
        ensures { result ≡ as_u32 (number_of self.now) }
    {
        u32::try_from(self.as_i32()?).ok()
    }

    /// The exact value as a real; a real stays as it is.
    #[tactic(auto, unfolding(crate::specs::Numerals::Values::value))]
    pub fn to_real(&self) -> RealNumber
        ensures { decimal_of result ≡ value (number_of self.now) }
    {
        match self {
            Number::Real(real) => *real,
            Number::Integer(integer) => real_of_integer(integer.0),
            Number::Fixed(fixed) => real_of_fixed(fixed.0),
        }
    }

    /// A thousand times the number, as a real; None where the power of ten of its last digit doesn't fit in an `i32`.
    #[tactic(auto, unfolding(crate::specs::Numerals::Values::thousand))]
    pub fn times_thousand(&self) -> Option<Number>
        ensures { option_map number_of result ≡ thousand (number_of self.now) }
    {
        Some(Number::Real(thousandfold_of(&self.to_real())?))
    }

    /// A matrix after a scaling by 1000: the first four entries a thousand times as great, the last two of equal value, all six as reals. None where the power of ten of an entry doesn't fit in an `i32`.
    #[tactic(auto, unfolding(crate::specs::Numerals::Values::by_1000))]
    pub fn combine(matrix: &[Number; 6]) -> Option<[Number; 6]>
        ensures { option_map (map number_of) result ≡ by_1000 (map number_of matrix.now) }
    {
        let [a, b, c, d, e, f] = matrix;
        Some([
            a.times_thousand()?,
            b.times_thousand()?,
            c.times_thousand()?,
            d.times_thousand()?,
            Number::Real(e.to_real()),
            Number::Real(f.to_real()),
        ])
    }
}

/// In its own kind: an integer in the first form that holds it, a real as a plain decimal, a number of 65536ths in five bytes. A real whose text has more than 64 characters is refused by `OverflowError`.
impl Writeable for Number {
    ghost bytes_of = { λ x. written (number_of x) };

    ghost refusal = { λ x. if is_too_long (number_of x) then Some OverflowError else None };

    fn write(&self, w: &mut Writer) -> Result<(), Error> {
        match self {
            Number::Real(real) => w.write(real),
            Number::Integer(integer) => w.write(integer),
            Number::Fixed(fixed) => w.write(fixed),
        }
    }
}
