//! The reals of a DICT (Technical Note 5176, section 4 "DICT Data", table 5).

ghost use Rattle.std.specs.Prelude.{◌≤◌, take};
ghost use Rattle.subsetter_cffdata.specs.Reals.Decimals.{IsPlain};

use crate::numerals::first_byte;
use crate::numerals::whole::whole_of;
use crate::reading;
use crate::reals::reading_text::text_of;
use crate::reals::real_text::{plain_decimal, real_of_text};
use crate::reals::real_writing::{pack, text_of_digits};
use crate::reals::text::Text;
use subsetter_base::error::Error;
use subsetter_base::read::Reader;
use subsetter_base::write::{Writeable, Writer};

/// An exact decimal: a sign, at most 64 digits without zeros in front and at the end, and the power of ten of the last digit.
#[derive(Clone, Copy, Debug)]
pub struct RealNumber {
    pub(crate) negative: bool,
    pub(crate) digits: [u8; 64],
    pub(crate) len: u8,
    pub(crate) power: i32,
    ghost within: { len ≤ 64 },
    ghost plain: { IsPlain negative (take len digits) power },
}

impl RealNumber {
    ghost use Rattle.std.specs.Prelude.{◌≡◌, ◌<◌, length, pos};
    ghost use Rattle.std.specs.List.{AllByRecursion};
    ghost use Rattle.std.specs.Option.{option_map};
    ghost use Rattle.subsetter_cffdata.specs.Reals.TextSteps.{shown, fitting};
    ghost use Rattle.subsetter_cffdata.specs.Reals.Decimals.{real_at, real_text};
    ghost use Rattle.subsetter_cffdata.specs.Reading.{rest, Takes};
    ghost use Rattle.subsetter_cffdata.specs.Views.{decimal_of};
    ghost use Rattle.subsetter_cffdata.specs.Numerals.Numbers.{real_number_at, real_as_i32};

    /// Reads a real; None where no byte 30 is there, or the text after it can't be read.
    #[tactic(auto, unfolding(crate::specs::Numerals::Numbers::real_from))]
    pub fn parse(r: &mut Reader<'_>) -> Option<RealNumber>
        ensures value { Takes decimal_of result r.old r.new real_number_at }
        ensures same { r.new.bytes ≡ r.old.bytes }
    {
        match reading::next_byte(r)? {
            first_byte::REAL => Self::parse_text(r),
            _ => None,
        }
    }

    /// Ten to a power.
    #[tactic(auto, using(crate::proofs::RealsLaws::PlainDigits::one_is_plain))]
    pub fn ten_to(power: i32) -> RealNumber
        ensures { decimal_of result ≡ record { mantissa = pos 1; power = power } }
    {
        plain_decimal(false, &[1], power)
    }

    /// Reads the text after a byte 30.
    #[inline(never)]
    #[tactic(auto, using(crate::proofs::RealsLaws::Texts::real_by_text))]
    pub fn parse_text(r: &mut Reader<'_>) -> Option<RealNumber>
        ensures value { Takes decimal_of result r.old r.new real_at }
        ensures same { r.new.bytes ≡ r.old.bytes }
    {
        let read = text_of(reading::tail(r))?;
        reading::pass(r, read.len);
        real_of_text(&read.text.characters[..read.text.len])
    }

    /// The digits, the highest first.
    pub(crate) fn digits(&self) -> &[u8]
        ensures value { result.now ≡ take self.now.len self.now.digits }
        ensures len { length result.now ≡ self.now.len }
    {
        &self.digits[..usize::from(self.len)]
    }

    /// The whole number that this is, where it has no fraction and fits.
    pub fn as_i32(&self) -> Option<i32>
        ensures { result ≡ real_as_i32 (decimal_of self.now) }
    {
        if self.power < 0 {
            return None;
        }
        whole_of(self.negative, self.digits(), self.power as u32)
    }

    /// The text, where it has at most 64 characters.
    pub(crate) fn text(&self) -> Option<Text>
        ensures value { option_map shown result ≡ fitting (real_text (decimal_of self.now)) }
        ensures characters { AllByRecursion (λ c. c < 16) (real_text (decimal_of self.now)) }
    {
        text_of_digits(self.negative, self.digits(), self.power)
    }
}

/// As a plain decimal without an exponent. A real whose text has more than 64 characters is refused by `OverflowError`.
impl Writeable for RealNumber {
    ghost use Rattle.std.specs.Prelude.{◌≡◌, ◌<◌, ◌++◌, ◌∷◌, ◌⊎◌, length, nat_lt, if◌then◌else◌, Some, None, OnOk, IfErr};
    ghost use Rattle.subsetter_base.specs.declared.error.Error.TheVariants.{OutOfMemory, OverflowError};
    ghost use Rattle.subsetter_cffdata.specs.Reals.Decimals.{HasText, packed, real_text, text_limit};
    ghost use Rattle.subsetter_cffdata.specs.Views.{decimal_of};

    ghost bytes_of = { λ real. 30 ∷ packed (real_text (decimal_of real)) };

    ghost refusal = { λ real. if nat_lt text_limit (length (real_text (decimal_of real))) then Some OverflowError else None };

    fn write(&self, w: &mut Writer) -> Result<(), Error>
        ensures ok { OnOk result (w.new ≡ w.old ++ (30 ∷ packed (real_text (decimal_of self.now)))) }
        // So it is read again.
        ensures again { OnOk result (HasText (decimal_of self.now)) }
        ensures err { IfErr result (λ e. (e ≡ OutOfMemory) ⊎ ((e ≡ OverflowError) × (text_limit < length (real_text (decimal_of self.now))))) }
    {
        let Some(text) = self.text() else {
            return Err(Error::OverflowError);
        };
        let bytes = pack(&text.characters[..text.len]);
        w.extend(&bytes.characters[..bytes.len])
    }
}
