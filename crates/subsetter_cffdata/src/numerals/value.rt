//! The exact value of a number, as a decimal.

ghost use Rattle.std.specs.Prelude.{◌≡◌, ◌+◌, ◌<◌, ◌≤◌, ◌++◌, ◌^◌, ◌≤ℤ◌, pos, length};
ghost use Rattle.std.specs.Option.{option_map};
ghost use Rattle.std.specs.Int.Digits.{digits_of};
ghost use Rattle.subsetter_cffdata.specs.Reals.Decimals.{decimal};
ghost use Rattle.subsetter_cffdata.specs.Reals.TextSteps.{shown};
ghost use Rattle.subsetter_cffdata.specs.Numerals.Values.{integer_value, fixed_value, thousandfold, held};
ghost use Rattle.subsetter_cffdata.specs.Views.{decimal_of};

use crate::reals::real_number::RealNumber;
use crate::reals::real_text::decimal_from;
use crate::reals::text::Text;

/// What a 65536th is in units of 10 to the power -16: 5 to the power 16.
const UNITS_OF_65536TH: u128 = 152587890625;

/// The digits of a whole number after a text, none for 0.
fn put_digits(text: &mut Text, n: u128)
    requires { text.old.len + length (digits_of 10 n) ≤ 64 }
    ensures after { shown text.new ≡ shown text.old ++ digits_of 10 n }
    ensures len { text.new.len ≡ text.old.len + length (digits_of 10 n) }
{
    if n > 0 {
        put_digits(text, n / 10);
        text.put((n % 10) as u8);
    }
}

/// A whole number times a power of ten.
fn decimal_of_number(negative: bool, n: u128, power: i32) -> RealNumber
    requires size { n < 10 ^ 39 }
    requires high { power ≤ℤ pos 2147483000 }
    ensures { decimal_of result ≡ decimal negative (digits_of 10 n) power }
{
    let mut text = Text::empty();
    put_digits(&mut text, n);
    decimal_from(negative, &text.characters[..text.len], power)
}

/// An integer as a real.
pub fn real_of_integer(z: i32) -> RealNumber
    ensures { decimal_of result ≡ integer_value z }
{
    decimal_of_number(z < 0, u128::from(z.unsigned_abs()), 0)
}

/// A number of 65536ths as a real.
pub fn real_of_fixed(k: i32) -> RealNumber
    ensures { decimal_of result ≡ fixed_value k }
{
    decimal_of_number(k < 0, u128::from(k.unsigned_abs()) * UNITS_OF_65536TH, -16)
}

/// A thousand times a real; None where its power of ten doesn't fit in 32 bits.
pub fn thousandfold_of(real: &RealNumber) -> Option<RealNumber>
    ensures { option_map decimal_of result ≡ held (thousandfold (decimal_of real.now)) }
{
    if real.len == 0 {
        return Some(*real);
    }
    if real.power > i32::MAX - 3 {
        return None;
    }
    Some(RealNumber {
        negative: real.negative,
        digits: real.digits,
        len: real.len,
        power: real.power + 3,
    })
}
