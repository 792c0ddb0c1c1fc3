//! Numbers of operators (ISO 32000-1, 7.3.3).

ghost use Rattle.std.specs.Prelude.{◌≡◌, ◌+◌, ◌*◌, ◌/◌, ◌%◌, ◌++◌, ◌∷◌, ◌<◌, ◌^◌, IfErr, OnOk, decimal, unsigned_abs};
ghost use Rattle.std.specs.Fmt.{signed_decimal};
ghost use Rattle.subsetter_base.specs.declared.error.Error.TheVariants.{OutOfMemory};
ghost use Rattle.pdf_text.specs.Numbers.{sign};
ghost use Rattle.pdf_operators.specs.Operators.{fraction, millionths, rise_text, three_digits};

use pdf_text::write_sign;
use std::io::Write;
use subsetter_base::Error;

/// Writes an integer in decimal.
pub fn write_integer(text: &mut Vec<u8>, z: i32) -> Result<(), Error>
    ensures ok { OnOk result (text.new.items ≡ text.old.items ++ signed_decimal z) }
    ensures err { IfErr result (λ e. e ≡ OutOfMemory) }
{
    write!(text, "{z}").map_err(|_| Error::OutOfMemory)
}

/// Writes a number in decimal.
fn write_whole(text: &mut Vec<u8>, n: u64) -> Result<(), Error>
    ensures ok { OnOk result (text.new.items ≡ text.old.items ++ decimal n) }
    ensures err { IfErr result (λ e. e ≡ OutOfMemory) }
{
    write!(text, "{n}").map_err(|_| Error::OutOfMemory)
}

/// A digit.
fn digit(n: u32) -> u8
    ensures { result ≡ 48 + n % 10 }
{
    48 + (n % 10) as u8
}

/// Writes the last three digits.
fn write_three_digits(text: &mut Vec<u8>, n: u32) -> Result<(), Error>
    ensures ok { OnOk result (text.new.items ≡ text.old.items ++ three_digits n) }
    ensures err { IfErr result (λ e. e ≡ OutOfMemory) }
{
    text.extend_from_slice(&[digit(n / 100), digit(n / 10), digit(n)])?;
    Ok(())
}

/// Writes a point, and the last three digits of two numbers.
#[tactic(auto, using(pdf_text::proofs::Written::three_written))]
fn write_six_digits(text: &mut Vec<u8>, high: u32, low: u32) -> Result<(), Error>
    ensures ok { OnOk result (text.new.items ≡ text.old.items ++ 46 ∷ (three_digits high ++ three_digits low)) }
    ensures err { IfErr result (λ e. e ≡ OutOfMemory) }
{
    text.push(b'.')?;
    write_three_digits(text, high)?;
    write_three_digits(text, low)
}

/// Writes a point, and the last three digits.
#[tactic(auto, using(pdf_text::proofs::Pieces::two_written))]
fn write_thousandths(text: &mut Vec<u8>, n: u32) -> Result<(), Error>
    ensures ok { OnOk result (text.new.items ≡ text.old.items ++ 46 ∷ three_digits n) }
    ensures err { IfErr result (λ e. e ≡ OutOfMemory) }
{
    text.push(b'.')?;
    write_three_digits(text, n)
}

/// Writes the point and the decimals of `n` millionths, if there are any.
fn write_fraction(text: &mut Vec<u8>, n: u32) -> Result<(), Error>
    ensures ok { OnOk result (text.new.items ≡ text.old.items ++ fraction n) }
    ensures err { IfErr result (λ e. e ≡ OutOfMemory) }
{
    if n == 0 {
        Ok(())
    } else if n % 1000 == 0 {
        write_thousandths(text, n / 1000)
    } else {
        write_six_digits(text, n / 1000, n)
    }
}

/// Writes `n` millionths, with the sign of `z`.
#[tactic(auto, using(pdf_text::proofs::Pieces::three_signed))]
fn write_millionths(text: &mut Vec<u8>, z: i32, n: u64) -> Result<(), Error>
    ensures ok { OnOk result (text.new.items ≡ text.old.items ++ millionths z n) }
    ensures err { IfErr result (λ e. e ≡ OutOfMemory) }
{
    write_sign(text, z)?;
    write_whole(text, n / 1_000_000)?;
    write_fraction(text, (n % 1_000_000) as u32)
}

/// The product of two sizes.
fn product(a: u32, b: u32) -> u64
    ensures value { result ≡ a * b }
    ensures bound { a * b < 2 ^ 64 }
{
    u64::from(a) * u64::from(b)
}

/// Writes a text rise of `z` thousandths of the em, at a size of `size` thousandths.
#[tactic(auto, using(pdf_text::proofs::Pieces::two_signed))]
pub fn write_rise(text: &mut Vec<u8>, size: u32, z: i32) -> Result<(), Error>
    ensures ok { OnOk result (text.new.items ≡ text.old.items ++ rise_text size z) }
    ensures bound { unsigned_abs z * size < 2 ^ 64 }
    ensures err { IfErr result (λ e. e ≡ OutOfMemory) }
{
    write_millionths(text, z, product(z.unsigned_abs(), size))
}
