//! A coordinate of 65536ths as a decimal number (Technical Note 5902).

ghost use Rattle.std.specs.Prelude.{◌≡◌, ◌+◌, ◌<◌, ◌≤◌, ◌^◌, ◌++◌, IfErr, decimal, OnOk, unsigned_abs};
ghost use Rattle.subsetter_base.specs.declared.error.Error.TheVariants.{OutOfMemory};
ghost use Rattle.pdf_names.specs.Decimal.{back, decimal_text, decimals, digits, fraction, nearest_even, rounded, rounds_back, size_text, value_text};

use pdf_text::write_sign;
use std::io::Write;
use subsetter_base::Error;

/// A power of ten.
fn power(k: u32) -> u64
    requires { k ≤ 5 }
    ensures value { result ≡ 10 ^ k }
    ensures least { 1 ≤ result }
    ensures most { result ≤ 100000 }
{
    match k {
        0 => 1,
        1 => 10,
        2 => 100,
        3 => 1_000,
        4 => 10_000,
        _ => 100_000,
    }
}

/// A quotient to the nearest whole number, by the remainder and half of the divisor, halves to the even one.
fn nearest_even(quotient: u64, remainder: u64, half: u64) -> u64
    requires { quotient < 2 ^ 60 }
    ensures value { result ≡ nearest_even quotient remainder half }
    ensures most { result ≤ quotient + 1 }
{
    if remainder < half || (remainder == half && quotient % 2 == 0) {
        return quotient;
    }
    quotient + 1
}

/// `n` 65536ths rounded to `k` decimals, in units of the last one.
#[tactic(auto, unfolding(crate::specs::Decimal::rounded))]
fn rounded(k: u32, n: u32) -> u64
    requires { k ≤ 5 }
    ensures value { result ≡ rounded k n }
    ensures most { result < 2 ^ 33 }
{
    let scaled = u64::from(n) * power(k);
    nearest_even(scaled / 65_536, scaled % 65_536, 32_768)
}

/// The 65536ths nearest to `m` such units.
#[tactic(auto, unfolding(crate::specs::Decimal::back))]
fn back(k: u32, m: u64) -> u64
    requires digits { k ≤ 5 }
    requires most { m < 2 ^ 33 }
    ensures { result ≡ back k m }
{
    let scale = power(k);
    (m * 131_072 + scale) / (2 * scale)
}

/// Whether `k` decimals determine a number of 65536ths.
fn rounds_back(k: u32, n: u32) -> bool
    requires { k ≤ 5 }
    ensures { result ≡ rounds_back k n }
{
    back(k, rounded(k, n)) == u64::from(n)
}

/// The fewest decimals that determine a number of 65536ths.
#[tactic(auto, unfolding(crate::specs::Decimal::decimals))]
fn decimals(n: u32) -> u32
    ensures value { result ≡ decimals n }
    ensures most { result ≤ 5 }
{
    if rounds_back(0, n) {
        return 0;
    }
    if rounds_back(1, n) {
        return 1;
    }
    if rounds_back(2, n) {
        return 2;
    }
    if rounds_back(3, n) {
        return 3;
    }
    if rounds_back(4, n) {
        return 4;
    }
    5
}

/// Writes the last `k` digits of a number.
fn write_digits(text: &mut Vec<u8>, k: u32, m: u64) -> Result<(), Error>
    requires { k ≤ 5 }
    ensures ok { OnOk result (text.new.items ≡ text.old.items ++ digits k m) }
    ensures err { IfErr result (λ e. e ≡ OutOfMemory) }
{
    let mut left = k;
    while left > 0 {
        left -= 1;
        text.push(48 + (m / power(left) % 10) as u8)?;
    }
    Ok(())
}

/// Writes the point and the decimals, if there are any.
#[tactic(auto, using(pdf_text::proofs::Pieces::two_written))]
fn write_fraction(text: &mut Vec<u8>, k: u32, m: u64) -> Result<(), Error>
    requires { k ≤ 5 }
    ensures ok { OnOk result (text.new.items ≡ text.old.items ++ fraction k m) }
    ensures err { IfErr result (λ e. e ≡ OutOfMemory) }
{
    if k == 0 {
        return Ok(());
    }
    text.extend_from_slice(b".")?;
    write_digits(text, k, m)
}

/// Writes a whole number.
fn write_whole(text: &mut Vec<u8>, n: u64) -> Result<(), Error>
    ensures ok { OnOk result (text.new.items ≡ text.old.items ++ decimal n) }
    ensures err { IfErr result (λ e. e ≡ OutOfMemory) }
{
    write!(text, "{n}").map_err(|_| Error::OutOfMemory)
}

/// Writes a number that is counted in units of its last decimal.
#[tactic(auto, unfolding(crate::specs::Decimal::decimal_text), using(pdf_text::proofs::Pieces::two_written))]
fn write_decimal(text: &mut Vec<u8>, k: u32, m: u64) -> Result<(), Error>
    requires { k ≤ 5 }
    ensures ok { OnOk result (text.new.items ≡ text.old.items ++ decimal_text k m) }
    ensures err { IfErr result (λ e. e ≡ OutOfMemory) }
{
    write_whole(text, m / power(k))?;
    write_fraction(text, k, m)
}

/// Writes a number of 65536ths.
fn write_size(text: &mut Vec<u8>, n: u32) -> Result<(), Error>
    ensures ok { OnOk result (text.new.items ≡ text.old.items ++ size_text n) }
    ensures err { IfErr result (λ e. e ≡ OutOfMemory) }
{
    let k = decimals(n);
    write_decimal(text, k, rounded(k, n))
}

/// Writes a coordinate of 65536ths.
#[tactic(auto, unfolding(crate::specs::Decimal::value_text), using(pdf_text::proofs::Pieces::two_written))]
pub fn write_value(text: &mut Vec<u8>, value: i32) -> Result<(), Error>
    ensures ok { OnOk result (text.new.items ≡ text.old.items ++ value_text value) }
    ensures err { IfErr result (λ e. e ≡ OutOfMemory) }
{
    write_sign(text, value)?;
    write_size(text, value.unsigned_abs())
}
