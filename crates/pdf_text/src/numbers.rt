//! Numbers and references as PDF writes them (ISO 32000-1, 7.3).

ghost use Rattle.std.specs.Prelude.{◌≡◌, ◌<◌, ◌≤◌, ◌++◌, IfErr, OnOk, length, get_or, pos};
ghost use Rattle.std.specs.Fmt.{signed_decimal};
ghost use Rattle.subsetter_base.specs.declared.error.Error.TheVariants.{OutOfMemory};
ghost use Rattle.pdf_text.specs.Numbers.{integers, fraction, sign, thousandths};

use crate::cmaps::lines::write_count;
use std::io::Write;
use subsetter_base::Error;

/// Writes an integer in decimal.
pub fn write_integer(text: &mut Vec<u8>, z: i32) -> Result<(), Error>
    ensures ok { OnOk result (text.new.items ≡ text.old.items ++ signed_decimal z) }
    ensures err { IfErr result (λ e. e ≡ OutOfMemory) }
{
    write!(text, "{z}").map_err(|_| Error::OutOfMemory)
}

/// Writes the first of integers.
fn write_first(text: &mut Vec<u8>, numbers: &[i32]) -> Result<(), Error>
    requires { 1 ≤ length numbers.now }
    ensures ok { OnOk result (text.new.items ≡ text.old.items ++ signed_decimal (get_or numbers.now 0 (pos 0))) }
    ensures err { IfErr result (λ e. e ≡ OutOfMemory) }
{
    write_integer(text, numbers[0])
}

/// Writes integers with one space between each two.
pub fn write_integers(text: &mut Vec<u8>, numbers: &[i32]) -> Result<(), Error>
    ensures ok { OnOk result (text.new.items ≡ text.old.items ++ integers numbers.now) }
    ensures err { IfErr result (λ e. e ≡ OutOfMemory) }
{
    let [_, rest @ ..] = numbers else {
        return Ok(());
    };
    write_first(text, numbers)?;
    for z in rest {
        text.push(b' ')?;
        write_integer(text, *z)?;
    }
    Ok(())
}

/// Writes the point and the digits of thousandths.
fn write_fraction(text: &mut Vec<u8>, n: u32) -> Result<(), Error>
    requires { n < 1000 }
    ensures ok { OnOk result (text.new.items ≡ text.old.items ++ fraction n) }
    ensures err { IfErr result (λ e. e ≡ OutOfMemory) }
{
    let first = 48 + (n / 100) as u8;
    let second = 48 + (n / 10 % 10) as u8;
    let third = 48 + (n % 10) as u8;
    if n == 0 {
        return Ok(());
    }
    if n % 100 == 0 {
        text.extend_from_slice(&[b'.', first])?;
        return Ok(());
    }
    if n % 10 == 0 {
        text.extend_from_slice(&[b'.', first, second])?;
        return Ok(());
    }
    text.extend_from_slice(&[b'.', first, second, third])?;
    Ok(())
}

/// Writes the sign of a number.
pub fn write_sign(text: &mut Vec<u8>, z: i32) -> Result<(), Error>
    ensures ok { OnOk result (text.new.items ≡ text.old.items ++ sign z) }
    ensures err { IfErr result (λ e. e ≡ OutOfMemory) }
{
    if z < 0 {
        text.extend_from_slice(b"-")?;
    }
    Ok(())
}

/// Writes `z` thousandths in decimal.
#[tactic(auto, using(crate::proofs::Written::three_written))]
pub fn write_thousandths(text: &mut Vec<u8>, z: i32) -> Result<(), Error>
    ensures ok { OnOk result (text.new.items ≡ text.old.items ++ thousandths z) }
    ensures err { IfErr result (λ e. e ≡ OutOfMemory) }
{
    let size = z.unsigned_abs();
    write_sign(text, z)?;
    write_count(text, (size / 1000) as usize)?;
    write_fraction(text, size % 1000)
}
