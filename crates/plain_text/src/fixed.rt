//! A coordinate as a decimal number.

ghost use Rattle.std.specs.Prelude.{◌≡◌, ◌≤◌, ◌<◌, ◌^◌, ◌++◌, OnOk};
ghost use Rattle.std.specs.Io.KnownBytes.{Appends};
ghost use Rattle.plain_text.specs.Fixed.{padded, fraction, hundred_thousandths, size_text, sign_text, fixed_text};

use crate::text::{Unwritten, Written, write_text};
use std::io::Write;

/// Writes 100000ths, with as many digits as they need.
fn write_fraction<W: Write>(n: u32, out: &mut W) -> Written
    ensures { OnOk result (Appends (W.contents out.old) (W.contents out.new) (fraction n)) }
{
    if n == 0 {
        return Ok(());
    }
    let ended = if n % 10_000 == 0 {
        write!(out, ".{:01}", n / 10_000)
    } else if n % 1_000 == 0 {
        write!(out, ".{:02}", n / 1_000)
    } else if n % 100 == 0 {
        write!(out, ".{:03}", n / 100)
    } else if n % 10 == 0 {
        write!(out, ".{:04}", n / 10)
    } else {
        write!(out, ".{n:05}")
    };
    ended.map_err(|_| Unwritten)
}

/// What is left of a unit, in 100000ths.
fn hundred_thousandths(n: u32) -> u32
    ensures { result ≡ hundred_thousandths n }
{
    ((u64::from(n % 65_536) * 100_000 + 32_768) / 65_536) as u32
}

/// Writes a number of 65536ths.
#[tactic(auto, using(crate::proofs::Written::both))]
fn write_size<W: Write>(n: u32, out: &mut W) -> Written
    ensures { OnOk result (Appends (W.contents out.old) (W.contents out.new) (size_text n)) }
{
    if write!(out, "{}", n / 65_536).is_err() {
        return Err(Unwritten);
    }
    write_fraction(hundred_thousandths(n), out)
}

/// Writes the minus of a number below 0.
fn write_sign<W: Write>(value: i32, out: &mut W) -> Written
    ensures { OnOk result (Appends (W.contents out.old) (W.contents out.new) (sign_text value)) }
{
    if value < 0 {
        return write_text(b"-", out);
    }
    Ok(())
}

/// Writes a coordinate of 65536ths.
#[tactic(auto, using(crate::proofs::Written::both))]
pub fn write_fixed<W: Write>(value: i32, out: &mut W) -> Written
    ensures { OnOk result (Appends (W.contents out.old) (W.contents out.new) (fixed_text value)) }
{
    write_sign(value, out)?;
    write_size(value.unsigned_abs(), out)
}
