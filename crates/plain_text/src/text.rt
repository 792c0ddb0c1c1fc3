//! Texts as they are.

ghost use Rattle.std.specs.Prelude.{◌≡◌, ◌++◌, OnOk, decimal};
ghost use Rattle.std.specs.Io.KnownBytes.{Appends};

use std::io::Write;

/// The writer failed.
#[derive(Drop)]
pub struct Unwritten;

/// What a function that writes returns.
pub type Written = Result<(), Unwritten>;

/// Writes a text.
pub fn write_text<W: Write>(text: &[u8], out: &mut W) -> Written
    ensures { OnOk result (Appends (W.contents out.old) (W.contents out.new) text.now) }
{
    if out.write_all(text).is_err() {
        return Err(Unwritten);
    }
    Ok(())
}

/// Writes a number.
pub fn write_decimal<W: Write>(number: u64, out: &mut W) -> Written
    ensures { OnOk result (Appends (W.contents out.old) (W.contents out.new) (decimal number)) }
{
    if write!(out, "{number}").is_err() {
        return Err(Unwritten);
    }
    Ok(())
}

/// Writes a number after a text.
#[tactic(auto, using(crate::proofs::Written::both))]
pub fn write_count<W: Write>(label: &[u8], number: u64, out: &mut W) -> Written
    ensures { OnOk result (Appends (W.contents out.old) (W.contents out.new) (label.now ++ decimal number)) }
{
    write_text(label, out)?;
    write_decimal(number, out)
}
