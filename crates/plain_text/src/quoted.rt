//! Texts as JSON strings (RFC 8259, section 7).

ghost use Rattle.std.specs.Prelude.{◌≡◌, ◌++◌, map, OnOk, codes};
ghost use Rattle.std.specs.Io.KnownBytes.{Appends};
ghost use Rattle.plain_text.specs.Characters.{shown};
ghost use Rattle.plain_text.specs.Quoted.{escaped_byte, escaped, quoted};

use crate::characters::shown;
use crate::text::{Written, write_text};
use std::io::Write;

/// Writes a byte of a string: a backslash is before a quotation mark and of a backslash.
#[tactic(auto, using(crate::proofs::Written::both))]
fn write_escaped_byte<W: Write>(byte: u8, out: &mut W) -> Written
    ensures { OnOk result (Appends (W.contents out.old) (W.contents out.new) (escaped_byte byte)) }
{
    if byte == b'"' || byte == b'\\' {
        return write_text(&[b'\\', byte], out);
    }
    write_text(&[byte], out)
}

/// Writes the bytes of a string.
#[tactic(auto, using(crate::proofs::Written::at_first, crate::proofs::Written::after_part, crate::proofs::Written::at_last))]
fn write_escaped<W: Write>(text: &[u8], out: &mut W) -> Written
    ensures { OnOk result (Appends (W.contents out.old) (W.contents out.new) (escaped text.now)) }
{
    for byte in text {
        write_escaped_byte(*byte, out)?;
    }
    Ok(())
}

/// Writes a text without control characters as a string.
#[tactic(auto, using(crate::proofs::Written::both))]
pub fn write_quoted<W: Write>(text: &[u8], out: &mut W) -> Written
    ensures { OnOk result (Appends (W.contents out.old) (W.contents out.new) (quoted text.now)) }
{
    write_text(b"\"", out)?;
    write_escaped(text, out)?;
    write_text(b"\"", out)
}

/// Writes the bytes of a string, each as it is shown.
#[tactic(auto, using(crate::proofs::Written::at_first, crate::proofs::Written::after_part, crate::proofs::Written::at_last))]
fn write_shown_bytes<W: Write>(text: &[u8], out: &mut W) -> Written
    ensures { OnOk result (Appends (W.contents out.old) (W.contents out.new) (escaped (map shown text.now))) }
{
    for byte in text {
        write_escaped_byte(shown(*byte), out)?;
    }
    Ok(())
}

/// Writes any bytes as a string, with `?` for those that aren't printable ones of ASCII.
#[tactic(auto, using(crate::proofs::Written::both))]
pub fn write_shown<W: Write>(text: &[u8], out: &mut W) -> Written
    ensures { OnOk result (Appends (W.contents out.old) (W.contents out.new) (quoted (map shown text.now))) }
{
    write_text(b"\"", out)?;
    write_shown_bytes(text, out)?;
    write_text(b"\"", out)
}
