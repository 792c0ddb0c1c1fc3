//! The line of answer of a request.

ghost use Rattle.std.specs.Prelude.{◌≡◌, ◌<◌, ◌++◌, OnOk, codes, decimal};
ghost use Rattle.std.specs.Io.KnownBytes.{Appends};
ghost use Rattle.subset_batch.specs.Written.{hex_of, escaped_byte, escaped_text};
ghost use Rattle.subset_batch.specs.Answers.{answer_front, further, done_line, failed_line};

use plain_text::{Unwritten, write_text};
use std::io::Write;

/// A hexadecimal digit.
#[tactic(auto, unfolding(crate::specs::Written::hex_of))]
fn hex_of(digit: u8) -> u8
    requires { digit < 16 }
    ensures { result ≡ hex_of digit }
{
    if digit < 10 { 48 + digit } else { 87 + digit }
}

/// Writes a byte of a string.
fn write_escaped_byte<W: Write>(b: u8, out: &mut W) -> Result<(), Unwritten>
    ensures { OnOk result (Appends (W.contents out.old) (W.contents out.new) (escaped_byte b)) }
{
    if b == b'"' || b == b'\\' {
        return write_text(&[b'\\', b], out);
    }
    if b < 32 {
        let high = hex_of(b / 16);
        let low = hex_of(b % 16);
        return write_text(&[b'\\', b'u', b'0', b'0', high, low], out);
    }
    write_text(&[b], out)
}

/// Writes the bytes of a string.
#[tactic(auto, using(plain_text::proofs::Written::at_first, plain_text::proofs::Written::after_part, plain_text::proofs::Written::at_last))]
fn write_escaped<W: Write>(text: &[u8], out: &mut W) -> Result<(), Unwritten>
    ensures { OnOk result (Appends (W.contents out.old) (W.contents out.new) (escaped_text text.now)) }
{
    for b in text {
        write_escaped_byte(*b, out)?;
    }
    Ok(())
}

/// Writes the start of a line of answer.
fn write_front<W: Write>(line: usize, status: u8, out: &mut W) -> Result<(), Unwritten>
    ensures { OnOk result (Appends (W.contents out.old) (W.contents out.new) (answer_front line status)) }
{
    if write!(out, "{{\"line\":{line},\"status\":{status}").is_err() {
        return Err(Unwritten);
    }
    Ok(())
}

/// Writes the members of an object that is a line after others, and what closes it.
#[tactic(auto, using(plain_text::proofs::Written::both))]
fn write_further<W: Write>(object: &[u8], out: &mut W) -> Result<(), Unwritten>
    ensures { OnOk result (Appends (W.contents out.old) (W.contents out.new) (further object.now)) }
{
    match object {
        [] => write_text(b"}\n", out),
        [_, members @ ..] => {
            write_text(b",", out)?;
            write_text(members, out)
        }
    }
}

/// Writes the answer to the request of a line, counted from 1, that was done: `{"line":3,"status":0}` and a line end, with
/// the members of an object after the status, if there is one: `{"notes":[]}` and a line end.
#[tactic(auto, using(plain_text::proofs::Written::both))]
pub fn write_done<W: Write>(line: usize, object: &[u8], out: &mut W) -> Result<(), Unwritten>
    ensures { OnOk result (Appends (W.contents out.old) (W.contents out.new) (done_line line object.now)) }
{
    write_front(line, 0, out)?;
    write_further(object, out)
}

/// Writes the answer to the request of a line, counted from 1, that failed:
/// `{"line":3,"status":1,"error":"malformed font"}` and a line end.
#[tactic(auto, using(plain_text::proofs::Written::both))]
pub fn write_failed<W: Write>(
    line: usize,
    status: u8,
    error: &str,
    out: &mut W,
) -> Result<(), Unwritten>
    ensures { OnOk result (Appends (W.contents out.old) (W.contents out.new) (failed_line line status error.now)) }
{
    write_front(line, status, out)?;
    write_text(b",\"error\":\"", out)?;
    write_escaped(error.as_bytes(), out)?;
    write_text(b"\"}\n", out)
}
