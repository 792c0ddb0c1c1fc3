//! Texts that are written piece by piece.

ghost use Rattle.std.specs.Prelude.{◌≡◌, ◌++◌, OnOk};
ghost use Rattle.std.specs.Io.KnownBytes.{Appends};
ghost use Rattle.plain_text.specs.Pieces.{piece_text, pieces_text};

use crate::fixed::write_fixed;
use crate::quoted::{write_quoted, write_shown};
use crate::text::{Written, write_decimal, write_text};
use std::io::Write;

/// A piece of a text.
#[derive(Clone, Copy)]
pub enum Piece<'a> {
    /// Bytes as they are.
    Text(&'a [u8]),
    /// A number in decimal.
    Number(u64),
    /// A coordinate of 65536ths as a decimal number.
    Fixed(i32),
    /// A text without control characters as a JSON string.
    Quoted(&'a [u8]),
    /// Any bytes as a JSON string, with `?` for those that aren't printable ones of ASCII.
    Shown(&'a [u8]),
}

/// Writes a piece.
fn write_piece<W: Write>(piece: &Piece<'_>, out: &mut W) -> Written
    ensures { OnOk result (Appends (W.contents out.old) (W.contents out.new) (piece_text piece.now)) }
{
    match piece {
        Piece::Text(text) => write_text(text, out),
        Piece::Number(number) => write_decimal(*number, out),
        Piece::Fixed(value) => write_fixed(*value, out),
        Piece::Quoted(text) => write_quoted(text, out),
        Piece::Shown(text) => write_shown(text, out),
    }
}

/// Writes pieces, one after the other.
#[tactic(auto, using(crate::proofs::Written::at_first, crate::proofs::Written::after_part, crate::proofs::Joined::pieces_last))]
pub fn write_pieces<W: Write>(pieces: &[Piece<'_>], out: &mut W) -> Written
    ensures { OnOk result (Appends (W.contents out.old) (W.contents out.new) (pieces_text pieces.now)) }
{
    for piece in pieces {
        write_piece(piece, out)?;
    }
    Ok(())
}
