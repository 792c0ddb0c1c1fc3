//! What the outlines of a face are, as a line and as members of a JSON object (RFC 8259).

ghost use Rattle.std.specs.Prelude.{◌≡◌, OnOk};
ghost use Rattle.std.specs.Io.KnownBytes.{Appends};
ghost use Rattle.subset_lines.specs.Faces.Outlines.{outlines_name, outlines_end, outlines_line, variable_member, outlines_members};

use plain_text::{Piece, Written, write_pieces};
use std::io::Write;

/// What the outlines of a face are.
#[derive(Clone, Copy)]
pub enum Outlines {
    /// Those of the table `glyf`.
    TrueType,
    /// Those of the table `CFF `.
    Cff,
    /// Those of the table `CFF2`.
    Cff2,
    /// The face has no such table.
    Missing,
}

/// The name of outlines.
fn outlines_name(outlines: Outlines) -> &'static [u8]
    ensures { result.now ≡ outlines_name outlines }
{
    match outlines {
        Outlines::TrueType => b"TrueType",
        Outlines::Cff => b"CFF",
        Outlines::Cff2 => b"CFF2",
        Outlines::Missing => b"none",
    }
}

/// The end of the line of the outlines.
fn outlines_end(is_variable: bool) -> &'static [u8]
    ensures { result.now ≡ outlines_end is_variable }
{
    if is_variable { b", variable\n" } else { b"\n" }
}

/// Writes the line of the outlines.
pub fn write_outlines<W: Write>(outlines: Outlines, is_variable: bool, out: &mut W) -> Written
    ensures { OnOk result (Appends (W.contents out.old) (W.contents out.new) (outlines_line outlines is_variable)) }
{
    write_pieces(
        &[
            Piece::Text(b"outlines "),
            Piece::Text(outlines_name(outlines)),
            Piece::Text(outlines_end(is_variable)),
        ],
        out,
    )
}

/// The member that says whether the outlines vary.
fn variable_member(is_variable: bool) -> &'static [u8]
    ensures { result.now ≡ variable_member is_variable }
{
    if is_variable {
        b",\"variable\":true"
    } else {
        b",\"variable\":false"
    }
}

/// Writes the members of the outlines, which open the object.
pub fn write_outlines_members<W: Write>(
    outlines: Outlines,
    is_variable: bool,
    out: &mut W,
) -> Written
    ensures { OnOk result (Appends (W.contents out.old) (W.contents out.new) (outlines_members outlines is_variable)) }
{
    write_pieces(
        &[
            Piece::Text(b"{\"outlines\":"),
            Piece::Quoted(outlines_name(outlines)),
            Piece::Text(variable_member(is_variable)),
        ],
        out,
    )
}
