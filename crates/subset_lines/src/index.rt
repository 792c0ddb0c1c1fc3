//! What is noted of a face that a file doesn't have.

ghost use Rattle.std.specs.Prelude.{◌≡◌, ◌++◌, [], OnOk, IfOk};
ghost use Rattle.std.specs.Io.KnownBytes.{Appends};
ghost use Rattle.subset_lines.specs.Index.{index_text, index_line, index_string};

use plain_text::{Piece, Unwritten, Written, write_pieces, write_text};
use std::alloc::Global;
use std::io::Write;

/// Writes that a face is taken as the only one: `face 3 is taken as face 0: the file has no other`.
#[tactic(auto, unfolding(crate::specs::Index::index_text))]
fn write_index<W: Write>(index: u32, out: &mut W) -> Written
    ensures { OnOk result (Appends (W.contents out.old) (W.contents out.new) (index_text index)) }
{
    write_pieces(
        &[
            Piece::Text(b"face "),
            Piece::Number(u64::from(index)),
            Piece::Text(b" is taken as face 0: the file has no other"),
        ],
        out,
    )
}

/// Writes the note as a line, if there is one.
#[tactic(auto, using(plain_text::proofs::Written::both))]
pub fn write_index_line<W: Write>(index: Option<u32>, out: &mut W) -> Written
    ensures { OnOk result (Appends (W.contents out.old) (W.contents out.new) (index_line index)) }
{
    let Some(index) = index else {
        return Ok(());
    };
    write_index(index, out)?;
    write_text(b"\n", out)
}

/// The text of the note.
fn index_bytes(alloc: Global, index: u32) -> Result<Vec<u8>, Unwritten>
    ensures { IfOk result (λ text. text.items ≡ index_text index) }
{
    let mut text = Vec::new(alloc);
    write_index(index, &mut text)?;
    Ok(text)
}

/// Writes the note as a JSON string after a text, if there is one.
pub fn write_index_string<W: Write>(
    alloc: Global,
    before: &[u8],
    index: Option<u32>,
    out: &mut W,
) -> Written
    ensures { OnOk result (Appends (W.contents out.old) (W.contents out.new) (index_string before.now index)) }
{
    let Some(index) = index else {
        return Ok(());
    };
    let text = index_bytes(alloc, index)?;
    write_pieces(&[Piece::Text(before), Piece::Quoted(&text)], out)
}
