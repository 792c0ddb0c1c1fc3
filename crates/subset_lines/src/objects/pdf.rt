//! What a JSON object says of a PDF.

ghost use Rattle.std.specs.Prelude.{◌≡◌, ◌++◌, [], OnOk, IfOk, codes, decimal};
ghost use Rattle.std.specs.Io.KnownBytes.{Appends};
ghost use Rattle.subset_lines.specs.Objects.Json.{numbers_from};
ghost use Rattle.subset_lines.specs.Objects.Pdf.{pdf_member};

use plain_text::{Piece, Unwritten, Written, write_count, write_pieces, write_text};
use std::alloc::Global;
use std::io::Write;

/// Writes codes with a comma between each two.
#[tactic(auto, using(plain_text::proofs::Written::at_first, plain_text::proofs::Written::after_part, plain_text::proofs::Written::at_last))]
fn write_codes<W: Write>(numbers: &[u16], out: &mut W) -> Written
    ensures { OnOk result (Appends (W.contents out.old) (W.contents out.new) (numbers_from [] numbers.now)) }
{
    let mut before = b"".as_slice();
    for number in numbers {
        write_count(before, u64::from(*number), out)?;
        before = b",".as_slice();
    }
    Ok(())
}

/// Writes the member.
#[tactic(auto, using(plain_text::proofs::Written::both))]
fn write_member<W: Write>(size: u64, name: &[u8], numbers: &[u16], out: &mut W) -> Written
    ensures { OnOk result (Appends (W.contents out.old) (W.contents out.new) (pdf_member size name.now numbers.now)) }
{
    write_pieces(
        &[
            Piece::Text(b",\"pdf\":{\"size\":"),
            Piece::Number(size),
            Piece::Text(b",\"font\":"),
            Piece::Quoted(name),
            Piece::Text(b",\"codes\":["),
        ],
        out,
    )?;
    write_codes(numbers, out)?;
    write_text(b"]}", out)
}

/// The text of the member `"pdf"` of a JSON object, with a comma before it: the bytes of the PDF, the name of its font, and
/// the code of each glyph.
///
/// `Unwritten` where a request for memory was refused.
pub fn json_pdf(
    alloc: Global,
    size: u64,
    name: &[u8],
    numbers: &[u16],
) -> Result<Vec<u8>, Unwritten>
    ensures { IfOk result (λ text. text.items ≡ pdf_member size name.now numbers.now) }
{
    let mut text = Vec::new(alloc);
    write_member(size, name, numbers, &mut text)?;
    Ok(text)
}
