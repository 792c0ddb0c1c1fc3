//! What pictures the glyphs of a face have, as a line and as a member of a JSON object (RFC 8259).

ghost use Rattle.std.specs.Prelude.{◌≡◌, ◌++◌, OnOk};
ghost use Rattle.std.specs.Io.KnownBytes.{Appends};
ghost use Rattle.subset_lines.specs.Faces.Pictures.{kind_name, picture_text, pictures_line, pictures_member, pictures_text};

use plain_text::{Piece, Written, write_pieces, write_text};
use std::io::Write;

/// The name of a kind of pictures, by its bit.
fn kind_name(kind: u8) -> &'static [u8]
    ensures { result.now ≡ kind_name kind }
{
    match kind {
        0 => b"colr1",
        1 => b"colr0",
        2 => b"svg",
        3 => b"cbdt17",
        4 => b"cbdt18",
        5 => b"cbdt19",
        6 => b"cbdt",
        7 => b"sbix-png",
        8 => b"sbix-jpg",
        9 => b"sbix-tiff",
        10 => b"sbix-pdf",
        11 => b"sbix-mask",
        12 => b"sbix-dupe",
        13 => b"sbix",
        14 => b"ebdt",
        15 => b"outline",
        _ => b"empty",
    }
}

/// Writes a kind with how many glyphs have it.
fn write_picture<W: Write>(middle: &[u8], picture: (u8, usize), out: &mut W) -> Written
    ensures { OnOk result (Appends (W.contents out.old) (W.contents out.new) (picture_text middle.now picture.0 picture.1)) }
{
    let (kind, count) = (kind_name(picture.0), Piece::Number(picture.1 as u64));
    write_pieces(&[Piece::Text(kind), Piece::Text(middle), count], out)
}

/// Writes each so, with a text before the first and one between each two.
#[tactic(auto, using(plain_text::proofs::Written::both, plain_text::proofs::Written::at_first, plain_text::proofs::Written::after_part, plain_text::proofs::Written::at_last))]
fn write_pictures<W: Write>(
    first: &[u8],
    between: &[u8],
    middle: &[u8],
    pictures: &[(u8, usize)],
    out: &mut W,
) -> Written
    ensures { OnOk result (Appends (W.contents out.old) (W.contents out.new) (pictures_text first.now between.now middle.now pictures.now)) }
{
    let mut before = first;
    for picture in pictures {
        write_text(before, out)?;
        write_picture(middle, *picture, out)?;
        before = between;
    }
    Ok(())
}

/// Writes the line of pictures: `pictures colr0 48, outline 120`; nothing where there are none.
#[tactic(auto, using(plain_text::proofs::Written::both))]
pub fn write_pictures_line<W: Write>(pictures: &[(u8, usize)], out: &mut W) -> Written
    ensures { OnOk result (Appends (W.contents out.old) (W.contents out.new) (pictures_line pictures.now)) }
{
    if pictures.is_empty() {
        return Ok(());
    }
    write_pictures(b"pictures ", b", ", b" ", pictures, out)?;
    write_text(b"\n", out)
}

/// Writes the member of pictures.
#[tactic(auto, using(plain_text::proofs::Written::both))]
pub fn write_pictures_member<W: Write>(pictures: &[(u8, usize)], out: &mut W) -> Written
    ensures { OnOk result (Appends (W.contents out.old) (W.contents out.new) (pictures_member pictures.now)) }
{
    write_text(b",\"pictures\":{", out)?;
    write_pictures(b"\"", b",\"", b"\":", pictures, out)?;
    write_text(b"}", out)
}
