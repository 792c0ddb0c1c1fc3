//! What is noted of characters that a font has no glyph for.

ghost use Rattle.std.specs.Prelude.{◌≡◌, ◌++◌, [], OnOk, IfOk, IsOk, take};
ghost use Rattle.std.specs.Io.KnownBytes.{Appends};
ghost use Rattle.plain_text.specs.Quoted.{quoted};
ghost use Rattle.subset_lines.specs.Missing.{character_text, names_text, others_text, missing_text, missing_line, missing_string};

use plain_text::{Piece, Unwritten, Written, write_pieces, write_text};
use std::alloc::Global;
use std::io::Write;

/// Writes a character as `U+` and its number, after a text.
#[tactic(auto, using(plain_text::proofs::Written::both))]
fn write_character<W: Write>(before: &[u8], character: char, out: &mut W) -> Written
    ensures { OnOk result (Appends (W.contents out.old) (W.contents out.new) (before.now ++ character_text character)) }
{
    write_text(before, out)?;
    let code = u32::from(character);
    if write!(out, "U+{code:04X}").is_err() {
        return Err(Unwritten);
    }
    Ok(())
}

/// Writes characters with commas between them.
#[tactic(auto, using(plain_text::proofs::Written::at_first, plain_text::proofs::Written::after_part, plain_text::proofs::Written::at_last))]
fn write_names<W: Write>(characters: &[char], out: &mut W) -> Written
    ensures { OnOk result (Appends (W.contents out.old) (W.contents out.new) (names_text [] characters.now)) }
{
    let mut before = b"".as_slice();
    for character in characters {
        write_character(before, *character, out)?;
        before = b", ".as_slice();
    }
    Ok(())
}

/// The first three, or fewer.
fn first_three(characters: &[char]) -> &[char]
    ensures { result.now ≡ take 3 characters.now }
{
    if characters.len() > 3 {
        &characters[..3]
    } else {
        characters
    }
}

/// What says that there are others than three.
fn others_text(characters: &[char]) -> &'static [u8]
    ensures { result.now ≡ others_text characters.now }
{
    if characters.len() > 3 {
        b" and others"
    } else {
        b""
    }
}

/// Writes a note of characters, of which three are named: `no glyph for U+2603, U+2604: glyph 0 is shown`.
#[tactic(auto, using(plain_text::proofs::Written::both), unfolding(crate::specs::Missing::missing_text))]
fn write_missing<W: Write>(characters: &[char], out: &mut W) -> Written
    ensures { OnOk result (Appends (W.contents out.old) (W.contents out.new) (missing_text characters.now)) }
{
    write_text(b"no glyph for ", out)?;
    write_names(first_three(characters), out)?;
    write_text(others_text(characters), out)?;
    write_text(b": glyph 0 is shown", out)
}

/// Writes the note as a line; nothing where there are no characters.
#[tactic(auto, using(plain_text::proofs::Written::both))]
pub fn write_missing_line<W: Write>(characters: &[char], out: &mut W) -> Written
    ensures { OnOk result (Appends (W.contents out.old) (W.contents out.new) (missing_line characters.now)) }
{
    if characters.is_empty() {
        return Ok(());
    }
    write_missing(characters, out)?;
    write_text(b"\n", out)
}

/// The text of the note.
fn missing_bytes(alloc: Global, characters: &[char]) -> Result<Vec<u8>, Unwritten>
    ensures { IfOk result (λ text. text.items ≡ missing_text characters.now) }
{
    let mut text = Vec::new(alloc);
    write_missing(characters, &mut text)?;
    Ok(text)
}

/// Writes the note as a JSON string after a text.
fn write_string<W: Write>(alloc: Global, before: &[u8], characters: &[char], out: &mut W) -> Written
    ensures { OnOk result (Appends (W.contents out.old) (W.contents out.new) (before.now ++ quoted (missing_text characters.now))) }
{
    let text = missing_bytes(alloc, characters)?;
    write_pieces(&[Piece::Text(before), Piece::Quoted(&text)], out)
}

/// Writes the note as a JSON string after a text; nothing where there are no characters.
pub fn write_missing_string<W: Write>(
    alloc: Global,
    before: &[u8],
    characters: &[char],
    out: &mut W,
) -> Written
    ensures text { OnOk result (Appends (W.contents out.old) (W.contents out.new) (missing_string before.now characters.now)) }
    ensures nothing { characters.now ≡ [] → IsOk result }
{
    match characters {
        [] => Ok(()),
        [_, ..] => write_string(alloc, before, characters, out),
    }
}
