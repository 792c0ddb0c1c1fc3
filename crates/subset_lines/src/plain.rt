//! The new numbers as lines.

ghost use Rattle.std.specs.Prelude.{◌≡◌, ◌++◌, [], OnOk, Some};
ghost use Rattle.std.specs.Io.KnownBytes.{Appends};
ghost use Rattle.subset_lines.specs.Lines.{name_of, line_of, lines_for, last_line, lines_of};
ghost use Rattle.subset_lines.specs.View.{numbers_view};

use crate::entry::{Numbering, take_first};
use plain_text::{Unwritten, write_text};
use std::io::Write;

/// Writes a character as `U+` and its number.
fn write_name<L: Write>(character: Option<char>, lines: &mut L) -> Result<(), Unwritten>
    ensures { OnOk result (Appends (L.contents lines.old) (L.contents lines.new) (name_of character)) }
{
    let Some(character) = character else {
        return Ok(());
    };
    let code = u32::from(character);
    if write!(lines, "U+{code:04X} ").is_err() {
        return Err(Unwritten);
    }
    Ok(())
}

/// Writes the line of a glyph that has a new number.
#[tactic(auto, using(plain_text::proofs::Written::both))]
fn write_numbers<L: Write>(
    character: Option<char>,
    old: u16,
    new: u16,
    lines: &mut L,
) -> Result<(), Unwritten>
    ensures { OnOk result (Appends (L.contents lines.old) (L.contents lines.new) (line_of character old (Some new))) }
{
    write_name(character, lines)?;
    if writeln!(lines, "{old} -> {new}").is_err() {
        return Err(Unwritten);
    }
    Ok(())
}

/// Writes the line of a glyph, if it has a new number.
fn write_line<L: Write>(
    character: Option<char>,
    old: u16,
    new: Option<u16>,
    lines: &mut L,
) -> Result<(), Unwritten>
    ensures { OnOk result (Appends (L.contents lines.old) (L.contents lines.new) (line_of character old new)) }
{
    match new {
        Some(new) => write_numbers(character, old, new, lines),
        None => Ok(()),
    }
}

/// Writes a line for each glyph.
#[tactic(auto, using(plain_text::proofs::Written::at_first, plain_text::proofs::Written::after_part, plain_text::proofs::Written::at_last))]
fn write_entries<L: Write>(numbering: &Numbering<'_>, lines: &mut L) -> Result<(), Unwritten>
    ensures { OnOk result (Appends (L.contents lines.old) (L.contents lines.new) (lines_for numbering.now.mapper.now numbering.now.characters.now numbering.now.glyphs.now)) }
{
    let mapper = numbering.mapper;
    let mut characters = numbering.characters;
    for glyph in numbering.glyphs {
        let (character, others) = take_first(characters);
        write_line(character, *glyph, mapper.get(*glyph), lines)?;
        characters = others;
    }
    Ok(())
}

/// Writes the text as a line, unless it is empty.
fn write_last_line<L: Write>(text: &[u8], lines: &mut L) -> Result<(), Unwritten>
    ensures { OnOk result (Appends (L.contents lines.old) (L.contents lines.new) (last_line text.now)) }
{
    if !text.is_empty() && (lines.write_all(text).is_err() || lines.write_all(b"\n").is_err()) {
        return Err(Unwritten);
    }
    Ok(())
}

/// Passes on what the writer keeps back.
pub fn flush<L: Write>(lines: &mut L) -> Result<(), Unwritten>
    ensures { OnOk result (Appends (L.contents lines.old) (L.contents lines.new) []) }
{
    if lines.flush().is_err() {
        return Err(Unwritten);
    }
    Ok(())
}

/// Writes a line `old -> new` for each glyph, with its character in front, the text as a line, unless it is empty, and further
/// lines. Then it passes on what the writer keeps back.
#[tactic(auto, using(plain_text::proofs::Written::both, plain_text::proofs::Written::flushed))]
pub fn write_lines<L: Write>(
    numbering: &Numbering<'_>,
    text: &[u8],
    more: &[u8],
    lines: &mut L,
) -> Result<(), Unwritten>
    ensures { OnOk result (Appends (L.contents lines.old) (L.contents lines.new) (lines_of (numbers_view numbering.now) text.now more.now)) }
{
    write_entries(numbering, lines)?;
    write_last_line(text, lines)?;
    write_text(more, lines)?;
    flush(lines)
}
