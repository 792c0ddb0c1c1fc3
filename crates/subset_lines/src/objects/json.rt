//! The new numbers as JSON.

ghost use Rattle.std.specs.Prelude.{◌≡◌, ◌++◌, [], map, OnOk, IfOk, codes, decimal};
ghost use Rattle.std.specs.Io.KnownBytes.{Appends};
ghost use Rattle.subset_lines.specs.Objects.Json.{character_member, number_or_null, name_member, object_of, objects, widths_member, json_of, numbers_from, array_of};
ghost use Rattle.subset_lines.specs.View.{numbers_view};

use crate::entry::{Numbering, name_at, take_first};
use crate::plain::flush;
use plain_text::{Unwritten, Written, write_count, write_decimal, write_shown, write_text};
use std::alloc::Global;
use std::io::Write;

/// Writes the member that has a character's number, if there is a character.
fn write_character<W: Write>(character: Option<char>, out: &mut W) -> Written
    ensures { OnOk result (Appends (W.contents out.old) (W.contents out.new) (character_member character)) }
{
    let Some(character) = character else {
        return Ok(());
    };
    let code = u32::from(character);
    if write!(out, "\"character\":{code},").is_err() {
        return Err(Unwritten);
    }
    Ok(())
}

/// Writes a number, or `null`.
pub fn write_number_or_null<W: Write>(number: Option<u16>, out: &mut W) -> Written
    ensures { OnOk result (Appends (W.contents out.old) (W.contents out.new) (number_or_null number)) }
{
    match number {
        Some(number) => write_decimal(u64::from(number), out),
        None => write_text(b"null", out),
    }
}

/// Writes the member that has a glyph's name, unless it is empty.
#[tactic(auto, using(plain_text::proofs::Written::both))]
fn write_name<W: Write>(name: &[u8], out: &mut W) -> Written
    ensures { OnOk result (Appends (W.contents out.old) (W.contents out.new) (name_member name.now)) }
{
    if name.is_empty() {
        return Ok(());
    }
    write_text(b",\"name\":", out)?;
    write_shown(name, out)
}

/// Writes the object of a glyph.
#[tactic(auto, using(plain_text::proofs::Written::both), unfolding(crate::specs::Objects::Json::object_of))]
fn write_object<W: Write>(
    character: Option<char>,
    name: &[u8],
    old: u16,
    new: Option<u16>,
    out: &mut W,
) -> Written
    ensures { OnOk result (Appends (W.contents out.old) (W.contents out.new) (object_of character name.now old new)) }
{
    write_text(b"{", out)?;
    write_character(character, out)?;
    write_count(b"\"old\":", u64::from(old), out)?;
    write_text(b",\"new\":", out)?;
    write_number_or_null(new, out)?;
    write_name(name, out)?;
    write_text(b"}", out)
}

/// Writes the objects of the glyphs, by characters and names as far as there are any.
#[tactic(auto, using(plain_text::proofs::Written::at_first, plain_text::proofs::Written::after_part, plain_text::proofs::Written::at_last))]
fn write_entries<W: Write>(numbering: &Numbering<'_>, out: &mut W) -> Written
    ensures { OnOk result (Appends (W.contents out.old) (W.contents out.new) (objects [] numbering.now.mapper.now numbering.now.characters.now (map (λ name. name.now) numbering.now.names.now) numbering.now.glyphs.now)) }
{
    let (mapper, names, glyphs) = (numbering.mapper, numbering.names, numbering.glyphs);
    let mut characters = numbering.characters;
    let mut before = b"".as_slice();
    for index in 0..glyphs.len() {
        let (character, others) = take_first(characters);
        let (name, glyph) = (name_at(names, index), glyphs[index]);
        write_text(before, out)?;
        write_object(character, name, glyph, mapper.get(glyph), out)?;
        characters = others;
        before = b",".as_slice();
    }
    Ok(())
}

/// Writes the member that has the widths, unless their text is empty.
#[tactic(auto, using(plain_text::proofs::Written::both))]
fn write_widths<W: Write>(text: &[u8], out: &mut W) -> Written
    ensures { OnOk result (Appends (W.contents out.old) (W.contents out.new) (widths_member text.now)) }
{
    if text.is_empty() {
        return Ok(());
    }
    write_text(b",\"widths\":", out)?;
    write_text(text, out)
}

/// Writes the new numbers of the glyphs as one JSON object, with the text of an array of widths, unless it is empty, and the
/// text of further members. Then it passes on what the writer keeps back.
#[tactic(auto, using(plain_text::proofs::Written::both, plain_text::proofs::Written::flushed))]
pub fn write_json<W: Write>(
    numbering: &Numbering<'_>,
    text: &[u8],
    members: &[u8],
    out: &mut W,
) -> Written
    ensures { OnOk result (Appends (W.contents out.old) (W.contents out.new) (json_of (numbers_view numbering.now) text.now members.now)) }
{
    write_text(b"{\"glyphs\":[", out)?;
    write_entries(numbering, out)?;
    write_text(b"]", out)?;
    write_widths(text, out)?;
    write_text(members, out)?;
    write_text(b"}\n", out)?;
    flush(out)
}

/// Writes numbers with a comma between each two.
#[tactic(auto, using(plain_text::proofs::Written::at_first, plain_text::proofs::Written::after_part, plain_text::proofs::Written::at_last))]
fn write_numbers<W: Write>(numbers: &[u32], out: &mut W) -> Written
    ensures { OnOk result (Appends (W.contents out.old) (W.contents out.new) (numbers_from [] numbers.now)) }
{
    let mut before = b"".as_slice();
    for number in numbers {
        write_count(before, u64::from(*number), out)?;
        before = b",".as_slice();
    }
    Ok(())
}

/// Writes an array of numbers.
#[tactic(auto, using(plain_text::proofs::Written::both))]
fn write_array<W: Write>(numbers: &[u32], out: &mut W) -> Written
    ensures { OnOk result (Appends (W.contents out.old) (W.contents out.new) (array_of numbers.now)) }
{
    write_text(b"[", out)?;
    write_numbers(numbers, out)?;
    write_text(b"]", out)
}

/// The text of an array of numbers.
///
/// `Unwritten` where a request for memory was refused.
pub fn json_numbers(alloc: Global, numbers: &[u32]) -> Result<Vec<u8>, Unwritten>
    ensures { IfOk result (λ text. text.items ≡ array_of numbers.now) }
{
    let mut text = Vec::new(alloc);
    write_array(numbers, &mut text)?;
    Ok(text)
}
