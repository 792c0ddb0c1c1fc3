//! What is noted of coordinates, of characters and of a face that a font doesn't have.

ghost use Rattle.std.specs.Prelude.{◌≡◌, ◌++◌, [], OnOk, IfOk, codes};
ghost use Rattle.std.specs.Io.KnownBytes.{Appends};
ghost use Rattle.subset_lines.specs.Notes.{clamped_text, note_text, range_text, ranges_text, axes_note, note_lines, notes_text, all_text, note_strings, coordinate_strings, comma_after, comma_after_both, notes_array};
ghost use Rattle.plain_text.specs.Quoted.{quoted};

use crate::faces::axes::tag_bytes;
use crate::index::{write_index_line, write_index_string};
use crate::missing::{write_missing_line, write_missing_string};
use plain_text::{Piece, Unwritten, Written, write_pieces, write_quoted, write_text};
use std::alloc::Global;
use std::io::Write;
use subsetter_base::Tag;
use subsetter_variation::locations::axes::Axis;

/// What is noted of a coordinate.
#[derive(Clone, Copy)]
pub enum Note {
    /// The font has no axis of this tag.
    NoAxis(Tag),
    /// On the axis of this tag, a coordinate is taken as another, both in 65536ths.
    Clamped(Tag, i32, i32),
}

/// Writes that a coordinate is taken as another.
#[tactic(auto, unfolding(crate::specs::Notes::clamped_text))]
fn write_clamped<W: Write>(tag: Tag, given: i32, taken: i32, out: &mut W) -> Written
    ensures { OnOk result (Appends (W.contents out.old) (W.contents out.new) (clamped_text tag given taken)) }
{
    write_pieces(
        &[
            Piece::Text(&tag_bytes(tag)),
            Piece::Text(b"="),
            Piece::Fixed(given),
            Piece::Text(b" is clamped to "),
            Piece::Fixed(taken),
        ],
        out,
    )
}

/// Writes a note without the end of its line: `no axis wdth in the font`, or `wght=1000 is clamped to 900`.
fn write_note<W: Write>(note: Note, out: &mut W) -> Written
    ensures { OnOk result (Appends (W.contents out.old) (W.contents out.new) (note_text note)) }
{
    match note {
        Note::NoAxis(tag) => write_pieces(
            &[
                Piece::Text(b"no axis "),
                Piece::Text(&tag_bytes(tag)),
                Piece::Text(b" in the font"),
            ],
            out,
        ),
        Note::Clamped(tag, given, taken) => write_clamped(tag, given, taken, out),
    }
}

/// Writes an axis with its ends: `wght 100 to 900`.
#[tactic(auto, unfolding(crate::specs::Notes::range_text))]
fn write_range<W: Write>(axis: &Axis, out: &mut W) -> Written
    ensures { OnOk result (Appends (W.contents out.old) (W.contents out.new) (range_text axis.now)) }
{
    write_pieces(
        &[
            Piece::Text(&tag_bytes(axis.tag)),
            Piece::Text(b" "),
            Piece::Fixed(axis.minimum),
            Piece::Text(b" to "),
            Piece::Fixed(axis.maximum),
        ],
        out,
    )
}

/// Writes the axes with their ends.
#[tactic(auto, using(plain_text::proofs::Written::both, plain_text::proofs::Written::at_first, plain_text::proofs::Written::after_part, plain_text::proofs::Written::at_last))]
fn write_ranges<W: Write>(axes: &[Axis], out: &mut W) -> Written
    ensures { OnOk result (Appends (W.contents out.old) (W.contents out.new) (ranges_text [] axes.now)) }
{
    let mut before = b"".as_slice();
    for axis in axes {
        write_text(before, out)?;
        write_range(axis, out)?;
        before = b", ".as_slice();
    }
    Ok(())
}

/// Writes the note of the axes that a font has: `axes: wght 100 to 900, wdth 75 to 100`, or `axes: none`.
#[tactic(auto, using(plain_text::proofs::Written::both))]
fn write_axes_note<W: Write>(axes: &[Axis], out: &mut W) -> Written
    ensures { OnOk result (Appends (W.contents out.old) (W.contents out.new) (axes_note axes.now)) }
{
    match axes {
        [] => write_text(b"axes: none", out),
        _ => {
            write_text(b"axes: ", out)?;
            write_ranges(axes, out)
        }
    }
}

/// Writes a line for each note.
#[tactic(auto, using(plain_text::proofs::Written::both, plain_text::proofs::Written::at_first, plain_text::proofs::Written::after_part, plain_text::proofs::Written::at_last))]
fn write_note_lines<W: Write>(notes: &[Note], out: &mut W) -> Written
    ensures { OnOk result (Appends (W.contents out.old) (W.contents out.new) (note_lines notes.now)) }
{
    for note in notes {
        write_note(*note, out)?;
        write_text(b"\n", out)?;
    }
    Ok(())
}

/// Writes a line for each note, and a last one of the axes that the font has; nothing where there are no notes.
#[tactic(auto, using(plain_text::proofs::Written::both))]
fn write_all_notes<W: Write>(axes: &[Axis], notes: &[Note], out: &mut W) -> Written
    ensures { OnOk result (Appends (W.contents out.old) (W.contents out.new) (notes_text axes.now notes.now)) }
{
    if notes.is_empty() {
        return Ok(());
    }
    write_note_lines(notes, out)?;
    write_axes_note(axes, out)?;
    write_text(b"\n", out)
}

/// Writes the same, the note of characters without a glyph, and that of the face.
#[tactic(auto, using(plain_text::proofs::Written::both))]
fn write_all<W: Write>(
    axes: &[Axis],
    notes: &[Note],
    characters: &[char],
    index: Option<u32>,
    out: &mut W,
) -> Written
    ensures { OnOk result (Appends (W.contents out.old) (W.contents out.new) (all_text axes.now notes.now characters.now index)) }
{
    write_all_notes(axes, notes, out)?;
    write_missing_line(characters, out)?;
    write_index_line(index, out)
}

/// The lines of notes: one for each, and after them one of the axes that the font has, as `axes: wght 100 to 900`; one of
/// the characters without a glyph, if there are any; and one of the index of a face that the file doesn't have, if it is given. It
/// is empty where there is nothing to note.
///
/// `Unwritten` where a request for memory was refused.
pub fn note_lines(
    alloc: Global,
    axes: &[Axis],
    notes: &[Note],
    characters: &[char],
    index: Option<u32>,
) -> Result<Vec<u8>, Unwritten>
    ensures { IfOk result (λ text. text.items ≡ all_text axes.now notes.now characters.now index) }
{
    let mut text = Vec::new(alloc);
    write_all(axes, notes, characters, index, &mut text)?;
    Ok(text)
}

/// The text of a note.
fn note_bytes(alloc: Global, note: Note) -> Result<Vec<u8>, Unwritten>
    ensures { IfOk result (λ text. text.items ≡ note_text note) }
{
    let mut text = Vec::new(alloc);
    write_note(note, &mut text)?;
    Ok(text)
}

/// The text of the note of the axes.
fn axes_bytes(alloc: Global, axes: &[Axis]) -> Result<Vec<u8>, Unwritten>
    ensures { IfOk result (λ text. text.items ≡ axes_note axes.now) }
{
    let mut text = Vec::new(alloc);
    write_axes_note(axes, &mut text)?;
    Ok(text)
}

/// Writes each note as a JSON string with a comma after it.
#[tactic(auto, using(plain_text::proofs::Written::both, plain_text::proofs::Written::at_first, plain_text::proofs::Written::after_part, plain_text::proofs::Written::at_last))]
fn write_note_strings<W: Write>(alloc: Global, notes: &[Note], out: &mut W) -> Written
    ensures { OnOk result (Appends (W.contents out.old) (W.contents out.new) (note_strings notes.now)) }
{
    for note in notes {
        write_quoted(&note_bytes(alloc, *note)?, out)?;
        write_text(b",", out)?;
    }
    Ok(())
}

/// Writes the notes of coordinates as JSON strings with commas between them.
#[tactic(auto, using(plain_text::proofs::Written::both))]
fn write_coordinate_strings<W: Write>(
    alloc: Global,
    axes: &[Axis],
    notes: &[Note],
    out: &mut W,
) -> Written
    ensures { OnOk result (Appends (W.contents out.old) (W.contents out.new) (coordinate_strings axes.now notes.now)) }
{
    if notes.is_empty() {
        return Ok(());
    }
    write_note_strings(alloc, notes, out)?;
    write_quoted(&axes_bytes(alloc, axes)?, out)
}

/// A comma, if there are notes before it.
fn comma_after(notes: &[Note]) -> &'static [u8]
    ensures { result.now ≡ comma_after notes.now }
{
    match notes {
        [] => b"",
        _ => b",",
    }
}

/// A comma, if there are notes or characters before it.
fn comma_after_both(notes: &[Note], characters: &[char]) -> &'static [u8]
    ensures { result.now ≡ comma_after_both notes.now characters.now }
{
    match characters {
        [] => comma_after(notes),
        _ => b",",
    }
}

/// Writes the same notes as a JSON array of strings.
#[tactic(auto, using(plain_text::proofs::Written::both))]
pub fn write_notes_array<W: Write>(
    alloc: Global,
    axes: &[Axis],
    notes: &[Note],
    characters: &[char],
    index: Option<u32>,
    out: &mut W,
) -> Written
    ensures { OnOk result (Appends (W.contents out.old) (W.contents out.new) (notes_array axes.now notes.now characters.now index)) }
{
    write_text(b"[", out)?;
    write_coordinate_strings(alloc, axes, notes, out)?;
    write_missing_string(alloc, comma_after(notes), characters, out)?;
    write_index_string(alloc, comma_after_both(notes, characters), index, out)?;
    write_text(b"]", out)
}
