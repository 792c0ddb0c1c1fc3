//! Further members of the JSON object of a subset.

ghost use Rattle.std.specs.Prelude.{◌≡◌, ◌++◌, [], OnOk, IfOk, codes};
ghost use Rattle.std.specs.Io.KnownBytes.{Appends};
ghost use Rattle.std.specs.Option.{option_copied};
ghost use Rattle.subset_lines.specs.Notes.{notes_array};
ghost use Rattle.subset_lines.specs.Faces.Sizes.{sizes_member};
ghost use Rattle.subset_lines.specs.Objects.Members.{tables_or_nothing, members};

use crate::faces::sizes::{TableSize, write_sizes_member, write_tables_member};
use crate::notes::{Note, write_notes_array};
use plain_text::{Unwritten, write_text};
use std::alloc::Global;
use std::io::Write;
use subsetter_variation::locations::axes::Axis;

/// Writes the member of the tables, if they are given.
fn write_tables<W: Write>(tables: Option<&[TableSize]>, out: &mut W) -> Result<(), Unwritten>
    ensures { OnOk result (Appends (W.contents out.old) (W.contents out.new) (tables_or_nothing (option_copied tables.entry))) }
{
    match tables {
        Some(tables) => write_tables_member(tables, out),
        None => Ok(()),
    }
}

/// Writes the members.
#[tactic(auto, using(plain_text::proofs::Written::both))]
fn write_members<W: Write>(
    alloc: Global,
    old: u64,
    new: u64,
    tables: Option<&[TableSize]>,
    axes: &[Axis],
    notes: &[Note],
    characters: &[char],
    index: Option<u32>,
    out: &mut W,
) -> Result<(), Unwritten>
    ensures { OnOk result (Appends (W.contents out.old) (W.contents out.new) (members old new (option_copied tables.entry) axes.now notes.now characters.now index)) }
{
    write_sizes_member(old, new, out)?;
    write_tables(tables, out)?;
    write_text(b",\"notes\":", out)?;
    write_notes_array(alloc, axes, notes, characters, index, out)
}

/// The text of further members of the JSON object of a subset: the sizes of both files in bytes, their tables, if they are
/// given, and notes on coordinates, on characters without a glyph, and on the index of a face that the file doesn't have.
///
/// `Unwritten` where a request for memory was refused.
pub fn json_members(
    alloc: Global,
    old: u64,
    new: u64,
    tables: Option<&[TableSize]>,
    axes: &[Axis],
    notes: &[Note],
    characters: &[char],
    index: Option<u32>,
) -> Result<Vec<u8>, Unwritten>
    ensures { IfOk result (λ text. text.items ≡ members old new (option_copied tables.entry) axes.now notes.now characters.now index) }
{
    let mut text = Vec::new(alloc);
    write_members(
        alloc, old, new, tables, axes, notes, characters, index, &mut text,
    )?;
    Ok(text)
}
