//! The tables of a font before and after, with their sizes in bytes.

ghost use Rattle.std.specs.Prelude.{◌≡◌, ◌++◌, [], OnOk, IfOk, codes};
ghost use Rattle.std.specs.Io.KnownBytes.{Appends};
ghost use Rattle.plain_text.specs.Pieces.{piece_text};
ghost use Rattle.subset_lines.specs.Faces.Sizes.{size_or, table_line, table_lines, sizes_text, table_object, table_objects, sizes_member, tables_member};

use crate::faces::axes::tag_bytes;
use plain_text::{Piece, Unwritten, Written, write_pieces, write_text};
use std::alloc::Global;
use std::io::Write;
use subsetter_base::Tag;

/// A table, and its sizes in bytes in the font that is read and in the new one: none where it has no such table.
#[derive(Clone, Copy)]
pub struct TableSize {
    pub tag: Tag,
    pub old: Option<u32>,
    pub new: Option<u32>,
}

/// A size, or a text where there is none.
fn size_or(size: Option<u32>, none: &[u8]) -> Piece<'_>
    ensures { piece_text result ≡ size_or none.now size }
{
    match size {
        Some(size) => Piece::Number(u64::from(size)),
        None => Piece::Text(none),
    }
}

/// Writes the line of a table: `table glyf 46248 -> 612`.
#[tactic(auto, unfolding(crate::specs::Faces::Sizes::table_line))]
fn write_table<W: Write>(table: &TableSize, out: &mut W) -> Written
    ensures { OnOk result (Appends (W.contents out.old) (W.contents out.new) (table_line table.now)) }
{
    write_pieces(
        &[
            Piece::Text(b"table "),
            Piece::Text(&tag_bytes(table.tag)),
            Piece::Text(b" "),
            size_or(table.old, b"none"),
            Piece::Text(b" -> "),
            size_or(table.new, b"none"),
            Piece::Text(b"\n"),
        ],
        out,
    )
}

/// Writes a line for each table.
#[tactic(auto, using(plain_text::proofs::Written::at_first, plain_text::proofs::Written::after_part, plain_text::proofs::Written::at_last))]
fn write_tables<W: Write>(tables: &[TableSize], out: &mut W) -> Written
    ensures { OnOk result (Appends (W.contents out.old) (W.contents out.new) (table_lines tables.now)) }
{
    for table in tables {
        write_table(table, out)?;
    }
    Ok(())
}

/// Writes these lines, and the one of both files: `font 759720 -> 1234`.
#[tactic(auto, using(plain_text::proofs::Written::both))]
fn write_sizes<W: Write>(tables: &[TableSize], old: u64, new: u64, out: &mut W) -> Written
    ensures { OnOk result (Appends (W.contents out.old) (W.contents out.new) (sizes_text tables.now old new)) }
{
    write_tables(tables, out)?;
    write_pieces(
        &[
            Piece::Text(b"font "),
            Piece::Number(old),
            Piece::Text(b" -> "),
            Piece::Number(new),
            Piece::Text(b"\n"),
        ],
        out,
    )
}

/// The lines of tables with their sizes in bytes, as `table glyf 46248 -> 612`, and one of both files, as `font 759720 -> 1234`.
///
/// `Unwritten` where a request for memory was refused.
pub fn size_lines(
    alloc: Global,
    tables: &[TableSize],
    old: u64,
    new: u64,
) -> Result<Vec<u8>, Unwritten>
    ensures { IfOk result (λ text. text.items ≡ sizes_text tables.now old new) }
{
    let mut text = Vec::new(alloc);
    write_sizes(tables, old, new, &mut text)?;
    Ok(text)
}

/// Writes the object of a table.
#[tactic(auto, unfolding(crate::specs::Faces::Sizes::table_object))]
fn write_object<W: Write>(table: &TableSize, out: &mut W) -> Written
    ensures { OnOk result (Appends (W.contents out.old) (W.contents out.new) (table_object table.now)) }
{
    write_pieces(
        &[
            Piece::Text(b"{\"tag\":"),
            Piece::Shown(table.tag.get()),
            Piece::Text(b",\"old\":"),
            size_or(table.old, b"null"),
            Piece::Text(b",\"new\":"),
            size_or(table.new, b"null"),
            Piece::Text(b"}"),
        ],
        out,
    )
}

/// Writes the objects of tables.
#[tactic(auto, using(plain_text::proofs::Written::both, plain_text::proofs::Written::at_first, plain_text::proofs::Written::after_part, plain_text::proofs::Written::at_last))]
fn write_objects<W: Write>(tables: &[TableSize], out: &mut W) -> Written
    ensures { OnOk result (Appends (W.contents out.old) (W.contents out.new) (table_objects [] tables.now)) }
{
    let mut before = b"".as_slice();
    for table in tables {
        write_text(before, out)?;
        write_object(table, out)?;
        before = b",".as_slice();
    }
    Ok(())
}

/// Writes the member `"sizes"` of the JSON object, in bytes of both files, with a comma before it.
pub fn write_sizes_member<W: Write>(old: u64, new: u64, out: &mut W) -> Written
    ensures { OnOk result (Appends (W.contents out.old) (W.contents out.new) (sizes_member old new)) }
{
    write_pieces(
        &[
            Piece::Text(b",\"sizes\":{\"old\":"),
            Piece::Number(old),
            Piece::Text(b",\"new\":"),
            Piece::Number(new),
            Piece::Text(b"}"),
        ],
        out,
    )
}

/// Writes the member `"tables"` of the JSON object, with a comma before it.
#[tactic(auto, using(plain_text::proofs::Written::both))]
pub fn write_tables_member<W: Write>(tables: &[TableSize], out: &mut W) -> Written
    ensures { OnOk result (Appends (W.contents out.old) (W.contents out.new) (tables_member tables.now)) }
{
    write_text(b",\"tables\":[", out)?;
    write_objects(tables, out)?;
    write_text(b"]", out)
}
