//! What a face is, as one JSON object (RFC 8259).

ghost use Rattle.std.specs.Prelude.{◌≡◌, ◌++◌, [], OnOk, map};
ghost use Rattle.std.specs.Io.KnownBytes.{Appends};
ghost use Rattle.std.specs.Option.{option_copied};
ghost use Rattle.plain_text.specs.Pieces.{piece_text};
ghost use Rattle.subset_lines.specs.Faces.Info.{strings, string_or_null, table_object, table_objects, counts_members, refusal_members, info_members, info_json};

use crate::faces::info::face::{Info, permission_words};
use crate::faces::outlines::write_outlines_members;
use crate::faces::pictures::write_pictures_member;
use crate::objects::json::write_number_or_null;
use crate::plain::flush;
use plain_text::{Piece, Unwritten, Written, write_pieces, write_quoted, write_text};
use std::alloc::Global;
use std::io::Write;
use subsetter_base::Tag;

/// Writes words as strings with a comma between each two.
#[tactic(auto, using(plain_text::proofs::Written::both, plain_text::proofs::Written::at_first, plain_text::proofs::Written::after_part, plain_text::proofs::Written::at_last))]
fn write_strings<W: Write>(words: &[&str], out: &mut W) -> Written
    ensures { OnOk result (Appends (W.contents out.old) (W.contents out.new) (strings [] (map (λ w. w.now) words.now))) }
{
    let mut before = b"".as_slice();
    for word in words {
        write_text(before, out)?;
        write_quoted(word.as_bytes(), out)?;
        before = b",".as_slice();
    }
    Ok(())
}

/// A text as a string, or `null`.
fn string_or_null(text: Option<&[u8]>) -> Piece<'_>
    ensures { piece_text result ≡ string_or_null (option_copied text.entry) }
{
    match text {
        Some(text) => Piece::Quoted(text),
        None => Piece::Text(b"null"),
    }
}

/// Writes the object of a table.
#[tactic(auto, unfolding(crate::specs::Faces::Info::table_object))]
fn write_object<W: Write>(tag: Tag, size: u32, out: &mut W) -> Written
    ensures { OnOk result (Appends (W.contents out.old) (W.contents out.new) (table_object tag size)) }
{
    write_pieces(
        &[
            Piece::Text(b"{\"tag\":"),
            Piece::Shown(tag.get()),
            Piece::Text(b",\"bytes\":"),
            Piece::Number(u64::from(size)),
            Piece::Text(b"}"),
        ],
        out,
    )
}

/// Writes the objects of tables.
#[tactic(auto, using(plain_text::proofs::Written::both, plain_text::proofs::Written::at_first, plain_text::proofs::Written::after_part, plain_text::proofs::Written::at_last))]
fn write_objects<W: Write>(tables: &[(Tag, u32)], out: &mut W) -> Written
    ensures { OnOk result (Appends (W.contents out.old) (W.contents out.new) (table_objects [] tables.now)) }
{
    let mut before = b"".as_slice();
    for table in tables {
        write_text(before, out)?;
        write_object(table.0, table.1, out)?;
        before = b",".as_slice();
    }
    Ok(())
}

/// Writes the members of numbers.
#[tactic(auto, unfolding(crate::specs::Faces::Info::counts_members))]
fn write_counts<W: Write>(info: &Info<'_>, out: &mut W) -> Written
    ensures { OnOk result (Appends (W.contents out.old) (W.contents out.new) (counts_members info.now)) }
{
    write_pieces(
        &[
            Piece::Text(b",\"faces\":"),
            Piece::Number(u64::from(info.faces)),
            Piece::Text(b",\"bytes\":"),
            Piece::Number(info.bytes),
            Piece::Text(b",\"glyphs\":"),
        ],
        out,
    )?;
    write_number_or_null(info.glyphs, out)
}

/// Writes the members of what is permitted and refused.
#[tactic(auto, unfolding(crate::specs::Faces::Info::refusal_members))]
fn write_refusal<W: Write>(info: &Info<'_>, words: &[&str], out: &mut W) -> Written
    ensures { OnOk result (Appends (W.contents out.old) (W.contents out.new) (refusal_members info.now (map (λ w. w.now) words.now))) }
{
    write_text(b",\"permission\":[", out)?;
    write_strings(words, out)?;
    write_pieces(
        &[
            Piece::Text(b"],\"refusal\":"),
            string_or_null(info.refusal),
            Piece::Text(b",\"reason\":"),
            string_or_null(info.reason),
        ],
        out,
    )
}

/// Writes all members, which are one JSON object.
fn write_members<W: Write>(info: &Info<'_>, words: &[&str], out: &mut W) -> Written
    ensures { OnOk result (Appends (W.contents out.old) (W.contents out.new) (info_members info.now (map (λ w. w.now) words.now))) }
{
    write_outlines_members(info.outlines, info.is_variable, out)?;
    write_counts(info, out)?;
    write_pictures_member(info.pictures, out)?;
    write_refusal(info, words, out)?;
    write_text(b",\"tables\":[", out)?;
    write_objects(info.tables, out)?;
    write_text(b"]}\n", out)
}

/// Writes what a face is as one JSON object. Then it passes on what the writer keeps back.
#[tactic(auto, using(plain_text::proofs::Written::both, plain_text::proofs::Written::flushed))]
pub fn write_info_json<W: Write>(alloc: Global, info: &Info<'_>, out: &mut W) -> Written
    ensures { OnOk result (Appends (W.contents out.old) (W.contents out.new) (info_json info.now)) }
{
    let Ok(words) = permission_words(alloc, info.permission) else {
        return Err(Unwritten);
    };
    write_members(info, &words, out)?;
    flush(out)
}
