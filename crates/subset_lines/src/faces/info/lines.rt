//! What a face is, as lines.

ghost use Rattle.std.specs.Prelude.{OnOk, Some, map};
ghost use Rattle.std.specs.Io.KnownBytes.{Appends};
ghost use Rattle.std.specs.Option.{option_copied};
ghost use Rattle.subset_lines.specs.Faces.Info.{permission_line, permission_lines, glyphs_line, counts_lines, reason_line, refusal_lines, table_line, table_lines, head_lines, info_lines};

use crate::faces::axes::tag_bytes;
use crate::faces::info::face::{Info, permission_words};
use crate::faces::outlines::write_outlines;
use crate::faces::pictures::write_pictures_line;
use crate::plain::flush;
use plain_text::{Piece, Unwritten, Written, write_pieces, write_text};
use std::alloc::Global;
use std::io::Write;
use subsetter_base::Tag;

/// Writes the line of a word of permission.
#[tactic(auto, unfolding(crate::specs::Faces::Info::permission_line))]
fn write_permission<W: Write>(word: &str, out: &mut W) -> Written
    ensures { OnOk result (Appends (W.contents out.old) (W.contents out.new) (permission_line word.now)) }
{
    let word = Piece::Text(word.as_bytes());
    write_pieces(
        &[Piece::Text(b"permission "), word, Piece::Text(b"\n")],
        out,
    )
}

/// Writes a line for each of the words of permission.
#[tactic(auto, using(plain_text::proofs::Written::at_first, plain_text::proofs::Written::after_part, plain_text::proofs::Written::at_last))]
fn write_permissions<W: Write>(words: &[&str], out: &mut W) -> Written
    ensures { OnOk result (Appends (W.contents out.old) (W.contents out.new) (permission_lines (map (λ w. w.now) words.now))) }
{
    for word in words {
        write_permission(word, out)?;
    }
    Ok(())
}

/// Writes the line of the count of glyphs.
fn write_glyphs<W: Write>(glyphs: Option<u16>, out: &mut W) -> Written
    ensures { OnOk result (Appends (W.contents out.old) (W.contents out.new) (glyphs_line glyphs)) }
{
    let Some(count) = glyphs else {
        return write_text(b"glyphs not given\n", out);
    };
    let count = Piece::Number(u64::from(count));
    write_pieces(&[Piece::Text(b"glyphs "), count, Piece::Text(b"\n")], out)
}

/// Writes the lines of two numbers.
#[tactic(auto, unfolding(crate::specs::Faces::Info::counts_lines))]
fn write_counts<W: Write>(faces: u32, bytes: u64, out: &mut W) -> Written
    ensures { OnOk result (Appends (W.contents out.old) (W.contents out.new) (counts_lines faces bytes)) }
{
    write_pieces(
        &[
            Piece::Text(b"faces "),
            Piece::Number(u64::from(faces)),
            Piece::Text(b"\nbytes "),
            Piece::Number(bytes),
            Piece::Text(b"\n"),
        ],
        out,
    )
}

/// Writes the line of what is known of the cause of an error, if anything is.
fn write_reason<W: Write>(reason: Option<&[u8]>, out: &mut W) -> Written
    ensures { OnOk result (Appends (W.contents out.old) (W.contents out.new) (reason_line (option_copied reason.entry))) }
{
    let Some(reason) = reason else {
        return Ok(());
    };
    let reason = Piece::Text(reason);
    write_pieces(&[Piece::Text(b"reason: "), reason, Piece::Text(b"\n")], out)
}

/// Writes with which error `subset` refuses every glyph, and what is known of its cause.
fn write_refused<W: Write>(text: &[u8], reason: Option<&[u8]>, out: &mut W) -> Written
    ensures { OnOk result (Appends (W.contents out.old) (W.contents out.new) (refusal_lines (Some text.now) (option_copied reason.entry))) }
{
    let text = Piece::Text(text);
    write_pieces(
        &[Piece::Text(b"subset refuses: "), text, Piece::Text(b"\n")],
        out,
    )?;
    write_reason(reason, out)
}

/// Writes what `subset` returns for every glyph: that it accepts it, or why it refuses.
fn write_refusal<W: Write>(refusal: Option<&[u8]>, reason: Option<&[u8]>, out: &mut W) -> Written
    ensures { OnOk result (Appends (W.contents out.old) (W.contents out.new) (refusal_lines (option_copied refusal.entry) (option_copied reason.entry))) }
{
    match refusal {
        Some(text) => write_refused(text, reason, out),
        None => write_text(b"subset accepts every glyph\n", out),
    }
}

/// Writes the line of a table: `table glyf 46248`.
#[tactic(auto, unfolding(crate::specs::Faces::Info::table_line))]
fn write_table<W: Write>(tag: Tag, size: u32, out: &mut W) -> Written
    ensures { OnOk result (Appends (W.contents out.old) (W.contents out.new) (table_line tag size)) }
{
    write_pieces(
        &[
            Piece::Text(b"table "),
            Piece::Text(&tag_bytes(tag)),
            Piece::Text(b" "),
            Piece::Number(u64::from(size)),
            Piece::Text(b"\n"),
        ],
        out,
    )
}

/// Writes a line for each table.
#[tactic(auto, using(plain_text::proofs::Written::at_first, plain_text::proofs::Written::after_part, plain_text::proofs::Written::at_last))]
fn write_tables<W: Write>(tables: &[(Tag, u32)], out: &mut W) -> Written
    ensures { OnOk result (Appends (W.contents out.old) (W.contents out.new) (table_lines tables.now)) }
{
    for table in tables {
        write_table(table.0, table.1, out)?;
    }
    Ok(())
}

/// Writes the lines before those of the tables.
#[tactic(auto, using(plain_text::proofs::Written::both))]
fn write_head<W: Write>(info: &Info<'_>, words: &[&str], out: &mut W) -> Written
    ensures { OnOk result (Appends (W.contents out.old) (W.contents out.new) (head_lines info.now (map (λ w. w.now) words.now))) }
{
    write_outlines(info.outlines, info.is_variable, out)?;
    write_counts(info.faces, info.bytes, out)?;
    write_glyphs(info.glyphs, out)?;
    write_pictures_line(info.pictures, out)?;
    write_permissions(words, out)?;
    write_refusal(info.refusal, info.reason, out)
}

/// Writes what a face is as lines. Then it passes on what the writer keeps back.
#[tactic(auto, using(plain_text::proofs::Written::both, plain_text::proofs::Written::flushed))]
pub fn write_info<W: Write>(alloc: Global, info: &Info<'_>, out: &mut W) -> Written
    ensures { OnOk result (Appends (W.contents out.old) (W.contents out.new) (info_lines info.now)) }
{
    let Ok(words) = permission_words(alloc, info.permission) else {
        return Err(Unwritten);
    };
    write_head(info, &words, out)?;
    write_tables(info.tables, out)?;
    flush(out)
}
