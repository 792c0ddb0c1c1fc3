//! W2: the vertical metrics of CIDs (ISO 32000-1, 9.7.4.3).

ghost use Rattle.std.specs.Prelude.{List, All, ℕ, ◌≡◌, ◌<◌, ◌≤◌, ◌+◌, ◌^◌, ◌++◌, IfOk, IfErr, OnOk, map, length, decimal, codes, get_or, Some};
ghost use Rattle.std.specs.List.{join_with_byte};
ghost use Rattle.subsetter_base.specs.declared.error.Error.TheVariants.{OutOfMemory};
ghost use Rattle.pdf_text.specs.declared.metrics.columns.Column.{Column};
ghost use Rattle.pdf_text.specs.Metrics.Columns.{is_default, alike, no_column, mark, marks_from, marks, column_at, listed_columns, same_columns, span_of, own_marks, column_entries, spans, span_elements, column_text, span_text, columns_text, column_for, column_read, IsColumn, AreShortSpans};
ghost use Rattle.pdf_text.specs.View.{part_view, parts_view};

use crate::metrics::arrays::{Part, has_room, lists_of, parts_of, write_cid};
use crate::numbers::write_integer;
use std::alloc::Global;
use subsetter_base::Error;

/// A CID in vertical writing, in thousandths of the em. C has it as it is.
#[derive(Clone, Copy)]
#[repr(C)]
pub struct Column {
    /// The vertical displacement to the next glyph, mostly below 0.
    pub advance: i32,
    /// The origin of vertical writing, to the right of that of horizontal writing.
    pub x: i32,
    /// And above it.
    pub y: i32,
}

/// DW2: what a CID has that W2 doesn't name. Its x is half of its width.
#[derive(Clone, Copy)]
pub struct DefaultColumn {
    pub y: i32,
    pub advance: i32,
}

// ---- marks

/// Whether a column is the default one.
fn is_default(default: DefaultColumn, column: Column) -> bool
    ensures { result ≡ is_default default column }
{
    default.y == column.y && default.advance == column.advance
}

/// Whether two columns are the same.
fn alike(a: Column, b: Column) -> bool
    ensures { result ≡ alike a b }
{
    a.advance == b.advance && a.x == b.x && a.y == b.y
}

/// The mark of a column after another with its mark.
fn mark(default: DefaultColumn, own: u32, before: Column, m: u32, column: Column) -> u32
    ensures { result ≡ mark default own before m column }
{
    if is_default(default, column) {
        return 0;
    }
    if alike(before, column) { m } else { own }
}

/// The marks of columns.
fn marks_of(alloc: Global, columns: &[Column], default: DefaultColumn) -> Result<Vec<u32>, Error>
    requires { length columns.now ≤ 65536 }
    ensures ok { IfOk result (λ v. v.items ≡ marks default columns.now) }
    ensures err { IfErr result (λ e. e ≡ OutOfMemory) }
{
    let mut marks = Vec::new(alloc);
    let mut before = Column {
        advance: 0,
        x: 0,
        y: 0,
    };
    let mut m = 1;
    let mut own = 1;
    for column in columns {
        m = mark(default, own, before, m, *column);
        marks.push(m)?;
        before = *column;
        own += 1;
    }
    Ok(marks)
}

/// Marks of their own for columns.
fn own_marks_of(alloc: Global, columns: &[Column]) -> Result<Vec<u32>, Error>
    requires { length columns.now ≤ 65536 }
    ensures ok { IfOk result (λ v. v.items ≡ own_marks 1 columns.now) }
    ensures err { IfErr result (λ e. e ≡ OutOfMemory) }
{
    let mut marks = Vec::new(alloc);
    let mut own = 1;
    for _column in columns {
        marks.push(own)?;
        own += 1;
    }
    Ok(marks)
}

/// The column of a mark.
fn column_at(columns: &[Column], mark: u32) -> Column
    ensures { result ≡ column_at columns.now mark }
{
    let place = (mark as usize).saturating_sub(1);
    if place < columns.len() {
        return columns[place];
    }
    Column {
        advance: 0,
        x: 0,
        y: 0,
    }
}

// ---- the text

/// Writes advance and origin.
fn write_column(text: &mut Vec<u8>, column: Column) -> Result<(), Error>
    ensures ok { OnOk result (text.new.items ≡ text.old.items ++ column_text column) }
    ensures err { IfErr result (λ e. e ≡ OutOfMemory) }
{
    write_integer(text, column.advance)?;
    text.extend_from_slice(b" ")?;
    write_integer(text, column.x)?;
    text.extend_from_slice(b" ")?;
    write_integer(text, column.y)?;
    Ok(())
}

/// Writes the columns of marks with one space between each two.
fn write_list(text: &mut Vec<u8>, columns: &[Column], marks: &[u32]) -> Result<(), Error>
    ensures ok { OnOk result (text.new.items ≡ text.old.items ++ join_with_byte 32 (map (λ m. column_text (column_at columns.now m)) marks.now)) }
    ensures err { IfErr result (λ e. e ≡ OutOfMemory) }
{
    let [first, rest @ ..] = marks else {
        return Ok(());
    };
    write_column(text, column_at(columns, *first))?;
    for m in rest {
        text.push(b' ')?;
        write_column(text, column_at(columns, *m))?;
    }
    Ok(())
}

/// Writes `first [advance x y ..]`.
#[tactic(auto, using(crate::proofs::Written::four_written))]
fn write_listed(
    text: &mut Vec<u8>,
    columns: &[Column],
    first: usize,
    marks: &[u32],
) -> Result<(), Error>
    ensures ok { OnOk result (text.new.items ≡ text.old.items ++ (decimal first ++ (codes " [" ++ (join_with_byte 32 (map (λ m. column_text (column_at columns.now m)) marks.now) ++ codes "]")))) }
    ensures err { IfErr result (λ e. e ≡ OutOfMemory) }
{
    write_cid(text, first)?;
    text.extend_from_slice(b" [")?;
    write_list(text, columns, marks)?;
    text.extend_from_slice(b"]")?;
    Ok(())
}

/// Writes `first last advance x y`.
#[tactic(auto, using(crate::proofs::Written::five_written))]
fn write_same(text: &mut Vec<u8>, first: usize, last: usize, column: Column) -> Result<(), Error>
    ensures ok { OnOk result (text.new.items ≡ text.old.items ++ span_text (same_columns first last column)) }
    ensures err { IfErr result (λ e. e ≡ OutOfMemory) }
{
    write_cid(text, first)?;
    text.extend_from_slice(b" ")?;
    write_cid(text, last)?;
    text.extend_from_slice(b" ")?;
    write_column(text, column)
}

/// Writes a part of W2.
#[tactic(auto, using(crate::proofs::MetricsLaws::ColumnLaws::Steps::listed_text))]
fn write_span(text: &mut Vec<u8>, columns: &[Column], part: Part<'_>) -> Result<(), Error>
    ensures ok { OnOk result (text.new.items ≡ text.old.items ++ span_text (span_of columns.now (part_view part.entry))) }
    ensures err { IfErr result (λ e. e ≡ OutOfMemory) }
{
    match part {
        Part::Each(first, marks) => write_listed(text, columns, first, marks),
        Part::Same(first, last, mark) => write_same(text, first, last, column_at(columns, mark)),
    }
}

/// Writes parts of W2 with one space between each two.
fn write_spans(text: &mut Vec<u8>, columns: &[Column], parts: &[Part<'_>]) -> Result<(), Error>
    ensures ok { OnOk result (text.new.items ≡ text.old.items ++ join_with_byte 32 (map (λ p. span_text (span_of columns.now (part_view p))) parts.now)) }
    ensures err { IfErr result (λ e. e ≡ OutOfMemory) }
{
    let [first, rest @ ..] = parts else {
        return Ok(());
    };
    write_span(text, columns, *first)?;
    for part in rest {
        text.push(b' ')?;
        write_span(text, columns, *part)?;
    }
    Ok(())
}

/// The text of parts of W2.
fn text_of_parts(alloc: Global, columns: &[Column], parts: &[Part<'_>]) -> Result<Vec<u8>, Error>
    ensures ok { IfOk result (λ text. text.items ≡ columns_text (map (span_of columns.now) (parts_view parts.now))) }
    ensures err { IfErr result (λ e. e ≡ OutOfMemory) }
{
    let mut text = Vec::new(alloc);
    text.extend_from_slice(b"[")?;
    write_spans(&mut text, columns, parts)?;
    text.extend_from_slice(b"]")?;
    Ok(text)
}

/// The text of W2.
#[tactic(auto, using(crate::proofs::MetricsLaws::ColumnLaws::Steps::marked_written))]
fn text_of(alloc: Global, columns: &[Column], default: DefaultColumn) -> Result<Vec<u8>, Error>
    requires { length columns.now ≤ 65536 }
    ensures ok { IfOk result (λ text. text.items ≡ columns_text (spans default columns.now)) }
    ensures err { IfErr result (λ e. e ≡ OutOfMemory) }
{
    let marks = marks_of(alloc, columns, default)?;
    let parts = parts_of(alloc, 2729, &marks, 0)?;
    if has_room(3, &parts) {
        return text_of_parts(alloc, columns, &parts);
    }
    let marks = own_marks_of(alloc, columns)?;
    let parts = lists_of(alloc, 2729, &marks)?;
    text_of_parts(alloc, columns, &parts)
}

/// The value of W2 for the columns of the CIDs from 0 on, of which it leaves out those that are the default one (DW2): their x is
/// then half of their width (W). Where it would have more than 8,191 elements, it has lists of all columns. A CID that no text shows may
/// have the default column too. CIDs have 16 bits.
///
/// # Errors
///
/// `OutOfMemory` alone.
pub fn write_columns(
    alloc: Global,
    columns: &[Column],
    default: DefaultColumn,
) -> Result<Vec<u8>, Error>
    requires { length columns.now ≤ 65536 }
    ensures ok { IfOk result (λ text. text.items ≡ columns_text (spans default columns.now)) }
    ensures read { IfOk result (λ text. All IsColumn columns.now → (n : Column) (k : ℕ) → k < length columns.now → column_for text.items n k ≡ Some (column_read default columns.now n k)) }
    ensures err { IfErr result (λ e. e ≡ OutOfMemory) }
{
    text_of(alloc, columns, default)
}

/// No list of W2 has more than 8,190 numbers, and W2 itself no more than 8,191 elements.
pub fn columns_are_short()
    ensures lists { (d : DefaultColumn) (cs : List Column) → AreShortSpans (spans d cs) }
    ensures few { (d : DefaultColumn) (cs : List Column) → length cs ≤ 65536 → span_elements (spans d cs) ≤ 8191 }
{}
