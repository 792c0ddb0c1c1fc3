//! The tables of faces, with their sizes in bytes.

ghost use Rattle.std.specs.Prelude.{◌≡◌, ◌++◌, map, OnOk, IfOk};
ghost use Rattle.subset_task.specs.Faces.Tables.{records_in, size_among, old_row, new_row, new_rows, table_sizes, tag_and_size, tables_of};

use std::alloc::{AllocError, Global};
use subset_lines::TableSize;
use subsetter::Tag;
use subsetter_base::read::Reader;
use subsetter_sfnt::directory::find_record;
use subsetter_sfnt::face::TableRecord;

/// The size of a table of a directory, if it has the table.
fn size_among(records: &[u8], tag: Tag) -> Option<u32>
    ensures { result ≡ size_among tag (records_in records.now) }
{
    match find_record(records, tag) {
        Some(found) => Some(found.length),
        None => None,
    }
}

/// The row of a table of the font that is read, from its record.
fn old_row(one: TableRecord, new: &[u8]) -> TableSize
    ensures { result ≡ old_row (records_in new.now) one }
{
    TableSize {
        tag: one.tag,
        old: Some(one.length),
        new: size_among(new, one.tag),
    }
}

/// Adds the rows of the tables of the font that is read.
#[tactic(auto, using(crate::proofs::FacesLaws::Directory::rows_end))]
fn push_old_rows(rows: &mut Vec<TableSize>, old: &[u8], new: &[u8]) -> Result<(), AllocError>
    ensures { OnOk result (rows.new.items ≡ rows.old.items ++ map (old_row (records_in new.now)) (records_in old.now)) }
{
    let mut r = Reader::new(old);
    while let Some(one) = r.read::<TableRecord>() {
        rows.push(old_row(one, new))?;
    }
    Ok(())
}

/// Adds the row of a table of the new font, from its record, if the other one has no such table.
fn push_new_row(rows: &mut Vec<TableSize>, old: &[u8], one: TableRecord) -> Result<(), AllocError>
    ensures { OnOk result (rows.new.items ≡ rows.old.items ++ new_row (records_in old.now) one) }
{
    if size_among(old, one.tag).is_none() {
        rows.push(TableSize {
            tag: one.tag,
            old: None,
            new: Some(one.length),
        })?;
    }
    Ok(())
}

/// Adds the rows of the tables that the new font alone has.
#[tactic(auto, using(crate::proofs::FacesLaws::Directory::news_end))]
fn push_new_rows(rows: &mut Vec<TableSize>, old: &[u8], new: &[u8]) -> Result<(), AllocError>
    ensures { OnOk result (rows.new.items ≡ rows.old.items ++ new_rows (records_in old.now) (records_in new.now)) }
{
    let mut r = Reader::new(new);
    while let Some(one) = r.read::<TableRecord>() {
        push_new_row(rows, old, one)?;
    }
    Ok(())
}

/// The tables of two directories: those of the font that is read, and then those that the new one alone has.
pub fn table_sizes(alloc: Global, old: &[u8], new: &[u8]) -> Result<Vec<TableSize>, AllocError>
    ensures { IfOk result (λ v. v.items ≡ table_sizes (records_in old.now) (records_in new.now)) }
{
    let mut rows = Vec::new(alloc);
    push_old_rows(&mut rows, old, new)?;
    push_new_rows(&mut rows, old, new)?;
    Ok(rows)
}

/// The tag of a table and its size, from its record.
fn tag_and_size(one: TableRecord) -> (Tag, u32)
    ensures { result ≡ tag_and_size one }
{
    (one.tag, one.length)
}

/// The tables of a directory with their sizes.
#[tactic(auto, using(crate::proofs::FacesLaws::Directory::rows_end))]
pub fn tables_of(alloc: Global, records: &[u8]) -> Result<Vec<(Tag, u32)>, AllocError>
    ensures { IfOk result (λ v. v.items ≡ tables_of (records_in records.now)) }
{
    let mut tables = Vec::new(alloc);
    let mut r = Reader::new(records);
    while let Some(one) = r.read::<TableRecord>() {
        tables.push(tag_and_size(one))?;
    }
    Ok(tables)
}
