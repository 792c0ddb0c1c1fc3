//! The directory of a font: where it is, its records, and the tables that they name.

ghost use Rattle.std.specs.Prelude.{◌≡◌, ◌/◌, ◌<◌, ◌^◌, length, IfSome};
ghost use Rattle.std.specs.Option.{option_copied};
ghost use Rattle.subsetter_sfnt.specs.Extras.{all_extras};
ghost use Rattle.subsetter_sfnt.specs.Read.{kind_at, header_by_kind, header_offset, records_at, records, find_record, directory_records, table_in, stored};
ghost use Rattle.subsetter_sfnt.specs.declared.face.FontKind.TheVariants.{Collection};

use crate::face::{
    FontKind, NUM_TABLES, TABLE_DIRECTORY_OFFSETS, TABLE_RECORD_SIZE, TABLE_RECORDS, TableRecord,
    record_in, tag_in,
};
use subsetter_base::Tag;
use subsetter_base::read::Reader;

/// What the bytes from an offset on begin with.
pub fn kind_at(file: &[u8], at: usize) -> Option<FontKind>
    ensures { result ≡ kind_at file.now at }
{
    Reader::new_at(file, at).read::<FontKind>()
}

/// Where the header of a collection's font is.
fn offset_in_collection(file: &[u8], index: u32) -> Option<usize>
    ensures value { result ≡ header_by_kind Collection (record { bytes = file.now; index = index; extras = all_extras }) }
    ensures small { IfSome result (λ at. at < 2 ^ 32) }
{
    let at = Reader::new_at(
        file,
        TABLE_DIRECTORY_OFFSETS.saturating_add(4usize.saturating_mul(index as usize)),
    )
    .read::<u32>()?;
    match kind_at(file, at as usize)? {
        FontKind::Single => Some(at as usize),
        FontKind::Collection => None,
    }
}

/// Where the font's header is.
#[tactic(auto, unfolding(crate::specs::Read::header_offset))]
pub fn header_offset(file: &[u8], index: u32) -> Option<usize>
    ensures value { result ≡ header_offset (record { bytes = file.now; index = index; extras = all_extras }) }
    ensures small { IfSome result (λ at. at < 2 ^ 32) }
{
    match kind_at(file, 0)? {
        FontKind::Single => Some(0),
        FontKind::Collection => offset_in_collection(file, index),
    }
}

/// The bytes of the records of the directory at an offset.
#[tactic(auto, unfolding(crate::specs::Read::records_at))]
pub fn records_at(file: &[u8], at: usize) -> Option<&[u8]>
    requires { at < 2 ^ 32 }
    ensures { option_copied result ≡ records_at file.now at }
{
    let mut r = Reader::new_at(file, at + NUM_TABLES);
    let count = r.read::<u16>()?;
    let mut r = Reader::new_at(file, at + TABLE_RECORDS);
    r.read_bytes(TABLE_RECORD_SIZE * (count as usize))
}

/// The bytes of the records of the font's directory.
pub fn records(file: &[u8], index: u32) -> Option<&[u8]>
    ensures { option_copied result ≡ records (record { bytes = file.now; index = index; extras = all_extras }) }
{
    let at = header_offset(file, index)?;
    records_at(file, at)
}

/// The first record that has a tag. Of the others only the tag is read.
pub fn find_record(records: &[u8], tag: Tag) -> Option<TableRecord>
    ensures { result ≡ find_record tag.0 (directory_records (length records.now / 16) records.now) }
{
    let mut r = Reader::new(records);
    while let Some(bytes) = r.read_bytes(TABLE_RECORD_SIZE) {
        if tag_in(bytes) == tag {
            return Some(record_in(bytes));
        }
    }
    None
}

/// The bytes that records name by a tag, if the file has them.
pub fn table_in<'a>(file: &'a [u8], records: &[u8], tag: Tag) -> Option<&'a [u8]>
    ensures { option_copied result ≡ table_in file.now records.now tag.0 }
{
    let record = find_record(records, tag)?;
    Reader::new_at(file, record.offset as usize).read_bytes(record.length as usize)
}

/// The bytes of a table of a font.
pub fn table(file: &[u8], index: u32, tag: Tag) -> Option<&[u8]>
    ensures { option_copied result ≡ stored (record { bytes = file.now; index = index; extras = all_extras }) tag.0 }
{
    let records = records(file, index)?;
    table_in(file, records, tag)
}
