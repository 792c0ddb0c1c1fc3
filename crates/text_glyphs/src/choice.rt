//! Which table of a `cmap` is used.

ghost use Rattle.std.specs.Prelude.{◌≡◌, ◌<◌, ◌^◌};
ghost use Rattle.std.specs.Option.{option_copied, option_map};
ghost use Rattle.text_glyphs.specs.Choice.{chosen, encoded, encoded_from, encoded_table, if_read, in_encoding, is_read};
ghost use Rattle.text_glyphs.specs.View.{chosen_view};

use crate::encodings::{Encoding, is_of};
use cmap::{Subtable, find_subtable};
use subsetter_base::read::{Reader, from_offset, number_at};

/// A table by which the glyphs of characters are found.
#[derive(Clone, Copy)]
pub enum CharacterTable<'a> {
    /// A Unicode one of format 12 or 4.
    Unicode(Subtable<'a>),
    /// Another one, and how characters have codes in it.
    Other(Encoding, &'a [u8]),
}

/// numTables, two bytes.
pub(crate) const NUM_TABLES: usize = 2;
/// encodingRecords.
pub(crate) const ENCODING_RECORDS: usize = 4;
/// How many bytes an encoding record has.
pub(crate) const ENCODING_RECORD_SIZE: usize = 8;
/// encodingID of a record, two bytes, after platformID.
pub(crate) const ENCODING_ID: usize = 2;
/// subtableOffset of a record, four bytes.
pub(crate) const SUBTABLE_OFFSET: usize = 4;

/// Whether a format is read.
fn is_read(format: u16) -> bool
    ensures { result ≡ is_read format }
{
    format == 0 || (format == 4 || (format == 6 || (format == 12 || format == 13)))
}

/// The table, if it has a format that is read.
fn if_read(table: &[u8]) -> Option<&[u8]>
    ensures { option_copied result ≡ if_read table.now }
{
    let format = number_at(table, 0)?;
    if is_read(format) {
        return Some(table);
    }
    None
}

/// The table that the encoding record at a place leads to, if the record is of an encoding.
fn encoded_table(cmap: &[u8], at: usize, encoding: Encoding) -> Option<&[u8]>
    requires { at < 2 ^ 32 }
    ensures { option_copied result ≡ encoded_table encoding cmap.now at }
{
    let platform = number_at(cmap, at)?;
    let id = number_at(cmap, at + ENCODING_ID)?;
    let offset = Reader::new_at(cmap, at + SUBTABLE_OFFSET).read::<u32>()?;
    if !is_of(encoding, platform, id) {
        return None;
    }
    let table = from_offset(cmap, offset as usize)?;
    if_read(table)
}

/// The first such table of that many encoding records.
#[tactic(auto, using(crate::proofs::RecordSteps::encoded_here, crate::proofs::RecordSteps::encoded_on, crate::proofs::RecordSteps::encoded_end))]
fn find_encoded(cmap: &[u8], count: u16, encoding: Encoding) -> Option<&[u8]>
    ensures { option_copied result ≡ encoded_from encoding cmap.now count 4 }
{
    for record in 0..count {
        if let Some(table) = encoded_table(
            cmap,
            ENCODING_RECORDS + ENCODING_RECORD_SIZE * usize::from(record),
            encoding,
        ) {
            return Some(table);
        }
    }
    None
}

/// The first table of an encoding.
fn encoded(cmap: &[u8], encoding: Encoding) -> Option<&[u8]>
    ensures { option_copied result ≡ encoded encoding cmap.now }
{
    let count = number_at(cmap, NUM_TABLES)?;
    find_encoded(cmap, count, encoding)
}

/// The first table of an encoding, with the encoding.
fn in_encoding(cmap: &[u8], encoding: Encoding) -> Option<CharacterTable<'_>>
    ensures { option_map chosen_view result ≡ in_encoding encoding cmap.now }
{
    match encoded(cmap, encoding) {
        Some(table) => Some(CharacterTable::Other(encoding, table)),
        None => None,
    }
}

/// The table of a `cmap` by which the glyphs of characters are found: the first Unicode one of format 12, else of format 4,
/// else of format 0, 6 or 13; else a symbol table, else one of Mac OS Roman, of any of these formats.
pub fn find_table(cmap: &[u8]) -> Option<CharacterTable<'_>>
    ensures { option_map chosen_view result ≡ chosen cmap.now }
{
    if let Some(table) = find_subtable(cmap) {
        return Some(CharacterTable::Unicode(table));
    }
    if let Some(table) = in_encoding(cmap, Encoding::Unicode) {
        return Some(table);
    }
    if let Some(table) = in_encoding(cmap, Encoding::Symbol) {
        return Some(table);
    }
    in_encoding(cmap, Encoding::Roman)
}
