//! The table that is used of a `cmap`.

ghost use Rattle.std.specs.Prelude.{◌≡◌, ◌≤◌, ◌<◌, ◌^◌};
ghost use Rattle.std.specs.Option.{option_copied, option_map};
ghost use Rattle.cmap.specs.Subtable.{is_unicode, of_format, unicode_table, table_from, table_of_format, mapping, glyph_in, glyph_of};
ghost use Rattle.subsetter_base.specs.Bytes.{from_offset};
ghost use Rattle.cmap.specs.View.{mapping_view};

use crate::groups::glyph_by_groups;
use crate::segments::glyph_by_segments;
use subsetter_base::read::Reader;

/// A table by which the glyphs of characters are found.
#[derive(Clone, Copy)]
pub enum Subtable<'a> {
    /// One of format 12.
    Groups(&'a [u8]),
    /// One of format 4.
    Segments(&'a [u8]),
}

impl Subtable<'_> {
    /// The glyph of a character, if the table has it.
    fn find(&self, character: char) -> Option<u16>
        ensures { result ≡ glyph_in (mapping_view self.now) character }
    {
        match self {
            Subtable::Groups(table) => glyph_by_groups(table, u32::from(character)),
            Subtable::Segments(table) => {
                let small = u16::try_from(u32::from(character)).ok()?;
                glyph_by_segments(table, small)
            }
        }
    }

    /// The glyph of a character: 0 where the table doesn't have it.
    pub fn glyph_of(&self, character: char) -> u16
        ensures { result ≡ glyph_of (mapping_view self.now) character }
    {
        self.find(character).unwrap_or(0)
    }
}

/// numTables, two bytes.
const NUM_TABLES: usize = 2;
/// encodingRecords.
const ENCODING_RECORDS: usize = 4;
/// How many bytes an encoding record has.
const ENCODING_RECORD_SIZE: usize = 8;
/// encodingID of a record, two bytes, after platformID.
const ENCODING_ID: usize = 2;
/// subtableOffset of a record, four bytes.
const SUBTABLE_OFFSET: usize = 4;
/// The formats that are read.
const SEGMENT_MAPPING: u16 = 4;

const SEGMENTED_COVERAGE: u16 = 12;

/// Whether a platform and its encoding are Unicode.
fn is_unicode(platform: u16, encoding: u16) -> bool
    ensures { result ≡ is_unicode platform encoding }
{
    platform == 0 || (platform == 3 && (encoding == 1 || encoding == 10))
}

/// The table, if it has the format.
fn of_format(table: &[u8], format: u16) -> Option<&[u8]>
    ensures { option_copied result ≡ of_format format table.now }
{
    let found = Reader::new(table).read::<u16>()?;
    if found == format {
        return Some(table);
    }
    None
}

/// The table of a format that the encoding record at a place leads to, if the record is a Unicode one.
fn unicode_table(cmap: &[u8], at: usize, format: u16) -> Option<&[u8]>
    requires { at < 2 ^ 32 }
    ensures { option_copied result ≡ unicode_table format cmap.now at }
{
    let platform = Reader::new_at(cmap, at).read::<u16>()?;
    let encoding = Reader::new_at(cmap, at + ENCODING_ID).read::<u16>()?;
    let offset = Reader::new_at(cmap, at + SUBTABLE_OFFSET).read::<u32>()?;
    if !is_unicode(platform, encoding) {
        return None;
    }
    let table = Reader::new_at(cmap, offset as usize).tail()?;
    of_format(table, format)
}

/// The first such table of that many encoding records.
#[tactic(auto, using(crate::proofs::Steps::tables_here, crate::proofs::Steps::tables_on, crate::proofs::Steps::tables_end))]
fn find_of_format(cmap: &[u8], count: u16, format: u16) -> Option<&[u8]>
    ensures { option_copied result ≡ table_from format cmap.now count 4 }
{
    for record in 0..count {
        if let Some(table) = unicode_table(
            cmap,
            ENCODING_RECORDS + ENCODING_RECORD_SIZE * usize::from(record),
            format,
        ) {
            return Some(table);
        }
    }
    None
}

/// The first Unicode table of a format.
fn table_of_format(cmap: &[u8], format: u16) -> Option<&[u8]>
    ensures { option_copied result ≡ table_of_format format cmap.now }
{
    let count = Reader::new_at(cmap, NUM_TABLES).read::<u16>()?;
    find_of_format(cmap, count, format)
}

/// The table of a `cmap` by which the glyphs of Unicode characters are found: the first of format 12, which has all
/// characters, else the first of format 4, which has those of 16 bits.
pub fn find_subtable(cmap: &[u8]) -> Option<Subtable<'_>>
    ensures { option_map mapping_view result ≡ mapping cmap.now }
{
    if let Some(table) = table_of_format(cmap, SEGMENTED_COVERAGE) {
        return Some(Subtable::Groups(table));
    }
    let table = table_of_format(cmap, SEGMENT_MAPPING)?;
    Some(Subtable::Segments(table))
}
