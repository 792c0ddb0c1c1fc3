//! The directory of a font.

ghost use Rattle.std.specs.Prelude.{◌≡◌, length, take};
ghost use Rattle.subsetter_sfnt.specs.Read.{record_of};

use crate::extras::Extras;
use subsetter_base::read::{Readable, Reader, u32_at};
use subsetter_base::write::{Writeable, Writer};
use subsetter_base::{Error, Tag};

/// What a font with TrueType outlines begins with.
pub const TRUETYPE_VERSION: u32 = 0x00010000;
/// What such a font of Apple's may begin with: `true`.
pub const TRUE: u32 = 0x74727565;
/// What a font with the outlines of CFF begins with.
pub const OTTO: u32 = 0x4F54544F;
/// What a collection begins with: `ttcf`.
pub const TTC_TAG: u32 = 0x74746366;
/// How many bytes such a word has.
const SFNT_VERSION_SIZE: usize = 4;
/// tableDirectoryOffsets of a collection's header, four bytes each.
pub(crate) const TABLE_DIRECTORY_OFFSETS: usize = 12;
/// numTables of a table directory, two bytes.
pub(crate) const NUM_TABLES: usize = 4;
/// tableRecords of a table directory.
pub(crate) const TABLE_RECORDS: usize = 12;
/// How many bytes a record has.
pub(crate) const TABLE_RECORD_SIZE: usize = 16;

/// What a file or a part of it begins with.
#[derive(Clone, Copy, Debug, PartialEq, Eq)]
pub enum FontKind {
    /// The header of a collection, which says where its fonts begin.
    Collection,
    /// The header of one font.
    Single,
}

impl Readable<'_> for FontKind {
    ghost use Rattle.std.specs.Prelude.{Option};
    ghost use Rattle.subsetter_base.specs.Bytes.{be};
    ghost use Rattle.subsetter_sfnt.specs.Read.{kind_of};

    const SIZE: usize = 4;

    ghost SIZE = { 4 };

    ghost value_of = { λ bytes. kind_of (be bytes) };

    fn read(r: &mut Reader<'_>) -> Option<Self> {
        let word = r.peak::<u32>()?;
        let kind = match word {
            TRUETYPE_VERSION | TRUE | OTTO => FontKind::Single,
            TTC_TAG => FontKind::Collection,
            _ => return None,
        };
        r.skip_bytes(SFNT_VERSION_SIZE);
        Some(kind)
    }
}

/// A record of the directory.
#[derive(Clone, Copy)]
pub struct TableRecord {
    pub tag: Tag,
    pub checksum: u32,
    pub offset: u32,
    pub length: u32,
}

/// The tag in a record's bytes.
pub(crate) fn tag_in(bytes: &[u8]) -> Tag
    requires { length bytes.now ≡ 16 }
    ensures { result.0 ≡ take 4 bytes.now }
{
    Tag::new(&[bytes[0], bytes[1], bytes[2], bytes[3]])
}

/// The record that these bytes are.
pub(crate) fn record_in(bytes: &[u8]) -> TableRecord
    requires { length bytes.now ≡ 16 }
    ensures { result ≡ record_of bytes.now }
{
    TableRecord {
        tag: tag_in(bytes),
        checksum: u32_at(bytes, 4),
        offset: u32_at(bytes, 8),
        length: u32_at(bytes, 12),
    }
}

impl Readable<'_> for TableRecord {
    ghost use Rattle.std.specs.Prelude.{Some};
    ghost use Rattle.subsetter_sfnt.specs.Read.{record_of};

    const SIZE: usize = 16;

    ghost SIZE = { 16 };

    ghost value_of = { λ bytes. Some (record_of bytes) };

    fn read(r: &mut Reader<'_>) -> Option<Self> {
        let bytes = r.read_bytes(TABLE_RECORD_SIZE)?;
        Some(record_in(bytes))
    }
}

impl Writeable for TableRecord {
    ghost use Rattle.std.specs.Prelude.{◌++◌};
    ghost use Rattle.std.specs.Int.{w32, to_be_bytes};

    ghost bytes_of = { λ r. r.tag.0 ++ to_be_bytes w32 r.checksum ++ to_be_bytes w32 r.offset ++ to_be_bytes w32 r.length };

    fn write(&self, w: &mut Writer) -> Result<(), Error> {
        w.extend(self.tag.get())?;
        w.write(&self.checksum)?;
        w.write(&self.offset)?;
        w.write(&self.length)?;
        Ok(())
    }
}

/// A font's bytes, those of its directory's records, and what is requested of it.
#[derive(Clone, Copy)]
pub struct Face<'a> {
    pub data: &'a [u8],
    pub records: &'a [u8],
    pub extras: Extras,
}
