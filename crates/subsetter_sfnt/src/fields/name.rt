//! The records of `name`, the names of a font (OpenType, "name").

ghost use Rattle.std.specs.Prelude.{◌≡◌};
ghost use Rattle.std.specs.Option.{option_copied};
ghost use Rattle.subsetter_sfnt.specs.Fields.Name.{is_unicode, string_of};

use subsetter_base::Error;
use subsetter_base::read::{Readable, Reader, u16_at};
use subsetter_base::write::{Writeable, Writer};

/// count, two bytes, and after it storageOffset.
pub const COUNT: usize = 2;
/// storageOffset, two bytes.
pub const STORAGE_OFFSET: usize = 4;
/// Where the records begin.
pub const HEADER_SIZE: usize = 6;
/// How many bytes a record has.
pub const NAME_RECORD_SIZE: usize = 12;

/// A record: the string of a name, by its length and its offset in the storage, in bytes.
#[derive(Clone, Copy, Debug)]
pub struct NameRecord {
    pub platform_id: u16,
    pub encoding_id: u16,
    pub language_id: u16,
    pub name_id: u16,
    pub length: u16,
    pub string_offset: u16,
}

impl NameRecord {
    /// Whether its string is Unicode: on the platform Unicode, and on Windows in three encodings.
    pub fn is_unicode(&self) -> bool
        ensures { result ≡ is_unicode self.now.platform_id self.now.encoding_id }
    {
        self.platform_id == 0
            || (self.platform_id == 3
                && (self.encoding_id == 0 || self.encoding_id == 1 || self.encoding_id == 10))
    }

    /// The bytes of its string, if they are inside the storage.
    pub fn string<'a>(&self, storage: &'a [u8]) -> Option<&'a [u8]>
        ensures { option_copied result ≡ string_of storage.now self.now }
    {
        Reader::new_at(storage, self.string_offset as usize).read_bytes(self.length as usize)
    }
}

impl Readable<'_> for NameRecord {
    ghost use Rattle.std.specs.Prelude.{Some};
    ghost use Rattle.subsetter_sfnt.specs.Fields.Name.{name_record_of};

    const SIZE: usize = 12;

    ghost SIZE = { 12 };

    ghost value_of = { λ bytes. Some (name_record_of bytes) };

    fn read(r: &mut Reader<'_>) -> Option<Self> {
        let b = r.read_bytes(NAME_RECORD_SIZE)?;
        Some(NameRecord {
            platform_id: u16_at(b, 0),
            encoding_id: u16_at(b, 2),
            language_id: u16_at(b, 4),
            name_id: u16_at(b, 6),
            length: u16_at(b, 8),
            string_offset: u16_at(b, 10),
        })
    }
}

impl Writeable for NameRecord {
    ghost use Rattle.subsetter_sfnt.specs.Fields.Name.{name_record_bytes};

    ghost bytes_of = { λ r. name_record_bytes r };

    fn write(&self, w: &mut Writer) -> Result<(), Error> {
        let [a, b] = self.platform_id.to_be_bytes();
        let [c, d] = self.encoding_id.to_be_bytes();
        let [e, f] = self.language_id.to_be_bytes();
        let [g, h] = self.name_id.to_be_bytes();
        let [i, j] = self.length.to_be_bytes();
        let [k, l] = self.string_offset.to_be_bytes();
        w.extend(&[a, b, c, d, e, f, g, h, i, j, k, l])
    }
}
