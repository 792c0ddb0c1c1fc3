//! Finding a font's directory and its tables.

ghost use Rattle.std.specs.Prelude.{◌≡◌, ◌/◌, ◌<◌, ◌^◌, ◌&&◌, ◌||◌, not, false, length, codes, IfOk, IfErr};
ghost use Rattle.std.specs.Option.{option_copied};
ghost use Rattle.std.specs.Str.{bytes_eq};
ghost use Rattle.subsetter_sfnt.specs.Extras.{requested, is_hinting_table};
ghost use Rattle.subsetter_sfnt.specs.Read.{table_in};
ghost use Rattle.subsetter_base.specs.Bytes.{IsBytes};
ghost use Rattle.subsetter_sfnt.specs.Plain.{opened_header, opened};

use crate::directory::{records_at, table_in};
use crate::extras::Extras;
use crate::face::{Face, FontKind, TABLE_DIRECTORY_OFFSETS};
use subsetter_base::read::Reader;
use subsetter_base::{Error, Tag};

/// The offset of the font's header.
#[tactic(auto, unfolding(crate::specs::Plain::opened_header))]
fn header(file: &[u8], index: u32, extras: Extras) -> Result<usize, Error>
    ensures exact { result ≡ opened_header (record { bytes = file.now; index = index; extras = extras }) }
    ensures small { IfOk result (λ at. at < 2 ^ 32) }
{
    let mut r = Reader::new(file);
    let kind = r.read::<FontKind>().ok_or(Error::UnknownKind)?;
    if kind == FontKind::Single {
        return Ok(0);
    }
    let mut r = Reader::new_at(
        file,
        TABLE_DIRECTORY_OFFSETS.saturating_add(4usize.saturating_mul(index as usize)),
    );
    let offset = r.read::<u32>().ok_or(Error::MalformedFont)?;
    let mut r = Reader::new_at(file, offset as usize);
    match r.read::<FontKind>() {
        Some(FontKind::Single) => Ok(offset as usize),
        _ => Err(Error::MalformedFont),
    }
}

/// Parses the directory of a font, of which these extras are requested.
#[tactic(auto, unfolding(crate::specs::Plain::opened))]
pub fn parse(file: &[u8], index: u32, extras: Extras) -> Result<Face<'_>, Error>
    ensures ok { IfOk result (λ face. (face.«data».now ≡ file.now) × (opened (record { bytes = file.now; index = index; extras = extras }) ≡ Ok face.records.now)) }
    ensures extras { IfOk result (λ face. face.extras ≡ extras) }
    ensures bytes { IsBytes file.now }
    ensures err { IfErr result (λ e. opened (record { bytes = file.now; index = index; extras = extras }) ≡ Err e) }
{
    let at = header(file, index, extras)?;
    let records = records_at(file, at).ok_or(Error::MalformedFont)?;
    Ok(Face {
        data: file,
        records,
        extras,
    })
}

impl<'a> Face<'a> {
    /// Whether a table isn't requested.
    fn leaves_out(&self, tag: Tag) -> bool
        ensures { result ≡ ((not self.now.extras.hinting && is_hinting_table tag.0) || (not self.now.extras.names && bytes_eq tag.0 (codes "name"))) }
    {
        let extras = self.extras;
        (!extras.hinting && (tag == Tag::CVT || (tag == Tag::FPGM || tag == Tag::PREP)))
            || (!extras.names && tag == Tag::NAME)
    }

    /// The bytes of a table other than `maxp` and `post`, if it is requested: of these two a part is kept whatever is requested, by
    /// [`Face::stored`].
    pub fn table(&self, tag: Tag) -> Option<&'a [u8]>
        requires maxp { bytes_eq tag.0 (codes "maxp") ≡ false }
        requires post { bytes_eq tag.0 (codes "post") ≡ false }
        ensures { option_copied result ≡ requested self.now.extras (table_in self.now.«data».now self.now.records.now) tag.0 }
    {
        if self.leaves_out(tag) {
            return None;
        }
        self.stored(tag)
    }

    /// The bytes of a table as they are in the file, whatever is requested.
    pub fn stored(&self, tag: Tag) -> Option<&'a [u8]>
        ensures { option_copied result ≡ table_in self.now.«data».now self.now.records.now tag.0 }
    {
        table_in(self.data, self.records, tag)
    }
}
