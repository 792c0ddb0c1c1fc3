//! The names of glyphs in a `CFF ` table (Technical Note 5176, sections 10 "String INDEX" and 13 "Charsets").

ghost use Rattle.std.specs.Prelude.{◌≡◌, [], true, map, length, unwrap_or, IfOk, IsOk};
ghost use Rattle.subsetter_cffdata.specs.Indexes.IndexView.{items};
ghost use Rattle.subsetter_cff.specs.Read.Cff.{char_strings};
ghost use Rattle.subsetter_cff.specs.Read.Opened.{opened};
ghost use Rattle.subsetter_cff.specs.Read.Source.{cff_of, IsSource};
ghost use Rattle.glyph_names.specs.Strings.{string_of, string_by_sids, sids_of, sids_of_opened, strings_of_opened};

use crate::charset::sids_at;
use std::alloc::{AllocError, Global};
use subsetter_base::Error;
use subsetter_cff::read::source::Table;
use subsetter_cffdata::indexes::index::Index;

/// How a `CFF ` table names its glyphs.
#[derive(Drop)]
pub struct Charset<'a> {
    /// The SID of each glyph.
    pub sids: Vec<u32>,
    /// The String INDEX.
    pub strings: Index<'a>,
}

/// The SIDs of a table's glyphs.
fn sids_of(alloc: Global, table: &Table<'_>) -> Result<Vec<u32>, AllocError>
    requires { IsSource table.now }
    ensures sids { IfOk result (λ v. v.items ≡ sids_of (cff_of table.now)) }
    // A CID-keyed font has none, which takes no memory.
    ensures keyed { table.now.top.has_ros ≡ true → IsOk result }
{
    if table.top.has_ros {
        return Ok(Vec::new(alloc));
    }
    let count = table.char_strings.len();
    sids_at(
        alloc,
        table.front.bytes,
        count,
        table.top.charset.unwrap_or(0),
    )
}

/// What names the glyphs of a `CFF ` table: nothing where it can't be read.
pub fn read_charset(alloc: Global, cff: &[u8]) -> Result<Charset<'_>, AllocError>
    ensures sids { IfOk result (λ c. c.sids.items ≡ sids_of_opened (opened cff.now)) }
    ensures strings { IfOk result (λ c. items c.strings ≡ strings_of_opened (opened cff.now)) }
{
    match Table::parse(alloc, cff) {
        Ok(table) => Ok(Charset {
            sids: sids_of(alloc, &table)?,
            strings: table.front.strings,
        }),
        Err(Error::OutOfMemory) => Err(AllocError),
        Err(_) => Ok(Charset {
            sids: Vec::new(alloc),
            strings: Index::default(),
        }),
    }
}

/// The string of an SID, by the standard strings.
fn string_of<'a>(standard: &[&'a str], strings: &Index<'a>, sid: u32) -> &'a [u8]
    ensures { result.now ≡ string_of (map (λ s. s.now) standard.now) (items strings.now) sid }
{
    if sid >= 391 {
        return strings.get(sid - 391).unwrap_or(&[]);
    }
    match standard.get(sid as usize) {
        Some(name) => name.as_bytes(),
        None => &[],
    }
}

impl<'a> Charset<'a> {
    /// The name of a glyph, by the standard strings; an empty one where there is none.
    pub fn name(&self, standard: &[&'a str], glyph: u16) -> &'a [u8]
        ensures { result.now ≡ string_by_sids (map (λ s. s.now) standard.now) (items self.now.strings) self.now.sids.items glyph }
    {
        match self.sids.get(usize::from(glyph)) {
            Some(sid) => string_of(standard, &self.strings, *sid),
            None => &[],
        }
    }
}
