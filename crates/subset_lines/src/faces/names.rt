//! The name of a named instance (OpenType, "name").

ghost use Rattle.std.specs.Prelude.{◌≡◌, ◌==◌, ◌+◌, ◌*◌, ℕ, length, nat_eq, if◌then◌else◌, Some, None, OnOk, IfOk, codes};
ghost use Rattle.std.specs.Char.{encode_utf8};
ghost use Rattle.std.specs.Io.KnownBytes.{Appends};
ghost use Rattle.std.specs.HashMap.{get};
ghost use Rattle.std.specs.Option.{option_copied, option_map, option_or};
ghost use Rattle.subsetter_base.specs.Bytes.{number};
ghost use Rattle.subsetter_sfnt.specs.Fields.Name.{name_record_of};
ghost use Rattle.subset_lines.specs.Faces.Names.{is_windows, serves, record_if, AreFirst, count_in, best_name, string_by, string_for, name_of, is_text, character_of, text_of_units, after_instance};

use plain_text::characters::plain;
use plain_text::{Unwritten, write_text};
use std::alloc::{AllocError, Global};
use std::collections::HashMap;
use std::io::Write;
use std::marker::Model;
use subsetter_base::read::Reader;
use subsetter_sfnt::fields::name::{
    COUNT, HEADER_SIZE, NAME_RECORD_SIZE, NameRecord, STORAGE_OFFSET,
};

/// Which records serve.
#[derive(Clone, Copy)]
pub enum Kind {
    /// Those of Windows in American English.
    English,
    /// Those of Windows.
    Windows,
    /// Those of Unicode.
    Unicode,
}

/// The record that twelve bytes are.
#[tactic(auto, using(crate::proofs::Listed::whole_record))]
fn record_of(bytes: &[u8]) -> NameRecord
    requires { length bytes.now ≡ 12 }
    ensures { result ≡ name_record_of bytes.now }
{
    Reader::new(bytes).read::<NameRecord>().unwrap()
}

/// Whether a record is of Windows, in UTF-16.
fn is_windows(bytes: &[u8]) -> bool
    requires { length bytes.now ≡ 12 }
    ensures { result ≡ is_windows bytes.now }
{
    let record = record_of(bytes);
    record.platform_id == 3 && (record.encoding_id == 1 || record.encoding_id == 10)
}

/// Whether a record is of a kind.
fn serves(kind: Kind, bytes: &[u8]) -> bool
    requires { length bytes.now ≡ 12 }
    ensures { result ≡ serves kind bytes.now }
{
    match kind {
        Kind::English => is_windows(bytes) && record_of(bytes).language_id == 0x0409,
        Kind::Windows => is_windows(bytes),
        Kind::Unicode => record_of(bytes).platform_id == 0,
    }
}

/// Adds a record, unless its name has one.
fn add_first(records: &mut HashMap<u16, NameRecord>, added: NameRecord) -> Result<(), AllocError>
    ensures { OnOk result ((id : ℕ) → get nat_eq records.new id ≡ option_or (get nat_eq records.old id) (if added.name_id == id then Some added else None)) }
{
    if records.get(&added.name_id).is_none() {
        records.insert(added.name_id, added)?;
    }
    Ok(())
}

/// Adds a record, if it is of a kind, unless its name has one.
fn add_record(
    records: &mut HashMap<u16, NameRecord>,
    kind: Kind,
    bytes: &[u8],
) -> Result<(), AllocError>
    requires { length bytes.now ≡ 12 }
    ensures { OnOk result ((id : ℕ) → get nat_eq records.new id ≡ option_or (get nat_eq records.old id) (record_if kind id bytes.now)) }
{
    if serves(kind, bytes) {
        add_first(records, record_of(bytes))?;
    }
    Ok(())
}

/// Among the first `count` records, the first one for each name of a kind.
fn first_records(
    alloc: Global,
    kind: Kind,
    count: u16,
    table: &[u8],
) -> Result<HashMap<u16, NameRecord>, AllocError>
    ensures { IfOk result (AreFirst kind count table.now) }
{
    let mut records = HashMap::new(alloc);
    let mut r = Reader::new_at(table, HEADER_SIZE);
    for i in 0..count {
        let Some(bytes) = r.read_bytes(NAME_RECORD_SIZE) else {
            return Ok(records);
        };
        add_record(&mut records, kind, bytes)?;
    }
    Ok(records)
}

/// How many records a table has.
fn count_in(table: &[u8]) -> u16
    ensures { result ≡ count_in table.now }
{
    match Reader::new_at(table, COUNT).read::<u16>() {
        Some(count) => count,
        None => 0,
    }
}

/// The record of a name.
fn record_for(records: &HashMap<u16, NameRecord>, id: u16) -> Option<NameRecord>
    ensures { result ≡ get nat_eq records.now id }
{
    match records.get(&id) {
        Some(record) => Some(*record),
        None => None,
    }
}

/// The string of a record, in the storage.
fn string_of(table: &[u8], storage: u16, read: NameRecord) -> Option<&[u8]>
    ensures { option_copied result ≡ string_by table.now storage read }
{
    let at = storage as usize + read.string_offset as usize;
    Reader::new_at(table, at).read_bytes(read.length as usize)
}

/// A table `name`, with the first record of each name of each kind, so that a name is found without a look at all records.
#[derive(Drop)]
pub struct NameTable<'a> {
    table: &'a [u8],
    english: HashMap<u16, NameRecord>,
    windows: HashMap<u16, NameRecord>,
    unicode: HashMap<u16, NameRecord>,
}

impl<'a> Model for NameTable<'a> {
    ghost use Rattle.std.specs.Prelude.{List, ℕ};
    ghost use Rattle.subset_lines.specs.Faces.Names.{AreFirst, count_in};
    ghost use Rattle.subset_lines.specs.declared.faces.names.Kind.TheVariants.{English, Windows, Unicode};

    ghost Value = { List ℕ };

    ghost view = { λ names. names.table.now };

    ghost invariant = { λ names. record {
      english_are : AreFirst English (count_in names.table.now) names.table.now names.english;
      windows_are : AreFirst Windows (count_in names.table.now) names.table.now names.windows;
      unicode_are : AreFirst Unicode (count_in names.table.now) names.table.now names.unicode;
    } };
}

impl<'a> NameTable<'a> {
    /// Finds the records of a table.
    pub fn new(alloc: Global, table: &'a [u8]) -> Result<Self, AllocError>
        ensures { IfOk result (λ names. names ≡ table.now) }
    {
        let count = count_in(table);
        Ok(NameTable {
            table,
            english: first_records(alloc, Kind::English, count, table)?,
            windows: first_records(alloc, Kind::Windows, count, table)?,
            unicode: first_records(alloc, Kind::Unicode, count, table)?,
        })
    }

    /// The record of a name of the best kind that there is.
    #[tactic(auto, using(crate::proofs::Listed::best_of))]
    fn best_record(&self, id: u16) -> Option<NameRecord>
        ensures { result ≡ option_map name_record_of (best_name id (count_in self.now) self.now) }
    {
        let other = record_for(&self.windows, id).or(record_for(&self.unicode, id));
        record_for(&self.english, id).or(other)
    }

    /// A name, if the table has it.
    #[tactic(auto, using(crate::proofs::Listed::no_storage, crate::proofs::Listed::no_record, crate::proofs::Listed::string_found))]
    fn string_for(&self, id: u16) -> Option<&'a [u8]>
        ensures { option_copied result ≡ string_for self.now id }
    {
        let storage = Reader::new_at(self.table, STORAGE_OFFSET).read::<u16>()?;
        string_of(self.table, storage, self.best_record(id)?)
    }

    /// The name of the named instance of a record, if there is one.
    pub fn of_instance(&self, bytes: &[u8]) -> Option<&'a [u8]>
        ensures { option_copied result ≡ name_of self.now (number bytes.now 0 2) }
    {
        self.string_for(Reader::new(bytes).read::<u16>()?)
    }
}

/// Whether a code unit is a character that a line may have.
fn is_text(unit: u16) -> bool
    ensures { result ≡ is_text unit }
{
    match char::from_u32(u32::from(unit)) {
        Some(character) => plain(character) == character,
        None => false,
    }
}

/// The character of a code unit, U+FFFD for half of a pair and for one that a line doesn't have.
fn character_of(unit: u16) -> char
    ensures { result ≡ character_of unit }
{
    if !is_text(unit) {
        return '\u{FFFD}';
    }
    match char::from_u32(u32::from(unit)) {
        Some(character) => character,
        None => '\u{FFFD}',
    }
}

/// The character of a code unit in UTF-8, which is put into the room.
pub fn encoded(high: u8, low: u8, room: &mut [u8; 4]) -> &[u8]
    ensures { result.now ≡ encode_utf8 (character_of (high * 256 + low)) }
{
    let character = character_of(u16::from(high) * 256 + u16::from(low));
    character.encode_utf8(room).as_bytes()
}

/// Writes the character of a code unit.
fn write_character<W: Write>(high: u8, low: u8, out: &mut W) -> Result<(), Unwritten>
    ensures { OnOk result (Appends (W.contents out.old) (W.contents out.new) (encode_utf8 (character_of (high * 256 + low)))) }
{
    let character = character_of(u16::from(high) * 256 + u16::from(low));
    if write!(out, "{character}").is_err() {
        return Err(Unwritten);
    }
    Ok(())
}

/// Writes code units of two bytes as text.
#[tactic(auto, using(plain_text::proofs::Written::at_first, plain_text::proofs::Written::after_part, plain_text::proofs::Written::at_last))]
pub fn write_units<W: Write>(bytes: &[u8], out: &mut W) -> Result<(), Unwritten>
    ensures { OnOk result (Appends (W.contents out.old) (W.contents out.new) (text_of_units bytes.now)) }
{
    let mut rest = bytes;
    while let [high, low, more @ ..] = rest {
        write_character(*high, *low, out)?;
        rest = more;
    }
    Ok(())
}

/// Writes a name after a blank, if there is one.
#[tactic(auto, using(plain_text::proofs::Written::both))]
pub fn write_after<W: Write>(name: Option<&[u8]>, out: &mut W) -> Result<(), Unwritten>
    ensures { OnOk result (Appends (W.contents out.old) (W.contents out.new) (after_instance (option_copied name.entry))) }
{
    let Some(bytes) = name else {
        return Ok(());
    };
    write_text(b" ", out)?;
    write_units(bytes, out)
}
