//! `name`, the names of a font (OpenType, "name").
//!
//! Version 0 has records, each of which has for a platform, an encoding, a language and a name the offset of its string in the
//! storage after the records. The new table keeps the Unicode records of the names 0 to 14 but the description, and
//! stores each string once. A table of another version is copied.
//!
//! The source's table is read without copying (`Table`). What a subset keeps of it is `NewNames`, which is written into
//! the output at once. Distinct strings are scanned up to the first 32; those after them are keys of a map of their own
//! type (`Text`), which is compared by its bytes and hashed as one piece.

ghost use Rattle.std.specs.HashMap.{get, IsUnchanged};
ghost use Rattle.std.specs.Str.{bytes_eq};
ghost use Rattle.std.specs.Prelude.{ℕ, List, nat_le, ◌&&◌, ◌≡◌, ◌+◌, ◌*◌, ◌%◌, ◌<◌, ◌≤◌, ◌^◌, ◌++◌, [], length, filter, flat_map, false, vec_capacity, if◌then◌else◌, None, Some, Ok, OnOk, OnErr, IfOk, IfErr, IfNone, IfSome};
ghost use Rattle.std.specs.Option.{option_copied, option_map, ok_or};
ghost use Rattle.subsetter_base.specs.Gives.{Gives, Fails};
ghost use Rattle.subsetter_base.specs.declared.error.Error.TheVariants.{OutOfMemory};
ghost use Rattle.subsetter.specs.Common.Name.Read.{name_parts, is_kept_record, among, with_string, string_offset, joined};
ghost use Rattle.subsetter_sfnt.specs.Fields.Name.{name_record_bytes};
ghost use Rattle.subsetter.specs.Common.Name.Plain.{placed, placed_string, name_of_table, new_name, header_bytes, laid_after, few_laid, laid_bytes, kept_bytes};
ghost use Rattle.subsetter.specs.Common.Name.View.{nows, seen_parts, seen_table, name_seen};

mod text;

use crate::common::name::text::Text;
use std::alloc::Global;
use std::collections::HashMap;
use std::marker::Model;
use subsetter_base::Error;
use subsetter_base::read::{LazyArray16, Reader};
use subsetter_base::write::{Writeable, Writer};
use subsetter_sfnt::fields::name::{COUNT, HEADER_SIZE, NAME_RECORD_SIZE, NameRecord};
use subsetter_sfnt::laying::room::put;

/// The names below this one are kept: 15 is reserved, and those after it are of families.
const KEPT_NAMES: u16 = 15;
/// The name that describes the typeface.
const DESCRIPTION: u16 = 10;
/// The most bytes of records before storageOffset passes 16 bits.
const RECORDS_MAX: usize = 65520;

/// Whether a subset keeps a record: its string is Unicode, and it isn't the description.
fn is_kept(one: &NameRecord) -> bool
    ensures { result ≡ is_kept_record one.now }
{
    one.is_unicode() && one.name_id < KEPT_NAMES && one.name_id != DESCRIPTION
}

/// How many strings are looked through one by one.
const LINEAR_MAX: usize = 32;

/// Distinct strings, which are to be written one after another.
#[derive(Drop)]
struct Strings<'a> {
    strings: Vec<&'a [u8]>,
    /// The offsets of the strings after the first 32.
    hashed: HashMap<Text<'a>, u16>,
    size: usize,
}

impl<'a> Model for Strings<'a> {
    ghost use Rattle.std.specs.Prelude.{◌≡◌, ◌<◌, ◌^◌, ℕ, List, length, take, false, Some, None, if◌then◌else◌};
    ghost use Rattle.std.specs.HashMap.{get};
    ghost use Rattle.std.specs.Str.{bytes_eq};
    ghost use Rattle.subsetter.specs.Common.Name.Read.{among, string_offset, joined};
    ghost use Rattle.subsetter.specs.Common.Name.View.{nows};

    ghost Value = { List (List ℕ) };

    ghost view = { λ s. nows s.strings.items };

    ghost invariant = { λ s. record {
      hashed_are : (q : List ℕ) → among (take 32 (nows s.strings.items)) q ≡ false → get bytes_eq s.hashed q ≡ (if among (nows s.strings.items) q then Some (string_offset (nows s.strings.items) q) else None);
      size_is : s.size ≡ length (joined (nows s.strings.items));
      fits : s.size < 2 ^ 64;
    } };
}

/// Where a string begins among some that are written one after another.
fn linear_offset(strings: &[&[u8]], string: &[u8]) -> Option<usize>
    requires { length (joined (nows strings.now)) < 2 ^ 64 }
    ensures { result ≡ (if among (nows strings.now) string.now then Some (string_offset (nows strings.now) string.now) else None) }
{
    let mut place: usize = 0;
    for known in strings {
        if *known == string {
            return Some(place);
        }
        place += known.len();
    }
    None
}

/// Keeps where a string begins that comes after `count` others, if these are 32 or more.
fn remember_hashed<'a>(
    hashed: &mut HashMap<Text<'a>, u16>,
    count: usize,
    string: &'a [u8],
    place: u16,
) -> Result<(), Error>
    ensures ok { OnOk result ((q : List ℕ) → get bytes_eq hashed.new q ≡ (if nat_le 32 count && bytes_eq string.now q then Some place else get bytes_eq hashed.old q)) }
    ensures err { IfErr result (λ e. e ≡ OutOfMemory) }
    ensures unchanged { OnErr result (IsUnchanged hashed.old hashed.new) }
{
    if count < LINEAR_MAX {
        return Ok(());
    }
    hashed.insert(Text::new(string), place)?;
    Ok(())
}

impl<'a> Strings<'a> {
    /// No strings, and room for `count`.
    fn with_capacity(alloc: Global, count: usize) -> Result<Self, Error>
        ensures ok { IfOk result (λ s. s ≡ []) }
        ensures err { IfErr result (λ e. e ≡ OutOfMemory) }
    {
        Ok(Self {
            strings: Vec::with_capacity(alloc, count)?,
            hashed: HashMap::new(alloc),
            size: 0,
        })
    }

    /// Where a string begins, in bytes, if it is there.
    fn find(&self, string: &[u8]) -> Option<usize>
        ensures { result ≡ (if among self.now string.now then Some (string_offset self.now string.now) else None) }
    {
        let strings = self.strings.as_slice();
        if strings.len() <= LINEAR_MAX {
            return linear_offset(strings, string);
        }
        match linear_offset(&strings[..LINEAR_MAX], string) {
            Some(place) => Some(place),
            None => match self.hashed.get(&Text::new(string)) {
                Some(place) => Some(usize::from(*place)),
                None => None,
            },
        }
    }

    /// Puts a new string last.
    fn add(&mut self, string: &'a [u8], place: u16) -> Result<(), Error>
        requires new { among self.old string.now ≡ false }
        requires offset { place ≡ length (joined self.old) }
        ensures ok { OnOk result (self.new ≡ with_string self.old string.now) }
        ensures err { IfErr result (λ e. e ≡ OutOfMemory) }
    {
        self.strings.reserve(1)?;
        remember_hashed(&mut self.hashed, self.strings.len(), string, place)?;
        self.strings.push(string).unwrap();
        self.size += string.len();
        Ok(())
    }

    /// Where a string begins, in bytes; a new one goes last. A place past 65535 is `SubsetError`.
    fn offset_of(&mut self, string: &'a [u8]) -> Result<u16, Error>
        ensures offset { Gives (λ at. at) result (placed_string self.old string.now) }
        ensures list { OnOk result (self.new ≡ with_string self.old string.now) }
    {
        let found = self.find(string);
        let place = found.unwrap_or(self.size);
        if place > 65535 {
            return Err(Error::SubsetError);
        }
        if found.is_none() {
            self.add(string, place as u16)?;
        }
        Ok(place as u16)
    }

    /// How many bytes there are; where these are 2^32 or more, some number from 2^32 on.
    fn len(&self) -> usize
        ensures { result ≡ length (joined self.now) }
    {
        self.size
    }

    /// Writes the strings, one after another.
    fn write(&self, out: &mut Vec<u8>)
        requires { length out.old.items + length (joined self.now) ≤ vec_capacity out.old }
        ensures items { out.new.items ≡ out.old.items ++ joined self.now }
        ensures capacity { vec_capacity out.old ≤ vec_capacity out.new }
    {
        for string in &self.strings {
            put(out, string);
        }
    }
}

/// The records of a table of version 0 as they are in its bytes, and the bytes that hold their strings.
#[derive(Drop)]
pub struct Table<'a> {
    pub records: LazyArray16<'a, NameRecord>,
    pub storage: &'a [u8],
}

/// The parts of a table of version 0, if its header, its records and the start of its storage are there.
fn parse_parts(data: &[u8]) -> Option<Table<'_>>
    ensures parts { option_map seen_parts result ≡ name_parts «data».now }
    ensures whole { IfSome result (λ t. length t.records.bytes ≡ t.records.count * 12) }
{
    let mut r = Reader::new_at(data, COUNT);
    let count = r.read::<u16>()?;
    let offset = r.read::<u16>()?;
    let records = r.read_array16::<NameRecord>(count)?;
    let storage = Reader::new_at(data, offset as usize).tail()?;
    Some(Table { records, storage })
}

impl<'a> Table<'a> {
    /// Parses a table of version 0, whose version the caller has read, if its header, its records and the start of its storage are there.
    pub fn parse(data: &'a [u8]) -> Option<Self>
        ensures { option_map seen_table result ≡ name_parts «data».now }
    {
        parse_parts(data)
    }
}

/// The low 16 bits of how many records a table has.
fn count_records(table: &Table<'_>) -> u16
    ensures { result ≡ length (seen_table table.now).records % 65536 }
{
    let mut count: u16 = 0;
    for _record in table.records.iter() {
        count = count.wrapping_add(1);
    }
    count
}

/// Writes the records of a table.
fn write_records(w: &mut Writer, table: &Table<'_>) -> Result<(), Error>
    ensures ok { OnOk result (w.new ≡ w.old ++ flat_map name_record_bytes (seen_table table.now).records) }
    ensures err { IfErr result (λ e. e ≡ OutOfMemory) }
{
    for record in table.records.iter() {
        w.write(&record)?;
    }
    Ok(())
}

/// A table as it is written: its storage comes right after its records.
impl Writeable for Table<'_> {
    ghost use Rattle.subsetter.specs.Common.Name.Read.{name_bytes};
    ghost use Rattle.subsetter.specs.Common.Name.View.{seen_table};

    ghost bytes_of = { λ t. name_bytes (seen_table t).records (seen_table t).storage };

    fn write(&self, w: &mut Writer) -> Result<(), Error> {
        let count = count_records(self);
        w.write(&0u16)?;
        w.write(&count)?;
        w.write(&(((HEADER_SIZE + NAME_RECORD_SIZE * count as usize) % 65536) as u16))?;
        write_records(w, self)?;
        w.extend(self.storage)?;
        Ok(())
    }
}

/// The names that a subset keeps: at most 5460 records as they are written, and the strings that are after them.
#[derive(Drop)]
pub struct NewNames<'a> {
    records: Vec<u8>,
    strings: Strings<'a>,
}

impl<'a> Model for NewNames<'a> {
    ghost use Rattle.std.specs.Prelude.{◌≤◌, ◌/◌, ◌++◌, ℕ, List, length};
    ghost use Rattle.subsetter.specs.Common.Name.Read.{joined};
    ghost use Rattle.subsetter.specs.Common.Name.Plain.{header_bytes};

    ghost Value = { List ℕ };

    ghost view = { λ n. header_bytes (length n.records.items / 12) ++ n.records.items ++ joined n.strings };

    ghost invariant = { λ n. length n.records.items ≤ 65520 };
}

impl<'a> NewNames<'a> {
    /// How many bytes the table has; where these are 2^32 or more, some number from 2^32 on.
    #[tactic(auto, unfolding(crate::specs::Common::Name::Plain::header_bytes))]
    pub fn len(&self) -> usize
        ensures exact { length self.now < 2 ^ 32 → result ≡ length self.now }
        ensures past { 2 ^ 32 ≤ length self.now → 2 ^ 32 ≤ result }
    {
        (HEADER_SIZE + self.records.len()).saturating_add(self.strings.len())
    }

    /// Writes the table.
    pub fn write(&self, out: &mut Vec<u8>)
        requires { length out.old.items + length self.now ≤ vec_capacity out.old }
        ensures items { out.new.items ≡ out.old.items ++ self.now }
        ensures capacity { vec_capacity out.old ≤ vec_capacity out.new }
    {
        write_header(out, self.records.len() / NAME_RECORD_SIZE);
        put(out, &self.records);
        self.strings.write(out);
    }
}

/// Writes the header of a table with `count` records.
#[tactic(auto, unfolding(crate::specs::Common::Name::Plain::header_bytes))]
fn write_header(out: &mut Vec<u8>, count: usize)
    requires count { count ≤ 5460 }
    requires room { length out.old.items + 6 ≤ vec_capacity out.old }
    ensures items { out.new.items ≡ out.old.items ++ header_bytes count }
    ensures capacity { vec_capacity out.old ≤ vec_capacity out.new }
{
    let [a, b] = (count as u16).to_be_bytes();
    let [c, d] = ((HEADER_SIZE + NAME_RECORD_SIZE * count) as u16).to_be_bytes();
    put(out, &[0, 0, a, b, c, d]);
}

/// Writes the records that a subset keeps, and takes their strings, each once in the order of first use. `SubsetError`
/// where a string isn't inside the storage, or begins past 65535 in the new one.
fn collect_names<'a>(
    table: &Table<'a>,
    front: &mut Writer,
    strings: &mut Strings<'a>,
) -> Result<(), Error>
    requires front { front.old ≡ [] }
    requires strings { strings.old ≡ [] }
    ensures ok { OnOk result (laid_after [] (placed table.now.storage.now [] (filter is_kept_record (seen_table table.now).records)) ≡ Ok (record { bytes = front.new; strings = strings.new })) }
    ensures err { IfErr result (λ e. Fails e (laid_after [] (placed table.now.storage.now [] (filter is_kept_record (seen_table table.now).records)))) }
{
    for record in table.records.iter() {
        if is_kept(&record) {
            let string = record.string(table.storage).ok_or(Error::SubsetError)?;
            let string_offset = strings.offset_of(string)?;
            front.write(&NameRecord {
                string_offset,
                ..record
            })?;
        }
    }
    Ok(())
}

/// No bytes, and room for `count`.
fn no_bytes(alloc: Global, count: usize) -> Result<Writer, Error>
    ensures ok { IfOk result (λ w. w ≡ []) }
    ensures err { IfErr result (λ e. e ≡ OutOfMemory) }
{
    Writer::with_capacity(alloc, count)
}

/// The names of records as they are written, unless these are more than 5460, of twelve bytes each.
fn few_names<'a>(records: Vec<u8>, strings: Strings<'a>) -> Result<NewNames<'a>, Error>
    ensures { Gives (λ names. names) result (few_laid (record { bytes = records.items; strings = strings.entry })) }
{
    if records.len() > RECORDS_MAX {
        return Err(Error::SubsetError);
    }
    Ok(NewNames { records, strings })
}

/// The records that a subset keeps, with room for as many as are usual taken at once.
fn laid_names<'a>(alloc: Global, table: &Table<'a>) -> Result<NewNames<'a>, Error>
    ensures { Gives (λ names. names) result (laid_bytes (seen_table table.now)) }
{
    let count = usize::from(table.records.len()).min(LINEAR_MAX);
    let mut front = no_bytes(alloc, NAME_RECORD_SIZE * count)?;
    let mut strings = Strings::with_capacity(alloc, count)?;
    collect_names(table, &mut front, &mut strings)?;
    few_names(front.finish(), strings)
}

/// The records that a subset keeps, and their strings, each once in the order of first use. `SubsetError` where a string is not inside the storage or begins past 65535 in the new one, and for more than 5460 records.
pub fn subset_table<'a>(alloc: Global, table: &Table<'a>) -> Result<NewNames<'a>, Error>
    ensures { Gives (λ names. names) result (kept_bytes (seen_table table.now)) }
{
    laid_names(alloc, table)
}

/// `name` of a subset.
#[derive(Drop)]
pub enum NewName<'a> {
    /// A table of another version than 0, as it is in the source.
    Copied(&'a [u8]),
    /// The names that are kept of a table of version 0.
    Kept(NewNames<'a>),
}

/// The names of a subset. A table of another version than 0 is copied whole; `MalformedFont` where the version, the header, a record or the start of the storage is cut, and the errors of `subset_table`.
#[tactic(auto, unfolding(crate::specs::Common::Name::Plain::new_name, crate::specs::Common::Name::Plain::name_of_table))]
pub fn subset<'a>(alloc: Global, name: Option<&'a [u8]>) -> Result<Option<NewName<'a>>, Error>
    ensures { Gives (option_map name_seen) result (new_name (option_copied name.entry)) }
{
    let Some(bytes) = name else {
        return Ok(None);
    };
    let version = Reader::new(bytes)
        .read::<u16>()
        .ok_or(Error::MalformedFont)?;
    if version != 0 {
        return Ok(Some(NewName::Copied(bytes)));
    }
    let table = Table::parse(bytes).ok_or(Error::MalformedFont)?;
    Ok(Some(NewName::Kept(subset_table(alloc, &table)?)))
}
