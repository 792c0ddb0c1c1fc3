//! The names of a font by their IDs (OpenType, "name"), and its PostScript name: ID 6, else the first of the Name INDEX
//! (Technical Note 5176, section 7).

ghost use Rattle.std.specs.Prelude.{◌≡◌, ◌≤◌, ◌<◌, ◌^◌, [], length, IfOk, IfErr};
ghost use Rattle.std.specs.Option.{option_copied, option_map_or};
ghost use Rattle.subsetter_base.specs.declared.error.Error.TheVariants.{OutOfMemory};
ghost use Rattle.pdf_values.specs.Name.{is_of, string_at, string_from, string_of, is_name_character, plain_text, wide_text, text_of, text_in, table_name, postscript_name, IsNameText};
ghost use Rattle.subsetter_base.specs.Texts.{or_else};

use std::alloc::Global;
use subsetter_base::Error;
use subsetter_base::read::Reader;
use subsetter_sfnt::fields::name::{
    COUNT, HEADER_SIZE, NAME_RECORD_SIZE, NameRecord, STORAGE_OFFSET,
};

/// Whose a name is.
#[derive(Clone, Copy)]
enum Kind {
    WindowsEnglish,
    Windows,
    Unicode,
    MacintoshRoman,
}

/// Whether a name is of a kind.
fn is_of(kind: Kind, record: NameRecord) -> bool
    ensures { result ≡ is_of kind «record» }
{
    match kind {
        Kind::WindowsEnglish => record.platform_id == 3 && record.language_id == 1033,
        Kind::Windows => record.platform_id == 3,
        Kind::Unicode => record.platform_id == 0,
        Kind::MacintoshRoman => record.platform_id == 1 && record.encoding_id == 0,
    }
}

/// The string of the record at a place, if it is a name of a kind with this ID.
fn string_at(name: &[u8], kind: Kind, id: u16, storage: usize, at: usize) -> Option<&[u8]>
    requires { storage < 2 ^ 16 }
    ensures { option_copied result ≡ string_at kind id name.now storage at }
{
    let entry = Reader::new_at(name, at).read::<NameRecord>()?;
    if entry.name_id == id && is_of(kind, entry) {
        return Reader::new_at(name, storage + usize::from(entry.string_offset)).read_bytes(
            usize::from(entry.length),
        );
    }
    None
}

/// The first such string of that many records.
#[tactic(auto, using(crate::proofs::Strings::strings_here, crate::proofs::Strings::strings_on, crate::proofs::Strings::strings_end))]
fn string_from(name: &[u8], kind: Kind, id: u16, storage: usize, count: u16) -> Option<&[u8]>
    requires { storage < 2 ^ 16 }
    ensures { option_copied result ≡ string_from kind id name.now storage count 6 }
{
    for place in 0..count {
        if let Some(string) = string_at(
            name,
            kind,
            id,
            storage,
            HEADER_SIZE + NAME_RECORD_SIZE * usize::from(place),
        ) {
            return Some(string);
        }
    }
    None
}

/// The first name of a kind with this ID.
fn string_of(name: &[u8], kind: Kind, id: u16) -> Option<&[u8]>
    ensures { option_copied result ≡ string_of kind id name.now }
{
    let count = Reader::new_at(name, COUNT).read::<u16>()?;
    let storage = Reader::new_at(name, STORAGE_OFFSET).read::<u16>()?;
    string_from(name, kind, id, usize::from(storage), count)
}

/// Whether a PostScript name may have a character: printable ASCII but `[](){}<>/%`.
fn is_name_character(b: u8) -> bool
    ensures { result ≡ is_name_character b }
{
    b >= 33 && b <= 126 && !b"[](){}<>/%".contains(&b)
}

/// The characters of a string of bytes.
#[tactic(auto, using(std::proofs::lemmas::List::Elements::filter_more))]
fn plain_text(alloc: Global, bytes: &[u8]) -> Result<Vec<u8>, Error>
    ensures ok { IfOk result (λ text. text.items ≡ plain_text bytes.now) }
    ensures err { IfErr result (λ e. e ≡ OutOfMemory) }
{
    let mut text = Vec::new(alloc);
    for b in bytes {
        if is_name_character(*b) {
            text.push(*b)?;
        }
    }
    Ok(text)
}

/// The characters of a string in UTF-16BE.
fn wide_text(alloc: Global, bytes: &[u8]) -> Result<Vec<u8>, Error>
    ensures ok { IfOk result (λ text. text.items ≡ wide_text bytes.now) }
    ensures err { IfErr result (λ e. e ≡ OutOfMemory) }
{
    let mut text = Vec::new(alloc);
    let mut rest = bytes;
    while let [high, low, others @ ..] = rest {
        if *high == 0 && is_name_character(*low) {
            text.push(*low)?;
        }
        rest = others;
    }
    Ok(text)
}

/// The characters of a string of a kind.
fn text_of(alloc: Global, kind: Kind, bytes: &[u8]) -> Result<Vec<u8>, Error>
    ensures ok { IfOk result (λ text. text.items ≡ text_of kind bytes.now) }
    ensures err { IfErr result (λ e. e ≡ OutOfMemory) }
{
    match kind {
        Kind::MacintoshRoman => plain_text(alloc, bytes),
        _ => wide_text(alloc, bytes),
    }
}

/// The name of a kind with this ID.
fn text_in(alloc: Global, kind: Kind, id: u16, name: Option<&[u8]>) -> Result<Vec<u8>, Error>
    ensures ok { IfOk result (λ text. text.items ≡ text_in kind id (option_copied name.entry)) }
    ensures err { IfErr result (λ e. e ≡ OutOfMemory) }
{
    let Some(name) = name else {
        return Ok(Vec::new(alloc));
    };
    match string_of(name, kind, id) {
        Some(string) => text_of(alloc, kind, string),
        None => Ok(Vec::new(alloc)),
    }
}

/// A text, or the name of a kind with this ID where the text has no characters.
fn or_text_in(
    alloc: Global,
    text: Vec<u8>,
    kind: Kind,
    id: u16,
    name: Option<&[u8]>,
) -> Result<Vec<u8>, Error>
    ensures ok { IfOk result (λ t. t.items ≡ or_else text.items (text_in kind id (option_copied name.entry))) }
    ensures err { IfErr result (λ e. e ≡ OutOfMemory) }
{
    if text.is_empty() {
        return text_in(alloc, kind, id, name);
    }
    Ok(text)
}

/// The name that `name` has under an ID, without what a PostScript name can't have: no characters where there is none.
///
/// # Errors
///
/// `OutOfMemory` alone.
pub fn table_name(alloc: Global, id: u16, name: Option<&[u8]>) -> Result<Vec<u8>, Error>
    ensures ok { IfOk result (λ text. text.items ≡ table_name id (option_copied name.entry)) }
    ensures err { IfErr result (λ e. e ≡ OutOfMemory) }
{
    let text = text_in(alloc, Kind::WindowsEnglish, id, name)?;
    let text = or_text_in(alloc, text, Kind::Windows, id, name)?;
    let text = or_text_in(alloc, text, Kind::Unicode, id, name)?;
    or_text_in(alloc, text, Kind::MacintoshRoman, id, name)
}

/// The characters of a string that may be missing.
fn plain_text_of(alloc: Global, bytes: Option<&[u8]>) -> Result<Vec<u8>, Error>
    ensures ok { IfOk result (λ text. text.items ≡ option_map_or plain_text (option_copied bytes.entry) []) }
    ensures err { IfErr result (λ e. e ≡ OutOfMemory) }
{
    match bytes {
        Some(bytes) => plain_text(alloc, bytes),
        None => Ok(Vec::new(alloc)),
    }
}

/// The PostScript name, by its definition alone.
fn name_of(alloc: Global, name: Option<&[u8]>, cff: Option<&[u8]>) -> Result<Vec<u8>, Error>
    ensures ok { IfOk result (λ text. text.items ≡ postscript_name (option_copied name.entry) (option_copied cff.entry)) }
    ensures err { IfErr result (λ e. e ≡ OutOfMemory) }
{
    let text = table_name(alloc, 6, name)?;
    if text.is_empty() {
        return plain_text_of(alloc, cff);
    }
    Ok(text)
}

/// The PostScript name of a font: what `name` has under ID 6, else the first name of the Name INDEX of `CFF `, if the caller has
/// it. No characters where neither says one.
///
/// # Errors
///
/// `OutOfMemory` alone.
pub fn postscript_name(
    alloc: Global,
    name: Option<&[u8]>,
    cff: Option<&[u8]>,
) -> Result<Vec<u8>, Error>
    ensures ok { IfOk result (λ text. text.items ≡ postscript_name (option_copied name.entry) (option_copied cff.entry)) }
    ensures characters { IfOk result (λ text. IsNameText text.items) }
    ensures err { IfErr result (λ e. e ≡ OutOfMemory) }
{
    name_of(alloc, name, cff)
}
