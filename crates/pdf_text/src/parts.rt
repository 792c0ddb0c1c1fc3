//! The objects of a font as data, with numbers that the writer of the file chose.

ghost use Rattle.std.specs.Prelude.{◌≡◌, ◌<◌, ◌≤◌, ◌+◌, false, true, length, get_or, is_some, IfErr, IfOk};
ghost use Rattle.std.specs.Option.{option_copied};
ghost use Rattle.subsetter_base.specs.declared.error.Error.TheVariants.{OutOfMemory};
ghost use Rattle.pdf_text.specs.Dictionaries.Widths.{IsRefused};
ghost use Rattle.pdf_text.specs.Objects.{bytes_of, entries_of, objects_of};
ghost use Rattle.pdf_text.specs.Parts.{are_distinct, are_numbers, part_count, part_value, parts_from, parts_of, parts_view, references_in, HasNoParts, PartsAreObjects, PartsAreReferredTo};
ghost use Rattle.pdf_text.specs.Strings.{strings_in};

use crate::objects::{
    Object, before_cmap, before_set, bytes_of, objects_of, write_entries, write_value_end,
};
use crate::strings::{StringRange, strings_of};
use crate::values::{FontValues, References};
use std::alloc::Global;
use subsetter_base::Error;

/// An object of a font.
#[derive(Drop)]
pub struct FontPart<'a> {
    /// Which object it is.
    pub role: Object,
    pub number: u32,
    /// The entries of its dictionary, each with a blank after it, but for a stream's Length.
    pub entries: Vec<u8>,
    /// Where the strings of the entries are, in order.
    pub strings: Vec<StringRange>,
    /// The bytes of a stream.
    pub stream: Option<&'a [u8]>,
}

/// Why there are no parts.
#[derive(Debug, Drop)]
pub enum PartsError {
    /// A number is 0 or comes twice, or there are more or fewer than objects.
    InvalidNumbers,
    /// There are more columns than CIDs, or memory ran out.
    Subset(Error),
}

// ---- numbers

/// Whether each number is above 0, and none comes twice.
fn are_distinct(numbers: &[u32]) -> bool
    ensures { result ≡ are_distinct numbers.now }
{
    let mut rest = numbers;
    while let [number, others @ ..] = rest {
        if *number == 0 || others.contains(number) {
            return false;
        }
        rest = others;
    }
    true
}

/// Whether numbers are right for `count` objects.
fn are_numbers(count: usize, numbers: &[u32]) -> bool
    ensures { result ≡ are_numbers count numbers.now }
{
    numbers.len() == count && are_distinct(numbers)
}

/// How many objects a font has.
#[tactic(auto, using(crate::proofs::ObjectLaws::Counts::count_is))]
pub fn part_count(values: FontValues<'_>) -> usize
    ensures { result ≡ part_count values.entry }
{
    let before = before_cmap(values.cid_to_gid_map.is_some(), values.cid_set.is_some());
    if values.encoding.is_some() {
        before + 1
    } else {
        before
    }
}

/// A number of a list; 0 past its end.
fn number_at(numbers: &[u32], place: usize) -> u32
    ensures { result ≡ get_or numbers.now place 0 }
{
    if place < numbers.len() {
        return numbers[place];
    }
    0
}

/// The numbers of the objects that others refer to.
fn references_in(numbers: &[u32], values: FontValues<'_>) -> References
    ensures { result ≡ references_in numbers.now (is_some values.entry.cid_to_gid_map) (is_some values.entry.cid_set) }
{
    let has_map = values.cid_to_gid_map.is_some();
    References {
        cid_font: number_at(numbers, 1),
        descriptor: number_at(numbers, 2),
        program: number_at(numbers, 3),
        to_unicode: number_at(numbers, 4),
        cid_to_gid_map: number_at(numbers, 5),
        cid_set: number_at(numbers, before_set(has_map)),
        encoding: number_at(numbers, before_cmap(has_map, values.cid_set.is_some())),
    }
}

// ---- parts

/// An object.
fn write_part<'a>(
    alloc: Global,
    object: Object,
    number: u32,
    values: FontValues<'a>,
    references: References,
) -> Result<FontPart<'a>, Error>
    ensures role { IfOk result (λ p. p.role ≡ object) }
    ensures number { IfOk result (λ p. p.number ≡ number) }
    ensures entries { IfOk result (λ p. p.entries.items ≡ entries_of object values.entry references) }
    ensures strings { IfOk result (λ p. p.strings.items ≡ strings_in (entries_of object values.entry references)) }
    ensures stream { IfOk result (λ p. option_copied p.stream ≡ bytes_of object values.entry) }
    ensures err { IfErr result (IsRefused values.entry.columns) }
{
    let mut entries = Vec::new(alloc);
    write_entries(alloc, &mut entries, object, values, references)?;
    let strings = strings_of(alloc, &entries)?;
    Ok(FontPart {
        role: object,
        number,
        entries,
        strings,
        stream: bytes_of(object, values),
    })
}

/// Objects with numbers, as many as there are objects.
fn write_each<'a>(
    alloc: Global,
    objects: &[Object],
    numbers: &[u32],
    values: FontValues<'a>,
    references: References,
) -> Result<Vec<FontPart<'a>>, Error>
    requires { length numbers.now ≡ length objects.now }
    ensures ok { IfOk result (λ parts. parts_view parts.items ≡ parts_from objects.now numbers.now values.entry references) }
    ensures err { IfErr result (IsRefused values.entry.columns) }
{
    let mut parts = Vec::with_capacity(alloc, objects.len())?;
    for place in 0..objects.len() {
        parts.push(write_part(alloc, objects[place], numbers[place], values, references)?)?;
    }
    Ok(parts)
}

/// The objects that have these numbers, which are right.
fn parts_of<'a>(
    alloc: Global,
    values: FontValues<'a>,
    numbers: &[u32],
) -> Result<Vec<FontPart<'a>>, Error>
    requires { length numbers.now ≡ part_count values }
    ensures ok { IfOk result (λ parts. parts_view parts.items ≡ parts_of values.entry numbers.now) }
    ensures err { IfErr result (IsRefused values.entry.columns) }
{
    let objects = objects_of(alloc, values)?;
    let references = references_in(numbers, values);
    write_each(alloc, &objects, numbers, values, references)
}

/// The objects of a font as data, in the order of `write_objects`, with these numbers: as many as there are objects, distinct
/// and above 0, the first of the composite font.
///
/// # Errors
///
/// - `InvalidNumbers`: the numbers are others.
/// - `Subset`: there are more columns than CIDs (`OverflowError`), or a request for memory was refused (`OutOfMemory`).
pub fn write_parts<'a>(
    alloc: Global,
    values: FontValues<'a>,
    numbers: &[u32],
) -> Result<Vec<FontPart<'a>>, PartsError>
    ensures ok { IfOk result (λ parts. parts_view parts.items ≡ parts_of values.entry numbers.now) }
    ensures numbers { IfOk result (λ parts. are_numbers (part_count values.entry) numbers.now ≡ true) }
    ensures err { IfErr result (HasNoParts values.entry numbers.now) }
{
    if !are_numbers(part_count(values), numbers) {
        return Err(PartsError::InvalidNumbers);
    }
    match parts_of(alloc, values, numbers) {
        Ok(parts) => Ok(parts),
        Err(error) => Err(PartsError::Subset(error)),
    }
}

/// The value of an object, which a file has between `obj` and `endobj`: its entries in brackets, for a stream with Length, and
/// its bytes.
///
/// # Errors
///
/// `OutOfMemory` alone.
#[tactic(auto, using(crate::proofs::Written::three_after_nothing))]
pub fn part_value(alloc: Global, entries: &[u8], stream: Option<&[u8]>) -> Result<Vec<u8>, Error>
    ensures ok { IfOk result (λ text. text.items ≡ part_value entries.now (option_copied stream.entry)) }
    ensures err { IfErr result (λ e. e ≡ OutOfMemory) }
{
    let mut text = Vec::new(alloc);
    text.extend_from_slice(b"<< ")?;
    text.extend_from_slice(entries)?;
    write_value_end(&mut text, stream)?;
    Ok(text)
}

// ---- laws

/// With numbers from one on the parts are the objects that `write_objects` writes.
pub fn parts_are_objects()
    ensures { PartsAreObjects }
{}

/// Others refer to each part by its number.
pub fn parts_are_referred_to()
    ensures { PartsAreReferredTo }
{}
