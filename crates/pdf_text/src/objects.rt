//! The indirect objects of a font (ISO 32000-1, 7.3.8 and 7.3.10).

ghost use Rattle.std.specs.Prelude.{◌≡◌, ◌<◌, ◌≤◌, ◌+◌, ◌^◌, ◌++◌, ◌⊎◌, IfErr, IfOk, OnOk, length};
ghost use Rattle.std.specs.List.{concat};
ghost use Rattle.std.specs.Option.{option_copied};
ghost use Rattle.subsetter_base.specs.declared.error.Error.TheVariants.{OutOfMemory, OverflowError};
ghost use Rattle.pdf_text.specs.Dictionaries.Entries.{dictionary};
ghost use Rattle.pdf_text.specs.Dictionaries.Widths.{HasManyColumns, IsRefused};
ghost use Rattle.pdf_text.specs.Objects.{AreDictionaries, entries_of, bytes_of, text_of_cmap, stream_end, value_end, value_of, object_text, when, objects_of, references_from, objects_from, offsets_from, values_of, font_objects, AreFontObjectsAt, AreAt, AreReferredTo, IsDictionaryWhen, before_cmap, before_set, most_objects};

use crate::cmaps::lines::write_count;
use crate::dictionaries::descriptor::write_descriptor;
use crate::dictionaries::entries::write_size;
use crate::dictionaries::fonts::{write_cid_font, write_font};
use crate::dictionaries::streams::{write_cmap, write_program};
use crate::values::{FontValues, OwnCmap, References};
use std::alloc::Global;
use subsetter_base::Error;

/// An object of a font.
#[derive(Clone, Copy)]
pub enum Object {
    Font,
    CidFont,
    FontDescriptor,
    FontFile,
    ToUnicode,
    CidToGidMap,
    CidSet,
    Cmap,
}

/// Objects one after the other, and where each begins.
#[derive(Drop)]
pub struct FontObjects {
    pub text: Vec<u8>,
    /// Where each object begins, in bytes from the beginning of the text; the first has the number that was given, each other the next.
    pub offsets: Vec<usize>,
}

// ---- one object

/// Writes the entries of an object's dictionary, but for a stream's Length.
pub(crate) fn write_entries(
    alloc: Global,
    text: &mut Vec<u8>,
    object: Object,
    values: FontValues<'_>,
    references: References,
) -> Result<(), Error>
    ensures ok { OnOk result (text.new.items ≡ text.old.items ++ entries_of object values.entry references) }
    ensures err { IfErr result (IsRefused values.entry.columns) }
{
    match object {
        Object::Font => write_font(text, values, references),
        Object::CidFont => write_cid_font(alloc, text, values, references),
        Object::FontDescriptor => write_descriptor(text, values, references),
        Object::FontFile => write_program(text, values.kind, values.program.len()),
        Object::ToUnicode | Object::CidToGidMap | Object::CidSet => Ok(()),
        Object::Cmap => write_cmap(text, values.encoding, values.columns.is_some()),
    }
}

/// The bytes of a CMap of a font's own.
fn text_of_cmap(encoding: Option<OwnCmap<'_>>) -> Option<&[u8]>
    ensures { option_copied result ≡ text_of_cmap encoding.entry }
{
    match encoding {
        Some(cmap) => Some(cmap.text),
        None => None,
    }
}

/// The bytes of an object that is a stream.
pub(crate) fn bytes_of<'a>(object: Object, values: FontValues<'a>) -> Option<&'a [u8]>
    ensures { option_copied result ≡ bytes_of object values.entry }
{
    match object {
        Object::Font | Object::CidFont | Object::FontDescriptor => None,
        Object::FontFile => Some(values.program),
        Object::ToUnicode => Some(values.to_unicode),
        Object::CidToGidMap => values.cid_to_gid_map,
        Object::CidSet => values.cid_set,
        Object::Cmap => text_of_cmap(values.encoding),
    }
}

/// Writes the end of a stream's dictionary, and its bytes.
#[tactic(auto, using(crate::proofs::Written::four_written))]
fn write_stream(text: &mut Vec<u8>, bytes: &[u8]) -> Result<(), Error>
    ensures ok { OnOk result (text.new.items ≡ text.old.items ++ stream_end bytes.now) }
    ensures err { IfErr result (λ e. e ≡ OutOfMemory) }
{
    write_size(text, b"Length", bytes.len())?;
    text.extend_from_slice(b">>\nstream\n")?;
    text.extend_from_slice(bytes)?;
    text.extend_from_slice(b"\nendstream")?;
    Ok(())
}

/// Writes the end of a dictionary, and a stream's bytes.
pub(crate) fn write_value_end(text: &mut Vec<u8>, bytes: Option<&[u8]>) -> Result<(), Error>
    ensures ok { OnOk result (text.new.items ≡ text.old.items ++ value_end (option_copied bytes.entry)) }
    ensures err { IfErr result (λ e. e ≡ OutOfMemory) }
{
    match bytes {
        Some(bytes) => write_stream(text, bytes),
        None => {
            text.extend_from_slice(b">>")?;
            Ok(())
        }
    }
}

/// Writes the value of an object.
#[tactic(auto, using(crate::proofs::Written::three_written))]
fn write_value(
    alloc: Global,
    text: &mut Vec<u8>,
    object: Object,
    values: FontValues<'_>,
    references: References,
) -> Result<(), Error>
    ensures ok { OnOk result (text.new.items ≡ text.old.items ++ value_of object values.entry references) }
    ensures err { IfErr result (IsRefused values.entry.columns) }
{
    text.extend_from_slice(b"<< ")?;
    write_entries(alloc, text, object, values, references)?;
    write_value_end(text, bytes_of(object, values))
}

/// Writes an object with its number.
#[tactic(auto, using(crate::proofs::Written::four_written))]
fn write_object(
    alloc: Global,
    text: &mut Vec<u8>,
    number: u32,
    object: Object,
    values: FontValues<'_>,
    references: References,
) -> Result<(), Error>
    ensures ok { OnOk result (text.new.items ≡ text.old.items ++ object_text number (value_of object values.entry references)) }
    ensures err { IfErr result (IsRefused values.entry.columns) }
{
    write_count(text, number as usize)?;
    text.extend_from_slice(b" 0 obj\n")?;
    write_value(alloc, text, object, values, references)?;
    text.extend_from_slice(b"\nendobj\n")?;
    Ok(())
}

// ---- all objects

/// Puts an object after others, if it is wanted.
fn push_when(objects: &mut Vec<Object>, wanted: bool, object: Object) -> Result<(), Error>
    ensures ok { OnOk result (objects.new.items ≡ objects.old.items ++ when wanted object) }
    ensures err { IfErr result (λ e. e ≡ OutOfMemory) }
{
    if wanted {
        objects.push(object)?;
    }
    Ok(())
}

/// The objects of a font, in their order.
pub(crate) fn objects_of(alloc: Global, values: FontValues<'_>) -> Result<Vec<Object>, Error>
    ensures ok { IfOk result (λ objects. objects.items ≡ objects_of values.entry) }
    ensures err { IfErr result (λ e. e ≡ OutOfMemory) }
{
    let mut objects = Vec::from_slice(
        alloc,
        &[
            Object::Font,
            Object::CidFont,
            Object::FontDescriptor,
            Object::FontFile,
            Object::ToUnicode,
        ],
    )?;
    push_when(
        &mut objects,
        values.cid_to_gid_map.is_some(),
        Object::CidToGidMap,
    )?;
    push_when(&mut objects, values.cid_set.is_some(), Object::CidSet)?;
    push_when(&mut objects, values.encoding.is_some(), Object::Cmap)?;
    Ok(objects)
}

/// How many objects are before a CIDSet: five, and a CIDToGIDMap if it is a stream.
pub(crate) fn before_set(has_map: bool) -> usize
    ensures is { result ≡ before_set has_map }
    ensures few { result ≤ 6 }
{
    if has_map { 6 } else { 5 }
}

/// How many objects are before a CMap: a CIDSet, too, if there is one.
pub(crate) fn before_cmap(has_map: bool, has_cid_set: bool) -> usize
    ensures is { result ≡ before_cmap has_map has_cid_set }
    ensures few { result ≤ 7 }
{
    let before = before_set(has_map);
    if has_cid_set { before + 1 } else { before }
}

/// How many objects a font has at most, with a CIDToGIDMap as a stream or without.
pub fn most_objects(values: FontValues<'_>) -> u32
    ensures is { result ≡ most_objects values.entry }
    ensures few { result ≤ 8 }
{
    if values.cid_to_gid_map.is_some() {
        8
    } else {
        7
    }
}

/// The numbers of objects, of which the first has this one.
fn references_from(first: u32, values: FontValues<'_>) -> References
    requires { first + most_objects values < 2 ^ 32 }
    ensures { result ≡ references_from first values.entry }
{
    let has_map = values.cid_to_gid_map.is_some();
    References {
        cid_font: first + 1,
        descriptor: first + 2,
        program: first + 3,
        to_unicode: first + 4,
        cid_to_gid_map: first + 5,
        cid_set: first + before_set(has_map) as u32,
        encoding: first + before_cmap(has_map, values.cid_set.is_some()) as u32,
    }
}

/// Writes objects one after the other, the first with this number.
fn write_all(
    alloc: Global,
    first: u32,
    objects: &[Object],
    values: FontValues<'_>,
    references: References,
) -> Result<FontObjects, Error>
    requires { first + length objects.now < 2 ^ 32 }
    ensures text { IfOk result (λ o. o.text.items ≡ concat (objects_from first (values_of values.entry references objects.now))) }
    ensures offsets { IfOk result (λ o. o.offsets.items ≡ offsets_from 0 (objects_from first (values_of values.entry references objects.now))) }
    ensures err { IfErr result (IsRefused values.entry.columns) }
{
    let mut text = Vec::new(alloc);
    let mut offsets = Vec::new(alloc);
    let mut number = first;
    for object in objects {
        offsets.push(text.len())?;
        write_object(alloc, &mut text, number, *object, values, references)?;
        number += 1;
    }
    Ok(FontObjects { text, offsets })
}

/// Whether the numbers of `most` objects from `first` on fit 32 bits.
fn checked(first: u32, most: u32) -> Result<(), Error>
    ensures ok { OnOk result (first + most < 2 ^ 32) }
    ensures err { IfErr result (λ e. (e ≡ OverflowError) × (2 ^ 32 ≤ first + most)) }
{
    if first > u32::MAX - most {
        return Err(Error::OverflowError);
    }
    Ok(())
}

/// The objects of a font, whole, one after the other, with numbers from `first` on: the composite font, its CIDFont, the font
/// descriptor, the font program, ToUnicode, CIDToGIDMap if it is a stream, CIDSet if there is one, and the CMap if the file has
/// its own. `first` is above 0, and each number has generation 0. For files that aren't encrypted: streams are as they are, with
/// no filter.
///
/// # Errors
///
/// - `OverflowError`: seven numbers from `first` on don't fit 32 bits, eight with a CIDToGIDMap as a stream, or there are more
///   columns than CIDs.
/// - `OutOfMemory`: a request for memory was refused.
#[tactic(auto, using(crate::proofs::ObjectLaws::Counts::few_objects))]
pub fn write_objects(
    alloc: Global,
    values: FontValues<'_>,
    first: u32,
) -> Result<FontObjects, Error>
    ensures text { IfOk result (λ o. o.text.items ≡ concat (font_objects first values.entry)) }
    ensures offsets { IfOk result (λ o. o.offsets.items ≡ offsets_from 0 (font_objects first values.entry)) }
    ensures at { IfOk result (λ o. AreFontObjectsAt first values.entry o.text.items o.offsets.items) }
    ensures err { IfErr result (λ e. (e ≡ OutOfMemory) ⊎ ((e ≡ OverflowError) × ((2 ^ 32 ≤ first + most_objects values.entry) ⊎ HasManyColumns values.entry.columns))) }
{
    checked(first, most_objects(values))?;
    let objects = objects_of(alloc, values)?;
    write_all(
        alloc,
        first,
        &objects,
        values,
        references_from(first, values),
    )
}

/// Each object is between its offset and that of the next, whatever the objects are.
pub fn objects_are_at()
    ensures { AreAt }
{}

/// Each object is referred to by the number that it has.
pub fn objects_are_referred_to()
    ensures { AreReferredTo }
{}

// ---- dictionaries alone

/// The texts of a font's dictionaries. Those of streams are without Length and Filter, which the writer of the file adds.
#[derive(Drop)]
pub struct FontDictionaries {
    pub font: Vec<u8>,
    pub cid_font: Vec<u8>,
    pub descriptor: Vec<u8>,
    pub program: Vec<u8>,
    pub to_unicode: Vec<u8>,
    pub cid_to_gid_map: Option<Vec<u8>>,
    pub cid_set: Option<Vec<u8>>,
    pub encoding: Option<Vec<u8>>,
}

/// The dictionary of an object.
#[tactic(auto, using(crate::proofs::Written::three_after_nothing))]
fn dictionary_of(
    alloc: Global,
    object: Object,
    values: FontValues<'_>,
    references: References,
) -> Result<Vec<u8>, Error>
    ensures ok { IfOk result (λ text. text.items ≡ dictionary (entries_of object values.entry references)) }
    ensures err { IfErr result (IsRefused values.entry.columns) }
{
    let mut text = Vec::new(alloc);
    text.extend_from_slice(b"<< ")?;
    write_entries(alloc, &mut text, object, values, references)?;
    text.extend_from_slice(b">>")?;
    Ok(text)
}

/// The dictionary of an object that a font may lack.
fn dictionary_when(
    alloc: Global,
    wanted: bool,
    object: Object,
    values: FontValues<'_>,
    references: References,
) -> Result<Option<Vec<u8>>, Error>
    ensures ok { IfOk result (λ text. IsDictionaryWhen wanted (entries_of object values.entry references) text) }
    ensures err { IfErr result (IsRefused values.entry.columns) }
{
    if wanted {
        return Ok(Some(dictionary_of(alloc, object, values, references)?));
    }
    Ok(None)
}

/// The dictionaries of a font's objects, whose numbers the writer of the file chose.
///
/// # Errors
///
/// - `OverflowError`: there are more columns than CIDs.
/// - `OutOfMemory`: a request for memory was refused.
pub fn write_dictionaries(
    alloc: Global,
    values: FontValues<'_>,
    references: References,
) -> Result<FontDictionaries, Error>
    ensures ok { IfOk result (AreDictionaries values.entry references) }
    ensures err { IfErr result (IsRefused values.entry.columns) }
{
    Ok(FontDictionaries {
        font: dictionary_of(alloc, Object::Font, values, references)?,
        cid_font: dictionary_of(alloc, Object::CidFont, values, references)?,
        descriptor: dictionary_of(alloc, Object::FontDescriptor, values, references)?,
        program: dictionary_of(alloc, Object::FontFile, values, references)?,
        to_unicode: dictionary_of(alloc, Object::ToUnicode, values, references)?,
        cid_to_gid_map: dictionary_when(
            alloc,
            values.cid_to_gid_map.is_some(),
            Object::CidToGidMap,
            values,
            references,
        )?,
        cid_set: dictionary_when(
            alloc,
            values.cid_set.is_some(),
            Object::CidSet,
            values,
            references,
        )?,
        encoding: dictionary_when(
            alloc,
            values.encoding.is_some(),
            Object::Cmap,
            values,
            references,
        )?,
    })
}
