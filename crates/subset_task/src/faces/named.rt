//! The coordinates of a named instance.

ghost use Rattle.std.specs.Prelude.{◌≡◌, ◌⊎◌, ◌++◌, false, map, drop, take, IfOk, IfErr, OnOk, Some, None, codes, is_some};
ghost use Rattle.std.specs.Option.{option_copied, option_map};
ghost use Rattle.subsetter_base.specs.Bytes.{number};
ghost use Rattle.subsetter_base.specs.declared.error.Error.TheVariants.{OutOfMemory, UnknownKind, MalformedFont};
ghost use Rattle.subsetter_sfnt.specs.Extras.{all_extras};
ghost use Rattle.subsetter_sfnt.specs.Read.{header_offset, stored};
ghost use Rattle.subset_task.specs.Faces.Named.{is_same_name, after_same, is_name_of, has_name, find_named, coordinate_in, settings_of, instance_settings, face_settings, name_after, before_next, names_after, line_of_names, records_of, with_more, few_names, names_line, face_names};
ghost use Rattle.subset_lines.specs.Faces.Names.{name_of, text_of_units};
ghost use Rattle.subset_task.specs.declared.refusals.failure.Failure.TheVariants.{Error as Refused, NoInstance};

use crate::faces::axes::names_of;
use crate::refusals::failure::Failure;
use std::alloc::{AllocError, Global};
use subset_lines::{FontAxes, NameTable, encoded, read_axes, text_of_name};
use subsetter::{Error, Tag};
use subsetter_base::fields::long_signed_in;
use subsetter_base::read::{Reader, after_four};
use subsetter_sfnt::directory::{header_offset, table};
use subsetter_variation::locations::axes::Axis;

/// What a name has after a text, which may differ from it in the case of ASCII letters. None where it doesn't begin so.
fn after_same<'a>(text: &[u8], name: &'a [u8]) -> Option<&'a [u8]>
    ensures { option_copied result ≡ after_same text.now name.now }
{
    let mut rest = name;
    for byte in text {
        let [first, following @ ..] = rest else {
            return None;
        };
        if !byte.eq_ignore_ascii_case(first) {
            return None;
        }
        rest = following;
    }
    Some(rest)
}

/// Whether the text of code units is a name, but for the case of ASCII letters. One character after another is compared.
fn is_text_of(units: &[u8], name: &[u8]) -> bool
    ensures { result ≡ is_same_name (text_of_units units.now) name.now }
{
    let mut left = name;
    let mut rest = units;
    while let [high, low, more @ ..] = rest {
        let mut room = [0; 4];
        match after_same(encoded(*high, *low, &mut room), left) {
            Some(following) => left = following,
            None => return false,
        }
        rest = more;
    }
    left.is_empty()
}

/// Whether the instance of a record has a name.
fn has_name(names: &NameTable<'_>, bytes: &[u8], name: &str) -> bool
    ensures { result ≡ has_name names.now name.now bytes.now }
{
    match names.of_instance(bytes) {
        Some(units) => is_text_of(units, name.as_bytes()),
        None => false,
    }
}

/// The number of the name of the instance of a record.
fn number_of(bytes: &[u8]) -> Option<u16>
    ensures { result ≡ number bytes.now 0 2 }
{
    Reader::new(bytes).read::<u16>()
}

/// Whether the instance of a record has a name, where the name of a number is known to be another.
#[tactic(auto, using(crate::proofs::FacesLaws::Naming::known_other))]
fn has_name_beside(other: Option<u16>, names: &NameTable<'_>, bytes: &[u8], name: &str) -> bool
    requires { is_name_of name.now (name_of names.now other) ≡ false }
    ensures { result ≡ has_name names.now name.now bytes.now }
{
    if number_of(bytes) == other {
        return false;
    }
    has_name(names, bytes, name)
}

/// The first of the records whose instance has a name. Of records in a row that have a name of one number the first is compared.
fn find_named<'a>(names: &NameTable<'_>, records: &[&'a [u8]], name: &str) -> Option<&'a [u8]>
    ensures { option_copied result ≡ find_named names.now name.now (map (λ bytes. bytes.now) records.now) }
{
    let mut other = None;
    for bytes in records {
        if has_name_beside(other, names, bytes, name) {
            return Some(*bytes);
        }
        other = number_of(bytes);
    }
    None
}

/// The coordinate of four bytes, in 65536ths, and 0 where they aren't there.
fn coordinate_of(bytes: &[u8]) -> i32
    ensures { result ≡ coordinate_in bytes.now }
{
    match long_signed_in(Some(bytes), 0) {
        Some(coordinate) => coordinate,
        None => 0,
    }
}

/// The coordinates of each axis, from the bytes after the flags of a record.
fn settings_of(alloc: Global, axes: &[Axis], bytes: &[u8]) -> Result<Vec<(Tag, i32)>, AllocError>
    ensures { IfOk result (λ v. v.items ≡ settings_of axes.now bytes.now) }
{
    let mut settings = Vec::new(alloc);
    let mut rest = bytes;
    for axis in axes {
        settings.push((axis.tag, coordinate_of(rest)))?;
        rest = after_four(rest);
    }
    Ok(settings)
}

/// The coordinates of the named instance of a name.
fn instance_settings(
    alloc: Global,
    all: &FontAxes<'_>,
    name: &str,
) -> Result<Vec<(Tag, i32)>, Failure>
    ensures ok { IfOk result (λ v. option_map (λ bytes. settings_of all.now.axes.items (drop 4 bytes)) (find_named all.now.names name.now (map (λ bytes. bytes.now) all.now.instances.items)) ≡ Some v.items) }
    ensures err { IfErr result (λ e. (e ≡ Refused OutOfMemory) ⊎ ((e ≡ NoInstance) × (find_named all.now.names name.now (map (λ bytes. bytes.now) all.now.instances.items) ≡ None))) }
{
    match find_named(&all.names, &all.instances, name) {
        Some(bytes) => match settings_of(alloc, &all.axes, after_four(bytes)) {
            Ok(settings) => Ok(settings),
            Err(_) => Err(Failure::Error(Error::OutOfMemory)),
        },
        None => Err(Failure::NoInstance),
    }
}

/// The coordinates of the named instance of a name, in 65536ths. Names are compared without the case of ASCII letters.
///
/// `UnknownKind` where the file has no font at the index, `MalformedFont` where `fvar` is cut, `NoInstance` where it has no
/// such instance.
pub fn face_settings(
    alloc: Global,
    font: &[u8],
    index: u32,
    name: &str,
) -> Result<Vec<(Tag, i32)>, Failure>
    ensures ok { IfOk result (λ v. face_settings (record { bytes = font.now; index = index; extras = all_extras }) name.now ≡ Some v.items) }
    ensures err { IfErr result (λ e. (e ≡ Refused OutOfMemory) ⊎ (((e ≡ Refused UnknownKind) ⊎ ((e ≡ Refused MalformedFont) ⊎ (e ≡ NoInstance))) × (face_settings (record { bytes = font.now; index = index; extras = all_extras }) name.now ≡ None))) }
{
    let Some(fvar) = table(font, index, Tag::new(b"fvar")) else {
        if header_offset(font, index).is_none() {
            return Err(Failure::Error(Error::UnknownKind));
        }
        return Err(Failure::NoInstance);
    };
    match read_axes(alloc, fvar, names_of(font, index)) {
        Ok(all) => instance_settings(alloc, &all, name),
        Err(error) => Err(Failure::Error(error)),
    }
}

/// Adds the name of the instance of a record, if it has one, after a text, and returns whether it has one.
fn push_name(
    text: &mut Vec<u8>,
    alloc: Global,
    before: &[u8],
    names: &NameTable<'_>,
    bytes: &[u8],
) -> Result<bool, AllocError>
    ensures text { OnOk result (text.new.items ≡ text.old.items ++ name_after before.now (name_of names.now (number bytes.now 0 2))) }
    ensures found { IfOk result (λ b. b ≡ is_some (name_of names.now (number bytes.now 0 2))) }
{
    let Some(found) = names.of_instance(bytes) else {
        return Ok(false);
    };
    let Ok(name) = text_of_name(alloc, found) else {
        return Err(AllocError);
    };
    text.extend_from_slice(before)?;
    text.extend_from_slice(&name)?;
    Ok(true)
}

/// What is before the next name, after one if there is one.
fn before_next(before: &[u8], found: bool) -> &[u8]
    ensures { result.now ≡ before_next before.now found }
{
    if found { b", " } else { before }
}

/// The names of the instances of records, the first after a text.
#[tactic(auto, using(crate::proofs::Steps::name_later))]
fn names_after(
    alloc: Global,
    front: &[u8],
    names: &NameTable<'_>,
    records: &[&[u8]],
) -> Result<Vec<u8>, AllocError>
    ensures { IfOk result (λ text. text.items ≡ names_after front.now names.now (map (λ bytes. bytes.now) records.now)) }
{
    let mut text = Vec::new(alloc);
    let mut before = front;
    for bytes in records {
        let found = push_name(&mut text, alloc, before, names, bytes)?;
        before = before_next(before, found);
    }
    Ok(text)
}

/// These names as a line, or that there are none.
fn line_of_names(mut text: Vec<u8>) -> Result<Vec<u8>, AllocError>
    ensures { IfOk result (λ line. line.items ≡ line_of_names text.items) }
{
    if text.is_empty() {
        text.extend_from_slice(NO_NAMES)?;
    } else {
        text.push(b'\n')?;
    }
    Ok(text)
}

/// The first twenty records.
fn few_records<'a, 'b>(records: &'b [&'a [u8]]) -> &'b [&'a [u8]]
    ensures { result.now ≡ take 20 records.now }
{
    records.get(..MOST_NAMES).unwrap_or(records)
}

/// A text, and how many more there are.
fn with_more(alloc: Global, mut text: Vec<u8>, more: usize) -> Result<Vec<u8>, AllocError>
    ensures { IfOk result (λ made. made.items ≡ with_more text.items more) }
{
    if more == 0 {
        return Ok(text);
    }
    let count = format!(in alloc; " and {more} more")?;
    text.extend_from_slice(count.as_bytes())?;
    Ok(text)
}

/// The line of the names of the first instances, and how many more there are.
fn few_names(alloc: Global, names: &NameTable<'_>, records: &[&[u8]]) -> Result<Vec<u8>, AllocError>
    ensures { IfOk result (λ line. line.items ≡ few_names names.now (map (λ bytes. bytes.now) records.now)) }
{
    let text = names_after(alloc, b"named instances: ", names, few_records(records))?;
    let text = with_more(alloc, text, records.len().saturating_sub(MOST_NAMES))?;
    line_of_names(text)
}

/// The line of the names of the instances in `fvar`.
fn names_of_fvar(alloc: Global, fvar: &[u8], names: &[u8]) -> Result<Vec<u8>, AllocError>
    ensures { IfOk result (λ line. line.items ≡ names_line names.now (records_of fvar.now)) }
{
    match read_axes(alloc, fvar, names) {
        Ok(all) => few_names(alloc, &all.names, &all.instances),
        Err(Error::OutOfMemory) => Err(AllocError),
        Err(_) => line_of_names(Vec::new(alloc)),
    }
}

/// The line that lists the names of the first twenty named instances of a face, `named instances: Regular, Semi Bold`, and says
/// how many more there are; or that there are none: it isn't variable, its `fvar` is cut, or none of them has a name.
pub fn instance_names(alloc: Global, font: &[u8], index: u32) -> Result<Vec<u8>, AllocError>
    ensures { IfOk result (λ line. line.items ≡ face_names (record { bytes = font.now; index = index; extras = all_extras })) }
{
    match table(font, index, Tag::new(b"fvar")) {
        Some(fvar) => names_of_fvar(alloc, fvar, names_of(font, index)),
        None => line_of_names(Vec::new(alloc)),
    }
}

/// The most instances that are listed.
const MOST_NAMES: usize = 20;

/// The line where there are no names.
const NO_NAMES: &[u8] = b"the font has no named instances\n";
