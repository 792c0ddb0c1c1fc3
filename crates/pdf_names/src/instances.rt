//! The named instance at a font's coordinates (OpenType, "fvar"), and its name (Technical Note 5902).

ghost use Rattle.std.specs.Prelude.{◌≡◌, ◌++◌, is_some, IfOk, IfErr};
ghost use Rattle.std.specs.Option.{option_and_then, option_copied};
ghost use Rattle.subsetter_base.specs.Bytes.{number};
ghost use Rattle.subsetter_base.specs.declared.error.Error.TheVariants.{OutOfMemory};
ghost use Rattle.pdf_names.specs.Instances.{after_coordinates, past_flags, hyphenated, instance_name, is_coordinate, is_own, names_or, own_id, own_name, record_from, record_in, subfamily};

use crate::letters::plain_name;
use pdf_values::table_name;
use std::alloc::Global;
use subsetter_base::read::{Reader, after_four};
use subsetter_base::{Error, Tag};
use subsetter_variation::fvar::{
    axes_array_offset, axis_count, axis_size, instance_count, instance_size,
};
use subsetter_variation::locations::axes::{Axis, clamped};

/// Whether bytes begin with the coordinate of an axis.
fn is_coordinate(axis: Axis, settings: &[(Tag, i32)], bytes: &[u8]) -> bool
    ensures { result ≡ is_coordinate axis settings.now (number bytes.now 0 4) }
{
    match Reader::new(bytes).read::<u32>() {
        Some(bits) => bits.cast_signed() == clamped(axis, settings),
        None => false,
    }
}

/// The bytes after the coordinates of all axes, where they are the font's.
fn after_coordinates<'a>(
    axes: &[Axis],
    settings: &[(Tag, i32)],
    bytes: &'a [u8],
) -> Option<&'a [u8]>
    ensures { option_copied result ≡ after_coordinates axes.now settings.now bytes.now }
{
    let mut rest = bytes;
    for axis in axes {
        if !is_coordinate(*axis, settings, rest) {
            return None;
        }
        rest = after_four(rest);
    }
    Some(rest)
}

/// The bytes after the coordinates of a record.
fn past_flags<'a>(axes: &[Axis], settings: &[(Tag, i32)], bytes: &'a [u8]) -> Option<&'a [u8]>
    ensures { option_copied result ≡ past_flags axes.now settings.now bytes.now }
{
    after_coordinates(axes, settings, after_four(bytes))
}

/// Whether a record has the font's coordinates.
fn is_there(axes: &[Axis], settings: &[(Tag, i32)], bytes: &[u8]) -> bool
    ensures { result ≡ is_some (past_flags axes.now settings.now bytes.now) }
{
    past_flags(axes, settings, bytes).is_some()
}

/// The first of `count` records that has the font's coordinates.
#[tactic(auto, using(crate::proofs::Records::record_here, crate::proofs::Records::record_later, crate::proofs::Records::record_cut))]
fn record_from<'a>(
    axes: &[Axis],
    settings: &[(Tag, i32)],
    fvar: &'a [u8],
    size: u16,
    count: u16,
    at: usize,
) -> Option<&'a [u8]>
    ensures { option_copied result ≡ record_from axes.now settings.now fvar.now size count at }
{
    let mut r = Reader::new_at(fvar, at);
    for i in 0..count {
        let bytes = r.read_bytes(usize::from(size))?;
        if is_there(axes, settings, bytes) {
            return Some(bytes);
        }
    }
    None
}

/// The first record that has the font's coordinates.
#[tactic(auto, unfolding(crate::specs::Instances::record_in))]
fn record_in<'a>(axes: &[Axis], settings: &[(Tag, i32)], fvar: &'a [u8]) -> Option<&'a [u8]>
    ensures { option_copied result ≡ record_in axes.now settings.now fvar.now }
{
    let at = axes_array_offset(fvar)?;
    let axis_count = axis_count(fvar)?;
    let axis_size = axis_size(fvar)?;
    let count = instance_count(fvar)?;
    let size = instance_size(fvar)?;
    let start = usize::from(at) + usize::from(axis_count) * usize::from(axis_size);
    record_from(axes, settings, fvar, size, count, start)
}

/// Whether an ID may be that of an instance's PostScript name.
fn is_own(id: u16) -> bool
    ensures { result ≡ is_own id }
{
    id == 6 || (id >= 256 && id < 32_768)
}

/// The ID of a record's PostScript name, if it has one.
fn own_id(axes: &[Axis], settings: &[(Tag, i32)], bytes: &[u8]) -> Option<u16>
    ensures { result ≡ own_id axes.now settings.now bytes.now }
{
    let rest = past_flags(axes, settings, bytes)?;
    Reader::new(rest).read::<u16>()
}

/// The PostScript name of an ID, if there is one.
#[tactic(auto, unfolding(crate::specs::Instances::own_name))]
fn own_name(alloc: Global, name: Option<&[u8]>, id: Option<u16>) -> Result<Vec<u8>, Error>
    ensures ok { IfOk result (λ text. text.items ≡ own_name (option_copied name.entry) id) }
    ensures err { IfErr result (λ e. e ≡ OutOfMemory) }
{
    match id {
        Some(id) if is_own(id) => table_name(alloc, id, name),
        _ => Ok(Vec::new(alloc)),
    }
}

/// The letters and digits of a record's subfamily name.
#[tactic(auto, unfolding(crate::specs::Instances::subfamily))]
fn subfamily(alloc: Global, name: Option<&[u8]>, bytes: &[u8]) -> Result<Vec<u8>, Error>
    ensures ok { IfOk result (λ text. text.items ≡ subfamily (option_copied name.entry) bytes.now) }
    ensures err { IfErr result (λ e. e ≡ OutOfMemory) }
{
    match Reader::new(bytes).read::<u16>() {
        Some(id) => plain_name(alloc, id, name),
        None => Ok(Vec::new(alloc)),
    }
}

/// A prefix, `-` and a subfamily, if it has characters.
fn hyphenated(alloc: Global, front: &[u8], subfamily: &[u8]) -> Result<Vec<u8>, Error>
    ensures ok { IfOk result (λ text. text.items ≡ hyphenated front.now subfamily.now) }
    ensures err { IfErr result (λ e. e ≡ OutOfMemory) }
{
    let mut text = Vec::new(alloc);
    if subfamily.is_empty() {
        return Ok(text);
    }
    text.extend_from_slice(front)?;
    text.extend_from_slice(b"-")?;
    text.extend_from_slice(subfamily)?;
    Ok(text)
}

/// The PostScript name, else the prefix with the subfamily.
#[tactic(auto, unfolding(crate::specs::Instances::names_or), using(pdf_values::proofs::Strings::or_kept, pdf_values::proofs::Strings::or_passed))]
fn names_or(
    alloc: Global,
    name: Option<&[u8]>,
    front: &[u8],
    id: Option<u16>,
    bytes: &[u8],
) -> Result<Vec<u8>, Error>
    ensures ok { IfOk result (λ text. text.items ≡ names_or (option_copied name.entry) front.now id bytes.now) }
    ensures err { IfErr result (λ e. e ≡ OutOfMemory) }
{
    let text = own_name(alloc, name, id)?;
    if text.is_empty() {
        let subfamily = subfamily(alloc, name, bytes)?;
        return hyphenated(alloc, front, &subfamily);
    }
    Ok(text)
}

/// The record of the named instance at the font's coordinates.
fn found<'a>(axes: &[Axis], settings: &[(Tag, i32)], fvar: Option<&'a [u8]>) -> Option<&'a [u8]>
    ensures { option_copied result ≡ option_and_then (record_in axes.now settings.now) (option_copied fvar.entry) }
{
    record_in(axes, settings, fvar?)
}

/// The name of the named instance at the font's coordinates, or no characters.
pub fn instance_name(
    alloc: Global,
    name: Option<&[u8]>,
    front: &[u8],
    axes: &[Axis],
    settings: &[(Tag, i32)],
    fvar: Option<&[u8]>,
) -> Result<Vec<u8>, Error>
    ensures ok { IfOk result (λ text. text.items ≡ instance_name (option_copied name.entry) front.now axes.now settings.now (option_copied fvar.entry)) }
    ensures err { IfErr result (λ e. e ≡ OutOfMemory) }
{
    match found(axes, settings, fvar) {
        Some(bytes) => names_or(alloc, name, front, own_id(axes, settings, bytes), bytes),
        None => Ok(Vec::new(alloc)),
    }
}
