//! A text in UTF-8, UTF-16 or UTF-32.

ghost use Rattle.std.specs.Prelude.{◌≡◌, ◌⊎◌, ◌++◌, None, Some, true, false, IfOk, IfErr, OnOk};
ghost use Rattle.std.specs.Str.{encode_utf8_all};
ghost use Rattle.pdf_runs.specs.declared.error.RunError.TheVariants.{InvalidText, OutOfMemory};
ghost use Rattle.subsetter_pdf_c.specs.Entries.{are_scalars};
ghost use Rattle.subsetter_text_c.specs.declared.units.Units.TheVariants.{Utf8};
ghost use Rattle.subsetter_text_c.specs.Pairs.{said};
ghost use Rattle.subsetter_text_c.specs.Units.{AreCharactersOf, IsNoText, decoded, is_high, is_low, joined, next_high, read_alone, read_past, read_out, read_unit, unit_of};

use crate::pairs::said;
use pdf_runs::{RunError, Unit};
use std::alloc::{AllocError, Global};
use subsetter_pdf_c::are_scalars;

/// A text in units of 8, 16 or 32 bits.
#[derive(Clone, Copy)]
pub enum Units<'a> {
    /// UTF-8.
    Utf8(&'a [u8]),
    /// UTF-16.
    Utf16(&'a [u16]),
    /// UTF-32.
    Utf32(&'a [u32]),
}

/// What the units are.
pub fn unit_of(units: Units<'_>) -> Unit
    ensures { result ≡ unit_of units.entry }
{
    match units {
        Units::Utf8(_) => Unit::Utf8,
        Units::Utf16(_) => Unit::Utf16,
        Units::Utf32(_) => Unit::Utf32,
    }
}

// ---- UTF-8

/// The characters of a text.
fn collected(alloc: Global, text: &str) -> Result<Vec<char>, AllocError>
    ensures { IfOk result (λ v. encode_utf8_all v.items ≡ text.now) }
{
    text.chars().collect(alloc)
}

// ---- UTF-16

/// What a unit is.
#[derive(Clone, Copy)]
pub enum Read {
    /// The high surrogate of a character.
    High(u16),
    /// A character, or the end of one.
    Character(char),
}

/// Whether a unit is a high surrogate.
fn is_high(unit: u16) -> bool
    ensures { result ≡ is_high unit }
{
    0xD800 <= unit && unit < 0xDC00
}

/// Whether a unit is a low surrogate.
fn is_low(unit: u16) -> bool
    ensures { result ≡ is_low unit }
{
    0xDC00 <= unit && unit < 0xE000
}

/// The number of the character of a high surrogate and a low one.
fn joined(high: u16, low: u16) -> u32
    requires high { is_high high ≡ true }
    requires low { is_low low ≡ true }
    ensures { result ≡ joined high low }
{
    65_536 + (u32::from(high) - 0xD800) * 1024 + (u32::from(low) - 0xDC00)
}

/// What a unit is after a high surrogate.
fn read_past(high: u16, unit: u16) -> Option<Read>
    ensures { result ≡ read_past high unit }
{
    if !is_high(high) || !is_low(unit) {
        return None;
    }
    match said(joined(high, unit)) {
        Some(character) => Some(Read::Character(character)),
        None => None,
    }
}

/// What a unit is after a character.
fn read_alone(unit: u16) -> Option<Read>
    ensures { result ≡ read_alone unit }
{
    if is_high(unit) {
        return Some(Read::High(unit));
    }
    match said(u32::from(unit)) {
        Some(character) => Some(Read::Character(character)),
        None => None,
    }
}

/// What a unit is.
fn read_unit(high: Option<u16>, unit: u16) -> Option<Read>
    ensures { result ≡ read_unit high unit }
{
    match high {
        Some(high) => read_past(high, unit),
        None => read_alone(unit),
    }
}

/// The high surrogate after which the next unit is.
fn next_high(read: Read) -> Option<u16>
    ensures { result ≡ next_high read }
{
    match read {
        Read::High(unit) => Some(unit),
        Read::Character(_) => None,
    }
}

/// Puts a character after others, if one ends.
fn push_read(characters: &mut Vec<char>, read: Read) -> Result<(), AllocError>
    ensures { OnOk result (characters.new.items ≡ characters.old.items ++ read_out read) }
{
    match read {
        Read::High(_) => Ok(()),
        Read::Character(character) => {
            characters.push(character)?;
            Ok(())
        }
    }
}

/// The characters of a text in UTF-16.
#[tactic(auto, using(crate::proofs::UnitSteps::unit_read, crate::proofs::UnitSteps::unit_wrong, crate::proofs::UnitSteps::all_read, crate::proofs::UnitSteps::half_read))]
fn decoded(alloc: Global, units: &[u16]) -> Result<Vec<char>, RunError>
    ensures ok { IfOk result (λ v. decoded None units.now ≡ Some v.items) }
    ensures err { IfErr result (λ e. (e ≡ OutOfMemory) ⊎ ((e ≡ InvalidText) × (decoded None units.now ≡ None))) }
{
    let mut characters = Vec::with_capacity(alloc, units.len())?;
    let mut high = None;
    for unit in units {
        let read = match read_unit(high, *unit) {
            Some(read) => read,
            None => return Err(RunError::InvalidText),
        };
        push_read(&mut characters, read)?;
        high = next_high(read);
    }
    match high {
        Some(_) => Err(RunError::InvalidText),
        None => Ok(characters),
    }
}

// ---- all

/// The characters of bytes.
fn characters_of_bytes(alloc: Global, bytes: &[u8]) -> Result<Vec<char>, RunError>
    ensures ok { IfOk result (λ v. AreCharactersOf (Utf8 bytes.entry) v.items) }
    ensures err { IfErr result (λ e. (e ≡ OutOfMemory) ⊎ ((e ≡ InvalidText) × IsNoText (Utf8 bytes.entry))) }
{
    match str::from_utf8(bytes) {
        Ok(text) => Ok(collected(alloc, text)?),
        Err(_) => Err(RunError::InvalidText),
    }
}

/// The characters of numbers.
pub fn characters_of_numbers(alloc: Global, numbers: &[u32]) -> Result<Vec<char>, RunError>
    ensures ok { IfOk result (λ v. v.items ≡ numbers.now) }
    ensures scalars { OnOk result (are_scalars numbers.now ≡ true) }
    ensures err { IfErr result (λ e. (e ≡ OutOfMemory) ⊎ ((e ≡ InvalidText) × (are_scalars numbers.now ≡ false))) }
{
    if !are_scalars(numbers) {
        return Err(RunError::InvalidText);
    }
    match subsetter_pdf_c::characters_of(alloc, numbers) {
        Ok(characters) => Ok(characters),
        Err(_) => Err(RunError::OutOfMemory),
    }
}

/// The characters of a text.
///
/// # Errors
///
/// - `InvalidText`: the units are no text.
/// - `OutOfMemory`: a request for memory was refused.
pub fn characters_of(alloc: Global, units: Units<'_>) -> Result<Vec<char>, RunError>
    ensures ok { IfOk result (λ v. AreCharactersOf units.entry v.items) }
    ensures err { IfErr result (λ e. (e ≡ OutOfMemory) ⊎ ((e ≡ InvalidText) × IsNoText units.entry)) }
{
    match units {
        Units::Utf8(bytes) => characters_of_bytes(alloc, bytes),
        Units::Utf16(units) => decoded(alloc, units),
        Units::Utf32(numbers) => characters_of_numbers(alloc, numbers),
    }
}
