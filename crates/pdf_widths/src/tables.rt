//! A table with other widths.

ghost use Rattle.std.specs.Prelude.{◌≡◌, ◌≤◌, ◌++◌, length, true, Ok, IfOk, IfErr};
ghost use Rattle.std.specs.Option.{option_copied, option_map};
ghost use Rattle.subsetter_base.specs.Gives.{Gives};
ghost use Rattle.subsetter_base.specs.declared.error.Error.TheVariants.{OutOfMemory};
ghost use Rattle.subsetter_cffdata.specs.Indexes.Owned.{views};
ghost use Rattle.subsetter_cff.specs.Read.Cff.{char_string};
ghost use Rattle.subsetter_cff.specs.Read.Source.{cff_of, IsSource};
ghost use Rattle.pdf_widths.specs.Change.{text};
ghost use Rattle.pdf_widths.specs.Defaults.{all_defaults};
ghost use Rattle.pdf_widths.specs.Tables.{are_as_many, change_in, charstring_in, charstrings_from, differs_from, front, laid_out, rebuilt, with_widths, with_widths_of};
ghost use Rattle.pdf_widths.specs.View.{change_view};

use crate::changing::{Change, change_of, text};
use crate::defaults::{Defaults, all_defaults, glyph_defaults};
use pdf_cff::unless_memory;
use std::alloc::Global;
use subsetter_base::Error;
use subsetter_base::write::Writer;
use subsetter_cff::read::source::Table;
use subsetter_cffdata::indexes::index::write_index;

/// The charstring of a glyph.
fn charstring_of<'a>(table: &Table<'a>, glyph: u16) -> Option<&'a [u8]>
    requires { IsSource table.now }
    ensures { option_copied result ≡ char_string (cff_of table.now) glyph }
{
    table.char_strings.get(u32::from(glyph))
}

/// What the charstring of a glyph becomes; none where it stays as it is.
#[tactic(auto, unfolding(crate::specs::Tables::change_in))]
fn change_in<'a>(
    table: &Table<'a>,
    all: &[Defaults],
    glyph: u16,
    advance: u16,
) -> Option<Change<'a>>
    requires source { IsSource table.now }
    requires all { all.now ≡ all_defaults table.now }
    ensures { option_map change_view result ≡ change_in (cff_of table.now) glyph advance }
{
    let charstring = charstring_of(table, glyph)?;
    let defaults = glyph_defaults(table, all, glyph)?;
    change_of(defaults, advance, charstring)
}

/// Whether the charstring of a glyph becomes another one.
#[tactic(auto, using(crate::proofs::Loops::differs_here, crate::proofs::Loops::differs_later, crate::proofs::Loops::differs_never))]
fn differs(table: &Table<'_>, all: &[Defaults], advances: &[u16]) -> bool
    requires source { IsSource table.now }
    requires all { all.now ≡ all_defaults table.now }
    requires few { length advances.now ≤ 65535 }
    ensures { result ≡ differs_from (cff_of table.now) 0 advances.now }
{
    for (glyph, advance) in advances.iter().enumerate() {
        if change_in(table, all, glyph as u16, *advance).is_some() {
            return true;
        }
    }
    false
}

/// The charstring of a glyph, which may become another one; none where it can't be read.
fn charstring_in(
    alloc: Global,
    table: &Table<'_>,
    all: &[Defaults],
    glyph: u16,
    advance: u16,
) -> Result<Option<Vec<u8>>, Error>
    requires source { IsSource table.now }
    requires all { all.now ≡ all_defaults table.now }
    ensures ok { IfOk result (λ o. option_map (λ v. v.items) o ≡ charstring_in (cff_of table.now) glyph advance) }
    ensures err { IfErr result (λ e. e ≡ OutOfMemory) }
{
    if let Some(change) = change_in(table, all, glyph, advance) {
        return Ok(Some(text(alloc, &change)?));
    }
    match charstring_of(table, glyph) {
        Some(charstring) => Ok(Some(Vec::from_slice(alloc, charstring)?)),
        None => Ok(None),
    }
}

/// The charstrings of glyphs with these advances; none where one can't be read.
#[tactic(auto, using(crate::proofs::Loops::charstrings_more, crate::proofs::Loops::charstrings_stop, crate::proofs::Loops::charstrings_done))]
fn charstrings_in(
    alloc: Global,
    table: &Table<'_>,
    all: &[Defaults],
    advances: &[u16],
) -> Result<Option<Vec<Vec<u8>>>, Error>
    requires source { IsSource table.now }
    requires all { all.now ≡ all_defaults table.now }
    requires few { length advances.now ≤ 65535 }
    ensures ok { IfOk result (λ o. option_map (λ v. views v.items) o ≡ charstrings_from (cff_of table.now) 0 advances.now) }
    ensures err { IfErr result (λ e. e ≡ OutOfMemory) }
{
    let mut charstrings = Vec::with_capacity(alloc, advances.len())?;
    for (glyph, advance) in advances.iter().enumerate() {
        match charstring_in(alloc, table, all, glyph as u16, *advance)? {
            Some(charstring) => charstrings.push(charstring)?,
            None => return Ok(None),
        }
    }
    Ok(Some(charstrings))
}

/// A table whose CharStrings INDEX, at its end, has these charstrings; none where they are too long for an INDEX.
fn laid_out(alloc: Global, front: &[u8], charstrings: &[Vec<u8>]) -> Result<Option<Vec<u8>>, Error>
    ensures ok { IfOk result (λ o. option_map (λ v. v.items) o ≡ laid_out front.now (views charstrings.now)) }
    ensures err { IfErr result (λ e. e ≡ OutOfMemory) }
{
    let mut w = Writer::with_capacity(alloc, front.len())?;
    w.extend(front)?;
    match write_index(charstrings, &mut w) {
        Ok(()) => Ok(Some(w.finish())),
        Err(error) => {
            unless_memory(error)?;
            Ok(None)
        }
    }
}

/// What is before the CharStrings INDEX.
fn front<'a>(table: &Table<'a>) -> Option<&'a [u8]>
    requires { IsSource table.now }
    ensures { option_copied result ≡ front (cff_of table.now) }
{
    let bytes = table.front.bytes;
    let place = table.top.char_strings?;
    Some(bytes.get(..place).unwrap_or(bytes))
}

/// The table with these advances.
#[tactic(auto, unfolding(crate::specs::Tables::rebuilt))]
fn rebuilt(
    alloc: Global,
    table: &Table<'_>,
    all: &[Defaults],
    advances: &[u16],
) -> Result<Option<Vec<u8>>, Error>
    requires source { IsSource table.now }
    requires all { all.now ≡ all_defaults table.now }
    requires few { length advances.now ≤ 65535 }
    ensures ok { IfOk result (λ o. option_map (λ v. v.items) o ≡ rebuilt (cff_of table.now) advances.now) }
    ensures err { IfErr result (λ e. e ≡ OutOfMemory) }
{
    let Some(front) = front(table) else {
        return Ok(None);
    };
    let Some(charstrings) = charstrings_in(alloc, table, all, advances)? else {
        return Ok(None);
    };
    laid_out(alloc, front, &charstrings)
}

/// Whether there are as many charstrings as advances.
fn are_as_many(table: &Table<'_>, advances: &[u16]) -> bool
    requires { IsSource table.now }
    ensures value { result ≡ are_as_many (cff_of table.now) advances.now }
    ensures few { result ≡ true → length advances.now ≤ 65535 }
{
    table.char_strings.len() as usize == advances.len() && advances.len() < 65536
}

/// The table with these advances, if a charstring becomes another one.
fn with_widths_of(
    alloc: Global,
    table: &Table<'_>,
    advances: &[u16],
) -> Result<Option<Vec<u8>>, Error>
    requires { IsSource table.now }
    ensures ok { IfOk result (λ o. option_map (λ v. v.items) o ≡ with_widths_of (cff_of table.now) advances.now) }
    ensures err { IfErr result (λ e. e ≡ OutOfMemory) }
{
    if !are_as_many(table, advances) {
        return Ok(None);
    }
    let all = all_defaults(alloc, table)?;
    if !differs(table, &all, advances) {
        return Ok(None);
    }
    rebuilt(alloc, table, &all, advances)
}

/// A table whose CharStrings INDEX is at its end, with these advances of its glyphs, in the font's units: where a charstring says another
/// one, its width is replaced. None where no charstring becomes another one.
///
/// # Errors
///
/// `OutOfMemory` alone.
#[tactic(auto, unfolding(crate::specs::Tables::with_widths))]
pub fn with_widths(alloc: Global, bytes: &[u8], advances: &[u16]) -> Result<Option<Vec<u8>>, Error>
    ensures value { Gives (λ o. option_map (λ v. v.items) o) result (Ok (with_widths bytes.now advances.now)) }
    ensures err { IfErr result (λ e. e ≡ OutOfMemory) }
{
    match Table::parse(alloc, bytes) {
        Ok(table) => with_widths_of(alloc, &table, advances),
        Err(error) => {
            unless_memory(error)?;
            Ok(None)
        }
    }
}
