//! Vertical stems of the private dicts of font dicts, which may overlap.

ghost use Rattle.std.specs.Prelude.{◌≡◌, ◌<◌, [], ◌∷◌, IfOk, IfErr, map};
ghost use Rattle.std.specs.Option.{option_copied, option_map};
ghost use Rattle.subsetter_base.specs.declared.error.Error.TheVariants.{OutOfMemory};
ghost use Rattle.subsetter_cffdata.specs.Views.{number_of};
ghost use Rattle.subsetter_cff.specs.Read.Entries.FirstEntries.{AreCellsIfAny};
ghost use Rattle.subsetter_cff.specs.Read.FdArray.PrivateView.{private_view};
ghost use Rattle.pdf_cff.specs.DictStems.{joined, stem_one, stem_saying, IsDictIn, AreDictsIn};
ghost use Rattle.pdf_cff.specs.Stems.{stem_in};
ghost use Rattle.pdf_cff.specs.Values.{first_stem};

use crate::stems::{is_stem, stem_by_width, stem_in};
use std::alloc::Global;
use subsetter_base::Error;
use subsetter_cff::read::entries::first_entries::{Cell, Search, cells_for_dicts, find_first};
use subsetter_cff::read::source::FontDict;
use subsetter_cffdata::dicts::operator::Operator;
use subsetter_cffdata::numerals::number::Number;

/// StdVW entries, of which each says its stem, if it is above 0.
#[derive(Drop)]
struct StemSearch {
    units: u16,
    ghost above: { 0 < units },
}

/// The stem that an operand says.
fn stem_one(units: u16, operand: Option<&Number>) -> Option<u32>
    requires { 0 < units }
    ensures { result ≡ stem_one units (option_map number_of (option_copied operand.entry)) }
{
    stem_by_width(units, operand?)
}

impl Search for StemSearch {
    ghost use Rattle.pdf_cff.specs.DictStems.{stem_saying};

    ghost saying = { λ s. stem_saying s.units };

    fn said(&self, operator: &Operator, operand: Option<&Number>) -> Option<Option<u32>> {
        if !is_stem(operator) {
            return None;
        }
        let stem = stem_one(self.units, operand)?;
        Some(Some(stem))
    }
}

/// The stem that is said, if one is.
fn joined(said: Option<Option<u32>>) -> Option<u32>
    ensures { result ≡ joined said }
{
    said?
}

/// That of the private dict of a font dict, by the cells of the table if there are any.
fn stem_of_dict(units: u16, bytes: &[u8], cells: &[Cell], dict: &FontDict<'_>) -> Option<u32>
    requires units { 0 < units }
    requires cells { AreCellsIfAny (stem_saying units) bytes.now cells.now }
    requires dict { IsDictIn bytes.now dict.now }
    ensures { result ≡ stem_in units (private_view dict.now.private).entries }
{
    if cells.len() == 0 {
        return stem_in(units, dict.private.dict);
    }
    match &dict.entries.private {
        None => None,
        Some(place) => joined(find_first(cells, place.start, place.end)),
    }
}

/// How many bytes the private dicts have together. No answer depends on it.
fn private_bytes(dicts: &[FontDict<'_>]) -> usize {
    let mut bytes: usize = 0;
    for dict in dicts {
        bytes = bytes.saturating_add(dict.private.dict.len());
    }
    bytes
}

/// The first stem of the font dicts of a table.
pub fn first_stem_in(
    alloc: Global,
    units: u16,
    bytes: &[u8],
    dicts: &[FontDict<'_>],
) -> Result<Option<u32>, Error>
    requires units { 0 < units }
    requires dicts { AreDictsIn bytes.now dicts.now }
    ensures ok { IfOk result (λ stem. stem ≡ first_stem units (map (λ f. private_view f.private) dicts.now)) }
    ensures err { IfErr result (λ e. e ≡ OutOfMemory) }
{
    let search = StemSearch { units };
    let cells = cells_for_dicts(alloc, bytes, &search, private_bytes(dicts))?;
    for dict in dicts {
        if let Some(stem) = stem_of_dict(units, bytes, &cells, dict) {
            return Ok(Some(stem));
        }
    }
    Ok(None)
}
