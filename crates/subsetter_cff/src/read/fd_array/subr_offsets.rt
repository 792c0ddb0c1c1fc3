//! Where private dicts have their local subroutines (Technical Note 5176, sections 15 and 16).
//!
//! Each dict is read from its start. Where the dicts of a table are together longer than the table, so that they overlap,
//! the table is read once, from its end.

ghost use Rattle.std.specs.Prelude.{◌≡◌, ◌-◌, ◌≤◌, length, take, drop, IfOk, IfErr};
ghost use Rattle.std.specs.Option.{option_copied, option_map, option_and_then};
ghost use Rattle.subsetter_base.specs.declared.error.Error.TheVariants.{OutOfMemory};
ghost use Rattle.subsetter_cffdata.specs.Dicts.Dict.{entries};
ghost use Rattle.subsetter_cffdata.specs.Numerals.Numbers.{as_u32};
ghost use Rattle.subsetter_cffdata.specs.Views.{number_of};
ghost use Rattle.subsetter_cff.specs.Read.Entries.Operators.{subroutines_operator};
ghost use Rattle.subsetter_cff.specs.Read.Entries.TopDicts.{first_offset};
ghost use Rattle.subsetter_cff.specs.Read.FdArray.SubrSayings.{joined};

use crate::read::entries::first_entries::{Cell, Search, cells_for_dicts, find_first};
use crate::read::entries::operators::same_operator;
use std::alloc::Global;
use std::marker::Model;
use subsetter_base::error::Error;
use subsetter_cffdata::dicts::dict::DictionaryParser;
use subsetter_cffdata::dicts::dict::operators::SUBRS;
use subsetter_cffdata::dicts::operator::Operator;
use subsetter_cffdata::numerals::number::Number;

/// The offset of the local subroutines, from the private dict's start; with wrong operands it means none. Two operands
/// are enough to know whether there is just one.
pub fn parse_subr_offset(dict: &[u8]) -> Option<usize>
    ensures { result ≡ first_offset subroutines_operator (entries dict.now) }
{
    let mut buffer = [Number::zero(); 2];
    let mut parser = DictionaryParser::new(dict, &mut buffer);
    while let Some(operator) = parser.parse_next() {
        if same_operator(&operator, &SUBRS) {
            return parser.parse_offset();
        }
    }
    None
}

/// Entries of local subroutines, of which each says its offset.
struct SubrSearch;

/// The offset that an operand says.
fn offset_by(operand: Option<&Number>) -> Option<u32>
    ensures { result ≡ option_and_then as_u32 (option_map number_of (option_copied operand.entry)) }
{
    operand?.as_u32()
}

/// The offset that is said, if one is.
fn joined(said: Option<Option<u32>>) -> Option<usize>
    ensures { result ≡ joined said }
{
    match said? {
        None => None,
        Some(offset) => Some(offset as usize),
    }
}

impl Search for SubrSearch {
    ghost use Rattle.subsetter_cff.specs.Read.FdArray.SubrSayings.{subr_saying};

    ghost saying = { λ _. subr_saying };

    fn said(&self, operator: &Operator, operand: Option<&Number>) -> Option<Option<u32>> {
        if same_operator(operator, &SUBRS) {
            Some(offset_by(operand))
        } else {
            None
        }
    }
}

/// A table, and for each of its places what the first entry of local subroutines says, where it was read from its end.
#[derive(Drop)]
pub struct SubrOffsets<'a> {
    table: &'a [u8],
    cells: Vec<Cell>,
}

impl<'a> Model for SubrOffsets<'a> {
    ghost use Rattle.std.specs.Prelude.{ℕ, List};
    ghost use Rattle.subsetter_cff.specs.Read.Entries.FirstEntries.{AreCellsIfAny};
    ghost use Rattle.subsetter_cff.specs.Read.FdArray.SubrSayings.{subr_saying};

    ghost Value = { List ℕ };

    ghost view = { λ s. s.table.now };

    ghost invariant = { λ s. AreCellsIfAny subr_saying s.table.now s.cells.items };
}

impl<'a> SubrOffsets<'a> {
    /// Of a table whose dicts are each read from their start.
    pub fn new(alloc: Global, table: &'a [u8]) -> Self
        ensures { result ≡ table.now }
    {
        SubrOffsets {
            table,
            cells: Vec::new(alloc),
        }
    }

    /// Of a table whose dicts have `bytes` bytes together.
    pub fn for_dicts(alloc: Global, table: &'a [u8], bytes: usize) -> Result<Self, Error>
        ensures ok { IfOk result (λ s. s ≡ table.now) }
        ensures err { IfErr result (λ e. e ≡ OutOfMemory) }
    {
        let cells = cells_for_dicts(alloc, table, &SubrSearch, bytes)?;
        Ok(SubrOffsets { table, cells })
    }

    /// The table.
    pub fn table(&self) -> &'a [u8]
        ensures { result.now ≡ self.now }
    {
        self.table
    }

    /// The offset of the local subroutines of the dict between two places, from its start.
    pub fn offset_in(&self, start: usize, end: usize) -> Option<usize>
        requires order { start ≤ end }
        requires inside { end ≤ length self.now }
        ensures { result ≡ first_offset subroutines_operator (entries (take (end - start) (drop start self.now))) }
    {
        if self.cells.len() == 0 {
            return parse_subr_offset(&self.table[start..end]);
        }
        joined(find_first(&self.cells, start, end))
    }
}
