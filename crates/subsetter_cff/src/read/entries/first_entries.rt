//! The first entry that says what is looked for, of each dict that begins at a place of a table, in one pass from the
//! table's end (Technical Note 5176, section 4 "DICT Data"). Dicts that overlap are so read once.
//!
//! ```text
//! let cells = cells_for_dicts(alloc, table, &search, total)?;
//! let said = find_first(&cells, start, end);      // of the dict table[start..end]
//! ```

ghost use Rattle.std.specs.Prelude.{◌≡◌, ◌+◌, ◌-◌, ◌<◌, ◌≤◌, ◌^◌, suc, List, ℕ, length, take, drop, IfOk, IfErr, Some};
ghost use Rattle.std.specs.Option.{option_copied, option_map};
ghost use Rattle.subsetter_base.specs.declared.error.Error.TheVariants.{OutOfMemory};
ghost use Rattle.subsetter_cffdata.specs.Numerals.Numbers.{Number as SpecNumber};
ghost use Rattle.subsetter_cffdata.specs.Dicts.Dict.{entries, entry_at};
ghost use Rattle.subsetter_cffdata.specs.Views.{number_of, operator_of};
ghost use Rattle.subsetter_cff.specs.Read.Entries.FirstEntries.{Saying, only, is_bare, first_said, last, IsCell, AreCells, AreCellsIfAny};

use std::alloc::Global;
use subsetter_base::error::Error;
use subsetter_cffdata::dicts::operator::Operator;
use subsetter_cffdata::dicts::tokens::read_token;
use subsetter_cffdata::numerals::number::Number;

/// Entries that are looked for, and what they say.
pub trait Search {
    ghost use Rattle.subsetter_cff.specs.Read.Entries.FirstEntries.{Saying};

    ghost saying: { Self → Saying };

    /// What an entry says by its operator and its operand, where it has just one; None where it isn't looked for.
    fn said(&self, operator: &Operator, operand: Option<&Number>) -> Option<Option<u32>>
        ensures { result ≡ saying self.now (operator_of operator.now) (option_map number_of (option_copied operand.entry)) };
}

/// The entry that begins at a place.
#[derive(Clone, Copy)]
pub struct EntryHere {
    /// Its operator.
    pub operator: Operator,
    /// It has no operands.
    pub bare: bool,
    /// How many bytes of the table are left after it.
    pub left: u32,
}

/// What the first entry says that is looked for.
#[derive(Clone, Copy)]
pub struct Found {
    /// What it says.
    pub value: Option<u32>,
    /// How many bytes of the table are left after it.
    pub left: u32,
}

/// A place of the table.
#[derive(Clone, Copy)]
pub struct Cell {
    /// The entry that begins there, if one can be read.
    pub here: Option<EntryHere>,
    /// What is found from there on.
    pub found: Option<Found>,
}

/// Where no entry can be read.
const NOTHING: Cell = Cell {
    here: None,
    found: None,
};

/// The cell of an entry, by those of the bytes after it.
fn entry_cell<S: Search>(
    search: &S,
    entry: EntryHere,
    operand: Option<&Number>,
    cells: &[Cell],
) -> Cell
    requires { entry.left < length cells.now }
    ensures { (bytes : List ℕ) (at : ℕ) (operands : List SpecNumber) → AreCells (S.saying search.now) bytes cells.now at → at ≤ length bytes
        → entry_at (last bytes at) ≡ Some (record { operator = operator_of entry.operator; operands = operands }, last bytes entry.left)
        → entry.bare ≡ is_bare operands → option_map number_of (option_copied operand.entry) ≡ only operands → IsCell (S.saying search.now) bytes at result }
{
    let found = match search.said(&entry.operator, operand) {
        Some(value) => Some(Found {
            value,
            left: entry.left,
        }),
        None => cells[entry.left as usize].found,
    };
    Cell {
        here: Some(entry),
        found,
    }
}

/// The cell of the place where `at` bytes are left, by those after it. An operand is put into a variable of its own.
fn next_cell<S: Search>(
    search: &S,
    bytes: &[u8],
    at: usize,
    cells: &[Cell],
    operand: &mut Number,
) -> Cell
    requires inside { at ≤ length bytes.now }
    requires few { length bytes.now < 2 ^ 32 }
    requires cells { AreCells (S.saying search.now) bytes.now cells.now at }
    ensures { IsCell (S.saying search.now) bytes.now at result }
{
    let Some(token) = read_token(bytes, bytes.len() - at, operand) else {
        return NOTHING;
    };
    let left = bytes.len().saturating_sub(token.end);
    if let Some(operator) = token.operator {
        let entry = EntryHere {
            operator,
            bare: true,
            left: left as u32,
        };
        return entry_cell(search, entry, None, cells);
    }
    let Some(following) = cells[left].here else {
        return NOTHING;
    };
    let entry = EntryHere {
        operator: following.operator,
        bare: false,
        left: following.left,
    };
    let only = if following.bare {
        Some(&*operand)
    } else {
        None
    };
    entry_cell(search, entry, only, cells)
}

/// The cells of all places of a table, from its end.
fn first_entries<S: Search>(alloc: Global, bytes: &[u8], search: &S) -> Result<Vec<Cell>, Error>
    requires { length bytes.now < 2 ^ 32 }
    ensures ok { IfOk result (λ v. AreCells (S.saying search.now) bytes.now v.items (suc (length bytes.now))) }
    ensures err { IfErr result (λ e. e ≡ OutOfMemory) }
{
    let count = bytes.len() + 1;
    let mut cells = Vec::with_capacity(alloc, count)?;
    cells.push(NOTHING)?;
    let mut operand = Number::zero();
    for at in 1..count {
        let cell = next_cell(search, bytes, at, &cells, &mut operand);
        cells.push(cell)?;
    }
    Ok(cells)
}

/// The cells of a table whose dicts have `total` bytes together; none where the dicts are soon read, each from its start.
pub fn cells_for_dicts<S: Search>(
    alloc: Global,
    bytes: &[u8],
    search: &S,
    total: usize,
) -> Result<Vec<Cell>, Error>
    ensures ok { IfOk result (λ v. AreCellsIfAny (S.saying search.now) bytes.now v.items) }
    ensures err { IfErr result (λ e. e ≡ OutOfMemory) }
{
    if total <= bytes.len() || bytes.len() > u32::MAX as usize {
        return Ok(Vec::new(alloc));
    }
    first_entries(alloc, bytes, search)
}

/// What the first entry says of the dict between two places of the table.
pub fn find_first(cells: &[Cell], start: usize, end: usize) -> Option<Option<u32>>
    requires order { start ≤ end }
    requires inside { end < length cells.now }
    ensures { (said : Saying) (bytes : List ℕ) → AreCells said bytes cells.now (suc (length bytes)) → result ≡ first_said said (entries (take (end - start) (drop start bytes))) }
{
    let at = cells.len() - 1 - start;
    let found = cells[at].found?;
    if at <= end - start + found.left as usize {
        Some(found.value)
    } else {
        None
    }
}
