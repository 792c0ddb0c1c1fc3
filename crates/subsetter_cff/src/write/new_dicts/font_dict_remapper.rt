//! New numbers for the font dicts that are used (Technical Note 5176, section 18 "CID-keyed Fonts").

ghost use Rattle.std.specs.Prelude.{◌≡◌, ◌++◌, ◌∷◌, ◌≤◌, ◌<◌, [], ℕ, IsTrue, false, if◌then◌else◌, map, length, slice_index, slice_index_or, None, IfOk, OnOk, IfErr};
ghost use Rattle.std.specs.List.{filter, range_with_len};
ghost use Rattle.subsetter_base.specs.Gives.{Gives};
ghost use Rattle.subsetter_base.specs.Indexes.{index_of, is_listed, new_index};
ghost use Rattle.subsetter_base.specs.declared.error.Error.TheVariants.{OutOfMemory};
ghost use Rattle.subsetter_cff.specs.Write.NewDicts.UsedFontDicts.{counted_font_dicts};

use std::alloc::{AllocError, Global};
use std::marker::Model;
use subsetter_base::error::Error;

/// The font dicts, where just the first one is used.
static FIRST_ALONE: [u8; 1] = [0];

/// The used font dicts, ascending.
#[derive(Drop)]
pub struct FontDictRemapper {
    /// Just the first one is used, and takes no memory.
    is_first_alone: bool,
    numbers: Vec<u8>,
}

impl Model for FontDictRemapper {
    ghost use Rattle.std.specs.Prelude.{ℕ, List, [], ◌∷◌, length, ◌≤◌, if◌then◌else◌};

    ghost Value = { List ℕ };

    ghost view = { λ r. if r.is_first_alone then 0 ∷ [] else r.numbers.items };

    ghost invariant = { λ r. length r.numbers.items ≤ 255 };
}

/// Whether there are numbers, and all of them are 0.
fn are_zeros(numbers: &[u8]) -> bool
    ensures zeros { IsTrue result → (k : ℕ) → k < length numbers.now → slice_index numbers.now k ≡ 0 }
    ensures some { IsTrue result → 0 < length numbers.now }
{
    for number in numbers {
        if *number != 0 {
            return false;
        }
    }
    !numbers.is_empty()
}

/// Which numbers are among these.
fn mark_used(numbers: &[u8]) -> [bool; 256]
    ensures marked { (n : ℕ) → n < 256 → slice_index_or result n false ≡ is_listed numbers.now n }
    ensures len { length result ≡ 256 }
{
    let mut used = [false; 256];
    for number in numbers {
        used[*number as usize] = true;
    }
    used
}

/// The end of these numbers: all of them are below it.
fn end_of(numbers: &[u8]) -> usize
    ensures none { (n : ℕ) → result ≤ n → is_listed numbers.now n ≡ false }
    ensures within { result ≤ 256 }
{
    let mut end = 0;
    for number in numbers {
        if *number as usize >= end {
            end = *number as usize + 1;
        }
    }
    end
}

/// Puts a place after others, where it is marked.
fn put_marked(places: &mut Vec<u8>, is_marked: bool, place: u8) -> Result<(), AllocError>
    ensures { OnOk result (places.new.items ≡ (if is_marked then places.old.items ++ place ∷ [] else places.old.items)) }
{
    if is_marked {
        places.push(place)?;
    }
    Ok(())
}

/// The places before an end that are marked, ascending.
fn marked_numbers(alloc: Global, used: &[bool], end: usize) -> Result<Vec<u8>, Error>
    requires within { end ≤ length used.now }
    requires few { length used.now ≤ 256 }
    ensures ok { IfOk result (λ v. v.items ≡ filter (λ n. slice_index_or used.now n false) (range_with_len 0 end)) }
    ensures err { IfErr result (λ e. e ≡ OutOfMemory) }
{
    let mut places = Vec::new(alloc);
    for i in 0..end {
        put_marked(&mut places, used[i], i as u8)?;
    }
    Ok(places)
}

/// The first place of each number.
fn indexes_of(numbers: &[u8]) -> [Option<u8>; 256]
    requires { length numbers.now ≤ 255 }
    ensures { (n : ℕ) → n < 256 → slice_index_or result n None ≡ index_of numbers.now n }
{
    let mut places = [None; 256];
    for i in (0..numbers.len()).rev() {
        places[numbers[i] as usize] = Some(i as u8);
    }
    places
}

impl FontDictRemapper {
    /// The font dicts among these numbers. 256 are `OverflowError`.
    pub fn of_used(alloc: Global, numbers: &[u8]) -> Result<Self, Error>
        ensures { Gives (λ r. r) result (counted_font_dicts numbers.now) }
    {
        if are_zeros(numbers) {
            return Ok(FontDictRemapper {
                is_first_alone: true,
                numbers: Vec::new(alloc),
            });
        }
        let used = mark_used(numbers);
        let numbers = marked_numbers(alloc, &used, end_of(numbers))?;
        if numbers.len() > 255 {
            return Err(Error::OverflowError);
        }
        Ok(FontDictRemapper {
            is_first_alone: false,
            numbers,
        })
    }

    /// The font dicts by their new numbers.
    pub fn sorted(&self) -> &[u8]
        ensures value { result.now ≡ self.now }
        ensures few { length self.now ≤ 255 }
    {
        if self.is_first_alone {
            return &FIRST_ALONE;
        }
        &self.numbers
    }
}

/// The new number of a font dict, by the place of each of the used ones.
fn new_number(indexes: &[Option<u8>; 256], used: &[u8], number: u8) -> u8
    requires { (n : ℕ) → n < 256 → slice_index_or indexes.now n None ≡ index_of used.now n }
    ensures { result ≡ new_index used.now number }
{
    indexes[number as usize].unwrap_or(0)
}

/// The new number of each font dict of a list.
pub fn renumber(
    alloc: Global,
    remapper: &FontDictRemapper,
    numbers: &[u8],
) -> Result<Vec<u8>, Error>
    ensures ok { IfOk result (λ v. v.items ≡ map (new_index remapper.now) numbers.now) }
    ensures err { IfErr result (λ e. e ≡ OutOfMemory) }
{
    let used = remapper.sorted();
    let indexes = indexes_of(used);
    let mut places = Vec::new(alloc);
    for number in numbers {
        places.push(new_number(&indexes, used, *number))?;
    }
    Ok(places)
}
