//! The font dicts that glyphs have, and new numbers for them (OpenType, "CFF2": "FDSelect").

ghost use Rattle.std.specs.Prelude.{◌≡◌, ◌++◌, ◌∷◌, ◌≤◌, ◌<◌, ◌==◌, ◌||◌, [], ℕ, false, if◌then◌else◌, map, length, unwrap_or, slice_index_or, IfOk, OnOk, IfErr};
ghost use Rattle.std.specs.List.{filter, range_with_len};
ghost use Rattle.subsetter_base.specs.Gives.{Gives};
ghost use Rattle.subsetter_base.specs.Indexes.{index_of, is_listed};
ghost use Rattle.subsetter_base.specs.declared.error.Error.TheVariants.{OutOfMemory};
ghost use Rattle.subsetter_cff2.specs.Selection.UsedDicts.{counted_dicts, index_in};

use std::alloc::{AllocError, Global};
use subsetter_base::error::Error;

/// Marks a number, if there is a place for it.
fn mark(used: &mut [bool], number: u16)
    ensures { (n : ℕ) → n < length used.old → slice_index_or used.new n false ≡ (slice_index_or used.old n false || (number == n)) }
{
    if usize::from(number) < used.len() {
        used[usize::from(number)] = true;
    }
}

/// Which numbers below a bound are among these.
fn mark_used(alloc: Global, numbers: &[u16], bound: usize) -> Result<Vec<bool>, Error>
    ensures marked { IfOk result (λ v. (n : ℕ) → n < bound → slice_index_or v.items n false ≡ is_listed numbers.now n) }
    ensures len { IfOk result (λ v. length v.items ≡ bound) }
    ensures err { IfErr result (λ e. e ≡ OutOfMemory) }
{
    let mut used = vec![in alloc; false; bound]?;
    for number in numbers {
        mark(&mut used, *number);
    }
    Ok(used)
}

/// Puts a place after others, where it is marked.
fn put_marked(places: &mut Vec<u16>, is_marked: bool, place: u16) -> Result<(), AllocError>
    ensures { OnOk result (places.new.items ≡ (if is_marked then places.old.items ++ place ∷ [] else places.old.items)) }
{
    if is_marked {
        places.push(place)?;
    }
    Ok(())
}

/// The places that are marked, ascending.
fn marked_numbers(alloc: Global, used: &[bool]) -> Result<Vec<u16>, Error>
    requires { length used.now ≤ 65536 }
    ensures ok { IfOk result (λ v. v.items ≡ filter (λ n. slice_index_or used.now n false) (range_with_len 0 (length used.now))) }
    ensures err { IfErr result (λ e. e ≡ OutOfMemory) }
{
    let mut places = Vec::new(alloc);
    for i in 0..used.len() {
        put_marked(&mut places, used[i], i as u16)?;
    }
    Ok(places)
}

/// The font dicts below a bound that are among these numbers, ascending. 256 of them are `OverflowError`.
pub fn used_dicts(alloc: Global, numbers: &[u16], bound: usize) -> Result<Vec<u16>, Error>
    requires { bound ≤ 65536 }
    ensures { Gives (λ v. v.items) result (counted_dicts bound numbers.now) }
{
    let used = mark_used(alloc, numbers, bound)?;
    let found = marked_numbers(alloc, &used)?;
    if found.len() > 255 {
        return Err(Error::OverflowError);
    }
    Ok(found)
}

/// The first place of a number, or 0.
fn index_of(used: &[u16], number: u16) -> u8
    requires { length used.now ≤ 255 }
    ensures { result ≡ unwrap_or (index_of used.now number) 0 }
{
    for i in 0..used.len() {
        if used[i] == number {
            return i as u8;
        }
    }
    0
}

/// The place of the font dict of a glyph, or 0 for a glyph that isn't asked for.
fn index_in(used: &[u16], number: Option<u16>) -> u8
    requires { length used.now ≤ 255 }
    ensures { result ≡ index_in used.now number }
{
    match number {
        None => 0,
        Some(number) => index_of(used, number),
    }
}

/// The place of the font dict of each glyph, or 0 for a glyph that isn't asked for.
pub fn indexes_of(alloc: Global, used: &[u16], numbers: &[Option<u16>]) -> Result<Vec<u8>, Error>
    requires { length used.now ≤ 255 }
    ensures ok { IfOk result (λ v. v.items ≡ map (index_in used.now) numbers.now) }
    ensures err { IfErr result (λ e. e ≡ OutOfMemory) }
{
    let mut places = Vec::with_capacity(alloc, numbers.len())?;
    for number in numbers {
        places.push(index_in(used, *number))?;
    }
    Ok(places)
}
