//! Names whose strings aren't inside their table.

ghost use Rattle.std.specs.Prelude.{◌≡◌, ◌<◌, ◌^◌};
ghost use Rattle.std.specs.Option.{option_and_then, option_copied};
ghost use Rattle.subsetter_base.specs.Bytes.{from_offset, number};
ghost use Rattle.subsetter_sfnt.specs.Extras.{all_extras};
ghost use Rattle.font_reasons.specs.Names.{is_kept, lost_string, lost_at, lost_from, lost_in, lost_name_of, lost_name};

use crate::reason::Reason;
use subsetter_base::Tag;
use subsetter_base::read::{Reader, from_offset, number_at};
use subsetter_sfnt::directory::table;
use subsetter_sfnt::fields::name::{
    COUNT, HEADER_SIZE, NAME_RECORD_SIZE, NameRecord, STORAGE_OFFSET,
};

/// Whether a new font has a name.
fn is_kept(it: &NameRecord) -> bool
    ensures { result ≡ is_kept it.now }
{
    it.is_unicode() && (it.name_id < 15 && it.name_id != 10)
}

/// Whether the string of a kept name isn't inside the storage.
fn lost_string(storage: &[u8], it: NameRecord) -> Option<Reason>
    ensures { result ≡ lost_string storage.now it }
{
    if !is_kept(&it) {
        return None;
    }
    match it.string(storage) {
        Some(_) => None,
        None => Some(Reason::LostName(it.name_id)),
    }
}

/// Whether the string of the kept name with its record at an offset isn't inside the storage.
fn lost_at(name: &[u8], storage: &[u8], at: usize) -> Option<Reason>
    ensures { result ≡ lost_at name.now storage.now at }
{
    let record = Reader::new_at(name, at).read::<NameRecord>()?;
    lost_string(storage, record)
}

/// The first kept name, in `count` records, whose string isn't inside the storage.
#[tactic(auto, using(crate::proofs::NameSteps::lost_here, crate::proofs::NameSteps::lost_on, crate::proofs::NameSteps::lost_end))]
fn first_lost(name: &[u8], storage: &[u8], count: u16) -> Option<Reason>
    ensures { result ≡ lost_from name.now storage.now count 6 }
{
    for record in 0..count {
        if let Some(reason) = lost_at(
            name,
            storage,
            HEADER_SIZE + NAME_RECORD_SIZE * usize::from(record),
        ) {
            return Some(reason);
        }
    }
    None
}

/// The bytes that hold the strings of a table.
fn storage_of(name: &[u8]) -> Option<&[u8]>
    ensures { option_copied result ≡ option_and_then (from_offset name.now) (number name.now 4 2) }
{
    let offset = number_at(name, STORAGE_OFFSET)?;
    from_offset(name, usize::from(offset))
}

/// The first kept name of a table whose string isn't inside the storage.
fn lost_in(name: &[u8]) -> Option<Reason>
    ensures { result ≡ lost_in name.now }
{
    let count = number_at(name, COUNT)?;
    let storage = storage_of(name)?;
    first_lost(name, storage, count)
}

/// The first kept name of a table of version 0 whose string isn't inside the storage.
fn lost_name_of(name: &[u8]) -> Option<Reason>
    ensures { result ≡ lost_name_of name.now }
{
    if number_at(name, 0)? == 0 {
        return lost_in(name);
    }
    None
}

/// The first kept name of a face whose string isn't inside its table.
pub fn lost_name(font: &[u8], index: u32) -> Option<Reason>
    ensures { result ≡ lost_name (record { bytes = font.now; index = index; extras = all_extras }) }
{
    let name = table(font, index, Tag::NAME)?;
    lost_name_of(name)
}
