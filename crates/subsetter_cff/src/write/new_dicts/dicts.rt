//! The font dicts of a new table, with their private dicts, and its FDSelect.

ghost use Rattle.std.specs.Prelude.{◌≡◌, ◌⊎◌, ◌+◌, ◌<◌, ◌^◌, ◌++◌, ◌∷◌, [], length, map, true, OnOk, IfOk, IfErr};
ghost use Rattle.subsetter_base.specs.Gives.{Gives};
ghost use Rattle.subsetter_base.specs.declared.error.Error.TheVariants.{OutOfMemory, OverflowError};
ghost use Rattle.std.specs.Option.{option_map};
ghost use Rattle.subsetter_cffdata.specs.Dicts.Dict.{dict as dict_bytes};
ghost use Rattle.subsetter_cffdata.specs.Indexes.Index.{index};
ghost use Rattle.subsetter_cffdata.specs.Indexes.Owned.{views, FitIndex};
ghost use Rattle.subsetter_cffdata.specs.Views.{number_of as number_view};
ghost use Rattle.subsetter_cff.specs.Write.Laying.Layout.{entries_of_font_dict, entries_of_font_dict_by, font_dicts_from, number_of, private_bytes, privates, select_bytes};
ghost use Rattle.subsetter_cff.specs.Write.Laying.PartsView.{font_dict_view, select_of_table, string_view};
ghost use Rattle.subsetter_cff.specs.Write.NewDicts.WrittenNumbers.{entry_numbers};
ghost use Rattle.subsetter_cff.specs.Write.NewDicts.PrivatesBound.{ArePast};
ghost use Rattle.subsetter_cff.specs.Write.Laying.TableBy.{new_dicts};
ghost use Rattle.subsetter_cff.specs.Write.Laying.TableLimits.{limit, has_index, short, is_offset, dict_limits, dicts_limits};

use crate::read::fd_array::fd_select::{generate_fd_index, rewrite_fd_index};
use crate::write::laying::table::{FontDictParts, TableParts, name_number};
use crate::write::new_dicts::font_dict::write_font_dict;
use crate::write::new_dicts::private_dict::rewrite_private_dict;
use crate::write::strings::sid_remapper::SidRemapper;
use std::alloc::Global;
use subsetter_base::error::Error;
use subsetter_base::write::Writer;
use subsetter_cffdata::indexes::index::{index_size, write_index};
use subsetter_type2::limits::Limits;

/// Room for a font dict, in bytes.
const FONT_DICT_ROOM: usize = 64;

/// Room for a few private dicts, in bytes.
const PRIVATES_ROOM: usize = 256;

/// Offsets, as numbers of a dict, are below this.
const OFFSETS: usize = 2147483648;

/// Font dicts and their private dicts.
#[derive(Drop)]
pub struct WrittenDicts {
    /// The private dicts, one after the other.
    pub privates: Writer,
    /// The font dicts.
    pub dicts: Vec<Vec<u8>>,
}

/// The offset after a piece. An offset is at most 2147483647: a greater one is `OverflowError`.
#[tactic(auto, using(crate::proofs::WriteLaws::LayingLaws::Offsets::offset_kept, crate::proofs::WriteLaws::LayingLaws::Offsets::offset_broken))]
pub fn offset_after(place: usize, size: usize) -> Result<usize, Error>
    ensures value { IfOk result (λ n. n ≡ place + size) }
    ensures small { OnOk result (place + size < 2 ^ 31) }
    ensures checked { Gives (λ _. tt) result (limit (is_offset (place + size))) }
    // It takes no memory.
    ensures err { IfErr result (λ e. e ≡ OverflowError) }
{
    let Some(end) = place.checked_add(size) else {
        return Err(Error::OverflowError);
    };
    if end >= OFFSETS {
        return Err(Error::OverflowError);
    }
    Ok(end)
}

/// Writes a private dict. A real that is too long is `OverflowError`.
#[tactic(auto, using(crate::proofs::WriteLaws::NewDictsLaws::DictsWritten::private_written, crate::proofs::WriteLaws::NewDictsLaws::DictsWritten::private_checked))]
fn write_private(dict: &FontDictParts<'_>, w: &mut Writer) -> Result<(), Error>
    ensures ok { OnOk result (w.new ≡ w.old ++ private_bytes (font_dict_view dict.now)) }
    ensures checked { Gives (λ _. tt) result (limit (short (entry_numbers (font_dict_view dict.now).private))) }
{
    rewrite_private_dict(w, dict.private)
}

/// A font dict whose private dict of a size is at a place. A real that is too long is `OverflowError`.
fn font_dict_text(
    alloc: Global,
    remapper: &SidRemapper<'_>,
    dict: &FontDictParts<'_>,
    size: usize,
    place: usize,
) -> Result<Vec<u8>, Error>
    requires size { size < 2 ^ 31 }
    requires offset { place < 2 ^ 31 }
    ensures value { IfOk result (λ v. v.items ≡ dict_bytes (entries_of_font_dict_by (map number_view dict.now.matrix) size place (option_map (number_of remapper.now.texts) (string_view dict.now.name)))) }
    ensures checked { Gives (λ _. tt) result (limit (short (map number_view dict.now.matrix))) }
{
    let mut w = Writer::with_capacity(alloc, FONT_DICT_ROOM)?;
    write_font_dict(
        &dict.matrix,
        size as u32,
        place as u32,
        name_number(remapper, dict.name),
        &mut w,
    )?;
    Ok(w.finish())
}

/// Puts a font dict after others, whose private dicts begin at `place`.
#[tactic(auto, using(crate::proofs::WriteLaws::NewDictsLaws::DictsWritten::size_is), unfolding(crate::specs::Write::Laying::TableLimits::dict_limits))]
fn put_dict(
    alloc: Global,
    made: &mut WrittenDicts,
    place: usize,
    remapper: &SidRemapper<'_>,
    dict: &FontDictParts<'_>,
) -> Result<(), Error>
    ensures privates { OnOk result (made.new.privates ≡ made.old.privates ++ private_bytes (font_dict_view dict.now)) }
    ensures dicts { OnOk result (views made.new.dicts.items ≡ views made.old.dicts.items ++ dict_bytes (entries_of_font_dict remapper.now.texts (place + length made.old.privates) (font_dict_view dict.now)) ∷ []) }
    ensures checked { Gives (λ _. tt) result (dict_limits (place + length made.old.privates) (font_dict_view dict.now)) }
{
    let start = made.privates.len();
    write_private(dict, &mut made.privates)?;
    offset_after(place, made.privates.len())?;
    let size = made.privates.len() - start;
    let text = font_dict_text(alloc, remapper, dict, size, place + start)?;
    made.dicts.push(text)?;
    Ok(())
}

/// The font dicts, whose private dicts are from an offset on. A real that is too long, or a private dict that ends past
/// 2147483647, is `OverflowError`.
pub fn write_dicts(
    alloc: Global,
    place: usize,
    remapper: &SidRemapper<'_>,
    dicts: &[FontDictParts<'_>],
) -> Result<WrittenDicts, Error>
    ensures privates { IfOk result (λ d. d.privates ≡ privates (map font_dict_view dicts.now)) }
    ensures dicts { IfOk result (λ d. views d.dicts.items ≡ font_dicts_from remapper.now.texts place (map font_dict_view dicts.now)) }
    ensures checked { Gives (λ _. tt) result (dicts_limits place (map font_dict_view dicts.now)) }
{
    let mut made = WrittenDicts {
        privates: Writer::with_capacity(alloc, PRIVATES_ROOM)?,
        dicts: Vec::with_capacity(alloc, dicts.len())?,
    };
    for dict in dicts {
        put_dict(alloc, &mut made, place, remapper, dict)?;
    }
    Ok(made)
}

/// Whether the private dicts are longer than a bound on bytes. They are written, one after the other, until they are; a real
/// that is too long ends that, and is reported where the table is written.
fn privates_pass(alloc: Global, dicts: &[FontDictParts<'_>], most: u32) -> Result<bool, Error>
    ensures past { IfOk result (λ b. b ≡ true → most < length (privates (map font_dict_view dicts.now))) }
    ensures err { IfErr result (λ e. e ≡ OutOfMemory) }
{
    let mut w = Writer::with_capacity(alloc, PRIVATES_ROOM)?;
    for dict in dicts {
        match write_private(dict, &mut w) {
            Ok(()) => {}
            Err(Error::OverflowError) => return Ok(false),
            Err(error) => return Err(error),
        }
        if w.len() > most as usize {
            return Ok(true);
        }
    }
    Ok(false)
}

/// Refuses private dicts that are longer than the bound on bytes, by `OverflowError`, before the table is written.
pub fn judge_privates(alloc: Global, table: &TableParts<'_>, limits: Limits) -> Result<(), Error>
    ensures err { IfErr result (λ e. (e ≡ OutOfMemory) ⊎ ((e ≡ OverflowError) × ArePast limits.bytes (new_dicts table.now))) }
{
    let Some(most) = limits.bytes() else {
        return Ok(());
    };
    if privates_pass(alloc, &table.font_dicts, most)? {
        return Err(Error::OverflowError);
    }
    Ok(())
}

/// How many bytes the INDEX of items has. Data of 4 GiB, or 65536 items, are `OverflowError`.
#[tactic(auto, using(crate::proofs::WriteLaws::LayingLaws::Checked::index_kept, crate::proofs::WriteLaws::LayingLaws::Checked::no_index))]
pub fn size_index(items: &[Vec<u8>]) -> Result<usize, Error>
    ensures value { IfOk result (λ n. n ≡ length (index (views items.now))) }
    ensures fits { OnOk result (FitIndex (views items.now)) }
    ensures checked { Gives (λ _. tt) result (limit (has_index (views items.now))) }
{
    let size = index_size(items)?;
    Ok(size)
}

/// Writes the INDEX of items.
pub fn put_index(items: &[Vec<u8>], w: &mut Writer) -> Result<(), Error>
    requires { FitIndex (views items.now) }
    ensures ok { OnOk result (w.new ≡ w.old ++ index (views items.now)) }
    ensures err { IfErr result (λ e. e ≡ OutOfMemory) }
{
    write_index(items, w)?;
    Ok(())
}

/// How many bytes FDSelect has.
#[tactic(auto, unfolding(crate::specs::Write::Laying::Layout::select_bytes))]
pub fn select_size(table: &TableParts<'_>, glyphs: u16) -> usize
    ensures { result ≡ length (select_bytes glyphs (select_of_table table.now.numbers)) }
{
    match &table.numbers {
        None => 8,
        Some(numbers) => numbers.len() + 1,
    }
}

/// Writes FDSelect.
#[tactic(auto, unfolding(crate::specs::Write::Laying::Layout::select_bytes))]
pub fn write_select(table: &TableParts<'_>, glyphs: u16, w: &mut Writer) -> Result<(), Error>
    ensures ok { OnOk result (w.new ≡ w.old ++ select_bytes glyphs (select_of_table table.now.numbers)) }
    ensures err { IfErr result (λ e. e ≡ OutOfMemory) }
{
    match &table.numbers {
        None => generate_fd_index(glyphs, w),
        Some(numbers) => rewrite_fd_index(numbers, w),
    }
}
