//! Writing an INDEX whose items are one after the other (Technical Note 5176, section 5 "INDEX Data").

ghost use Rattle.std.specs.Prelude.{◌≡◌, ◌≤◌, ◌<◌, ◌+◌, ◌*◌, ◌^◌, ◌++◌, length, nat_lt, OnOk, IfOk, IfErr};
ghost use Rattle.subsetter_base.specs.Gives.{Gives};
ghost use Rattle.subsetter_base.specs.declared.error.Error.TheVariants.{OutOfMemory, OverflowError};
ghost use Rattle.subsetter_cffdata.specs.Indexes.Index.{offset_size, numbers};
ghost use Rattle.subsetter_cff.specs.Write.Glyphs.FlatIndex.{flat_header, single_header, FlatIsIndex};
ghost use Rattle.subsetter_cff.specs.Write.Laying.TableLimits.{limit};

use subsetter_base::error::Error;
use subsetter_base::write::Writer;
use subsetter_cffdata::indexes::index::{put_front, put_number, size_of_offset};

/// Writes the offset after each item.
fn put_ends(size: u8, ends: &[usize], w: &mut Writer) -> Result<(), Error>
    requires { size ≤ 4 }
    ensures ok { OnOk result (w.new ≡ w.old ++ numbers size ends.now) }
    ensures err { IfErr result (λ e. e ≡ OutOfMemory) }
{
    for end in ends {
        put_number(size, *end, w)?;
    }
    Ok(())
}

/// From this size on, data is too long: the offset after it has 32 bits.
const MAX_DATA: usize = 4294967295;

/// The length of data together with one. Data of 4 GiB is `OverflowError`. It takes no memory.
fn total_of(size_of_data: usize) -> Result<u32, Error>
    ensures value { IfOk result (λ n. n ≡ size_of_data + 1) }
    ensures checked { Gives (λ _. tt) result (limit (nat_lt (size_of_data + 1) (2 ^ 32))) }
    ensures err { IfErr result (λ e. e ≡ OverflowError) }
{
    if size_of_data >= MAX_DATA {
        return Err(Error::OverflowError);
    }
    Ok(size_of_data as u32 + 1)
}

/// Writes what is before the data of an INDEX: the data has a length, and each end is the offset after an item, from 1
/// on. Data of 4 GiB is `OverflowError`.
#[tactic(auto, unfolding(crate::specs::Write::Glyphs::FlatIndex::flat_header))]
pub fn write_flat_header(size_of_data: usize, ends: &[usize], w: &mut Writer) -> Result<(), Error>
    requires { length ends.now ≤ 65535 }
    ensures ok { OnOk result (w.new ≡ w.old ++ flat_header size_of_data ends.now) }
    ensures checked { Gives (λ _. tt) result (limit (nat_lt (size_of_data + 1) (2 ^ 32))) }
{
    let total = total_of(size_of_data)?;
    if ends.is_empty() {
        return w.extend(&[0, 0]);
    }
    put_front(ends.len() as u16, total, w)?;
    put_ends(size_of_offset(total), ends, w)
}

/// The most bytes that can come before the data of an INDEX with `count` items.
pub fn header_room(size_of_data: usize, count: u16) -> usize
    ensures exact { size_of_data + 1 < 2 ^ 32 → result ≡ 3 + offset_size (size_of_data + 1) * (count + 1) }
    ensures small { result ≤ 3 + 4 * (count + 1) }
{
    let width = match total_of(size_of_data) {
        Ok(total) => usize::from(size_of_offset(total)),
        Err(_) => 4,
    };
    3 + width * (usize::from(count) + 1)
}

/// How many bytes an INDEX of one item of a size has.
pub fn single_size(size: u32) -> usize
    requires { size < 4294967295 }
    ensures { result ≡ 3 + 2 * offset_size (size + 1) + size }
{
    3 + 2 * usize::from(size_of_offset(size + 1)) + size as usize
}

/// Writes what is before the data of an INDEX of one item of a size.
#[tactic(auto, unfolding(crate::specs::Write::Glyphs::FlatIndex::single_header))]
pub fn write_single_header(size: u32, w: &mut Writer) -> Result<(), Error>
    requires { size < 4294967295 }
    ensures ok { OnOk result (w.new ≡ w.old ++ single_header size) }
    ensures err { IfErr result (λ e. e ≡ OutOfMemory) }
{
    put_front(1, size + 1, w)?;
    put_number(size_of_offset(size + 1), size as usize + 1, w)
}

/// What is written is the INDEX of the items.
#[tactic(auto, using(crate::proofs::WriteLaws::GlyphsLaws::FlatIndexes::flat_is_index))]
pub fn flat_is_index()
    ensures { FlatIsIndex }
{}
