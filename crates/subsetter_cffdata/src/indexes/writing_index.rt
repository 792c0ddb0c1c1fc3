//! Writing an INDEX (Technical Note 5176, section 5 "INDEX Data").

ghost use Rattle.std.specs.Prelude.{◌≡◌, ◌≢◌, ◌+◌, ◌-◌, ◌*◌, ◌<◌, ◌≤◌, ◌^◌, ◌∷◌, ◌++◌, [], ◌⊎◌, map, length, OnOk, IfOk, IfErr, SomeIff};
ghost use Rattle.std.specs.Int.{bytes_high_first};
ghost use Rattle.std.specs.List.{concat};
ghost use Rattle.subsetter_base.specs.declared.error.Error.TheVariants.{OverflowError, OutOfMemory};
ghost use Rattle.subsetter_cffdata.specs.Indexes.Owned.{views, FitIndex};
ghost use Rattle.subsetter_cffdata.specs.Indexes.Index.{offset_size, offsets, numbers, front, header, index};

use std::alloc::Global;
use std::convert::AsSlice;
use subsetter_base::error::Error;
use subsetter_base::write::{Writeable, Writer};

/// An INDEX as bytes, and how many of them are before the data.
#[derive(Drop)]
pub struct OwnedIndex {
    /// The whole INDEX.
    pub data: Vec<u8>,
    /// How many bytes are before the first item.
    pub header_size: usize,
}

impl OwnedIndex {
    /// The INDEX without items.
    #[tactic(auto, unfolding(crate::specs::Indexes::Index::index))]
    pub fn default(alloc: Global) -> Result<OwnedIndex, Error>
        ensures ok { IfOk result (λ x. (x.data.items ≡ index []) × (x.header_size ≡ 2)) }
        ensures err { IfErr result (λ e. e ≡ OutOfMemory) }
    {
        let mut data = Vec::new(alloc);
        data.extend_from_slice(&[0, 0])?;
        Ok(OwnedIndex {
            data,
            header_size: 2,
        })
    }
}

impl Writeable for OwnedIndex {
    ghost bytes_of = { λ x. x.data.items };

    fn write(&self, w: &mut Writer) -> Result<(), Error> {
        w.extend(&self.data)
    }
}

/// How many bytes an offset takes.
pub fn size_of_offset(n: u32) -> u8
    ensures size { result ≡ offset_size n }
    ensures small { result ≤ 4 }
{
    if n < 256 {
        1
    } else if n < 65536 {
        2
    } else if n < 16777216 {
        3
    } else {
        4
    }
}

/// Writes the low bytes of a number.
#[tactic(auto, using(crate::proofs::IndexesLaws::Writing::low_bytes))]
pub fn put_number(size: u8, n: usize, w: &mut Writer) -> Result<(), Error>
    requires { size ≤ 4 }
    ensures ok { OnOk result (w.new ≡ w.old ++ bytes_high_first size n) }
    ensures err { IfErr result (λ e. e ≡ OutOfMemory) }
{
    let bytes = (n as u64).to_be_bytes();
    w.extend(&bytes[8 - size as usize..])
}

/// Writes what is before the offsets after the items: how many items there are, how many bytes an offset takes, and the
/// first offset, which is 1. The total is the length of the data together with one.
pub fn put_front(count: u16, total: u32, w: &mut Writer) -> Result<(), Error>
    ensures ok { OnOk result (w.new ≡ w.old ++ front count total) }
    ensures err { IfErr result (λ e. e ≡ OutOfMemory) }
{
    let size = size_of_offset(total);
    w.extend(&count.to_be_bytes())?;
    w.extend(&[size])?;
    put_number(size, 1, w)
}

/// The length of all items together with one, where it fits.
fn total<T: AsSlice<u8>>(items: &[T]) -> Option<u32>
    ensures { SomeIff result (length (concat (map T.items items.now)) + 1 < 2 ^ 32) (length (concat (map T.items items.now)) + 1) }
{
    let mut sum: u32 = 1;
    for item in items {
        let len = u32::try_from(item.as_slice().len()).ok()?;
        sum = sum.checked_add(len)?;
    }
    Some(sum)
}

/// How many items there are, and the length of all together with one.
#[derive(Drop)]
struct Counts {
    items: u16,
    total: u32,
}

/// Data of 4 GiB, or 65536 items, are `OverflowError`. It takes no memory.
fn counts_of<T: AsSlice<u8>>(items: &[T]) -> Result<Counts, Error>
    ensures items { IfOk result (λ c. c.items ≡ length items.now) }
    ensures total { IfOk result (λ c. c.total ≡ length (concat (map T.items items.now)) + 1) }
    ensures fits { OnOk result (FitIndex (map T.items items.now)) }
    ensures err { IfErr result (λ e. (e ≡ OverflowError) × (FitIndex (map T.items items.now) → ⊥)) }
{
    let Ok(count) = u16::try_from(items.len()) else {
        return Err(Error::OverflowError);
    };
    let Some(total) = total(items) else {
        return Err(Error::OverflowError);
    };
    Ok(Counts {
        items: count,
        total,
    })
}

/// How many bytes the INDEX has.
fn index_room(counts: &Counts) -> usize
    ensures { result ≡ 3 + offset_size counts.now.total * (counts.now.items + 1) + counts.now.total }
{
    let width = usize::from(size_of_offset(counts.total));
    (3 + width * (usize::from(counts.items) + 1)).saturating_add(counts.total as usize)
}

/// Writes the offset after each item.
fn put_offsets<T: AsSlice<u8>>(size: u8, items: &[T], w: &mut Writer) -> Result<(), Error>
    requires small { size ≤ 4 }
    requires fits { length (concat (map T.items items.now)) + 1 < 2 ^ 32 }
    ensures ok { OnOk result (w.new ≡ w.old ++ numbers size (offsets 1 (map T.items items.now))) }
    ensures err { IfErr result (λ e. e ≡ OutOfMemory) }
{
    let mut offset: usize = 1;
    for item in items {
        offset += item.as_slice().len();
        put_number(size, offset, w)?;
    }
    Ok(())
}

/// Writes the items.
fn put_items<T: AsSlice<u8>>(items: &[T], w: &mut Writer) -> Result<(), Error>
    ensures ok { OnOk result (w.new ≡ w.old ++ concat (map T.items items.now)) }
    ensures err { IfErr result (λ e. e ≡ OutOfMemory) }
{
    for item in items {
        w.extend(item.as_slice())?;
    }
    Ok(())
}

/// The count, the size of an offset and the offsets.
#[tactic(auto, unfolding(crate::specs::Indexes::Index::header))]
fn put_header<T: AsSlice<u8>>(
    items: &[T],
    count: u16,
    total: u32,
    w: &mut Writer,
) -> Result<(), Error>
    requires count { count ≡ length items.now }
    requires total { total ≡ length (concat (map T.items items.now)) + 1 }
    ensures ok { OnOk result (w.new ≡ w.old ++ header (map T.items items.now)) }
    ensures err { IfErr result (λ e. e ≡ OutOfMemory) }
{
    put_front(count, total, w)?;
    put_offsets(size_of_offset(total), items, w)
}

/// Writes an INDEX of the items. Data of 4 GiB, or 65536 items, are `OverflowError`.
#[tactic(auto, unfolding(crate::specs::Indexes::Index::index))]
pub fn write_index<T: AsSlice<u8>>(items: &[T], w: &mut Writer) -> Result<(), Error>
    ensures ok { OnOk result (w.new ≡ w.old ++ index (map T.items items.now)) }
    ensures fits { OnOk result (FitIndex (map T.items items.now)) }
    ensures err { IfErr result (λ e. (e ≡ OutOfMemory) ⊎ ((e ≡ OverflowError) × (FitIndex (map T.items items.now) → ⊥))) }
{
    let counts = counts_of(items)?;
    if counts.items == 0 {
        return w.extend(&[0, 0]);
    }
    put_header(items, counts.items, counts.total, w)?;
    put_items(items, w)
}

/// How many bytes the INDEX of the items has. Data of 4 GiB, or 65536 items, are `OverflowError`. It takes no memory.
pub fn index_size<T: AsSlice<u8>>(items: &[T]) -> Result<usize, Error>
    ensures value { IfOk result (λ n. n ≡ length (index (map T.items items.now))) }
    ensures fits { OnOk result (FitIndex (map T.items items.now)) }
    ensures err { IfErr result (λ e. (e ≡ OverflowError) × (FitIndex (map T.items items.now) → ⊥)) }
{
    let counts = counts_of(items)?;
    if counts.items == 0 {
        return Ok(2);
    }
    Ok(index_room(&counts) - 1)
}

/// Makes an INDEX of the items. Data of 4 GiB, or 65536 items, are `OverflowError`.
#[tactic(auto, unfolding(crate::specs::Indexes::Index::index))]
pub fn create_index(alloc: Global, items: &[Vec<u8>]) -> Result<OwnedIndex, Error>
    ensures bytes { IfOk result (λ x. x.data.items ≡ index (views items.now)) }
    ensures fits { OnOk result (FitIndex (views items.now)) }
    ensures header { IfOk result (λ x. x.header_size ≡ length (index (views items.now)) - length (concat (views items.now))) }
    ensures err { IfErr result (λ e. (e ≡ OutOfMemory) ⊎ ((e ≡ OverflowError) × (FitIndex (views items.now) → ⊥))) }
{
    let counts = counts_of(items)?;
    if counts.items == 0 {
        return OwnedIndex::default(alloc);
    }
    let mut w = Writer::with_capacity(alloc, index_room(&counts))?;
    put_header(items, counts.items, counts.total, &mut w)?;
    let header_size = w.len();
    put_items(items, &mut w)?;
    Ok(OwnedIndex {
        data: w.finish(),
        header_size,
    })
}
