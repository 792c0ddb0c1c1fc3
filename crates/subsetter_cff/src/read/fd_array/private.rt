//! Private dicts with their local subroutines (Technical Note 5176, sections 15 and 16).

ghost use Rattle.std.specs.Prelude.{◌≡◌, ◌≤◌, length, drop, map};
ghost use Rattle.std.specs.Option.{option_map};
ghost use Rattle.subsetter_base.specs.Bytes.{range};
ghost use Rattle.subsetter_cffdata.specs.Dicts.Dict.{entries};
ghost use Rattle.subsetter_cffdata.specs.Indexes.Index.{index_at};
ghost use Rattle.subsetter_cffdata.specs.Indexes.IndexView.{items};
ghost use Rattle.subsetter_cff.specs.Read.Entries.Lookup.{first_of};
ghost use Rattle.subsetter_cff.specs.Read.Entries.Operators.{subroutines_operator};
ghost use Rattle.subsetter_cff.specs.Read.FdArray.Private.{private_in, local_subroutines, subroutines_by};
ghost use Rattle.subsetter_cff.specs.Read.FdArray.PrivateView.{private_view};
ghost use Rattle.subsetter_cff.specs.Read.Entries.TopDicts.{first_offset};

use crate::read::fd_array::subr_offsets::SubrOffsets;
use std::alloc::Global;
use std::ops::Range;
use subsetter_base::read::Reader;
use subsetter_cffdata::indexes::index::{Index, parse_index};

/// A private dict and its local subroutines.
#[derive(Clone, Copy, Debug)]
pub struct PrivateDict<'a> {
    /// The bytes of the dict.
    pub dict: &'a [u8],
    /// The local subroutines.
    pub subroutines: Index<'a>,
}

/// The INDEX at an offset; None where it is outside or unreadable.
pub fn index_at(bytes: &[u8], offset: usize) -> Option<Index<'_>>
    ensures { option_map (λ x. (items x)) result ≡ option_map (λ x. x.0) (index_at (drop offset bytes.now)) }
{
    parse_index::<u16>(&mut Reader::new_at(bytes, offset))
}

/// The INDEX at an offset, if there is one; no subroutines where there is none.
#[tactic(auto, unfolding(crate::specs::Read::FdArray::Private::local_subroutines))]
fn subroutines_by(bytes: &[u8], offset: Option<usize>) -> Option<Index<'_>>
    ensures { option_map items result ≡ subroutines_by bytes.now offset }
{
    match offset {
        None => Some(Index::default()),
        Some(offset) => index_at(bytes, offset),
    }
}

/// The private dict of a range of the table; None where the range leaves the table, or the subroutines are outside or unreadable.
#[tactic(auto, unfolding(crate::specs::Read::FdArray::Private::private_in, crate::specs::Read::FdArray::Private::local_subroutines))]
pub fn parse_private<'a>(offsets: &SubrOffsets<'a>, place: Range<usize>) -> Option<PrivateDict<'a>>
    requires { place.start ≤ place.end }
    ensures { option_map private_view result ≡ private_in offsets.now (place.start, place.end) }
{
    let table = offsets.table();
    let start = place.start;
    let dict = table.get(start..place.end)?;
    let offset = offsets.offset_in(start, place.end);
    let subroutines = subroutines_by(&table[start..], offset)?;
    Some(PrivateDict { dict, subroutines })
}

/// The private dict of one range of the table.
pub fn parse_one_private(
    alloc: Global,
    table: &[u8],
    place: Range<usize>,
) -> Option<PrivateDict<'_>>
    requires { place.start ≤ place.end }
    ensures { option_map private_view result ≡ private_in table.now (place.start, place.end) }
{
    let offsets = SubrOffsets::new(alloc, table);
    parse_private(&offsets, place)
}
