//! Reading an INDEX (Technical Note 5176, section 5 "INDEX Data").

ghost use Rattle.std.specs.Prelude.{◌≡◌, ◌≤◌, ◌<◌, ◌+◌, ◌*◌};
ghost use Rattle.subsetter_cffdata.specs.Indexes.IndexView.{items};
ghost use Rattle.subsetter_cffdata.specs.Indexes.Index.{index_at, index_of, index_data, index_body};
ghost use Rattle.subsetter_cffdata.specs.Indexes.OffsetSizes.{size_of};
ghost use Rattle.subsetter_cffdata.specs.Reading.{rest, Takes};
ghost use Rattle.std.specs.Option.{option_map};

use crate::indexes::index_size::IndexSize;
use crate::indexes::index_view::{Index, VarOffsets};
use crate::indexes::offset_size::OffsetSize;
use crate::reading;
use subsetter_base::numbers::number_of;
use subsetter_base::read::Reader;

/// Reads an INDEX with a count of this type; None where its count, offset size, offsets or data aren't all there, or its offset size isn't 1 to 4.
#[tactic(auto, unfolding(crate::specs::Indexes::Index::index_of))]
pub fn parse_index<'a, T: IndexSize>(r: &mut Reader<'a>) -> Option<Index<'a>>
    ensures value { Takes items result r.old r.new (index_of T.width) }
    ensures same { r.new.bytes ≡ r.old.bytes }
{
    let count = T::read_count(r)?.to_u32();
    if count == 0 || count == u32::MAX {
        return Some(Index::default());
    }
    parse_body(count, r)
}

/// Passes an INDEX that can be read.
pub fn skip_index<T: IndexSize>(r: &mut Reader<'_>) -> Option<()>
    ensures value { option_map (λ x. x.1) (index_of T.width (rest r.old)) ≡ option_map (λ _. rest r.new) result }
    ensures same { r.new.bytes ≡ r.old.bytes }
{
    parse_index::<T>(r)?;
    Some(())
}

/// The rest of an INDEX of `count` entries: the size of an offset, the offsets and the data.
#[tactic(auto, unfolding(crate::specs::Indexes::Index::index_body))]
fn parse_body<'a>(count: u32, r: &mut Reader<'a>) -> Option<Index<'a>>
    requires { count < 4294967295 }
    ensures value { Takes items result r.old r.new (index_body count) }
    ensures same { r.new.bytes ≡ r.old.bytes }
{
    let size = OffsetSize::from_byte(reading::next_byte(r)?)?;
    parse_data(size, count, r)
}

/// The offsets of a size, and the data that they cut into `count` entries. An INDEX whose last offset is 0 has none.
#[tactic(auto, unfolding(crate::specs::Indexes::Index::index_data))]
fn parse_data<'a>(size: OffsetSize, count: u32, r: &mut Reader<'a>) -> Option<Index<'a>>
    requires { count < 4294967295 }
    ensures value { Takes items result r.old r.new (index_data (size_of size) count) }
    ensures same { r.new.bytes ≡ r.old.bytes }
{
    let len = (count + 1).checked_mul(size.to_u32())?;
    let width = size.to_usize();
    let offsets = reading::next_bytes(r, len as usize)?;
    let start = count as usize * width;
    let last = number_of(&offsets[start..start + width]);
    let bytes = reading::next_bytes(r, last.saturating_sub(1) as usize)?;
    if last == 0 {
        return Some(Index::default());
    }
    Some(Index {
        data: bytes,
        offsets: VarOffsets {
            data: offsets,
            offset_size: size,
            len: count + 1,
        },
    })
}
