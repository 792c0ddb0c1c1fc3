//! An INDEX that borrows its offsets and its data (Technical Note 5176, section 5 "INDEX Data").

ghost use Rattle.std.specs.Prelude.{◌≤◌, ◌*◌, length};
ghost use Rattle.subsetter_cffdata.specs.Indexes.OffsetSizes.{size_of};

use crate::indexes::index_iter::IndexIter;
use crate::indexes::offset_size::OffsetSize;
use subsetter_base::numbers::{TwoNumbers, number_of, two_numbers};

/// The offsets of an INDEX, of one size each.
#[derive(Clone, Copy, Debug)]
pub struct VarOffsets<'a> {
    pub(crate) data: &'a [u8],
    pub(crate) offset_size: OffsetSize,
    pub(crate) len: u32,
    ghost room: { len * size_of offset_size ≤ length data.now },
}

impl<'a> VarOffsets<'a> {
    ghost use Rattle.std.specs.Prelude.{◌≡◌, ◌+◌, ◌<◌, ◌/◌, ◌-◌, ℕ, Bool, ◌==◌, nat_lt, if◌then◌else◌, Some, None};
    ghost use Rattle.subsetter_cffdata.specs.Indexes.Index.{offset_at};
    ghost use Rattle.subsetter_cffdata.specs.Indexes.IndexView.{shifted, shifted_last};

    /// The offsets that the bytes spell; bytes after the last whole one are left out.
    pub fn new(data: &'a [u8], offset_size: OffsetSize) -> Self
        requires few { length «data».now ≤ 4294967295 }
        ensures bytes { result.data.now ≡ «data».now }
        ensures size { result.offset_size ≡ offset_size }
        ensures len { result.len ≡ length «data».now / size_of offset_size }
    {
        let len = (data.len() / offset_size.to_usize()) as u32;
        VarOffsets {
            data,
            offset_size,
            len,
        }
    }

    /// How many offsets there are.
    pub fn len(&self) -> u32
        ensures { result ≡ self.now.len }
    {
        self.len
    }

    /// There are no offsets.
    pub fn is_empty(&self) -> bool
        ensures { result ≡ (self.now.len == 0) }
    {
        self.len == 0
    }

    /// Offset i, as it is there.
    pub(crate) fn stored(&self, i: u32) -> u32
        requires { i < self.now.len }
        ensures { result ≡ offset_at (size_of self.now.offset_size) self.now.data.now i }
    {
        let size = self.offset_size.to_usize();
        let start = i as usize * size;
        number_of(&self.data[start..start + size])
    }

    /// Offset i and the next one, as they are there.
    #[inline]
    fn neighbours(&self, i: u32) -> TwoNumbers
        requires { i + 1 < self.now.len }
        ensures from { result.first ≡ offset_at (size_of self.now.offset_size) self.now.data.now i }
        ensures to { result.second ≡ offset_at (size_of self.now.offset_size) self.now.data.now (i + 1) }
    {
        let size = self.offset_size.to_usize();
        let start = i as usize * size;
        two_numbers(&self.data[start..start + 2 * size], size)
    }

    /// Offset i, counted from the first byte of the data; None where it isn't there or is before that byte.
    pub fn get(&self, index: u32) -> Option<u32>
        ensures { result ≡ shifted self.now index }
    {
        if index >= self.len {
            return None;
        }
        self.stored(index).checked_sub(1)
    }

    /// The last offset, in the same way.
    pub fn last(&self) -> Option<u32>
        ensures { result ≡ shifted_last self.now }
    {
        if self.len == 0 {
            return None;
        }
        self.get(self.len - 1)
    }
}

/// An INDEX: offsets, and the data that they cut into entries.
#[derive(Clone, Copy, Debug)]
pub struct Index<'a> {
    pub(crate) data: &'a [u8],
    pub(crate) offsets: VarOffsets<'a>,
}

impl<'a> Index<'a> {
    ghost use Rattle.std.specs.Prelude.{ℕ, ◌≡◌, [], ◌+◌, ◌<◌, ◌-◌, slice_get};
    ghost use Rattle.std.specs.Option.{option_map, option_and_then};
    ghost use Rattle.subsetter_cffdata.specs.Indexes.IndexView.{items};
    ghost use Rattle.subsetter_cffdata.specs.Indexes.Index.{entry, entry_at};

    /// How many entries there are: one less than offsets.
    #[tactic(auto, using(crate::proofs::IndexesLaws::IndexItems::items_of))]
    pub fn len(&self) -> u32
        ensures { result ≡ length (items self.now) }
    {
        self.offsets.len.saturating_sub(1)
    }

    /// The data from one offset to the next, or None where it can't be read.
    fn range(&self, from: u32, to: u32) -> Option<&'a [u8]>
        ensures { option_map (λ x. x.now) result ≡ entry self.now.data.now from to }
    {
        let from = from as usize;
        let to = to as usize;
        if from == 0 {
            return None;
        }
        if to < from {
            return None;
        }
        if self.data.len() + 1 < to {
            return None;
        }
        Some(&self.data[from - 1..to - 1])
    }

    /// Entry i, from its offset to the next.
    #[inline]
    fn entry(&self, i: u32) -> Option<&'a [u8]>
        requires { i + 1 < self.now.offsets.len }
        ensures { option_map (λ x. x.now) result ≡ entry_at (size_of self.now.offsets.offset_size) self.now.offsets.data.now self.now.data.now i }
    {
        let offsets = self.offsets.neighbours(i);
        self.range(offsets.first, offsets.second)
    }

    /// Entry i, or None where it isn't there or can't be read.
    #[tactic(auto, using(crate::proofs::IndexesLaws::IndexItems::items_of))]
    pub fn get(&self, index: u32) -> Option<&'a [u8]>
        ensures { option_map (λ x. x.now) result ≡ option_and_then (λ e. e) (slice_get (items self.now) index) }
    {
        if index >= self.len() {
            return None;
        }
        self.entry(index)
    }
}

/// The INDEX without entries.
impl Default for Index<'_> {
    ghost use Rattle.std.specs.Prelude.{◌≡◌, []};
    ghost use Rattle.subsetter_cffdata.specs.Indexes.IndexView.{items};

    ghost is_default = { λ x. items x ≡ [] };

    fn default() -> Self {
        Index {
            data: &[],
            offsets: VarOffsets {
                data: &[],
                offset_size: OffsetSize::Size1,
                len: 0,
            },
        }
    }
}

impl<'a> IntoIterator for Index<'a> {
    type Item = &'a [u8];

    type IntoIter = IndexIter<'a>;

    ghost use Rattle.std.specs.Prelude.{◌≡◌};
    ghost use Rattle.subsetter_cffdata.specs.Indexes.Index.{readable};
    ghost use Rattle.subsetter_cffdata.specs.Indexes.IndexView.{items};
    ghost use Rattle.subsetter_cffdata.specs.Indexes.IndexRest.{left};

    ghost into_iter_gives = { λ x it. left it ≡ readable (items x) };

    fn into_iter(self) -> IndexIter<'a> {
        IndexIter {
            index: self,
            offset: 0,
        }
    }
}
