//! An item variation store, and where the region indexes of its data are (OpenType, "Item Variation Store").

ghost use Rattle.std.specs.Prelude.{◌≡◌, ◌+◌, ◌*◌, ◌<◌, ◌≤◌, take, drop, length, IfSome, ℕ, None};
ghost use Rattle.std.specs.Option.{option_copied, option_map};
ghost use Rattle.subsetter_base.specs.Bytes.{number};
ghost use Rattle.subsetter_variation.specs.Items.ItemVariations.{data_offset, data_regions, item_store, region_items};

use std::marker::Model;
use subsetter_base::read::{LazyArray16, Reader};
use subsetter_variation::items::item_variations::{Store, item_store, region_items};
use subsetter_variation::region::RegionAxis;

/// A store with the bytes that it begins.
#[derive(Drop)]
pub struct VariationStore<'a> {
    items: Store<'a>,
    pub(crate) bytes: &'a [u8],
}

impl<'a> Model for VariationStore<'a> {
    ghost use Rattle.subsetter_variation.specs.Items.ItemVariations.{Store};

    ghost Value = { Store };

    ghost view = { λ s. record { axis_count = s.items.axis_count; region_count = s.items.region_count; regions = s.items.regions; bytes = s.bytes.now } };
}

/// Where the region indexes of item variation data are in the store, two bytes each, and how many there are.
#[derive(Clone, Copy)]
pub struct RegionPlace {
    /// The offset of the first one.
    pub start: usize,
    /// Their number.
    pub count: u16,
}

/// Where the store says how many item variation data there are.
const DATA_COUNT: usize = 6;
/// Where the offsets of the item variation data begin, four bytes each.
const DATA_OFFSETS: usize = 8;
/// Where item variation data say how many regions they have.
const REGION_INDEX_COUNT: usize = 4;
/// Where the indexes of their regions begin.
const REGION_INDEXES: usize = 6;

/// The store that these bytes begin, unless it is cut.
#[tactic(auto, using(crate::proofs::StoreLaws::begins))]
pub fn variation_store(bytes: &[u8]) -> Option<VariationStore<'_>>
    ensures { result ≡ item_store bytes.now }
{
    let items = item_store(bytes)?;
    Some(VariationStore { items, bytes })
}

/// How many regions item variation data at an offset have.
fn region_index_count(bytes: &[u8], at: u32) -> Option<u16>
    ensures value { result ≡ number bytes.now (at + 4) 2 }
    ensures small { IfSome result (λ n. n < 65536) }
{
    Reader::new_at(bytes, (at as usize).saturating_add(REGION_INDEX_COUNT)).read::<u16>()
}

impl<'a> VariationStore<'a> {
    /// How many axes a region has.
    pub fn axis_count(&self) -> u16
        ensures { result ≡ self.now.axis_count }
    {
        self.items.axis_count()
    }

    /// How many regions there are.
    pub fn region_count(&self) -> u16
        ensures { result ≡ self.now.region_count }
    {
        self.items.region_count()
    }

    /// The bytes of the store.
    pub fn bytes(&self) -> &'a [u8]
        ensures { result.now ≡ self.now.bytes }
    {
        self.bytes
    }

    /// A region of the list.
    pub fn region(&self, index: u16) -> Option<LazyArray16<'a, RegionAxis>>
        ensures value { result ≡ region_items self.now index }
        ensures count { IfSome result (λ x. x.count ≡ self.now.axis_count) }
    {
        region_items(&self.items, index)
    }

    /// How many item variation data there are.
    #[tactic(auto, using(crate::proofs::StoreLaws::no_data))]
    pub fn data_count(&self) -> u16
        ensures { (outer : ℕ) → result ≤ outer → data_regions self.now outer ≡ None }
    {
        Reader::new_at(self.bytes, DATA_COUNT)
            .read::<u16>()
            .unwrap_or(0)
    }

    /// Where item variation data are in the store.
    fn data_offset(&self, outer: u32) -> Option<u32>
        ensures value { result ≡ data_offset self.now outer }
        ensures few { IfSome result (λ _. outer < 65536) }
        ensures small { IfSome result (λ offset. offset < 4294967296) }
    {
        let data_count = Reader::new_at(self.bytes, DATA_COUNT).read::<u16>()?;
        if outer >= u32::from(data_count) {
            return None;
        }
        let offset = Reader::new_at(self.bytes, DATA_OFFSETS + outer as usize * 4).read::<u32>()?;
        if offset == 0 { None } else { Some(offset) }
    }

    /// Where the region indexes of item variation data are; None where there are no such data, or they are cut.
    pub fn place(&self, outer: u32) -> Option<RegionPlace>
        ensures value { option_map (λ p. take (p.count * 2) (drop p.start self.now.bytes)) result ≡ data_regions self.now outer }
        ensures inside { IfSome result (λ p. p.start + p.count * 2 ≤ length self.now.bytes) }
        ensures data_count { IfSome result (λ _. outer < 65536) }
    {
        let at = self.data_offset(outer)?;
        let count = region_index_count(self.bytes, at)?;
        let start = (at as usize).saturating_add(REGION_INDEXES);
        let end = start.saturating_add(usize::from(count) * 2);
        if end > self.bytes.len() {
            return None;
        }
        Some(RegionPlace { start, count })
    }

    /// The bytes that spell the region indexes of item variation data, two for each.
    pub fn regions(&self, outer: u32) -> Option<&'a [u8]>
        ensures { option_copied result ≡ data_regions self.now outer }
    {
        let place = self.place(outer)?;
        Some(&self.bytes[place.start..place.start + usize::from(place.count) * 2])
    }
}
