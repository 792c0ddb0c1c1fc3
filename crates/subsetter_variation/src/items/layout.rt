//! Where the fields of an item variation store are (OpenType, "Item Variation Store").

/// variationRegionListOffset of an item variation store, four bytes.
pub(crate) const VARIATION_REGION_LIST_OFFSET: usize = 2;
/// itemVariationDataCount, two bytes.
pub(crate) const ITEM_VARIATION_DATA_COUNT: usize = 6;
/// itemVariationDataOffsets, four bytes each.
pub(crate) const ITEM_VARIATION_DATA_OFFSETS: usize = 8;
/// How many bytes an offset has.
pub(crate) const OFFSET32_SIZE: usize = 4;

/// regionCount of a variation region list, two bytes, after axisCount.
pub(crate) const REGION_COUNT: usize = 2;
/// variationRegions.
pub(crate) const VARIATION_REGIONS: usize = 4;
/// How many bytes the coordinates of a region have on an axis.
pub(crate) const REGION_AXIS_COORDINATES_SIZE: usize = 6;

/// wordDeltaCount of item variation data, two bytes, after itemCount.
pub(crate) const WORD_DELTA_COUNT: usize = 2;
/// regionIndexCount, two bytes.
pub(crate) const REGION_INDEX_COUNT: usize = 4;
/// regionIndexes.
pub(crate) const REGION_INDEXES: usize = 6;
/// How many bytes the index of a region has.
pub(crate) const REGION_INDEX_SIZE: usize = 2;
/// The flag of wordDeltaCount: the deltas have 32 and 16 bits in place of 16 and 8.
pub(crate) const LONG_WORDS: u16 = 0x8000;
/// How many bytes a delta has by its kind.
pub(crate) const DELTA32_SIZE: usize = 4;

pub(crate) const DELTA16_SIZE: usize = 2;
/// The index that means no variation, as an outer and as an inner one.
pub(crate) const NO_VARIATION_INDEX: u32 = 0xFFFF;
