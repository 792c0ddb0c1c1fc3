//! Metrics of a whole font that vary (OpenType, "MVAR").
//!
//! The records are searched in order, and the first one with a tag counts. A metric without a record doesn't vary, and a
//! table without records needs no store. The version has to be 1.

ghost use Rattle.std.specs.Prelude.{◌≡◌, ◌≤◌, bytes_eq, length, take};
ghost use Rattle.std.specs.Option.{ok_or};
ghost use Rattle.subsetter_variation.specs.Items.ItemVariations.{whole_or_fault};
ghost use Rattle.subsetter_variation.specs.Items.FontMetrics.{value_indexes, value_from, value_of, store_for, metric_store, value_delta, metric_delta};

use crate::items::item_variations::{Store, in_whole_units, item_delta, item_store};
use subsetter_base::read::{Reader, from_offset, u16_at};
use subsetter_base::{Error, Tag};

/// valueRecordSize, two bytes.
const VALUE_RECORD_SIZE: usize = 6;
/// valueRecordCount, two bytes.
const VALUE_RECORD_COUNT: usize = 8;
/// itemVariationStoreOffset, two bytes.
const ITEM_VARIATION_STORE_OFFSET: usize = 10;
/// valueRecords.
const VALUE_RECORDS: usize = 12;
/// How many bytes a value record has, or more where valueRecordSize says so.
const VALUE_RECORD_LEN: usize = 8;
/// deltaSetOuterIndex of a value record, two bytes.
const DELTA_SET_OUTER_INDEX: usize = 4;
/// deltaSetInnerIndex of a value record, two bytes.
const DELTA_SET_INNER_INDEX: usize = 6;

/// The indexes of a value record.
fn value_indexes(bytes: &[u8]) -> (u16, u16)
    requires { 8 ≤ length bytes.now }
    ensures { result ≡ value_indexes bytes.now }
{
    (
        u16_at(bytes, DELTA_SET_OUTER_INDEX),
        u16_at(bytes, DELTA_SET_INNER_INDEX),
    )
}

/// Whether a value record has a tag.
fn has_tag(bytes: &[u8], tag: Tag) -> bool
    requires { 8 ≤ length bytes.now }
    ensures { result ≡ bytes_eq (take 4 bytes.now) tag.0 }
{
    Tag::new(&[bytes[0], bytes[1], bytes[2], bytes[3]]) == tag
}

/// The indexes of the first of `count` value records that has a tag, if one has.
#[tactic(auto, using(crate::proofs::ItemsLaws::Values::value_step, crate::proofs::ItemsLaws::Values::value_found, crate::proofs::ItemsLaws::Values::value_cut, crate::proofs::ItemsLaws::Values::value_end))]
fn value_from(mvar: &[u8], count: u16, size: u16, tag: Tag) -> Option<Option<(u16, u16)>>
    ensures { result ≡ value_from count 0 size mvar.now tag.0 }
{
    for k in 0..count {
        let bytes = Reader::new_at(mvar, VALUE_RECORDS + k as usize * size as usize).read_bytes(
            VALUE_RECORD_LEN,
        )?;
        if has_tag(bytes, tag) {
            return Some(Some(value_indexes(bytes)));
        }
    }
    Some(None)
}

/// The indexes of the metric of a tag, if it has a value record.
#[tactic(auto, unfolding(crate::specs::Items::FontMetrics::value_of))]
fn value_of(mvar: &[u8], tag: Tag) -> Option<Option<(u16, u16)>>
    ensures { result ≡ value_of mvar.now tag.0 }
{
    let size = Reader::new_at(mvar, VALUE_RECORD_SIZE).read::<u16>()?;
    let count = Reader::new_at(mvar, VALUE_RECORD_COUNT).read::<u16>()?;
    if (size as usize) < VALUE_RECORD_LEN {
        return None;
    }
    value_from(mvar, count, size, tag)
}

/// A store, if its regions have `axis_count` axes.
fn store_for(axis_count: usize, store: Store<'_>) -> Option<Store<'_>>
    ensures { result ≡ store_for axis_count store.entry }
{
    if store.axis_count() as usize == axis_count {
        Some(store)
    } else {
        None
    }
}

/// The store of `MVAR`, if its regions have as many axes as the font.
#[tactic(auto, unfolding(crate::specs::Items::FontMetrics::metric_store))]
fn metric_store(mvar: &[u8], axis_count: usize) -> Option<Store<'_>>
    ensures { result ≡ metric_store mvar.now axis_count }
{
    let at = Reader::new_at(mvar, ITEM_VARIATION_STORE_OFFSET).read::<u16>()?;
    if at == 0 {
        return None;
    }
    store_for(axis_count, item_store(from_offset(mvar, at as usize)?)?)
}

/// What a metric varies by, by its indexes, in parts of 2^30.
fn value_delta(mvar: &[u8], at: &[i32], indexes: Option<(u16, u16)>) -> Option<i128>
    ensures { result ≡ value_delta mvar.now at.now indexes }
{
    match indexes {
        None => Some(0),
        Some((outer, inner)) => {
            let store = metric_store(mvar, at.len())?;
            item_delta(&store, at, u32::from(outer), u32::from(inner))
        }
    }
}

/// What the metric of a tag varies by at a location, in parts of 2^30.
#[tactic(auto, unfolding(crate::specs::Items::FontMetrics::metric_delta))]
fn varied_metric(mvar: &[u8], at: &[i32], tag: Tag) -> Option<i128>
    ensures { result ≡ metric_delta mvar.now at.now tag.0 }
{
    let indexes = value_of(mvar, tag)?;
    value_delta(mvar, at, indexes)
}

/// What the metric of a tag varies by at a location, in whole units: 0 where it has no value record. A table that is cut, or has no
/// item for the record, is `MalformedFont`, 2^32 units or more `OverflowError`.
pub fn metric_delta(mvar: &[u8], at: &[i32], tag: Tag) -> Result<i64, Error>
    ensures { result ≡ whole_or_fault (metric_delta mvar.now at.now tag.0) }
{
    in_whole_units(varied_metric(mvar, at, tag).ok_or(Error::MalformedFont)?)
}
