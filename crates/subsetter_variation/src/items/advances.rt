//! The advances of `HVAR`, the vertical origins of `VVAR`, and the maps that lead from a glyph to its item (OpenType,
//! "HVAR", "VVAR" and "Associating Target Items to Variation Data").
//!
//! A map of indexes without entries has no reading (FreeType and HarfBuzz take 0 there). The version of `HVAR` and `VVAR`
//! isn't looked at. Both tables have the store and the map of advances at the same offsets.

ghost use Rattle.std.specs.Prelude.{[], ◌≡◌, ◌+◌, ◌*◌, ◌<◌, ◌≤◌, ◌^◌, Err, Some, IfOk, IfSome, length, map, replicate};
ghost use Rattle.std.specs.Option.{ok_or};
ghost use Rattle.subsetter_base.specs.declared.error.Error.TheVariants.{MalformedFont};
ghost use Rattle.subsetter_variation.specs.Items.ItemVariations.{nullable_offset, item_store, item_delta, in_whole_units, whole_or_fault};
ghost use Rattle.subsetter_variation.specs.Items.Advances.{advance_or_fault, map_head, split_index, mapped_index, advance_index, store_of, advance_delta, delta_by, entry_index, origin_index, origin_or_fault};

use crate::items::item_variations::{
    Store, in_whole_units, item_delta, item_store, nullable_offset,
};
use crate::items::known::each_delta;
use std::alloc::{AllocError, Global};
use subsetter_base::Error;
use subsetter_base::numbers::number_of;
use subsetter_base::read::{Reader, from_offset};

/// itemVariationStoreOffset of `HVAR`, four bytes.
const ITEM_VARIATION_STORE_OFFSET: usize = 4;
/// advanceWidthMappingOffset of `HVAR`, four bytes.
const ADVANCE_WIDTH_MAPPING_OFFSET: usize = 8;
/// vOrgMappingOffset of `VVAR`, four bytes.
const V_ORG_MAPPING_OFFSET: usize = 20;

/// entryFormat of a map, one byte, after format.
const ENTRY_FORMAT: usize = 1;
/// mapCount, two bytes in format 0, and four in format 1.
const MAP_COUNT: usize = 2;
/// mapData in format 0, and in format 1.
const MAP_DATA_0: usize = 4;

const MAP_DATA_1: usize = 6;

/// How many entries a map of indexes has, and where they are.
fn map_head(map: &[u8]) -> Option<(u32, usize)>
    ensures value { result ≡ map_head map.now }
    ensures offset { IfSome result (λ h. h.1 ≤ 6) }
{
    match Reader::new(map).read::<u8>()? {
        0 => Some((
            u32::from(Reader::new_at(map, MAP_COUNT).read::<u16>()?),
            MAP_DATA_0,
        )),
        1 => Some((Reader::new_at(map, MAP_COUNT).read::<u32>()?, MAP_DATA_1)),
        _ => None,
    }
}

/// An entry's outer and inner index.
fn split_index(bits: u8, entry: u32) -> (u32, u32)
    requires { bits ≤ 16 }
    ensures { result ≡ split_index bits entry }
{
    (entry >> bits, entry % (1 << bits))
}

/// The entry of a glyph, past the end the last one.
fn entry_index(count: u32, glyph: u16) -> u32
    requires { 0 < count }
    ensures value { result ≡ entry_index count glyph }
    ensures bound { result < 65536 }
{
    if u32::from(glyph) < count {
        u32::from(glyph)
    } else {
        count - 1
    }
}

/// The indexes of a glyph by a map, past the end the last ones.
#[tactic(auto, unfolding(crate::specs::Items::Advances::mapped_index))]
fn mapped_index(map: &[u8], glyph: u16) -> Option<(u32, u32)>
    ensures { result ≡ mapped_index map.now glyph }
{
    let (count, from) = map_head(map)?;
    let form = Reader::new_at(map, ENTRY_FORMAT).read::<u8>()?;
    if count == 0 {
        return None;
    }
    let size = (form / 16 % 4 + 1) as usize;
    let place = entry_index(count, glyph);
    let bytes = Reader::new_at(map, from + place as usize * size).read_bytes(size)?;
    Some(split_index(form % 16 + 1, number_of(bytes)))
}

/// The indexes of a glyph's advance.
#[tactic(auto, unfolding(crate::specs::Items::Advances::advance_index))]
fn advance_index(hvar: &[u8], glyph: u16) -> Option<(u32, u32)>
    ensures { result ≡ advance_index hvar.now glyph }
{
    let at = Reader::new_at(hvar, ADVANCE_WIDTH_MAPPING_OFFSET).read::<u32>()?;
    if at == 0 {
        return Some((0, u32::from(glyph)));
    }
    mapped_index(from_offset(hvar, at as usize)?, glyph)
}

/// The store of `HVAR`, if its regions have as many axes as the font.
#[tactic(auto, unfolding(crate::specs::Items::Advances::store_of))]
fn store_of(hvar: &[u8], axis_count: usize) -> Option<Store<'_>>
    ensures { result ≡ store_of hvar.now axis_count }
{
    let at = nullable_offset(hvar, ITEM_VARIATION_STORE_OFFSET)?;
    let s = item_store(from_offset(hvar, at as usize)?)?;
    if s.axis_count() as usize == axis_count {
        Some(s)
    } else {
        None
    }
}

/// What the advance of a glyph varies by at a place, in parts of 2^30.
#[tactic(auto, unfolding(crate::specs::Items::Advances::advance_delta))]
fn varied_advance(hvar: &[u8], at: &[i32], glyph: u16) -> Option<i128>
    ensures { result ≡ advance_delta hvar.now at.now glyph }
{
    let s = store_of(hvar, at.len())?;
    let (outer, inner) = advance_index(hvar, glyph)?;
    item_delta(&s, at, outer, inner)
}

/// What the advance of a glyph varies by at a location, in whole units. A table that is cut, or has no item for the glyph, is
/// `MalformedFont`, 2^32 units or more `OverflowError`.
pub fn advance_delta(hvar: &[u8], at: &[i32], glyph: u16) -> Result<i64, Error>
    ensures { result ≡ whole_or_fault (advance_delta hvar.now at.now glyph) }
{
    in_whole_units(varied_advance(hvar, at, glyph).ok_or(Error::MalformedFont)?)
}

/// The item of the advance of each of these glyphs.
fn advance_items(
    alloc: Global,
    hvar: &[u8],
    glyphs: &[u16],
) -> Result<Vec<Option<(u32, u32)>>, AllocError>
    ensures { IfOk result (λ v. v.items ≡ map (advance_index hvar.now) glyphs.now) }
{
    let mut items = Vec::with_capacity(alloc, glyphs.len())?;
    for glyph in glyphs {
        items.push(advance_index(hvar, *glyph))?;
    }
    Ok(items)
}

/// `MalformedFont` for each of `count` items: there is no store.
fn without_store(alloc: Global, count: usize) -> Result<Vec<Result<i64, Error>>, AllocError>
    ensures { IfOk result (λ v. v.items ≡ replicate count (Err MalformedFont)) }
{
    let mut deltas = Vec::with_capacity(alloc, count)?;
    for index in 0..count {
        deltas.push(Err(Error::MalformedFont))?;
    }
    Ok(deltas)
}

/// What each of these items varies by at a location, by the store of `HVAR` or `VVAR`. The scalar of a region is reckoned
/// once, and so is the sum of an item.
fn deltas_by(
    alloc: Global,
    table: &[u8],
    at: &[i32],
    items: &[Option<(u32, u32)>],
) -> Result<Vec<Result<i64, Error>>, AllocError>
    ensures { IfOk result (λ v. v.items ≡ map (delta_by (store_of table.now (length at.now)) at.now) items.now) }
{
    match store_of(table, at.len()) {
        Some(s) => each_delta(alloc, &s, at, items),
        None => without_store(alloc, items.len()),
    }
}

/// What the advance of each of these glyphs varies by at a location, each as `advance_delta` says.
pub fn advance_deltas(
    alloc: Global,
    hvar: &[u8],
    at: &[i32],
    glyphs: &[u16],
) -> Result<Vec<Result<i64, Error>>, AllocError>
    ensures { IfOk result (λ v. v.items ≡ map (advance_or_fault hvar.now at.now) glyphs.now) }
{
    let items = advance_items(alloc, hvar, glyphs)?;
    deltas_by(alloc, hvar, at, &items)
}

/// The indexes of a glyph's vertical origin: without a map there are none.
#[tactic(auto, unfolding(crate::specs::Items::Advances::origin_index))]
fn origin_index(vvar: &[u8], glyph: u16) -> Option<(u32, u32)>
    ensures { result ≡ origin_index vvar.now glyph }
{
    let at = nullable_offset(vvar, V_ORG_MAPPING_OFFSET)?;
    mapped_index(from_offset(vvar, at as usize)?, glyph)
}

/// The item of the vertical origin of each of these glyphs.
fn origin_items(
    alloc: Global,
    vvar: &[u8],
    glyphs: &[u16],
) -> Result<Vec<Option<(u32, u32)>>, AllocError>
    ensures { IfOk result (λ v. v.items ≡ map (origin_index vvar.now) glyphs.now) }
{
    let mut items = Vec::with_capacity(alloc, glyphs.len())?;
    for glyph in glyphs {
        items.push(origin_index(vvar, *glyph))?;
    }
    Ok(items)
}

/// What the y of the vertical origin of each of these glyphs in `VORG` varies by at a location, in whole units. A table that
/// is cut, or has no map of origins or no item for the glyph, is `MalformedFont`, 2^32 units or more `OverflowError`.
pub fn origin_deltas(
    alloc: Global,
    vvar: &[u8],
    at: &[i32],
    glyphs: &[u16],
) -> Result<Vec<Result<i64, Error>>, AllocError>
    ensures { IfOk result (λ v. v.items ≡ map (origin_or_fault vvar.now at.now) glyphs.now) }
{
    let items = origin_items(alloc, vvar, glyphs)?;
    deltas_by(alloc, vvar, at, &items)
}
