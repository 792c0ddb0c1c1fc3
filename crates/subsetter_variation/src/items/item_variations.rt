//! Item variation stores (OpenType, "Item Variation Store").
//!
//! An item, a region or item variation data that aren't there have no reading (FreeType and HarfBuzz take 0 there). The
//! indexes 0xFFFF, 0xFFFF are 0, as OpenType says; an offset of 0 is no table. The sum of an item's deltas is taken in
//! 128 bits, as 65,535 long words don't fit 64; where what varies changes by 2^32 units or more the answer is
//! `OverflowError`. The version of the store has to be 1.

ghost use Rattle.std.specs.Prelude.{[], ◌∷◌, MatchOption, ◌≡◌, ◌+◌, ◌*◌, ◌<◌, ◌≤◌, ◌^◌, Some, IfSome, length, pos, ◌*ℤ◌, ◌≤ℤ◌, unsigned_abs};
ghost use Rattle.std.specs.Option.{option_copied};
ghost use Rattle.subsetter_base.specs.Bytes.{signed_at};
ghost use Rattle.subsetter_variation.specs.Region.{scalar};
ghost use Rattle.subsetter_variation.specs.Items.Known.{AreScalars};
ghost use Rattle.subsetter_variation.specs.Items.ItemVariations.{nullable_offset, item_store, region_axis_in, region_items, region_of, data_offset, data_regions, row_size, row_at, row_in, item_row, word_delta, byte_delta, delta, term, terms, item_delta, in_whole_units};

use crate::items::known::{KnownScalar, known_scalar, none_known};
use crate::items::layout::{
    DELTA16_SIZE, DELTA32_SIZE, ITEM_VARIATION_DATA_COUNT, ITEM_VARIATION_DATA_OFFSETS, LONG_WORDS,
    NO_VARIATION_INDEX, OFFSET32_SIZE, REGION_AXIS_COORDINATES_SIZE, REGION_COUNT,
    REGION_INDEX_COUNT, REGION_INDEX_SIZE, REGION_INDEXES, VARIATION_REGION_LIST_OFFSET,
    VARIATION_REGIONS, WORD_DELTA_COUNT,
};
use crate::region::{ONE, RegionAxis, times_axis_scalar};
use crate::rounding::{nearest, scaled, wide_plus};
use std::marker::Model;
use subsetter_base::Error;
use subsetter_base::read::{LazyArray16, Readable, Reader, signed_at};

/// An offset of 32 bits, unless it is 0, which means that there is no table.
pub(crate) fn nullable_offset(bytes: &[u8], at: usize) -> Option<u32>
    ensures { result ≡ nullable_offset bytes.now at }
{
    let offset = Reader::new_at(bytes, at).read::<u32>()?;
    if offset == 0 { None } else { Some(offset) }
}

/// An item variation store.
#[derive(Drop)]
pub struct Store<'a> {
    axis_count: u16,
    region_count: u16,
    regions: &'a [u8],
    bytes: &'a [u8],
}

impl<'a> Model for Store<'a> {
    ghost use Rattle.subsetter_variation.specs.Items.ItemVariations.{Store};

    ghost Value = { Store };

    ghost view = { λ s. record { axis_count = s.axis_count; region_count = s.region_count; regions = s.regions.now; bytes = s.bytes.now } };
}

impl<'a> Store<'a> {
    /// How many axes a region has.
    pub fn axis_count(&self) -> u16
        ensures { result ≡ self.now.axis_count }
    {
        self.axis_count
    }

    /// How many regions there are.
    pub fn region_count(&self) -> u16
        ensures { result ≡ self.now.region_count }
    {
        self.region_count
    }
}

/// A row of deltas in a store.
#[derive(Drop)]
struct Row<'a> {
    count: u16,
    words: u16,
    long: bool,
    indexes: &'a [u8],
    deltas: &'a [u8],
}

impl<'a> Model for Row<'a> {
    ghost use Rattle.subsetter_variation.specs.Items.ItemVariations.{Row};

    ghost Value = { Row };

    ghost view = { λ r. record { count = r.count; words = r.words; long = r.long; indexes = r.indexes.now; deltas = r.deltas.now } };
}

/// A region on one axis.
fn region_axis_in(bytes: &[u8]) -> RegionAxis
    requires { 6 ≤ length bytes.now }
    ensures { result ≡ region_axis_in bytes.now }
{
    RegionAxis {
        start: signed_at(bytes, 0),
        peak: signed_at(bytes, 2),
        end: signed_at(bytes, 4),
    }
}

impl Readable<'_> for RegionAxis {
    const SIZE: usize = 6;

    ghost SIZE = { 6 };

    ghost value_of = { λ bytes. Some (region_axis_in bytes) };

    fn read(r: &mut Reader<'_>) -> Option<Self> {
        Some(region_axis_in(r.read_bytes(REGION_AXIS_COORDINATES_SIZE)?))
    }
}

/// The store that these bytes begin, unless it is cut.
#[tactic(auto, unfolding(crate::specs::Items::ItemVariations::item_store))]
pub fn item_store(bytes: &[u8]) -> Option<Store<'_>>
    ensures { result ≡ item_store bytes.now }
{
    let format = Reader::new(bytes).read::<u16>()?;
    let at = nullable_offset(bytes, VARIATION_REGION_LIST_OFFSET)? as usize;
    let axis_count = Reader::new_at(bytes, at).read::<u16>()?;
    let region_count = Reader::new_at(bytes, at + REGION_COUNT).read::<u16>()?;
    let size = (region_count as usize).saturating_mul(
        axis_count as usize * REGION_AXIS_COORDINATES_SIZE,
    );
    let regions = Reader::new_at(bytes, at + VARIATION_REGIONS).read_bytes(size)?;
    if format == 1 {
        Some(Store {
            axis_count,
            region_count,
            regions,
            bytes,
        })
    } else {
        None
    }
}

/// A region of the list.
pub fn region_items<'a>(s: &Store<'a>, index: u16) -> Option<LazyArray16<'a, RegionAxis>>
    ensures value { result ≡ region_items s.now index }
    ensures count { IfSome result (λ x. x.count ≡ s.now.axis_count) }
{
    if index >= s.region_count {
        return None;
    }
    let size = s.axis_count as usize * REGION_AXIS_COORDINATES_SIZE;
    Reader::new_at(s.regions, index as usize * size).read_array16(s.axis_count)
}

/// The coordinate on the first axis, and those on the others.
fn coordinate_in(at: &[i32]) -> Option<(i32, &[i32])>
    ensures { MatchOption result (at.now ≡ []) (λ r. at.now ≡ r.0 ∷ r.1.now) }
{
    match at {
        [first, others @ ..] => Some((*first, others)),
        [] => None,
    }
}

/// The scalar of a region at a location, in parts of 2^30. The axes after one that makes it 0 aren't read.
#[tactic(auto, using(crate::proofs::Masters::scalar_of_none))]
pub fn region_scalar(region: LazyArray16<'_, RegionAxis>, at: &[i32]) -> i64
    ensures value { result ≡ scalar (region_of region.entry) at.now }
    ensures low { pos 0 ≤ℤ result }
    ensures high { result ≤ℤ pos (2 ^ 30) }
{
    let mut whole = ONE;
    let mut rest = at;
    for axis in region.iter() {
        let Some((first, others)) = coordinate_in(rest) else {
            return whole;
        };
        whole = times_axis_scalar(axis, first, whole);
        if whole == 0 {
            return 0;
        }
        rest = others;
    }
    whole
}

/// The row of an item, for the counts of its data's header.
fn row_at(
    bytes: &[u8],
    at: usize,
    inner: u32,
    count: u16,
    words: u16,
    long: bool,
) -> Option<Row<'_>>
    requires offset { at < 2 ^ 32 }
    requires few { words ≤ count }
    ensures { result ≡ row_at bytes.now at inner count words long }
{
    let size = (count as usize + words as usize) * (if long { 2 } else { 1 });
    let indexes = Reader::new_at(bytes, at + REGION_INDEXES).read_bytes(
        count as usize * REGION_INDEX_SIZE,
    )?;
    let from = (at + REGION_INDEXES + count as usize * REGION_INDEX_SIZE).saturating_add(
        (inner as usize).saturating_mul(size),
    );
    let deltas = Reader::new_at(bytes, from).read_bytes(size)?;
    Some(Row {
        count,
        words,
        long,
        indexes,
        deltas,
    })
}

/// The row of an item, by the offset of its data.
#[tactic(auto, unfolding(crate::specs::Items::ItemVariations::row_in))]
fn row_in(bytes: &[u8], at: usize, inner: u32) -> Option<Row<'_>>
    requires { at < 2 ^ 32 }
    ensures { result ≡ row_in bytes.now at inner }
{
    let items = Reader::new_at(bytes, at).read::<u16>()?;
    let words = Reader::new_at(bytes, at + WORD_DELTA_COUNT).read::<u16>()?;
    let count = Reader::new_at(bytes, at + REGION_INDEX_COUNT).read::<u16>()?;
    if inner < u32::from(items) && words % LONG_WORDS <= count {
        row_at(
            bytes,
            at,
            inner,
            count,
            words % LONG_WORDS,
            words >= LONG_WORDS,
        )
    } else {
        None
    }
}

/// The row of an item.
#[tactic(auto, unfolding(crate::specs::Items::ItemVariations::item_row))]
fn item_row<'a>(s: &Store<'a>, outer: u32, inner: u32) -> Option<Row<'a>>
    ensures { result ≡ item_row s.now outer inner }
{
    let data_count = Reader::new_at(s.bytes, ITEM_VARIATION_DATA_COUNT).read::<u16>()?;
    if outer >= u32::from(data_count) {
        return None;
    }
    let at = nullable_offset(
        s.bytes,
        ITEM_VARIATION_DATA_OFFSETS + outer as usize * OFFSET32_SIZE,
    )?;
    row_in(s.bytes, at as usize, inner)
}

/// The offset of item variation data in the store.
fn data_offset(s: &Store<'_>, outer: u32) -> Option<u32>
    ensures value { result ≡ data_offset s.now outer }
    ensures few { IfSome result (λ _. outer < 65536) }
{
    let data_count = Reader::new_at(s.bytes, ITEM_VARIATION_DATA_COUNT).read::<u16>()?;
    if outer >= u32::from(data_count) {
        return None;
    }
    nullable_offset(
        s.bytes,
        ITEM_VARIATION_DATA_OFFSETS + outer as usize * OFFSET32_SIZE,
    )
}

/// The bytes that spell the indexes of the regions of item variation data, two for each.
#[tactic(auto, unfolding(crate::specs::Items::ItemVariations::data_regions))]
pub fn data_regions<'a>(s: &Store<'a>, outer: u32) -> Option<&'a [u8]>
    ensures value { option_copied result ≡ data_regions s.now outer }
    ensures few { IfSome result (λ bytes. length bytes.now ≤ 131070) }
    ensures data_count { IfSome result (λ _. outer < 65536) }
{
    let at = data_offset(s, outer)? as usize;
    let count = Reader::new_at(s.bytes, at.saturating_add(REGION_INDEX_COUNT)).read::<u16>()?;
    let indexes = at.saturating_add(REGION_INDEXES);
    Reader::new_at(s.bytes, indexes).read_bytes(count as usize * REGION_INDEX_SIZE)
}

/// A delta that is a word.
fn word_delta(r: &Row<'_>, k: u16) -> Option<i32>
    ensures { result ≡ word_delta r.now k }
{
    if r.long {
        let word = Reader::new_at(r.deltas, k as usize * DELTA32_SIZE).read::<u32>()?;
        Some(word.cast_signed())
    } else {
        let word = Reader::new_at(r.deltas, k as usize * DELTA16_SIZE).read::<u16>()?;
        Some(i32::from(word.cast_signed()))
    }
}

/// A delta after the words.
fn byte_delta(r: &Row<'_>, k: u16) -> Option<i32>
    ensures { result ≡ byte_delta r.now k }
{
    let place = r.words as usize + k as usize;
    if r.long {
        let word = Reader::new_at(r.deltas, place * DELTA16_SIZE).read::<u16>()?;
        Some(i32::from(word.cast_signed()))
    } else {
        let byte = Reader::new_at(r.deltas, place).read::<u8>()?;
        Some(i32::from(byte.cast_signed()))
    }
}

/// The delta for one of a row's regions.
fn delta(r: &Row<'_>, k: u16) -> Option<i32>
    ensures { result ≡ delta r.now k }
{
    if k < r.words {
        word_delta(r, k)
    } else {
        byte_delta(r, k)
    }
}

/// The scalar of one of a row's regions, which is known then, times its delta.
#[tactic(auto, unfolding(crate::specs::Items::ItemVariations::term))]
fn term(
    s: &Store<'_>,
    at: &[i32],
    known: &mut [Option<KnownScalar>],
    r: &Row<'_>,
    k: u16,
) -> Option<i64>
    requires places { 0 < length known.old }
    requires known { AreScalars s.now at.now known.old }
    ensures value { result ≡ term s.now at.now r.now k }
    ensures bound { IfSome result (λ x. unsigned_abs x ≤ 2 ^ 62) }
    ensures known { AreScalars s.now at.now known.new }
{
    let index = Reader::new_at(r.indexes, k as usize * REGION_INDEX_SIZE).read::<u16>()?;
    let scalar = known_scalar(s, at, known, index)?;
    let d = delta(r, k)?;
    Some(scaled(scalar, i64::from(d)))
}

impl<'a> Row<'a> {
    /// How many regions it is for.
    fn count(&self) -> u16
        ensures { result ≡ self.now.count }
    {
        self.count
    }
}

/// The sum of a row's terms.
#[tactic(auto, using(crate::proofs::ItemsLaws::Terms::terms_step, crate::proofs::ItemsLaws::Terms::terms_cut, crate::proofs::ItemsLaws::Terms::terms_end))]
fn terms(s: &Store<'_>, at: &[i32], known: &mut [Option<KnownScalar>], r: &Row<'_>) -> Option<i128>
    requires places { 0 < length known.old }
    requires known { AreScalars s.now at.now known.old }
    ensures value { result ≡ terms s.now at.now r.now r.now.count 0 }
    ensures known { AreScalars s.now at.now known.new }
{
    let mut sum: i128 = 0;
    let count = r.count();
    for k in 0..count {
        let more = term(s, at, known, r, k)?;
        sum = wide_plus(sum, more);
    }
    Some(sum)
}

/// What an item varies by at a location, in parts of 2^30, by the scalars that are known. Those of its regions are known then.
#[tactic(auto, unfolding(crate::specs::Items::ItemVariations::item_delta))]
pub(crate) fn item_delta_by(
    s: &Store<'_>,
    at: &[i32],
    known: &mut [Option<KnownScalar>],
    outer: u32,
    inner: u32,
) -> Option<i128>
    requires places { 0 < length known.old }
    requires known { AreScalars s.now at.now known.old }
    ensures value { result ≡ item_delta s.now at.now outer inner }
    ensures known { AreScalars s.now at.now known.new }
{
    if outer == NO_VARIATION_INDEX && inner == NO_VARIATION_INDEX {
        return Some(0);
    }
    terms(s, at, known, &item_row(s, outer, inner)?)
}

/// What an item varies by at a location, in parts of 2^30, where no scalar is known yet.
pub fn item_delta(s: &Store<'_>, at: &[i32], outer: u32, inner: u32) -> Option<i128>
    ensures { result ≡ item_delta s.now at.now outer inner }
{
    let mut known = none_known();
    item_delta_by(s, at, &mut known, outer, inner)
}

/// Parts of 2^30 as whole units, unless there are too many.
pub(crate) fn in_whole_units(d: i128) -> Result<i64, Error>
    ensures { result ≡ in_whole_units d }
{
    if d.unsigned_abs() < 1 << 62 {
        Ok(nearest(d as i64, 1 << 30))
    } else {
        Err(Error::OverflowError)
    }
}
