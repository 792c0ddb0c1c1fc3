//! The scalars of regions and the deltas of items that were reckoned, so that none of a call is reckoned again.
//!
//! A region's scalar has a place by its number, and leaves it to the next one that has the same. A region that can't be read
//! has none: it is a fault of the items that use it alone.

ghost use Rattle.std.specs.Prelude.{◌≡◌, ◌<◌, ◌≤◌, ◌≤ℤ◌, ◌^◌, List, None, Option, Some, ℤ, pos, slice_index_or, IfOk, IfSome, IsTrue, ◌↔◌, length, map};
ghost use Rattle.std.specs.Option.{option_map};
ghost use Rattle.subsetter_variation.specs.Region.{scalar};
ghost use Rattle.subsetter_variation.specs.Items.ItemVariations.{Store as SpecStore, item_delta, region_items, region_of, whole_or_fault};
ghost use Rattle.subsetter_variation.specs.Items.Known.{AreDeltas, AreScalars, listed_delta};

use crate::items::item_variations::{
    Store, in_whole_units, item_delta_by, region_items, region_scalar,
};
use std::alloc::{AllocError, Global};
use subsetter_base::Error;

/// How many places there are where no memory is taken.
const PLACES: usize = 128;

/// A region's scalar.
#[derive(Clone, Copy)]
pub struct KnownScalar {
    pub index: u16,
    pub scalar: i64,
}

/// What an item varies by in whole units, or what is wrong with it.
#[derive(Clone, Copy)]
pub struct KnownDelta {
    pub outer: u32,
    pub inner: u32,
    pub delta: Result<i64, Error>,
}

/// Places without scalars, in no memory.
pub(crate) fn none_known() -> [Option<KnownScalar>; PLACES]
    ensures places { length result ≡ 128 }
    ensures none { (s : SpecStore) (at : List ℤ) → AreScalars s at result }
{
    [None; PLACES]
}

/// `count` places without scalars, one at least.
fn no_scalars(alloc: Global, count: usize) -> Result<Vec<Option<KnownScalar>>, AllocError>
    ensures places { IfOk result (λ v. 0 < length v.items) }
    ensures none { IfOk result (λ v. (s : SpecStore) (at : List ℤ) → AreScalars s at v.items) }
{
    let mut places = Vec::with_capacity(alloc, count)?;
    places.push(None)?;
    for place in 1..count {
        places.push(None)?;
    }
    Ok(places)
}

/// `count` places without deltas, one at least.
fn no_deltas(alloc: Global, count: usize) -> Result<Vec<Option<KnownDelta>>, AllocError>
    ensures places { IfOk result (λ v. 0 < length v.items) }
    ensures none { IfOk result (λ v. (s : SpecStore) (at : List ℤ) → AreDeltas s at v.items) }
{
    let mut places = Vec::with_capacity(alloc, count)?;
    places.push(None)?;
    for place in 1..count {
        places.push(None)?;
    }
    Ok(places)
}

/// The scalar of a region, if it is known.
fn find_scalar(known: &[Option<KnownScalar>], place: usize, index: u16) -> Option<KnownScalar>
    requires { place < length known.now }
    ensures index { IfSome result (λ k. k.index ≡ index) }
    ensures there { IfSome result (λ k. slice_index_or known.now place None ≡ Some k) }
{
    let found = known[place]?;
    if found.index == index {
        Some(found)
    } else {
        None
    }
}

/// The scalar of a region, which is known then, if the region can be read.
pub(crate) fn known_scalar(
    s: &Store<'_>,
    at: &[i32],
    known: &mut [Option<KnownScalar>],
    index: u16,
) -> Option<i64>
    requires places { 0 < length known.old }
    requires known { AreScalars s.now at.now known.old }
    ensures value { result ≡ option_map (λ x. scalar (region_of x) at.now) (region_items s.now index) }
    ensures low { IfSome result (λ x. pos 0 ≤ℤ x) }
    ensures high { IfSome result (λ x. x ≤ℤ pos (2 ^ 30)) }
    ensures known { AreScalars s.now at.now known.new }
{
    let place = usize::from(index) % known.len();
    if let Some(found) = find_scalar(known, place, index) {
        return Some(found.scalar);
    }
    let region = region_items(s, index)?;
    let scalar = region_scalar(region, at);
    known[place] = Some(KnownScalar { index, scalar });
    Some(scalar)
}

/// Whether a delta is that of an item.
fn is_of(known: KnownDelta, outer: u32, inner: u32) -> bool
    ensures { IsTrue result ↔ (known.outer ≡ outer) × (known.inner ≡ inner) }
{
    known.outer == outer && known.inner == inner
}

/// The place of an item: where its delta is, or the next one that is free.
fn place_of(known: &[Option<KnownDelta>], outer: u32, inner: u32) -> usize
    requires { 0 < length known.now }
    ensures { result < length known.now }
{
    let mixed = outer.wrapping_mul(0x9E3779B1) ^ inner.wrapping_mul(0x85EBCA6B);
    let start = (mixed ^ (mixed >> 15)) as usize % known.len();
    for place in start..known.len() {
        match known[place] {
            None => return place,
            Some(found) => {
                if is_of(found, outer, inner) {
                    return place;
                }
            }
        }
    }
    for place in 0..start {
        match known[place] {
            None => return place,
            Some(found) => {
                if is_of(found, outer, inner) {
                    return place;
                }
            }
        }
    }
    start
}

/// The delta of an item at a place, if it is known.
fn find_delta(
    known: &[Option<KnownDelta>],
    place: usize,
    outer: u32,
    inner: u32,
) -> Option<KnownDelta>
    requires { place < length known.now }
    ensures item { IfSome result (λ k. (k.outer ≡ outer) × (k.inner ≡ inner)) }
    ensures there { IfSome result (λ k. slice_index_or known.now place None ≡ Some k) }
{
    let found = known[place]?;
    if is_of(found, outer, inner) {
        Some(found)
    } else {
        None
    }
}

/// A delta in whole units. `MalformedFont` where the item can't be read, `OverflowError` where it is 2^32 units or more.
pub(crate) fn whole_or_fault(varied: Option<i128>) -> Result<i64, Error>
    ensures { result ≡ whole_or_fault varied }
{
    in_whole_units(varied.ok_or(Error::MalformedFont)?)
}

/// What an item varies by at a location, which is known then.
fn known_delta(
    s: &Store<'_>,
    at: &[i32],
    scalars: &mut [Option<KnownScalar>],
    known: &mut [Option<KnownDelta>],
    outer: u32,
    inner: u32,
) -> Result<i64, Error>
    requires scalar_places { 0 < length scalars.old }
    requires scalars { AreScalars s.now at.now scalars.old }
    requires places { 0 < length known.old }
    requires known { AreDeltas s.now at.now known.old }
    ensures value { result ≡ whole_or_fault (item_delta s.now at.now outer inner) }
    ensures scalars { AreScalars s.now at.now scalars.new }
    ensures known { AreDeltas s.now at.now known.new }
{
    let place = place_of(known, outer, inner);
    if let Some(found) = find_delta(known, place, outer, inner) {
        return found.delta;
    }
    let delta = whole_or_fault(item_delta_by(s, at, scalars, outer, inner));
    known[place] = Some(KnownDelta {
        outer,
        inner,
        delta,
    });
    delta
}

/// What an item of a list varies by at a location, which is known then; where there is none, `MalformedFont`.
fn listed_delta(
    s: &Store<'_>,
    at: &[i32],
    scalars: &mut [Option<KnownScalar>],
    known: &mut [Option<KnownDelta>],
    item: Option<(u32, u32)>,
) -> Result<i64, Error>
    requires scalar_places { 0 < length scalars.old }
    requires scalars { AreScalars s.now at.now scalars.old }
    requires places { 0 < length known.old }
    requires known { AreDeltas s.now at.now known.old }
    ensures value { result ≡ listed_delta s.now at.now item }
    ensures scalars { AreScalars s.now at.now scalars.new }
    ensures known { AreDeltas s.now at.now known.new }
{
    match item {
        None => Err(Error::MalformedFont),
        Some((outer, inner)) => known_delta(s, at, scalars, known, outer, inner),
    }
}

/// What each item of a list varies by, in the memory of these places.
fn each_delta_by(
    alloc: Global,
    s: &Store<'_>,
    at: &[i32],
    scalars: &mut [Option<KnownScalar>],
    known: &mut [Option<KnownDelta>],
    items: &[Option<(u32, u32)>],
) -> Result<Vec<Result<i64, Error>>, AllocError>
    requires scalar_places { 0 < length scalars.old }
    requires scalars { AreScalars s.now at.now scalars.old }
    requires places { 0 < length known.old }
    requires known { AreDeltas s.now at.now known.old }
    ensures { IfOk result (λ v. v.items ≡ map (listed_delta s.now at.now) items.now) }
{
    let mut deltas = Vec::with_capacity(alloc, items.len())?;
    for item in items {
        deltas.push(listed_delta(s, at, scalars, known, *item))?;
    }
    Ok(deltas)
}

/// What each item of a list varies by at a location, in whole units: `MalformedFont` for none, and where it can't be read. The scalar of
/// a region is reckoned once, and so is the sum of an item.
pub(crate) fn each_delta(
    alloc: Global,
    s: &Store<'_>,
    at: &[i32],
    items: &[Option<(u32, u32)>],
) -> Result<Vec<Result<i64, Error>>, AllocError>
    ensures { IfOk result (λ v. v.items ≡ map (listed_delta s.now at.now) items.now) }
{
    let mut scalars = no_scalars(alloc, usize::from(s.region_count()))?;
    let mut known = no_deltas(alloc, items.len().saturating_mul(2))?;
    each_delta_by(alloc, s, at, &mut scalars, &mut known, items)
}
