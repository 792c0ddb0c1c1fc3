//! Items of the glyphs that HarfBuzz gives for a text.

ghost use Rattle.std.specs.Prelude.{◌≡◌, ◌<◌, ◌≤◌, ◌⊎◌, None, map, length, slice_get, true, false, IfErr, IfOk, IsTrue, OnOk};
ghost use Rattle.std.specs.List.Sorted.{IsNonDecreasing};
ghost use Rattle.pdf_runs.specs.declared.error.RunError.TheVariants.{InvalidText, OutOfMemory};
ghost use Rattle.pdf_runs.specs.Shaped.{all_labelled, are_ordered, are_small, are_starts, between, end_of, follows, is_at, is_shaped, items_of, label, labelled, next_place, place_in, places, seen, starts, text_seen, width};

use crate::error::RunError;
use crate::items::{Direction, Item};
use std::alloc::Global;

/// What cluster numbers count.
#[derive(Clone, Copy, PartialEq, Eq, Debug)]
pub enum Unit {
    Utf8,
    Utf16,
    Utf32,
}

/// A glyph as HarfBuzz gives it, in units of the font. C has it as it is.
#[derive(Clone, Copy)]
#[repr(C)]
pub struct Shaped {
    /// Its number in the font.
    pub glyph: u32,
    /// How many units of the text are before its cluster.
    pub cluster: u32,
    /// How far the pen goes on.
    pub x_advance: i32,
    /// And upwards.
    pub y_advance: i32,
    /// How far the glyph is from the pen.
    pub x_offset: i32,
    /// And above it.
    pub y_offset: i32,
}

// ---- numbers of units

/// How many units a character has.
fn width(unit: Unit, character: char) -> u64
    ensures exact { result ≡ width unit character }
    ensures few { result ≤ 4 }
{
    let code = u32::from(character);
    match unit {
        Unit::Utf8 => {
            if code < 0x80 {
                1
            } else if code < 0x800 {
                2
            } else if code < 0x1_0000 {
                3
            } else {
                4
            }
        }
        Unit::Utf16 => { if code < 0x1_0000 { 1 } else { 2 } }
        Unit::Utf32 => 1,
    }
}

/// Where the characters of a text begin.
fn starts_of(alloc: Global, unit: Unit, text: &[char]) -> Result<Vec<u64>, RunError>
    ensures ok { IfOk result (λ found. found.items ≡ starts unit 0 text.now) }
    ensures rise { IfOk result (λ found. IsNonDecreasing found.items) }
    ensures err { IfErr result (λ e. e ≡ OutOfMemory) }
{
    let mut found = Vec::with_capacity(alloc, text.len())?;
    let mut at = 0;
    for character in text {
        found.push(at)?;
        at += width(unit, *character);
    }
    Ok(found)
}

/// How many characters begin before a number of units.
fn place_in(starts: &[u64], number: u32) -> usize
    requires { IsNonDecreasing starts.now }
    ensures { result ≡ place_in starts.now number }
{
    let units = u64::from(number);
    starts.partition_point(|start| *start < units)
}

/// Whether the character at a place is the first one that begins at a number of units.
#[tactic(auto, using(crate::proofs::ShapedLaws::first_is_place, crate::proofs::ShapedLaws::later_is_place))]
fn is_place(starts: &[u64], place: usize, number: u32) -> bool
    requires { IsNonDecreasing starts.now }
    ensures { IsTrue result → place_in starts.now number ≡ place }
{
    is_at(starts, place, number) && (place == 0 || starts[place - 1] < u64::from(number))
}

/// Where the character would be that begins at a number of units, if it is at a place or beside it.
fn beside(starts: &[u64], place: usize, number: u32) -> usize {
    if place >= starts.len() || u64::from(number) < starts[place] {
        place.saturating_sub(1)
    } else if starts[place] == u64::from(number) {
        place
    } else {
        place + 1
    }
}

/// How many characters begin before a number of units: mostly `other`, or one more or less.
fn place_near(starts: &[u64], other: usize, number: u32) -> usize
    requires { IsNonDecreasing starts.now }
    ensures { result ≡ place_in starts.now number }
{
    let place = beside(starts, other, number);
    if is_place(starts, place, number) {
        return place;
    }
    place_in(starts, number)
}

/// Whether the character at a place begins at a number of units.
fn is_at(starts: &[u64], place: usize, number: u32) -> bool
    ensures { result ≡ is_at (slice_get starts.now place) number }
{
    place < starts.len() && starts[place] == u64::from(number)
}

// ---- places of clusters

/// The place in a text of each glyph's cluster, of those where its characters begin.
fn places_in(alloc: Global, starts: &[u64], shaped: &[Shaped]) -> Result<Vec<usize>, RunError>
    requires { IsNonDecreasing starts.now }
    ensures ok { IfOk result (λ found. found.items ≡ places starts.now shaped.now) }
    ensures valid { OnOk result (are_starts starts.now shaped.now ≡ true) }
    ensures err { IfErr result (λ e. (e ≡ OutOfMemory) ⊎ ((e ≡ InvalidText) × (are_starts starts.now shaped.now ≡ false))) }
{
    let mut found = Vec::with_capacity(alloc, shaped.len())?;
    let mut place = 0;
    for glyph in shaped {
        place = place_near(starts, place, glyph.cluster);
        if !is_at(starts, place, glyph.cluster) {
            return Err(RunError::InvalidText);
        }
        found.push(place)?;
    }
    Ok(found)
}

/// Whether a place comes after another one in reading order, or is the same.
fn follows(direction: Direction, before: Option<usize>, place: usize) -> bool
    ensures { result ≡ follows direction before place }
{
    let other = match before {
        Some(other) => other,
        None => return true,
    };
    match direction {
        Direction::RightToLeft => place <= other,
        Direction::LeftToRight | Direction::TopToBottom => other <= place,
    }
}

/// Whether places don't fall in reading order.
fn are_ordered(direction: Direction, places: &[usize]) -> bool
    ensures { result ≡ are_ordered direction None places.now }
{
    let mut before = None;
    for place in places {
        if !follows(direction, before, *place) {
            return false;
        }
        before = Some(*place);
    }
    true
}

// ---- the text of a cluster

/// The next place that is another one, or the end.
fn next_place(count: usize, place: usize, later: &[usize]) -> usize
    ensures { result ≡ next_place count place later.now }
{
    for other in later {
        if *other != place {
            return *other;
        }
    }
    count
}

/// The next greater place in the run, or the end.
fn end_of(
    direction: Direction,
    count: usize,
    before: Option<usize>,
    place: usize,
    later: &[usize],
) -> usize
    ensures { result ≡ end_of direction count before place later.now }
{
    match direction {
        Direction::RightToLeft => before.unwrap_or(count),
        Direction::LeftToRight | Direction::TopToBottom => next_place(count, place, later),
    }
}

/// The characters from a place to another.
#[tactic(auto, using(crate::proofs::ShapedLaws::between_some, crate::proofs::ShapedLaws::between_none))]
fn between(text: &[char], start: usize, end: usize) -> &[char]
    ensures { result.now ≡ between text.now start end }
{
    let last = end.min(text.len());
    if start < last {
        &text[start..last]
    } else {
        &[]
    }
}

/// Whether a glyph is of the cluster before it.
fn is_same(before: Option<usize>, place: usize) -> bool
    ensures { result ≡ is_at before place }
{
    match before {
        Some(other) => other == place,
        None => false,
    }
}

/// The text of a cluster at its first glyph.
fn label<'a>(
    direction: Direction,
    text: &'a [char],
    before: Option<usize>,
    place: usize,
    later: &[usize],
) -> Option<&'a [char]>
    ensures { text_seen result ≡ label direction text.now before place later.now }
{
    if is_same(before, place) {
        return None;
    }
    let end = end_of(direction, text.len(), before, place, later);
    Some(between(text, place, end))
}

// ---- items

/// An item, if the glyph has 16 bits.
fn item_of<'a>(glyph: Shaped, text: Option<&'a [char]>) -> Result<Item<'a>, RunError>
    ensures ok { IfOk result (λ item. seen item ≡ labelled glyph (text_seen text.entry)) }
    ensures valid { OnOk result (glyph.glyph < 65536) }
    ensures err { IfErr result (λ e. (e ≡ InvalidText) × (65536 ≤ glyph.glyph)) }
{
    if glyph.glyph > 65_535 {
        return Err(RunError::InvalidText);
    }
    Ok(Item {
        glyph: glyph.glyph as u16,
        text,
        x_advance: glyph.x_advance,
        y_advance: glyph.y_advance,
        x_offset: glyph.x_offset,
        y_offset: glyph.y_offset,
    })
}

/// The items of glyphs, by the place of each.
#[tactic(auto, using(crate::proofs::ShapedLaws::labelled_more))]
fn labelled<'a>(
    alloc: Global,
    direction: Direction,
    text: &'a [char],
    places: &[usize],
    shaped: &[Shaped],
) -> Result<Vec<Item<'a>>, RunError>
    requires { length places.now ≡ length shaped.now }
    ensures ok { IfOk result (λ items. map seen items.items ≡ all_labelled direction text.now None places.now shaped.now) }
    ensures valid { OnOk result (are_small shaped.now ≡ true) }
    ensures err { IfErr result (λ e. (e ≡ OutOfMemory) ⊎ ((e ≡ InvalidText) × (are_small shaped.now ≡ false))) }
{
    let mut items = Vec::with_capacity(alloc, shaped.len())?;
    let mut before = None;
    for at in 0..shaped.len() {
        let place = places[at];
        let later = &places[at + 1..];
        let text = label(direction, text, before, place, later);
        items.push(item_of(shaped[at], text)?)?;
        before = Some(place);
    }
    Ok(items)
}

/// The items of a run of HarfBuzz's glyphs, in their order. A cluster's text goes from its number to the next greater one of
/// the run, or to the end of the text; the numbers count its units.
///
/// # Errors
///
/// - `InvalidText`: a cluster number is out of range or inside of a character, the numbers fall in reading order, or a glyph
///   hasn't 16 bits.
/// - `OutOfMemory`: a request for memory was refused.
pub fn items_of<'a>(
    alloc: Global,
    direction: Direction,
    unit: Unit,
    text: &'a [char],
    shaped: &[Shaped],
) -> Result<Vec<Item<'a>>, RunError>
    ensures ok { IfOk result (λ items. map seen items.items ≡ items_of direction unit text.now shaped.now) }
    ensures valid { OnOk result (is_shaped direction unit text.now shaped.now ≡ true) }
    ensures err { IfErr result (λ e. (e ≡ OutOfMemory) ⊎ ((e ≡ InvalidText) × (is_shaped direction unit text.now shaped.now ≡ false))) }
{
    let starts = starts_of(alloc, unit, text)?;
    let places = places_in(alloc, &starts, shaped)?;
    if !are_ordered(direction, &places) {
        return Err(RunError::InvalidText);
    }
    labelled(alloc, direction, text, &places, shaped)
}
