//! Own glyphs by number: after the glyphs of the font.

ghost use Rattle.std.specs.Prelude.{◌≡◌, ◌≤◌, ◌<◌, ◌+◌, ◌-◌, ◌⊎◌, ◌++◌, [], true, length, map, IsTrue, IfSome, IfOk, IfErr};
ghost use Rattle.std.specs.List.{list_all};
ghost use Rattle.subsetter_base.specs.declared.error.Error.TheVariants.{OutOfMemory, OverflowError};
ghost use Rattle.pdf_runs.specs.Items.{are_known};
ghost use Rattle.pdf_figures.specs.Figures.{own, figured_run};
ghost use Rattle.pdf_figures.specs.Numbers.{figured_by, ink_by, is_known, is_known_ink, own_by};
ghost use Rattle.pdf_figures.specs.View.{Extends, IsNumberOf, drawn_of, figure_seen, figures_seen, ink_seen, inks_of, own_seen};

use crate::choice::Choice;
use crate::cluster::figures_of_run;
use crate::ink::{Figure, FigureInk, OwnInk, Placed};
use pdf_runs::{Direction, Item};
use std::alloc::Global;
use std::collections::HashMap;
use subsetter_base::Error;

/// Own glyphs in the order in which runs brought them.
#[derive(Drop)]
pub struct OwnGlyphs {
    pub list: Vec<OwnInk>,
    /// Where the last one with a hash may be.
    pub places: HashMap<u64, u16>,
}

impl OwnGlyphs {
    ghost use Rattle.std.specs.Prelude.{◌≡◌, [], IfOk, IfErr};
    ghost use Rattle.subsetter_base.specs.declared.error.Error.TheVariants.{OutOfMemory};
    ghost use Rattle.pdf_figures.specs.View.{inks_of};

    /// None.
    pub fn new(alloc: Global) -> Self
        ensures { inks_of result.list.items ≡ [] }
    {
        Self {
            list: Vec::new(alloc),
            places: HashMap::new(alloc),
        }
    }

    /// These, in order.
    ///
    /// # Errors
    ///
    /// `OutOfMemory` alone.
    pub fn of(alloc: Global, list: Vec<OwnInk>) -> Result<Self, Error>
        ensures ok { IfOk result (λ glyphs. glyphs.list.items ≡ list.items) }
        ensures err { IfErr result (λ e. e ≡ OutOfMemory) }
    {
        let mut places = HashMap::new(alloc);
        for place in 0..list.len().min(65_535) {
            places.insert(hash_of(&list[place]), place as u16)?;
        }
        Ok(Self { list, places })
    }
}

/// A number that differs for most own glyphs.
fn hash_of(own: &OwnInk) -> u64 {
    let mut hash = u64::from(own.advance);
    for part in &own.parts {
        let place = u64::from(part.x.cast_unsigned()) << 16 | u64::from(part.y.cast_unsigned());
        let word = u64::from(part.glyph) << 32 | place;
        hash = (hash ^ word).wrapping_mul(0x9E37_79B9_7F4A_7C15);
        hash ^= hash >> 29;
    }
    hash
}

/// Whether two own glyphs have the same parts and the same advance.
fn is_same(one: &OwnInk, other: &OwnInk) -> bool
    ensures { IsTrue result → own_seen one.now ≡ own_seen other.now }
{
    if one.advance != other.advance || one.parts.len() != other.parts.len() {
        return false;
    }
    for place in 0..one.parts.len() {
        if one.parts[place] != other.parts[place] {
            return false;
        }
    }
    true
}

/// Where an own glyph is, if it is found.
fn place_in(glyphs: &OwnGlyphs, own: &OwnInk, hash: u64) -> Option<u16>
    ensures within { IfSome result (λ k. k < length glyphs.now.list.items) }
    ensures same { IfSome result (λ k. own_by (inks_of glyphs.now.list.items) k ≡ own_seen own.now) }
{
    let place = *glyphs.places.get(&hash)?;
    let number = usize::from(place);
    if number < glyphs.list.len() && is_same(&glyphs.list[number], own) {
        return Some(place);
    }
    None
}

/// Puts an own glyph after others: its place.
fn put(alloc: Global, glyphs: &mut OwnGlyphs, own: &OwnInk, hash: u64) -> Result<u16, Error>
    requires { length glyphs.old.list.items < 65535 }
    ensures place { IfOk result (λ k. k ≡ length glyphs.old.list.items) }
    ensures more { IfOk result (λ _k. length glyphs.new.list.items ≡ length glyphs.old.list.items + 1) }
    ensures same { IfOk result (λ k. own_by (inks_of glyphs.new.list.items) k ≡ own_seen own.now) }
    ensures extends { Extends glyphs.old.list.items glyphs.new.list.items }
    ensures err { IfErr result (λ e. e ≡ OutOfMemory) }
{
    let parts = Vec::from_slice(alloc, &own.parts)?;
    let place = glyphs.list.len() as u16;
    glyphs.places.insert(hash, place)?;
    glyphs.list.push(OwnInk {
        parts,
        advance: own.advance,
    })?;
    Ok(place)
}

/// The number of an own glyph, after the font's `count` glyphs.
fn number_of(alloc: Global, glyphs: &mut OwnGlyphs, count: u16, own: &OwnInk) -> Result<u16, Error>
    ensures ok { IfOk result (λ n. IsNumberOf count glyphs.new.list.items (own_seen own.now) n) }
    ensures extends { Extends glyphs.old.list.items glyphs.new.list.items }
    ensures err { IfErr result (λ e. (e ≡ OutOfMemory) ⊎ ((e ≡ OverflowError) × (65535 ≤ count + length glyphs.new.list.items))) }
{
    let hash = hash_of(own);
    if let Some(place) = place_in(glyphs, own, hash) {
        return match count.checked_add(place) {
            Some(number) => Ok(number),
            None => Err(Error::OverflowError),
        };
    }
    if glyphs.list.len() >= usize::from(u16::MAX - count) {
        return Err(Error::OverflowError);
    }
    Ok(count + put(alloc, glyphs, own, hash)?)
}

/// The number of what is drawn.
fn glyph_of(
    alloc: Global,
    glyphs: &mut OwnGlyphs,
    count: u16,
    ink: &FigureInk,
) -> Result<u16, Error>
    requires { is_known_ink count (ink_seen ink.now) ≡ true }
    ensures ok { IfOk result (λ n. ink_by count (inks_of glyphs.new.list.items) n ≡ ink_seen ink.now) }
    ensures below { IfOk result (λ n. n < count + length glyphs.new.list.items) }
    ensures extends { Extends glyphs.old.list.items glyphs.new.list.items }
    ensures err { IfErr result (λ e. (e ≡ OutOfMemory) ⊎ ((e ≡ OverflowError) × (65535 ≤ count + length glyphs.new.list.items))) }
{
    match ink {
        FigureInk::Glyph(glyph) => Ok(*glyph),
        FigureInk::Own(own) => number_of(alloc, glyphs, count, own),
    }
}

/// A figure as an item of a run.
fn item_of<'a>(
    alloc: Global,
    glyphs: &mut OwnGlyphs,
    count: u16,
    figure: &Figure<'a>,
) -> Result<Item<'a>, Error>
    requires { is_known count (figure_seen figure.now) ≡ true }
    ensures ok { IfOk result (λ i. figured_by count (inks_of glyphs.new.list.items) i ≡ figure_seen figure.now) }
    ensures below { IfOk result (λ i. i.glyph < count + length glyphs.new.list.items) }
    ensures extends { Extends glyphs.old.list.items glyphs.new.list.items }
    ensures err { IfErr result (λ e. (e ≡ OutOfMemory) ⊎ ((e ≡ OverflowError) × (65535 ≤ count + length glyphs.new.list.items))) }
{
    Ok(Item {
        glyph: glyph_of(alloc, glyphs, count, &figure.ink)?,
        text: figure.text,
        x_advance: figure.x_advance,
        y_advance: figure.y_advance,
        x_offset: figure.x_offset,
        y_offset: figure.y_offset,
    })
}

/// Figures as items of a run.
fn items_of<'a>(
    alloc: Global,
    glyphs: &mut OwnGlyphs,
    count: u16,
    figures: &[Figure<'a>],
) -> Result<Vec<Item<'a>>, Error>
    requires { list_all (is_known count) (figures_seen figures.now) ≡ true }
    ensures ok { IfOk result (λ items. map (figured_by count (inks_of glyphs.new.list.items)) items.items ≡ figures_seen figures.now) }
    ensures known { IfOk result (λ items. are_known (count + length glyphs.new.list.items) items.items ≡ true) }
    ensures extends { Extends glyphs.old.list.items glyphs.new.list.items }
    ensures err { IfErr result (λ e. (e ≡ OutOfMemory) ⊎ ((e ≡ OverflowError) × (65535 ≤ count + length glyphs.new.list.items))) }
{
    let mut items = Vec::with_capacity(alloc, figures.len())?;
    for figure in figures {
        items.push(item_of(alloc, glyphs, count, figure)?)?;
    }
    Ok(items)
}

/// A run of a font with `count` glyphs, and own glyphs after these: its figures as items. Own glyphs that are known keep their
/// numbers, also after an error.
///
/// # Errors
///
/// - `OverflowError`: the font would have more than 65,535 glyphs.
/// - `OutOfMemory`: a request for memory was refused.
#[tactic(auto, using(crate::proofs::Known::figures_known))]
pub fn figured_items<'a>(
    alloc: Global,
    glyphs: &mut OwnGlyphs,
    direction: Direction,
    choice: &Choice<'_>,
    count: u16,
    items: &'a [Item<'a>],
) -> Result<Vec<Item<'a>>, Error>
    requires { are_known count items.now ≡ true }
    ensures ok { IfOk result (λ js. map (figured_by count (inks_of glyphs.new.list.items)) js.items ≡ figured_run direction choice.now items.now) }
    ensures known { IfOk result (λ js. are_known (count + length glyphs.new.list.items) js.items ≡ true) }
    ensures extends { Extends glyphs.old.list.items glyphs.new.list.items }
    ensures err { IfErr result (λ e. (e ≡ OutOfMemory) ⊎ ((e ≡ OverflowError) × (65535 ≤ count + length glyphs.new.list.items))) }
{
    let figures = figures_of_run(alloc, direction, choice, items)?;
    items_of(alloc, glyphs, count, &figures)
}
