//! The outlines of a TrueType font (OpenType, "glyf" and "loca").
//!
//! An outline is the bytes of `glyf` between its entry of `loca` and the next: none, a simple glyph, or a composite, whose
//! components are other glyphs. The new `glyf` has the outlines of the given glyphs and of all that these reach, each as it
//! is but for the numbers of its components.
//!
//! The closure takes the given glyphs from the last to the first, and keeps a stack of the components that wait; a
//! waiting glyph that is known when it is taken is skipped. Whether a glyph is a composite is known by the first byte of
//! its outline. These bytes are read a block of 64 at a time, in a loop in which nothing depends on them, so that the
//! processor fetches many at once; then the components of the block are followed, while its outlines are at hand. The
//! outlines that were looked up are answered with the order, 24 bytes each, and given back once the new list is made.
//!
//! Which glyphs are reached is defined over a look-up of outlines (`IsReachableBy`), so that the closure is stated on
//! the code's own tables. An outline needs `loca`, `glyf` and 52 bytes of `head`, as indexToLocFormat is at byte 50.

ghost use Rattle.std.specs.Prelude.{◌≡◌, ◌+◌, ◌<◌, ◌≤◌, ◌^◌, ◌||◌, true, false, if◌then◌else◌, [], ◌++◌, ◌⊎◌, length, map, IfOk, IfErr, IfSome, OnOk, Ok, Err};
ghost use Rattle.std.specs.Option.{option_copied};
ghost use Rattle.subsetter_base.specs.Gives.{Gives, Fails};
ghost use Rattle.subsetter_base.specs.Indexes.{IsWithoutRepeats};
ghost use Rattle.subsetter.specs.Glyf.Reaching.Closure.{first_byte_in, AreFound, EndsWith, IsTaken, components_in, others_in, LacksParts, IsFaulty, IsFull, IsVisited, StopsClosure, Finds};
ghost use Rattle.subsetter_sfnt.specs.FontAt.{tables_of};
ghost use Rattle.subsetter.specs.Glyf.Read.{offset, outline_in};
ghost use Rattle.subsetter.specs.Glyf.View.{seen};
ghost use Rattle.subsetter.specs.Glyf.Plain.{outlines_read, kept_outlines, with_outlines};
ghost use Rattle.subsetter.specs.Glyf.Reaching.Reach.{IsGlyphOrderBy};
ghost use Rattle.subsetter.specs.Glyf.BareOutlines.Size.{requested_size, requested_sizes};
ghost use Rattle.subsetter_base.specs.declared.error.Error.TheVariants.{OutOfMemory, MalformedFont, OverflowError};

mod component;
pub mod f2dot14;
pub mod outlines;
mod pieces;

use crate::glyf::component::{Count, is_composite, push_components};
use crate::glyf::outlines::OutlineList;
use std::alloc::Global;
use subsetter_base::read::Reader;
use subsetter_base::{Error, GlyphRemapper, Tag};
use subsetter_sfnt::face::Face;
use subsetter_sfnt::fields::head::index_to_loc_format;
use subsetter_sfnt::fields::loca::loca_offset;

/// The tables that outlines are read from.
#[derive(Clone, Copy)]
pub struct GlyfTables<'a> {
    pub loca: &'a [u8],
    pub glyf: &'a [u8],
    pub head: &'a [u8],
    pub long: bool,
    /// Whether instructions are requested.
    pub hinting: bool,
}

impl<'a> GlyfTables<'a> {
    /// The tables of a font. `MalformedFont` where one is missing, or `head` has fewer than 52 bytes.
    #[tactic(auto, unfolding(crate::specs::Glyf::Read::outlines_in))]
    pub fn new(face: &Face<'a>) -> Result<Self, Error>
        ensures ok { IfOk result (λ t. outlines_read face.now.extras.hinting (tables_of face.now) ≡ Ok (seen t)) }
        ensures err { IfErr result (λ e. outlines_read face.now.extras.hinting (tables_of face.now) ≡ Err e) }
        ensures head { IfOk result (λ t. 52 ≤ length t.head.now) }
    {
        let loca = face.table(Tag::LOCA).ok_or(Error::MalformedFont)?;
        let glyf = face.table(Tag::GLYF).ok_or(Error::MalformedFont)?;
        let head = face.table(Tag::HEAD).ok_or(Error::MalformedFont)?;
        let format = index_to_loc_format(head).ok_or(Error::MalformedFont)?;
        Ok(Self {
            loca,
            glyf,
            head,
            long: format != 0,
            hinting: face.extras.hinting,
        })
    }

    /// An entry of `loca`.
    fn offset(&self, entry: usize) -> Option<usize>
        requires { entry < 2 ^ 32 }
        ensures exact { result ≡ offset (seen self.now) entry }
        ensures small { IfSome result (λ n. n < 2 ^ 32) }
    {
        loca_offset(self.loca, self.long, entry)
    }

    /// The outline of a glyph.
    #[tactic(auto, unfolding(crate::specs::Glyf::Read::outline_in))]
    pub fn glyph_data(&self, id: u16) -> Option<&'a [u8]>
        ensures exact { option_copied result ≡ outline_in (seen self.now) id }
        ensures small { IfSome result (λ b. length b.now < 2 ^ 32) }
    {
        let from = self.offset(id as usize)?;
        let to = self.offset(id as usize + 1)?;
        if from > to {
            return None;
        }
        Reader::new_at(self.glyf, from).read_bytes(to - from)
    }
}

/// What is counted of an outline that isn't followed.
const NOTHING: Count = Count {
    bytes: 0,
    cut: false,
};

/// The order of the glyphs of a subset, and the outline of each as it is looked up, if it is there.
#[derive(Drop)]
pub struct GlyphClosure<'a> {
    pub order: GlyphRemapper,
    pub outlines: Vec<Option<&'a [u8]>>,
}

/// How many outlines are prefetched at a time.
const PREFETCH_BLOCK: usize = 64;

/// The outlines of a remapper's glyphs, each if it is there.
fn find_outlines<'a>(
    alloc: Global,
    table: &GlyfTables<'a>,
    mapper: &GlyphRemapper,
) -> Result<Vec<Option<&'a [u8]>>, Error>
    ensures ok { IfOk result (λ v. AreFound (seen table.now) mapper.now v.items) }
    ensures err { IfErr result (λ e. e ≡ OutOfMemory) }
{
    let mut outlines = Vec::with_capacity(alloc, mapper.num_gids() as usize)?;
    for glyph in mapper.remapped_gids() {
        outlines.push(table.glyph_data(glyph))?;
    }
    Ok(outlines)
}

/// Puts outlines last, each with its components under their new numbers. `first_bytes` is room for their first bytes.
/// `MalformedFont` where one isn't there, has one byte or is a composite that is cut.
fn keep_block<'a>(
    list: &mut OutlineList<'a>,
    first_bytes: &mut Vec<u8>,
    block: &[Option<&'a [u8]>],
    order: &GlyphRemapper,
) -> Result<(), Error>
    ensures ok { OnOk result (with_outlines list.old.items (kept_outlines list.old.hinting order.now (map option_copied block.now)) ≡ Ok list.new.items) }
    ensures same { OnOk result (list.new.hinting ≡ list.old.hinting) }
    ensures err { IfErr result (λ e. Fails e (with_outlines list.old.items (kept_outlines list.old.hinting order.now (map option_copied block.now)))) }
{
    read_first_bytes(first_bytes, block)?;
    let mut place: usize = 0;
    for outline in block {
        let outline = outline.ok_or(Error::MalformedFont)?;
        if is_composite(first_bytes[place]) {
            list.push_composite(outline, order)?;
        } else {
            list.push_simple(outline)?;
        }
        place += 1;
    }
    Ok(())
}

/// Outlines that were looked up, each as it is in the new `glyf` but for its padding, with instructions if they are requested.
///
/// Each block of them is prefetched before one of it is looked at, so that many are fetched from memory at a time.
pub fn subset<'a>(
    alloc: Global,
    found: Vec<Option<&'a [u8]>>,
    order: &GlyphRemapper,
    hinting: bool,
) -> Result<OutlineList<'a>, Error>
    ensures { Gives (λ list. list.items) result (kept_outlines hinting order.now (map option_copied found.entry.items)) }
{
    let mut list = OutlineList::with_capacity(alloc, found.len(), hinting)?;
    let mut first_bytes = Vec::with_capacity(alloc, found.len().min(PREFETCH_BLOCK))?;
    let mut at: usize = 0;
    while at < found.len() {
        let count = (found.len() - at).min(PREFETCH_BLOCK);
        keep_block(&mut list, &mut first_bytes, &found[at..at + count], order)?;
        at += count;
    }
    list.shrink_to_fit();
    Ok(list)
}

/// Puts the components of an outline with this first byte, which a simple one doesn't have, after those that wait, and
/// counts the bytes of a composite. A simple outline counts as 0 here: it is never followed, and `OutlineList` counts it.
/// `MalformedFont` where the outline has one byte or is a composite of fewer than ten.
fn follow(
    first: u8,
    outline: Option<&[u8]>,
    order: &GlyphRemapper,
    waiting: &mut Vec<u16>,
    hinting: bool,
) -> Result<Count, Error>
    requires { first ≡ first_byte_in (option_copied outline) }
    ensures ok { OnOk result (waiting.new.items ≡ waiting.old.items ++ others_in order.now (components_in (option_copied outline.entry))) }
    ensures size { IfOk result (λ n. n.cut ≡ false → n.bytes ≤ requested_size hinting (option_copied outline.entry)) }
    ensures cut { IfOk result (λ n. n.cut ≡ true → LacksParts (option_copied outline.entry)) }
    ensures err { IfErr result (λ e. (e ≡ OutOfMemory) ⊎ ((e ≡ MalformedFont) × LacksParts (option_copied outline.entry))) }
{
    if is_composite(first) {
        let Some(outline) = outline else {
            return Ok(NOTHING);
        };
        push_components(outline, order, waiting, hinting)
    } else {
        Ok(NOTHING)
    }
}

/// Takes a glyph that waited: a new one goes last in the order, its outline last, and its components wait.
/// Counts the bytes of a new composite.
/// `OverflowError` where there is no room for it; otherwise the errors of its components.
fn visit<'a>(
    table: &GlyfTables<'a>,
    order: &mut GlyphRemapper,
    outlines: &mut Vec<Option<&'a [u8]>>,
    waiting: &mut Vec<u16>,
    glyph: u16,
) -> Result<Count, Error>
    requires { AreFound (seen table.now) order.old outlines.old.items }
    ensures ok { OnOk result (IsVisited (seen table.now) order.old waiting.old.items glyph order.new waiting.new.items) }
    ensures found { OnOk result (AreFound (seen table.now) order.new outlines.new.items) }
    ensures size { IfOk result (λ n. n.cut ≡ false → n.bytes + requested_sizes table.now.hinting (outline_in (seen table.now)) order.old ≤ requested_sizes table.now.hinting (outline_in (seen table.now)) order.new) }
    ensures cut { IfOk result (λ n. n.cut ≡ true → IsFaulty (seen table.now) glyph) }
    ensures err { IfErr result (λ e. (e ≡ OutOfMemory) ⊎ (((e ≡ MalformedFont) × IsFaulty (seen table.now) glyph) ⊎ ((e ≡ OverflowError) × IsFull order.old glyph))) }
{
    let known = order.num_gids();
    if order.get(glyph).is_some() {
        return Ok(NOTHING);
    }
    if known == u16::MAX {
        return Err(Error::OverflowError);
    }
    order.remap(glyph)?;
    let outline = table.glyph_data(glyph);
    outlines.push(outline)?;
    let count = follow(first_byte(outline), outline, order, waiting, table.hinting)?;
    Ok(count)
}

/// What is counted of composites, and of one more. Where these are more than `most` bytes: `MalformedFont` if one of them
/// is cut, otherwise `OverflowError`. No memory is taken.
fn longer(size: Count, more: Count, most: u32) -> Result<Count, Error>
    requires { size.bytes ≤ most }
    ensures bytes { IfOk result (λ n. n.bytes ≡ size.bytes + more.bytes) }
    ensures cut { IfOk result (λ n. n.cut ≡ (size.cut || more.cut)) }
    ensures within { IfOk result (λ n. n.bytes ≤ most) }
    ensures err { IfErr result (λ e. (e ≡ (if size.cut || more.cut then MalformedFont else OverflowError)) × (most < size.bytes + more.bytes)) }
{
    let cut = size.cut || more.cut;
    if more.bytes > most as usize - size.bytes {
        return Err(if cut {
            Error::MalformedFont
        } else {
            Error::OverflowError
        });
    }
    Ok(Count {
        bytes: size.bytes + more.bytes,
        cut,
    })
}

/// Returned as the first byte of an outline that has only one byte, so that it counts as a composite. The closure follows it
/// then, and finds it faulty. (A byte and no enum: the first bytes of a block are read without a step that waits for one.)
const ONLY_BYTE: u8 = 255;

/// The first byte of an outline, 0 where there is none.
fn first_byte(outline: Option<&[u8]>) -> u8
    ensures { result ≡ first_byte_in (option_copied outline.entry) }
{
    match outline {
        Some([_]) => ONLY_BYTE,
        Some([first, ..]) => *first,
        _ => 0,
    }
}

/// Reads the first bytes of outlines.
///
/// No step waits for one of them, so that many are fetched from memory at a time.
fn read_first_bytes(first_bytes: &mut Vec<u8>, outlines: &[Option<&[u8]>]) -> Result<(), Error>
    ensures ok { OnOk result (first_bytes.new.items ≡ map (λ o. first_byte_in (option_copied o)) outlines.now) }
    ensures err { IfErr result (λ e. e ≡ OutOfMemory) }
{
    first_bytes.clear();
    for outline in outlines {
        first_bytes.push(first_byte(*outline))?;
    }
    Ok(())
}

/// Takes the first byte of the last of some outlines, where `first_bytes` are the first bytes of those at the end.
/// Where there are none, a block of them is read.
fn pop_first_byte(first_bytes: &mut Vec<u8>, outlines: &[Option<&[u8]>]) -> Result<u8, Error>
    requires some { 1 ≤ length outlines.now }
    requires ends { EndsWith (map (λ o. first_byte_in (option_copied o)) outlines.now) first_bytes.old.items }
    ensures ok { IfOk result (λ first. IsTaken (map (λ o. first_byte_in (option_copied o)) outlines.now) first first_bytes.new.items) }
    ensures err { IfErr result (λ e. e ≡ OutOfMemory) }
{
    if let Some(first) = first_bytes.pop() {
        return Ok(first);
    }
    let start = outlines.len().saturating_sub(PREFETCH_BLOCK);
    read_first_bytes(first_bytes, &outlines[start..])?;
    Ok(first_bytes.pop().unwrap_or(0))
}

/// The mapper's glyphs, and then each further one that they reach through components, with the outlines of all.
///
/// The last of the waiting glyphs is taken first, and the mapper's glyphs lie below all others. The outlines of these are
/// prefetched a block at a time, and the components of a block are read while it is at hand.
/// `OverflowError` where all 65536 numbers are reached, or composites that have more than `most` bytes together in the new
/// `glyf`, before their components are followed; `MalformedFont` where a reached glyph has one byte or is a composite of
/// fewer than ten, or the composites with those that are cut have more than `most`.
pub fn closure<'a>(
    alloc: Global,
    table: &GlyfTables<'a>,
    mapper: &GlyphRemapper,
    most: u32,
) -> Result<GlyphClosure<'a>, Error>
    ensures ok { IfOk result (λ r. IsGlyphOrderBy (outline_in (seen table.now)) mapper.now r.order) }
    ensures found { IfOk result (λ r. Finds (seen table.now) r.order mapper.now [] mapper.now) }
    ensures outlines { IfOk result (λ r. AreFound (seen table.now) r.order r.outlines.items) }
    ensures err { IfErr result (λ e. StopsClosure (seen table.now) mapper.now most e) }
{
    let mut order = mapper.clone()?;
    let mut outlines = find_outlines(alloc, table, mapper)?;
    let mut left = mapper.num_gids() as usize;
    let mut first_bytes = Vec::with_capacity(alloc, left.min(PREFETCH_BLOCK))?;
    let mut waiting = Vec::new(alloc);
    let mut size = NOTHING;
    while left > 0 {
        let first = pop_first_byte(&mut first_bytes, &outlines[..left])?;
        left -= 1;
        let given = follow(first, outlines[left], &order, &mut waiting, table.hinting)?;
        size = longer(size, given, most)?;
        while let Some(component) = waiting.pop() {
            let further = visit(table, &mut order, &mut outlines, &mut waiting, component)?;
            size = longer(size, further, most)?;
        }
    }
    Ok(GlyphClosure { order, outlines })
}
