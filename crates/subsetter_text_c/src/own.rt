//! Own glyphs of a text, as C has them.

ghost use Rattle.std.specs.Prelude.{◌≡◌, ◌⊎◌, ◌<◌, ◌≤◌, ◌+◌, ◌++◌, true, false, length, map, IfSome, IfNone, IfOk, IfErr, OnOk};
ghost use Rattle.std.specs.List.{list_all};
ghost use Rattle.pdf_runs.specs.declared.error.RunError.TheVariants.{InvalidText, OutOfMemory};
ghost use Rattle.pdf_figures.specs.Figures.{own};
ghost use Rattle.pdf_figures.specs.View.{drawn_of, inks_of, own_seen};
ghost use Rattle.subsetter_text_c.specs.Own.{are_ends, are_own, inks_in, is_own, is_part, is_short, own_in, owns_of, part_of, parts_of, place_in};

use pdf_figures::{OwnGlyphs, OwnInk, Placed};
use pdf_runs::RunError;
use std::alloc::Global;

/// An own glyph.
#[derive(Clone, Copy)]
#[repr(C)]
pub struct TextOwn {
    /// In units of the font; it has 16 bits.
    pub advance: u32,
    /// How many parts there are up to the end of its own, which begin where those of the one before it end.
    pub part_end: u32,
}

/// A part of an own glyph, in units of the font; each number has 16 bits.
#[derive(Clone, Copy)]
#[repr(C)]
pub struct TextPart {
    /// Its number in the font.
    pub glyph: u32,
    /// How far it is from the origin of the own glyph.
    pub x: i32,
    /// And above it.
    pub y: i32,
}

// ---- from C

/// A number of 16 bits.
fn short_of(units: i32) -> Option<i16>
    ensures some { IfSome result (λ p. (p ≡ units) × (is_short units ≡ true)) }
    ensures none { IfNone result (is_short units ≡ false) }
{
    if -32_768 <= units && units < 32_768 {
        return Some(units as i16);
    }
    None
}

/// A part, if its numbers have 16 bits.
fn place_in(part: TextPart) -> Option<Placed>
    ensures some { IfSome result (λ p. (p ≡ place_in part) × (is_part part ≡ true)) }
    ensures none { IfNone result (is_part part ≡ false) }
{
    if part.glyph >= 65_536 {
        return None;
    }
    let x = short_of(part.x)?;
    let y = short_of(part.y)?;
    Some(Placed {
        glyph: part.glyph as u16,
        x,
        y,
    })
}

/// All parts.
fn places_in(alloc: Global, parts: &[TextPart]) -> Result<Vec<Placed>, RunError>
    ensures ok { IfOk result (λ v. v.items ≡ map place_in parts.now) }
    ensures valid { OnOk result (list_all is_part parts.now ≡ true) }
    ensures err { IfErr result (λ e. (e ≡ OutOfMemory) ⊎ ((e ≡ InvalidText) × (list_all is_part parts.now ≡ false))) }
{
    let mut places = Vec::with_capacity(alloc, parts.len())?;
    for part in parts {
        match place_in(*part) {
            Some(place) => places.push(place)?,
            None => return Err(RunError::InvalidText),
        }
    }
    Ok(places)
}

/// Whether the parts of an own glyph are the first of the `left` parts.
fn is_own(before: u32, left: usize, own: TextOwn) -> bool
    ensures { result ≡ is_own before left own }
{
    own.advance < 65_536 && (before <= own.part_end && (own.part_end - before) as usize <= left)
}

/// An own glyph of these parts.
fn ink_of(alloc: Global, places: &[Placed], advance: u32) -> Result<OwnInk, RunError>
    requires { advance < 65536 }
    ensures ok { IfOk result (λ o. own_seen o ≡ own (map drawn_of places.now) advance) }
    ensures err { IfErr result (λ e. e ≡ OutOfMemory) }
{
    let parts = Vec::from_slice(alloc, places)?;
    Ok(OwnInk {
        parts,
        advance: advance as u16,
    })
}

/// Own glyphs, whose parts these are, one after the other.
fn own_by(alloc: Global, owns: &[TextOwn], places: &[Placed]) -> Result<Vec<OwnInk>, RunError>
    ensures ok { IfOk result (λ v. inks_of v.items ≡ own_in 0 owns.now places.now) }
    ensures valid { OnOk result (are_ends 0 (length places.now) owns.now ≡ true) }
    ensures err { IfErr result (λ e. (e ≡ OutOfMemory) ⊎ ((e ≡ InvalidText) × (are_ends 0 (length places.now) owns.now ≡ false))) }
{
    let mut glyphs = Vec::with_capacity(alloc, owns.len())?;
    let mut before = 0;
    let mut rest = places;
    for own in owns {
        if !is_own(before, rest.len(), *own) {
            return Err(RunError::InvalidText);
        }
        let count = (own.part_end - before) as usize;
        glyphs.push(ink_of(alloc, &rest[..count], own.advance)?)?;
        rest = &rest[count..];
        before = own.part_end;
    }
    Ok(glyphs)
}

/// Own glyphs.
///
/// # Errors
///
/// - `InvalidText`: a number of one or of a part hasn't 16 bits, or parts end before they begin, or after the last one.
/// - `OutOfMemory`: a request for memory was refused.
pub fn own_of(alloc: Global, owns: &[TextOwn], parts: &[TextPart]) -> Result<Vec<OwnInk>, RunError>
    ensures ok { IfOk result (λ v. inks_of v.items ≡ inks_in owns.now parts.now) }
    ensures valid { OnOk result (are_own owns.now parts.now ≡ true) }
    ensures err { IfErr result (λ e. (e ≡ OutOfMemory) ⊎ ((e ≡ InvalidText) × (are_own owns.now parts.now ≡ false))) }
{
    let places = places_in(alloc, parts)?;
    own_by(alloc, owns, &places)
}

/// Own glyphs, to which runs can bring further ones.
pub fn glyphs_of(alloc: Global, owns: &[TextOwn], parts: &[TextPart]) -> Result<OwnGlyphs, RunError>
    ensures ok { IfOk result (λ g. inks_of g.list.items ≡ inks_in owns.now parts.now) }
    ensures err { IfErr result (λ e. (e ≡ OutOfMemory) ⊎ ((e ≡ InvalidText) × (are_own owns.now parts.now ≡ false))) }
{
    let list = own_of(alloc, owns, parts)?;
    match OwnGlyphs::of(alloc, list) {
        Ok(glyphs) => Ok(glyphs),
        Err(_) => Err(RunError::OutOfMemory),
    }
}

// ---- to C

/// The end of `count` parts after others.
fn end_after(before: u32, count: usize) -> Option<u32>
    ensures { IfSome result (λ end. end ≡ before + count) }
{
    if count > (u32::MAX - before) as usize {
        return None;
    }
    Some(before + count as u32)
}

/// Own glyphs without their parts. `OutOfMemory` also where parts are more than 32 bits count.
pub fn owns_of(alloc: Global, own: &[OwnInk]) -> Result<Vec<TextOwn>, RunError>
    ensures ok { IfOk result (λ v. v.items ≡ owns_of 0 own.now) }
    ensures err { IfErr result (λ e. e ≡ OutOfMemory) }
{
    let mut owns = Vec::with_capacity(alloc, own.len())?;
    let mut end = 0;
    for glyph in own {
        end = match end_after(end, glyph.parts.len()) {
            Some(end) => end,
            None => return Err(RunError::OutOfMemory),
        };
        owns.push(TextOwn {
            advance: u32::from(glyph.advance),
            part_end: end,
        })?;
    }
    Ok(owns)
}

/// A part.
fn part_of(place: Placed) -> TextPart
    ensures { result ≡ part_of place }
{
    TextPart {
        glyph: u32::from(place.glyph),
        x: i32::from(place.x),
        y: i32::from(place.y),
    }
}

/// Puts parts after others.
fn push_parts(parts: &mut Vec<TextPart>, own: &OwnInk) -> Result<(), RunError>
    ensures ok { OnOk result (parts.new.items ≡ parts.old.items ++ map part_of own.now.parts.items) }
    ensures err { IfErr result (λ e. e ≡ OutOfMemory) }
{
    for place in &own.parts {
        parts.push(part_of(*place))?;
    }
    Ok(())
}

/// The parts of own glyphs, one after the other.
pub fn parts_of(alloc: Global, own: &[OwnInk]) -> Result<Vec<TextPart>, RunError>
    ensures ok { IfOk result (λ v. v.items ≡ parts_of own.now) }
    ensures err { IfErr result (λ e. e ≡ OutOfMemory) }
{
    let mut parts = Vec::new(alloc);
    for glyph in own {
        push_parts(&mut parts, glyph)?;
    }
    Ok(parts)
}
