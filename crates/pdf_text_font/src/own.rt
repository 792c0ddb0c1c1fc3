//! Own glyphs of a subset.

ghost use Rattle.std.specs.Prelude.{◌≡◌, ◌≤◌, ◌<◌, ◌++◌, ◌∷◌, [], length, map, take, drop, IfOk, IfErr};
ghost use Rattle.subsetter_base.specs.declared.error.Error.TheVariants.{OutOfMemory};
ghost use Rattle.cid_embed.specs.Width.{thousandths};
ghost use Rattle.pdf_text_font.specs.Own.{added, added_seen, advances_of, all_parts, blanks, own_by, part_by, parts_by, widths_of};

use own_glyphs::{OwnGlyph, Part};
use pdf_figures::{OwnInk, Placed};
use std::alloc::Global;
use subsetter_base::Error;

/// The parts of own glyphs, one after the other.
pub fn all_parts(alloc: Global, own: &[OwnInk]) -> Result<Vec<Placed>, Error>
    ensures ok { IfOk result (λ parts. parts.items ≡ all_parts own.now) }
    ensures err { IfErr result (λ e. e ≡ OutOfMemory) }
{
    let mut parts = Vec::new(alloc);
    for glyph in own {
        parts.extend_from_slice(&glyph.parts)?;
    }
    Ok(parts)
}

/// A part at its place, whose glyph has this number in the subset.
fn part_by(part: Placed, number: u16) -> Part
    ensures { result ≡ part_by part number }
{
    Part {
        glyph: number,
        x: part.x,
        y: part.y,
    }
}

/// Parts whose glyphs have these numbers in the subset.
pub fn parts_by(alloc: Global, parts: &[Placed], numbers: &[u16]) -> Result<Vec<Part>, Error>
    requires { length parts.now ≤ length numbers.now }
    ensures ok { IfOk result (λ v. v.items ≡ parts_by parts.now numbers.now) }
    ensures err { IfErr result (λ e. e ≡ OutOfMemory) }
{
    let mut numbered = Vec::with_capacity(alloc, parts.len())?;
    for place in 0..parts.len() {
        numbered.push(part_by(parts[place], numbers[place]))?;
    }
    Ok(numbered)
}

/// The first `count` parts.
fn first(parts: &[Part], count: usize) -> &[Part]
    ensures { result.now ≡ take count parts.now }
{
    if count < parts.len() {
        &parts[..count]
    } else {
        parts
    }
}

/// The parts after the first `count`.
fn after(parts: &[Part], count: usize) -> &[Part]
    ensures { result.now ≡ drop count parts.now }
{
    if count < parts.len() {
        &parts[count..]
    } else {
        &[]
    }
}

/// Own glyphs, whose parts these are, one after the other.
fn own_by<'a>(alloc: Global, own: &[OwnInk], parts: &'a [Part]) -> Result<Vec<OwnGlyph<'a>>, Error>
    ensures ok { IfOk result (λ v. map added_seen v.items ≡ own_by own.now parts.now) }
    ensures err { IfErr result (λ e. e ≡ OutOfMemory) }
{
    let mut glyphs = Vec::with_capacity(alloc, own.len())?;
    let mut rest = parts;
    for glyph in own {
        glyphs.push(OwnGlyph {
            parts: first(rest, glyph.parts.len()),
            advance: glyph.advance,
        })?;
        rest = after(rest, glyph.parts.len());
    }
    Ok(glyphs)
}

/// The glyphs that the subset gets: own ones, whose parts these are, one after the other, and after them a blank, if one is wanted.
pub fn added<'a>(
    alloc: Global,
    own: &[OwnInk],
    parts: &'a [Part],
    blank: bool,
) -> Result<Vec<OwnGlyph<'a>>, Error>
    ensures ok { IfOk result (λ v. map added_seen v.items ≡ added own.now parts.now blank) }
    ensures err { IfErr result (λ e. e ≡ OutOfMemory) }
{
    let mut glyphs = own_by(alloc, own, parts)?;
    if blank {
        glyphs.push(OwnGlyph {
            parts: &[],
            advance: 0,
        })?;
    }
    Ok(glyphs)
}

/// The advances of own glyphs, in the font's units.
pub fn advances_of(alloc: Global, own: &[OwnInk]) -> Result<Vec<u16>, Error>
    ensures ok { IfOk result (λ v. v.items ≡ advances_of own.now) }
    ensures err { IfErr result (λ e. e ≡ OutOfMemory) }
{
    let mut advances = Vec::with_capacity(alloc, own.len())?;
    for glyph in own {
        advances.push(glyph.advance)?;
    }
    Ok(advances)
}

/// A length in thousandths of the em, rounded half up, as W has it.
fn thousandths(length: u16, units: u16) -> u32
    ensures { result ≡ thousandths length units }
{
    if units == 0 {
        return 0;
    }
    let units = u32::from(units);
    (2 * (u32::from(length) * 1000) + units) / (2 * units)
}

/// The advances of own glyphs as W has them.
pub fn widths_of(alloc: Global, units: u16, own: &[OwnInk]) -> Result<Vec<u32>, Error>
    ensures ok { IfOk result (λ v. v.items ≡ widths_of units own.now) }
    ensures err { IfErr result (λ e. e ≡ OutOfMemory) }
{
    let mut widths = Vec::with_capacity(alloc, own.len())?;
    for glyph in own {
        widths.push(thousandths(glyph.advance, units))?;
    }
    Ok(widths)
}
