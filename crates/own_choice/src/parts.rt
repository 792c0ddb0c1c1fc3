//! Which glyphs can be parts of own ones, and how many parts these can have.

ghost use Rattle.std.specs.Prelude.{◌≡◌, codes, is_some, replicate, true, IfOk, IfErr};
ghost use Rattle.subsetter_base.specs.Gives.{Gives};
ghost use Rattle.subsetter_base.specs.declared.error.Error.TheVariants.{OutOfMemory};
ghost use Rattle.subsetter_sfnt.specs.Read.{table_in};
ghost use Rattle.pdf_source.specs.Moved.{are_zero};
ghost use Rattle.own_choice.specs.Parts.{glyf_parts, has_charstrings, has_pictures, moved_parts, no_parts, one_each, parts_in, parts_seen, still_parts};

use crate::drawn::drawn_parts;
use crate::outlines::{outlines_in, small_outlines};
use crate::room::most_for;
use std::alloc::Global;
use subsetter_base::{Error, Tag};
use subsetter_instance::source::{normalized_coordinates, source_or_fault};
use subsetter_sfnt::face::Face;

/// Which glyphs can be parts, and how many parts an own glyph can have.
#[derive(Drop)]
pub struct Parts {
    pub can_be: Vec<bool>,
    pub most: u16,
}

/// Whether a font has a table.
fn has(face: &Face<'_>, tag: Tag) -> bool
    ensures { result ≡ is_some (table_in face.now.«data».now face.now.records.now tag.0) }
{
    face.stored(tag).is_some()
}

/// Whether glyphs may have other pictures than outlines.
fn has_pictures(face: &Face<'_>) -> bool
    ensures { result ≡ has_pictures (table_in face.now.«data».now face.now.records.now) }
{
    has(face, Tag::new(b"COLR"))
        || has(face, Tag::new(b"SVG "))
        || has(face, Tag::new(b"CBDT"))
        || has(face, Tag::new(b"sbix"))
        || has(face, Tag::new(b"EBDT"))
}

/// Whether outlines are in `CFF `.
pub fn has_charstrings(face: &Face<'_>) -> bool
    ensures { result ≡ has_charstrings (table_in face.now.«data».now face.now.records.now) }
{
    !has(face, Tag::GLYF) && has(face, Tag::CFF)
}

/// No glyph is a part.
fn no_parts(alloc: Global) -> Parts
    ensures { parts_seen result ≡ no_parts }
{
    Parts {
        can_be: Vec::new(alloc),
        most: 0,
    }
}

/// Each glyph is one, alone.
fn one_each(alloc: Global, count: u16) -> Result<Parts, Error>
    ensures ok { IfOk result (λ p. parts_seen p ≡ one_each count) }
    ensures err { IfErr result (λ e. e ≡ OutOfMemory) }
{
    Ok(Parts {
        can_be: vec![in alloc; true; usize::from(count)]?,
        most: 1,
    })
}

/// Of the first `count` glyphs, by the headers of their outlines.
fn still_parts(alloc: Global, face: &Face<'_>, count: u16) -> Result<Parts, Error>
    ensures ok { IfOk result (λ p. parts_seen p ≡ still_parts (table_in face.now.«data».now face.now.records.now) count) }
    ensures err { IfErr result (λ e. e ≡ OutOfMemory) }
{
    let Some(tables) = outlines_in(face) else {
        return Ok(no_parts(alloc));
    };
    Ok(Parts {
        can_be: small_outlines(alloc, tables, count)?,
        most: most_for(face.stored(Tag::MAXP)),
    })
}

/// Of the first `count` glyphs at a location.
#[tactic(auto, unfolding(crate::specs::Parts::moved_parts))]
fn moved_parts(
    alloc: Global,
    face: &Face<'_>,
    at: &[i32],
    steps: u32,
    count: u16,
) -> Result<Parts, Error>
    ensures { Gives parts_seen result (moved_parts (table_in face.now.«data».now face.now.records.now) at.now steps count) }
{
    let source = source_or_fault(face, at.len())?;
    let scalars = source.shared_scalars(alloc, at)?;
    let located = source.located(at, &scalars);
    drawn_parts(alloc, &located, at, steps, count)
}

/// Whether each coordinate is 0.
fn are_zero(at: &[i32]) -> bool
    ensures { result ≡ are_zero at.now }
{
    at.iter().all(|v| *v == 0)
}

/// Of the first `count` glyphs of a font with outlines in `glyf`.
#[tactic(auto, unfolding(crate::specs::Parts::glyf_parts))]
fn glyf_parts(
    alloc: Global,
    face: &Face<'_>,
    settings: &[(Tag, i32)],
    steps: u32,
    count: u16,
) -> Result<Parts, Error>
    ensures { Gives parts_seen result (glyf_parts (table_in face.now.«data».now face.now.records.now) settings.now steps count) }
{
    let at = normalized_coordinates(alloc, face, settings)?;
    if are_zero(&at) {
        return still_parts(alloc, face, count);
    }
    moved_parts(alloc, face, &at, steps, count)
}

/// Of the first `count` glyphs of a font at coordinates; none where there may be other pictures, and without outlines in `glyf` or `CFF `.
pub fn parts_in(
    alloc: Global,
    face: &Face<'_>,
    settings: &[(Tag, i32)],
    steps: u32,
    count: u16,
) -> Result<Parts, Error>
    ensures { Gives parts_seen result (parts_in (table_in face.now.«data».now face.now.records.now) settings.now steps count) }
{
    if count == u16::MAX || has_pictures(face) {
        return Ok(no_parts(alloc));
    }
    if has_charstrings(face) {
        return one_each(alloc, count);
    }
    if has(face, Tag::GLYF) {
        return glyf_parts(alloc, face, settings, steps, count);
    }
    Ok(no_parts(alloc))
}
