//! Advance heights (OpenType, "vhea", "vmtx" and "VVAR").

ghost use Rattle.std.specs.Prelude.{◌≡◌, IfOk, IfErr, codes, map, pos, ◌+ℤ◌};
ghost use Rattle.std.specs.Option.{option_map, unwrap_or};
ghost use Rattle.std.specs.Result.{result_unwrap_or};
ghost use Rattle.subsetter_base.specs.declared.error.Error.TheVariants.{OutOfMemory};
ghost use Rattle.subsetter_sfnt.specs.Read.{table_in};
ghost use Rattle.pdf_glyphs.specs.HeightVariation.{if_height, variation_view};
ghost use Rattle.pdf_glyphs.specs.Vertical.{advance_of, pair_count, vertical_view};
ghost use Rattle.pdf_source.specs.Moved.{location_seen};
ghost use Rattle.pdf_source.specs.Named.{heights_by};
ghost use Rattle.pdf_source.specs.Source.{vertical_of};
ghost use Rattle.font_advances.specs.Heights.{AreKnownBy, IsKnownBy, height, heights_in};

use crate::known::{known_at, known_deltas};
use pdf_glyphs::{HeightVariation, VerticalTables};
use pdf_source::{Location, heights_by, location_in, vertical_of};
use std::alloc::{AllocError, Global};
use subsetter_base::{Error, Tag};
use subsetter_sfnt::face::Face;
use subsetter_sfnt::fields::hhea::number_of_h_metrics;
use subsetter_sfnt::fields::hmtx::glyph_advance;
use subsetter_variation::items::advances::advance_delta;

/// For how many glyphs `vmtx` has an advance height.
fn pair_count(tables: VerticalTables<'_>) -> u16
    ensures { result ≡ pair_count (vertical_view tables.entry) }
{
    let Some(vhea) = tables.vhea else {
        return 0;
    };
    match number_of_h_metrics(vhea) {
        Some(count) => count,
        None => 0,
    }
}

/// The advance height that `vmtx` has of a glyph.
fn advance_of(tables: VerticalTables<'_>, glyph: u16) -> Option<u16>
    ensures { result ≡ advance_of (vertical_view tables.entry) glyph }
{
    let count = pair_count(tables);
    if count == 0 {
        return None;
    }
    let vmtx = tables.vmtx?;
    glyph_advance(vmtx, count, glyph)
}

/// A sum as an advance: at least 0; past 16 bits the advance stays.
fn if_height(sum: i128, advance: u16) -> u16
    ensures { result ≡ if_height sum advance }
{
    if sum <= 0 {
        return 0;
    }
    if sum < 65536 {
        return sum as u16;
    }
    advance
}

/// An advance height with what it varies by, where that can be read.
fn varied_height(advance: u16, delta: Result<i64, Error>) -> u16
    ensures { result ≡ if_height (pos advance +ℤ result_unwrap_or delta (pos 0)) advance }
{
    let by = match delta {
        Ok(by) => by,
        Err(_) => 0,
    };
    if_height(i128::from(advance) + i128::from(by), advance)
}

/// The height of a glyph in a font with `units` units per em; `known` is its delta, where that is known.
fn height(
    tables: VerticalTables<'_>,
    variation: Option<HeightVariation<'_>>,
    units: u16,
    glyph: u16,
    known: Option<Result<i64, Error>>,
) -> u16
    requires { IsKnownBy (option_map variation_view variation) glyph known }
    ensures { result ≡ height (vertical_view tables.entry) (option_map variation_view variation.entry) units glyph }
{
    let Some(advance) = advance_of(tables, glyph) else {
        return units;
    };
    let Some(variation) = variation else {
        return advance;
    };
    match known {
        Some(delta) => varied_height(advance, delta),
        None => varied_height(advance, advance_delta(variation.vvar, variation.at, glyph)),
    }
}

/// What the heights of glyphs vary by.
fn deltas_of(
    alloc: Global,
    variation: Option<HeightVariation<'_>>,
    glyphs: &[u16],
) -> Result<Vec<Result<i64, Error>>, AllocError>
    ensures { IfOk result (λ v. AreKnownBy (option_map variation_view variation.entry) glyphs.now v.items) }
{
    match variation {
        Some(variation) => known_deltas(alloc, Some(variation.vvar), variation.at, glyphs),
        None => Ok(Vec::new(alloc)),
    }
}

/// The heights of these glyphs, by what they vary by.
fn each_height(
    alloc: Global,
    tables: VerticalTables<'_>,
    variation: Option<HeightVariation<'_>>,
    units: u16,
    glyphs: &[u16],
    known: &[Result<i64, Error>],
) -> Result<Vec<u16>, Error>
    requires { AreKnownBy (option_map variation_view variation) glyphs.now known.now }
    ensures ok { IfOk result (λ v. v.items ≡ map (height (vertical_view tables.entry) (option_map variation_view variation.entry) units) glyphs.now) }
    ensures err { IfErr result (λ e. e ≡ OutOfMemory) }
{
    let mut heights = Vec::with_capacity(alloc, glyphs.len())?;
    for place in 0..glyphs.len() {
        let delta = known_at(known, place);
        heights.push(height(tables, variation, units, glyphs[place], delta))?;
    }
    Ok(heights)
}

/// The heights of glyphs at a location, in a font with `units` units per em.
fn heights_at(
    alloc: Global,
    face: &Face<'_>,
    location: &Option<Location>,
    units: u16,
    glyphs: &[u16],
) -> Result<Vec<u16>, Error>
    ensures ok { IfOk result (λ v. v.items ≡ map (height (vertical_of (table_in face.now.«data».now face.now.records.now)) (heights_by (option_map location_seen location.now) (table_in face.now.«data».now face.now.records.now (codes "VVAR"))) units) glyphs.now) }
    ensures err { IfErr result (λ e. e ≡ OutOfMemory) }
{
    let known = deltas_of(alloc, heights_by(face, location), glyphs)?;
    let tables = vertical_of(face);
    each_height(
        alloc,
        tables,
        heights_by(face, location),
        units,
        glyphs,
        &known,
    )
}

/// The heights of glyphs in a font with `units` units per em.
pub fn heights_in(
    alloc: Global,
    face: &Face<'_>,
    coordinates: &[(Tag, i32)],
    units: u16,
    glyphs: &[u16],
) -> Result<Vec<u16>, Error>
    ensures ok { IfOk result (λ v. v.items ≡ heights_in (table_in face.now.«data».now face.now.records.now) coordinates.now units glyphs.now) }
    ensures err { IfErr result (λ e. e ≡ OutOfMemory) }
{
    let location = location_in(alloc, face, coordinates)?;
    heights_at(alloc, face, &location, units, glyphs)
}
