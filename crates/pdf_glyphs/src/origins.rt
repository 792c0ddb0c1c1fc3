//! The origins of `VORG` (OpenType, "VORG").

ghost use Rattle.std.specs.Prelude.{◌≡◌, ◌<◌, ℕ, ℤ, length, IfErr, IfOk, None, Option, Some, replicate, slice_index, slice_index_or};
ghost use Rattle.std.specs.Option.{option_copied, option_map, option_or};
ghost use Rattle.subsetter_base.specs.declared.error.Error.TheVariants.{OutOfMemory};
ghost use Rattle.subsetter_base.specs.Bytes.{signed_field};
ghost use Rattle.pdf_glyphs.specs.Origins.{filled, origin_seen};
ghost use Rattle.pdf_glyphs.specs.Vertical.{by_record, origin_at, origin_of, record_count};

use std::alloc::Global;
use subsetter_base::fields::{number_in, signed_in};
use subsetter_base::{Error, GlyphRemapper};

/// defaultVertOriginY, two bytes.
const DEFAULT_VERT_ORIGIN_Y: usize = 4;
/// numVertOriginYMetrics, two bytes.
const NUM_VERT_ORIGIN_Y_METRICS: usize = 6;
/// Where the first record's glyphIndex is, two bytes, and after it vertOriginY.
const GLYPH_INDEX: usize = 8;

const VERT_ORIGIN_Y: usize = 10;
/// How many bytes a record has.
const RECORD_SIZE: usize = 4;

/// The y of a glyph's origin, in the font's units.
#[derive(Clone, Copy)]
struct GlyphOrigin {
    glyph: u16,
    y: i16,
}

/// The y of the origins that no record has.
pub fn default_origin(vorg: Option<&[u8]>) -> Option<i16>
    ensures { result ≡ signed_field (option_copied vorg.entry) 4 }
{
    signed_in(vorg, DEFAULT_VERT_ORIGIN_Y)
}

/// How many records there are.
fn record_count(vorg: Option<&[u8]>) -> u16
    ensures { result ≡ record_count (option_copied vorg.entry) }
{
    match number_in(vorg, NUM_VERT_ORIGIN_Y_METRICS) {
        Some(count) => count,
        None => 0,
    }
}

/// A record.
fn origin_at(vorg: Option<&[u8]>, index: u16) -> Option<GlyphOrigin>
    ensures { option_map origin_seen result ≡ origin_at (option_copied vorg.entry) index }
{
    let at = RECORD_SIZE * usize::from(index);
    let glyph = number_in(vorg, at + GLYPH_INDEX)?;
    let y = signed_in(vorg, at + VERT_ORIGIN_Y)?;
    Some(GlyphOrigin { glyph, y })
}

/// No origin for any of `count` glyphs.
fn no_origins(alloc: Global, count: u16) -> Result<Vec<Option<i16>>, Error>
    ensures ok { IfOk result (λ origins. origins.items ≡ replicate count None) }
    ensures err { IfErr result (λ e. e ≡ OutOfMemory) }
{
    let mut origins = Vec::with_capacity(alloc, usize::from(count))?;
    for index in 0..count {
        origins.push(None)?;
    }
    Ok(origins)
}

/// Notes a y at an index, unless one is there.
fn fill(origins: &mut Vec<Option<i16>>, index: usize, y: i16)
    requires { index < length origins.old.items }
    ensures { origins.new.items ≡ filled origins.old.items index y }
{
    origins[index] = origins[index].or(Some(y));
}

/// Notes the y of a record's glyph, unless an earlier record has it.
#[tactic(auto, using(crate::proofs::OriginSteps::y_put, crate::proofs::OriginSteps::y_passed))]
fn put(origins: &mut Vec<Option<i16>>, mapper: &GlyphRemapper, origin: GlyphOrigin)
    requires { length origins.old.items ≡ length mapper.now }
    ensures len { length origins.new.items ≡ length origins.old.items }
    ensures put { (k : ℕ) (later : Option ℤ) → k < length mapper.now → option_or (slice_index_or origins.new.items k None) later ≡ option_or (slice_index_or origins.old.items k None) (by_record (Some (origin_seen origin)) (slice_index mapper.now k) later) }
{
    // No glyph comes twice.
    let _count = mapper.num_gids();
    if let Some(number) = mapper.get(origin.glyph) {
        fill(origins, usize::from(number), origin.y);
    }
}

/// Notes the y of a record, if it is there.
fn put_record(origins: &mut Vec<Option<i16>>, mapper: &GlyphRemapper, found: Option<GlyphOrigin>)
    requires { length origins.old.items ≡ length mapper.now }
    ensures len { length origins.new.items ≡ length origins.old.items }
    ensures put { (k : ℕ) (later : Option ℤ) → k < length mapper.now → option_or (slice_index_or origins.new.items k None) later ≡ option_or (slice_index_or origins.old.items k None) (by_record (option_map origin_seen found) (slice_index mapper.now k) later) }
{
    if let Some(origin) = found {
        put(origins, mapper, origin);
    }
}

/// The y of each glyph's first record.
#[tactic(auto, using(crate::proofs::OriginSteps::origin_begun, crate::proofs::OriginSteps::origin_next, crate::proofs::OriginSteps::origin_done))]
pub fn origins_of(
    alloc: Global,
    vorg: Option<&[u8]>,
    mapper: &GlyphRemapper,
) -> Result<Vec<Option<i16>>, Error>
    ensures len { IfOk result (λ origins. length origins.items ≡ length mapper.now) }
    ensures ok { IfOk result (λ origins. (k : ℕ) → k < length mapper.now → slice_index_or origins.items k None ≡ origin_of (option_copied vorg.entry) (slice_index mapper.now k)) }
    ensures err { IfErr result (λ e. e ≡ OutOfMemory) }
{
    let mut origins = no_origins(alloc, mapper.num_gids())?;
    for index in 0..record_count(vorg) {
        put_record(&mut origins, mapper, origin_at(vorg, index));
    }
    Ok(origins)
}
