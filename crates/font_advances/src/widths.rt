//! Advance widths (OpenType, "hhea", "hmtx", "maxp", "HVAR" and "gvar").

ghost use Rattle.std.specs.Prelude.{◌≡◌, ◌≤◌, ◌<◌, ◌^◌, ◌-ℤ◌, Ok, Err, Some, IfOk, IfErr, IfSome, length, slice_index_or, unsigned_abs};
ghost use Rattle.std.specs.Option.{option_copied};
ghost use Rattle.subsetter_base.specs.Gives.{Gives};
ghost use Rattle.subsetter_sfnt.specs.Read.{table_in};
ghost use Rattle.subsetter_instance.specs.Glyphs.Cache.{AreKept};
ghost use Rattle.subsetter_instance.specs.Glyphs.Drawn.{advance_or_fault};
ghost use Rattle.subsetter_instance.specs.Glyphs.Known.{AreKnown, IsKnown};
ghost use Rattle.subsetter_instance.specs.Source.{HasAxes};
ghost use Rattle.subsetter_cff_instance.specs.Metrics.{varied_advance};
ghost use Rattle.pdf_source.specs.Moved.{are_zero};
ghost use Rattle.font_advances.specs.Widths.{blended_width, blended_widths, each, glyf_widths, metrics_in, metrics_seen, moved_width, moved_widths, phantom_width, outlines_in, still_width, still_widths, widths_of};

use crate::known::{known_at, known_deltas};
use std::alloc::Global;
use subsetter_base::{Error, Tag};
use subsetter_cff_instance::source::{
    Source as BlendedSource, source_or_fault as blended_source_or_fault,
};
use subsetter_instance::glyphs::cache::GlyphCache;
use subsetter_instance::glyphs::drawn::advance;
use subsetter_instance::glyphs::spare::Spare;
use subsetter_instance::glyphs::unfolding::unfold;
use subsetter_instance::source::{Source, normalized_coordinates, source_or_fault};
use subsetter_sfnt::face::Face;
use subsetter_sfnt::fields::hhea::number_of_h_metrics;
use subsetter_sfnt::fields::hmtx::glyph_metric;

/// The outlines that are taken of a font.
#[derive(Clone, Copy)]
pub enum Outlines {
    /// In `glyf`.
    Glyf,
    /// In `CFF `, without `glyf`.
    Cff,
    /// In `CFF2` alone.
    Cff2,
}

/// The metrics of a font that is taken as it is.
#[derive(Clone, Copy)]
pub struct Metrics<'a> {
    hmtx: &'a [u8],
    /// numberOfHMetrics.
    pairs: u16,
}

/// The outlines that are taken. No outlines are `UnknownKind`.
#[tactic(auto, unfolding(crate::specs::Widths::outlines_in))]
pub fn outlines_in(face: &Face<'_>) -> Result<Outlines, Error>
    ensures { result ≡ outlines_in (table_in face.now.«data».now face.now.records.now) }
{
    if face.stored(Tag::GLYF).is_some() {
        return Ok(Outlines::Glyf);
    }
    if face.stored(Tag::CFF).is_some() {
        return Ok(Outlines::Cff);
    }
    if face.stored(Tag::CFF2).is_some() {
        return Ok(Outlines::Cff2);
    }
    Err(Error::UnknownKind)
}

/// The metrics of a font that is taken as it is. A table that is missing or cut is `MalformedFont`, and numberOfHMetrics of 0
/// `OverflowError`.
#[tactic(auto, unfolding(crate::specs::Widths::metrics_in))]
fn metrics_in<'a>(face: &Face<'a>) -> Result<Metrics<'a>, Error>
    ensures ok { IfOk result (λ m. metrics_in (table_in face.now.«data».now face.now.records.now) ≡ Ok (metrics_seen m)) }
    ensures err { IfErr result (λ e. metrics_in (table_in face.now.«data».now face.now.records.now) ≡ Err e) }
{
    let hmtx = face.stored(Tag::HMTX).ok_or(Error::MalformedFont)?;
    let hhea = face.stored(Tag::HHEA).ok_or(Error::MalformedFont)?;
    let pairs = number_of_h_metrics(hhea).ok_or(Error::MalformedFont)?;
    if pairs == 0 {
        return Err(Error::OverflowError);
    }
    Ok(Metrics { hmtx, pairs })
}

/// The advance that `hmtx` has of a glyph. `MalformedFont` where it has none.
fn still_width(metrics: &Metrics<'_>, glyph: u16) -> Result<u16, Error>
    ensures { result ≡ still_width (metrics_seen metrics.now) glyph }
{
    let metric = glyph_metric(metrics.hmtx, metrics.pairs, glyph).ok_or(Error::MalformedFont)?;
    Ok(metric.advance_width)
}

/// The advances that `hmtx` has of glyphs.
fn each_still(alloc: Global, metrics: &Metrics<'_>, glyphs: &[u16]) -> Result<Vec<u16>, Error>
    ensures { Gives (λ v. v.items) result (each (still_width (metrics_seen metrics.now)) glyphs.now) }
{
    let mut widths = Vec::with_capacity(alloc, glyphs.len())?;
    for place in 0..glyphs.len() {
        let width = still_width(metrics, glyphs[place])?;
        widths.push(width)?;
    }
    Ok(widths)
}

/// The widths of a font that is taken as it is.
#[tactic(auto, unfolding(crate::specs::Widths::still_widths))]
fn still_widths(alloc: Global, face: &Face<'_>, glyphs: &[u16]) -> Result<Vec<u16>, Error>
    ensures { Gives (λ v. v.items) result (still_widths (table_in face.now.«data».now face.now.records.now) glyphs.now) }
{
    let metrics = metrics_in(face)?;
    each_still(alloc, &metrics, glyphs)
}

/// An advance: 0 where the sum is under 0, and `OverflowError` where it has no 16 bits.
fn advance_or_fault(sum: i128) -> Result<u16, Error>
    ensures { result ≡ advance_or_fault sum }
{
    if sum <= 0 {
        Ok(0)
    } else if sum < 65536 {
        Ok(sum as u16)
    } else {
        Err(Error::OverflowError)
    }
}

/// An advance as `HVAR` varies it, which may be known; without `HVAR` it stays.
fn varied_advance(
    hvar: Option<&[u8]>,
    at: &[i32],
    glyph: u16,
    known: Option<Result<i64, Error>>,
    before: u16,
) -> Result<u16, Error>
    requires { IsKnown (option_copied hvar) at.now glyph known }
    ensures { result ≡ varied_advance (option_copied hvar.entry) at.now glyph before }
{
    let Some(hvar) = hvar else {
        return Ok(before);
    };
    match known {
        None => advance(Some(hvar), at, glyph, before, 0),
        Some(delta) => {
            let delta = delta?;
            advance_or_fault(i128::from(before) + i128::from(delta))
        }
    }
}

/// How far the right phantom point is from the left one.
fn distance(left: i64, right: i64) -> i64
    requires left { unsigned_abs left ≤ 2 ^ 58 }
    requires right { unsigned_abs right ≤ 2 ^ 58 }
    ensures value { result ≡ right -ℤ left }
    ensures bound { unsigned_abs result ≤ 2 ^ 59 }
{
    right - left
}

/// The distance between a glyph's phantom points, found within `steps` steps, and the glyphs that are kept.
#[tactic(auto, unfolding(crate::specs::Widths::phantom_width))]
fn phantom_width(
    alloc: Global,
    spare: &mut Spare,
    source: &Source<'_>,
    at: &[i32],
    steps: u32,
    glyph: u16,
    kept: GlyphCache,
) -> Result<(u16, GlyphCache), Error>
    requires axes { HasAxes source.now.gvar (length at.now) }
    requires kept { AreKept source.now at.now kept }
    ensures value { Gives (λ r. r.0) result (phantom_width source.now at.now steps glyph) }
    ensures kept { IfOk result (λ r. AreKept source.now at.now r.1) }
{
    let (unfolded, _, kept) = unfold(alloc, spare, source, at, steps, glyph, kept)?;
    let between = distance(unfolded.left, unfolded.right);
    let width = advance(None, at, glyph, 0, between)?;
    Ok((width, kept))
}

/// The width of a glyph off the font's default, and the glyphs that are kept.
fn moved_width(
    alloc: Global,
    spare: &mut Spare,
    source: &Source<'_>,
    at: &[i32],
    steps: u32,
    glyph: u16,
    known: Option<Result<i64, Error>>,
    kept: GlyphCache,
) -> Result<(u16, GlyphCache), Error>
    requires axes { HasAxes source.now.gvar (length at.now) }
    requires known { IsKnown source.now.hvar at.now glyph known }
    requires kept { AreKept source.now at.now kept }
    ensures value { Gives (λ r. r.0) result (moved_width source.now at.now steps glyph) }
    ensures kept { IfOk result (λ r. AreKept source.now at.now r.1) }
{
    if glyph >= source.count() {
        return Err(Error::MalformedFont);
    }
    let Some(hvar) = source.hvar() else {
        return phantom_width(alloc, spare, source, at, steps, glyph, kept);
    };
    let metric = source.metric(glyph).ok_or(Error::MalformedFont)?;
    let width = varied_advance(Some(hvar), at, glyph, known, metric.advance_width)?;
    Ok((width, kept))
}

/// The widths of these glyphs off the font's default, by what their advances vary by.
fn each_moved(
    alloc: Global,
    source: &Source<'_>,
    at: &[i32],
    steps: u32,
    glyphs: &[u16],
    known: &[Result<i64, Error>],
) -> Result<Vec<u16>, Error>
    requires axes { HasAxes source.now.gvar (length at.now) }
    requires known { AreKnown source.now.hvar at.now glyphs.now known.now }
    ensures { Gives (λ v. v.items) result (each (moved_width source.now at.now steps) glyphs.now) }
{
    let mut widths = Vec::with_capacity(alloc, glyphs.len())?;
    let mut kept = GlyphCache::new(alloc);
    let mut spare = Spare::new(alloc);
    for place in 0..glyphs.len() {
        let (width, others) = moved_width(
            alloc,
            &mut spare,
            source,
            at,
            steps,
            glyphs[place],
            known_at(known, place),
            kept,
        )?;
        widths.push(width)?;
        kept = others;
    }
    Ok(widths)
}

/// The widths off the default of a font with outlines in `glyf`. What tuples and items have in common is reckoned once.
#[tactic(auto, unfolding(crate::specs::Widths::moved_widths))]
fn moved_widths(
    alloc: Global,
    face: &Face<'_>,
    at: &[i32],
    steps: u32,
    glyphs: &[u16],
) -> Result<Vec<u16>, Error>
    ensures { Gives (λ v. v.items) result (moved_widths (table_in face.now.«data».now face.now.records.now) at.now steps glyphs.now) }
{
    let source = source_or_fault(face, at.len())?;
    let known = known_deltas(alloc, source.hvar(), at, glyphs)?;
    let scalars = source.shared_scalars(alloc, at)?;
    let located = source.located(at, &scalars);
    each_moved(alloc, &located, at, steps, glyphs, &known)
}

/// Whether each coordinate is 0.
fn are_zero(at: &[i32]) -> bool
    ensures { result ≡ are_zero at.now }
{
    at.iter().all(|v| *v == 0)
}

/// The widths of a font with outlines in `glyf`.
#[tactic(auto, unfolding(crate::specs::Widths::glyf_widths))]
fn glyf_widths(
    alloc: Global,
    face: &Face<'_>,
    coordinates: &[(Tag, i32)],
    steps: u32,
    glyphs: &[u16],
) -> Result<Vec<u16>, Error>
    ensures { Gives (λ v. v.items) result (glyf_widths (table_in face.now.«data».now face.now.records.now) coordinates.now steps glyphs.now) }
{
    let at = normalized_coordinates(alloc, face, coordinates)?;
    if are_zero(&at) {
        return still_widths(alloc, face, glyphs);
    }
    moved_widths(alloc, face, &at, steps, glyphs)
}

/// The width of a glyph of `CFF2`.
fn blended_width(
    source: &BlendedSource<'_>,
    at: &[i32],
    glyph: u16,
    known: Option<Result<i64, Error>>,
) -> Result<u16, Error>
    requires { IsKnown source.now.hvar at.now glyph known }
    ensures { result ≡ blended_width source.now at.now glyph }
{
    if glyph >= source.count() {
        return Err(Error::MalformedFont);
    }
    let metric = source.metric(glyph).ok_or(Error::MalformedFont)?;
    varied_advance(source.hvar(), at, glyph, known, metric.advance_width)
}

/// The widths of these glyphs of `CFF2`, by what their advances vary by.
fn each_blended(
    alloc: Global,
    source: &BlendedSource<'_>,
    at: &[i32],
    glyphs: &[u16],
    known: &[Result<i64, Error>],
) -> Result<Vec<u16>, Error>
    requires { AreKnown source.now.hvar at.now glyphs.now known.now }
    ensures { Gives (λ v. v.items) result (each (blended_width source.now at.now) glyphs.now) }
{
    let mut widths = Vec::with_capacity(alloc, glyphs.len())?;
    for place in 0..glyphs.len() {
        let width = blended_width(source, at, glyphs[place], known_at(known, place))?;
        widths.push(width)?;
    }
    Ok(widths)
}

/// The widths of a font with outlines in `CFF2` alone.
#[tactic(auto, unfolding(crate::specs::Widths::blended_widths))]
fn blended_widths(
    alloc: Global,
    face: &Face<'_>,
    coordinates: &[(Tag, i32)],
    glyphs: &[u16],
) -> Result<Vec<u16>, Error>
    ensures { Gives (λ v. v.items) result (blended_widths (table_in face.now.«data».now face.now.records.now) coordinates.now glyphs.now) }
{
    let at = normalized_coordinates(alloc, face, coordinates)?;
    let source = blended_source_or_fault(face)?;
    let known = known_deltas(alloc, source.hvar(), &at, glyphs)?;
    each_blended(alloc, &source, &at, glyphs, &known)
}

/// The widths of glyphs of a font whose outlines these are.
pub fn widths_of(
    alloc: Global,
    outlines: Outlines,
    face: &Face<'_>,
    coordinates: &[(Tag, i32)],
    steps: u32,
    glyphs: &[u16],
) -> Result<Vec<u16>, Error>
    ensures { Gives (λ v. v.items) result (widths_of outlines (table_in face.now.«data».now face.now.records.now) coordinates.now steps glyphs.now) }
{
    match outlines {
        Outlines::Glyf => glyf_widths(alloc, face, coordinates, steps, glyphs),
        Outlines::Cff => still_widths(alloc, face, glyphs),
        Outlines::Cff2 => blended_widths(alloc, face, coordinates, glyphs),
    }
}
