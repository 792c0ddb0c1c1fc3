//! The metrics of glyphs at a location: advances as `HVAR` varies them, and the left side bearings of `hmtx`.

ghost use Rattle.std.specs.Prelude.{◌≡◌, ◌<◌, IfOk, IfErr, IfSome, length, slice_index_or};
ghost use Rattle.std.specs.Option.{option_copied, option_map};
ghost use Rattle.subsetter_base.specs.Gives.{Gives};
ghost use Rattle.subsetter_base.specs.declared.error.Error.TheVariants.{OutOfMemory};
ghost use Rattle.subsetter_instance.specs.Glyphs.Drawn.{advance_or_fault};
ghost use Rattle.subsetter_instance.specs.Glyphs.Known.{AreKnown, IsKnown};
ghost use Rattle.subsetter_cff_instance.specs.Metrics.{varied_advance, varied_metric, metric_if, varied_metrics, metric_among, metrics_by_glyph, advances, widest};

use crate::source::Source;
use std::alloc::{AllocError, Global};
use subsetter_base::{Error, GlyphRemapper};
use subsetter_instance::glyphs::drawn::advance;
use subsetter_sfnt::fields::hmtx::LongHorMetric;
use subsetter_variation::items::advances::advance_deltas;

/// What the advances of glyphs vary by; none without `HVAR`.
fn known_deltas(
    alloc: Global,
    hvar: Option<&[u8]>,
    at: &[i32],
    glyphs: &[u16],
) -> Result<Vec<Result<i64, Error>>, AllocError>
    ensures { IfOk result (λ v. AreKnown (option_copied hvar.entry) at.now glyphs.now v.items) }
{
    match hvar {
        Some(hvar) => advance_deltas(alloc, hvar, at, glyphs),
        None => Ok(Vec::new(alloc)),
    }
}

/// What the advance of a glyph of the list varies by, if that is known.
fn known_at(known: &[Result<i64, Error>], place: usize) -> Option<Result<i64, Error>>
    ensures { IfSome result (λ d. (place < length known.now) × (slice_index_or known.now place d ≡ d)) }
{
    if place < known.len() {
        Some(known[place])
    } else {
        None
    }
}

/// An advance: 0 where the sum is under 0, and `OverflowError` where it has no 16 bits.
fn advance_or_fault(sum: i128) -> Result<u16, Error>
    ensures { result ≡ advance_or_fault sum }
{
    if sum <= 0 {
        Ok(0)
    } else if sum < 65536 {
        Ok(sum as u16)
    } else {
        Err(Error::OverflowError)
    }
}

/// An advance as `HVAR` varies it, which may be known; without `HVAR` it stays.
fn varied_advance(
    hvar: Option<&[u8]>,
    at: &[i32],
    glyph: u16,
    known: Option<Result<i64, Error>>,
    before: u16,
) -> Result<u16, Error>
    requires { IsKnown (option_copied hvar) at.now glyph known }
    ensures { result ≡ varied_advance (option_copied hvar.entry) at.now glyph before }
{
    let Some(hvar) = hvar else {
        return Ok(before);
    };
    match known {
        None => advance(Some(hvar), at, glyph, before, 0),
        Some(delta) => {
            let delta = delta?;
            advance_or_fault(i128::from(before) + i128::from(delta))
        }
    }
}

/// The metric of a glyph at a location, of whose advance the delta may be known.
#[tactic(auto, unfolding(crate::specs::Metrics::varied_metric))]
fn varied_metric(
    source: &Source<'_>,
    at: &[i32],
    glyph: u16,
    known: Option<Result<i64, Error>>,
) -> Result<LongHorMetric, Error>
    requires { IsKnown source.now.hvar at.now glyph known }
    ensures { result ≡ varied_metric source.now at.now glyph }
{
    let metric = source.metric(glyph).ok_or(Error::MalformedFont)?;
    let advance_width = varied_advance(source.hvar(), at, glyph, known, metric.advance_width)?;
    Ok(LongHorMetric {
        advance_width,
        lsb: metric.lsb,
    })
}

/// The metric of a glyph that is requested. `MalformedFont` where it is none of the font's.
fn metric_if(
    source: &Source<'_>,
    at: &[i32],
    glyph: u16,
    known: Option<Result<i64, Error>>,
) -> Result<LongHorMetric, Error>
    requires { IsKnown source.now.hvar at.now glyph known }
    ensures { result ≡ metric_if source.now at.now glyph }
{
    if glyph < source.count() {
        varied_metric(source, at, glyph, known)
    } else {
        Err(Error::MalformedFont)
    }
}

/// Those of these glyphs, by what their advances vary by.
#[tactic(auto, using(crate::proofs::MetricsLaws::metrics_start))]
fn each_metric(
    alloc: Global,
    source: &Source<'_>,
    at: &[i32],
    glyphs: &[u16],
    known: &[Result<i64, Error>],
) -> Result<Vec<LongHorMetric>, Error>
    requires { AreKnown source.now.hvar at.now glyphs.now known.now }
    ensures { Gives (λ v. v.items) result (varied_metrics source.now at.now glyphs.now) }
{
    let mut metrics = Vec::with_capacity(alloc, glyphs.len())?;
    for place in 0..glyphs.len() {
        let metric = metric_if(source, at, glyphs[place], known_at(known, place))?;
        metrics.push(metric)?;
    }
    Ok(metrics)
}

/// Those of the glyphs that are requested, in the mapper's order. What their advances vary by is reckoned for all of them at once.
pub fn varied_metrics(
    alloc: Global,
    source: &Source<'_>,
    at: &[i32],
    mapper: &GlyphRemapper,
) -> Result<Vec<LongHorMetric>, Error>
    ensures { Gives (λ v. v.items) result (varied_metrics source.now at.now mapper.now) }
{
    let glyphs: Vec<u16> = mapper.remapped_gids().collect(alloc)?;
    let known = known_deltas(alloc, source.hvar(), at, &glyphs)?;
    each_metric(alloc, source, at, &glyphs, &known)
}

/// The metric of a glyph, if it was requested.
fn metric_among(
    mapper: &GlyphRemapper,
    metrics: &[LongHorMetric],
    glyph: u16,
) -> Option<LongHorMetric>
    ensures { result ≡ metric_among mapper.now metrics.now glyph }
{
    let place = mapper.get(glyph)?;
    metrics.get(usize::from(place)).copied()
}

/// The metrics of the glyphs 0 to `count` - 1.
pub fn metrics_by_glyph(
    alloc: Global,
    mapper: &GlyphRemapper,
    metrics: &[LongHorMetric],
    count: u16,
) -> Result<Vec<Option<LongHorMetric>>, Error>
    ensures ok { IfOk result (λ v. v.items ≡ metrics_by_glyph mapper.now metrics.now count) }
    ensures count { IfOk result (λ v. length v.items ≡ count) }
    ensures err { IfErr result (λ e. e ≡ OutOfMemory) }
{
    let mut all = Vec::with_capacity(alloc, usize::from(count))?;
    for glyph in 0..count {
        all.push_reserved(metric_among(mapper, metrics, glyph));
    }
    Ok(all)
}

/// The advance of a glyph, if it was requested.
fn advance_of(metric: Option<LongHorMetric>) -> Option<u16>
    ensures { result ≡ option_map (λ m. m.advance_width) metric }
{
    match metric {
        Some(metric) => Some(metric.advance_width),
        None => None,
    }
}

/// The advances of the glyphs that were requested.
pub fn advances(alloc: Global, all: &[Option<LongHorMetric>]) -> Result<Vec<Option<u16>>, Error>
    ensures ok { IfOk result (λ v. v.items ≡ advances all.now) }
    ensures err { IfErr result (λ e. e ≡ OutOfMemory) }
{
    let mut advances = Vec::with_capacity(alloc, all.len())?;
    for metric in all {
        advances.push(advance_of(*metric))?;
    }
    Ok(advances)
}

/// The greatest advance.
pub fn widest(metrics: &[LongHorMetric]) -> u16
    ensures { result ≡ widest metrics.now }
{
    let mut most = 0;
    for metric in metrics {
        most = most.max(metric.advance_width);
    }
    most
}
