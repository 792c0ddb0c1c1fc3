//! What the tables of metrics have of the boxes of glyphs (OpenType, "head", "hhea" and "hmtx").

ghost use Rattle.std.specs.Prelude.{◌≡◌, length, IfOk, IfErr};
ghost use Rattle.std.specs.Int.{w16, cast_unsigned};
ghost use Rattle.std.specs.Option.{option_map};
ghost use Rattle.subsetter_base.specs.declared.error.Error.TheVariants.{OutOfMemory};
ghost use Rattle.subsetter_cff_instance.specs.Boxes.{all_extents, among, bearing, drawn_metric, drawn_metrics, extents_by, glyph_extents, with_bearing};

use std::alloc::Global;
use subsetter_base::Error;
use subsetter_instance::tables::extremes::{Extents, extents_of, joined};
use subsetter_points::Bounds;
use subsetter_sfnt::fields::hmtx::LongHorMetric;

/// The box of a glyph.
fn box_among(boxes: &[Option<Bounds>], glyph: usize) -> Option<Bounds>
    ensures { result ≡ among boxes.now glyph }
{
    *boxes.get(glyph)?
}

/// The metric of a glyph, if it was requested.
fn metric_among(all: &[Option<LongHorMetric>], glyph: usize) -> Option<LongHorMetric>
    ensures { result ≡ among all.now glyph }
{
    *all.get(glyph)?
}

/// The left side bearing by a box: its least x, 0 without one.
fn bearing(bounds: Option<Bounds>) -> i16
    ensures { result ≡ bearing bounds }
{
    match bounds {
        None => 0,
        Some(bounds) => bounds.x_min,
    }
}

/// A metric with the bearing of a box.
fn with_bearing(bounds: Option<Bounds>, metric: LongHorMetric) -> LongHorMetric
    ensures { result ≡ with_bearing bounds metric }
{
    LongHorMetric {
        advance_width: metric.advance_width,
        lsb: bearing(bounds).cast_unsigned(),
    }
}

/// The metric of a glyph, with the bearing of its box.
fn drawn_metric(
    all: &[Option<LongHorMetric>],
    boxes: &[Option<Bounds>],
    glyph: usize,
) -> Option<LongHorMetric>
    ensures { result ≡ drawn_metric all.now boxes.now glyph }
{
    let metric = metric_among(all, glyph)?;
    Some(with_bearing(box_among(boxes, glyph), metric))
}

/// Those of all glyphs.
pub fn drawn_metrics(
    alloc: Global,
    all: &[Option<LongHorMetric>],
    boxes: &[Option<Bounds>],
) -> Result<Vec<Option<LongHorMetric>>, Error>
    ensures ok { IfOk result (λ v. v.items ≡ drawn_metrics all.now boxes.now) }
    ensures err { IfErr result (λ e. e ≡ OutOfMemory) }
{
    let mut drawn = Vec::with_capacity(alloc, all.len())?;
    for glyph in 0..all.len() {
        drawn.push(drawn_metric(all, boxes, glyph))?;
    }
    Ok(drawn)
}

/// The extents of a glyph of such a metric and box, if it has both.
fn extents_by(metric: Option<LongHorMetric>, bounds: Option<Bounds>) -> Option<Extents>
    ensures { result ≡ extents_by metric bounds }
{
    let metric = metric?;
    let bounds = bounds?;
    Some(extents_of(metric.advance_width, bounds))
}

/// The extents of a glyph.
fn glyph_extents(
    all: &[Option<LongHorMetric>],
    boxes: &[Option<Bounds>],
    glyph: usize,
) -> Option<Extents>
    ensures { result ≡ glyph_extents all.now boxes.now glyph }
{
    extents_by(metric_among(all, glyph), box_among(boxes, glyph))
}

/// The extents of all glyphs, none where none is drawn.
pub fn all_extents(all: &[Option<LongHorMetric>], boxes: &[Option<Bounds>]) -> Option<Extents>
    ensures { result ≡ all_extents all.now boxes.now }
{
    let mut extents = None;
    for glyph in 0..all.len() {
        extents = joined(extents, glyph_extents(all, boxes, glyph));
    }
    extents
}
