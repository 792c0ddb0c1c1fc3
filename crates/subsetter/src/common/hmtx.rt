//! `hhea` and `hmtx`, the horizontal metrics (OpenType, "hhea", "hmtx").
//!
//! `hmtx` has pairs of an advance and a left side bearing, as many as numberOfHMetrics in `hhea` says, and then bearings
//! alone for the glyphs after these, which share the last advance. The new `hmtx` has the metrics of the new glyphs by the
//! least number of pairs, and `hhea` is the source's but for that number.
//!
//! That the number of pairs is the least is stated without the trimming: no bytes whatever give the glyphs' metrics by a
//! lesser count. A bearing is two bytes that are kept and never computed with.

ghost use Rattle.std.specs.Prelude.{◌≡◌, ◌+◌, ◌++◌, ◌≤◌, ◌<◌, ◌^◌, length, vec_capacity, IfOk, OnOk};
ghost use Rattle.std.specs.Option.{option_copied};
ghost use Rattle.std.specs.List.{flat_map};
ghost use Rattle.subsetter_base.specs.Gives.{Gives};
ghost use Rattle.subsetter.specs.Common.Hmtx.Written.{least_count, metrics_all, source_count, tables_of, metrics_in};
ghost use Rattle.subsetter_sfnt.specs.Fields.Hmtx.{metric_bytes, bearing_bytes};

use std::alloc::Global;
use std::marker::Model;
use subsetter_base::{Error, GlyphRemapper};
use subsetter_sfnt::fields::hhea::{
    ADVANCE_WIDTH_MAX, CARET_SLOPE_RISE, number_of_h_metrics, write_hhea,
};
use subsetter_sfnt::fields::hmtx::{LongHorMetric, glyph_metric, last_advance};
use subsetter_sfnt::laying::room::put;

/// numberOfHMetrics of the source, whose last pair has its advance. No pairs are `OverflowError`; a cut table is `MalformedFont`.
#[tactic(auto, unfolding(crate::specs::Common::Hmtx::Written::source_count))]
fn source_count(hhea: &[u8], hmtx: &[u8]) -> Result<u16, Error>
    ensures exact { result ≡ source_count hhea.now hmtx.now }
    ensures header { OnOk result (36 ≤ length hhea.now) }
{
    let count = number_of_h_metrics(hhea).ok_or(Error::MalformedFont)?;
    if count == 0 {
        return Err(Error::OverflowError);
    }
    last_advance(hmtx, count).ok_or(Error::MalformedFont)?;
    Ok(count)
}

/// The metrics of a subset's glyphs, in their order. One that isn't there is `MalformedFont`.
fn metrics(
    alloc: Global,
    hmtx: &[u8],
    count: u16,
    mapper: &GlyphRemapper,
) -> Result<Vec<LongHorMetric>, Error>
    ensures exact { Gives (λ v. v.items) result (metrics_all hmtx.now count mapper.now) }
    ensures few { IfOk result (λ v. length v.items < 2 ^ 16) }
{
    let mut metrics = Vec::with_capacity(alloc, mapper.num_gids() as usize)?;
    for glyph in mapper.remapped_gids() {
        metrics.push(glyph_metric(hmtx, count, glyph).ok_or(Error::MalformedFont)?)?;
    }
    Ok(metrics)
}

/// The least number of pairs: up to the first glyph after which all share its advance.
fn least_count(metrics: &[LongHorMetric]) -> usize
    ensures value { result ≡ least_count metrics.now }
    ensures bound { result ≤ length metrics.now }
{
    let [first, rest @ ..] = metrics else {
        return 0;
    };
    let mut advance = first.advance_width;
    let mut count = 1;
    let mut seen = 1;
    for metric in rest {
        seen += 1;
        if metric.advance_width != advance {
            advance = metric.advance_width;
            count = seen;
        }
    }
    count
}

/// Writes pairs of advance and bearing.
fn write_pairs(out: &mut Vec<u8>, metrics: &[LongHorMetric])
    requires { length out.old.items + length (flat_map metric_bytes metrics.now) ≤ vec_capacity out.old }
    ensures items { out.new.items ≡ out.old.items ++ flat_map metric_bytes metrics.now }
    ensures capacity { vec_capacity out.old ≤ vec_capacity out.new }
{
    for metric in metrics {
        put(out, &metric.to_bytes());
    }
}

/// Writes bearings alone.
fn write_bearings(out: &mut Vec<u8>, metrics: &[LongHorMetric])
    requires { length out.old.items + length (flat_map bearing_bytes metrics.now) ≤ vec_capacity out.old }
    ensures items { out.new.items ≡ out.old.items ++ flat_map bearing_bytes metrics.now }
    ensures capacity { vec_capacity out.old ≤ vec_capacity out.new }
{
    for metric in metrics {
        put(out, &metric.lsb.to_be_bytes());
    }
}

/// The tables that hold the metrics of a subset: `hmtx` with a number of pairs, and bearings alone after them, and `hhea`
/// with that number.
#[derive(Drop)]
pub struct NewMetrics<'a> {
    /// The source's `hhea`.
    header: &'a [u8],
    metrics: Vec<LongHorMetric>,
    number_of_h_metrics: u16,
}

impl<'a> Model for NewMetrics<'a> {
    ghost use Rattle.std.specs.Prelude.{◌≤◌, ◌<◌, ◌^◌, length};
    ghost use Rattle.subsetter.specs.Common.Hmtx.Written.{MetricBytes, hhea_bytes};
    ghost use Rattle.subsetter_sfnt.specs.Fields.Hmtx.{hmtx_bytes};

    ghost Value = { MetricBytes };

    ghost view = { λ m. record { hhea = hhea_bytes m.number_of_h_metrics m.header.now; hmtx = hmtx_bytes m.number_of_h_metrics m.metrics.items } };

    ghost invariant = { λ m. record {
      whole : 36 ≤ length m.header.now;
      within : m.number_of_h_metrics ≤ length m.metrics.items;
      few : length m.metrics.items < 2 ^ 16;
    } };
}

impl<'a> NewMetrics<'a> {
    /// How many bytes `hhea` has.
    pub fn hhea_len(&self) -> usize
        ensures { result ≡ length self.now.hhea }
    {
        self.header.len()
    }

    /// How many bytes `hmtx` has.
    pub fn hmtx_len(&self) -> usize
        ensures { result ≡ length self.now.hmtx }
    {
        2 * self.metrics.len() + 2 * usize::from(self.number_of_h_metrics)
    }

    /// Writes `hhea`.
    #[tactic(auto, unfolding(crate::specs::Common::Hmtx::Written::hhea_bytes))]
    pub fn write_hhea(&self, out: &mut Vec<u8>)
        requires { length out.old.items + length self.now.hhea ≤ vec_capacity out.old }
        ensures items { out.new.items ≡ out.old.items ++ self.now.hhea }
        ensures capacity { vec_capacity out.old ≤ vec_capacity out.new }
    {
        let header = self.header;
        let extremes = &header[ADVANCE_WIDTH_MAX..CARET_SLOPE_RISE];
        write_hhea(out, header, extremes, self.number_of_h_metrics);
    }

    /// Writes `hmtx`.
    #[tactic(auto, unfolding(subsetter_sfnt::specs::Fields::Hmtx::hmtx_bytes))]
    pub fn write_hmtx(&self, out: &mut Vec<u8>)
        requires { length out.old.items + length self.now.hmtx ≤ vec_capacity out.old }
        ensures items { out.new.items ≡ out.old.items ++ self.now.hmtx }
        ensures capacity { vec_capacity out.old ≤ vec_capacity out.new }
    {
        let (pairs, bearings) = self.metrics.split_at(usize::from(self.number_of_h_metrics));
        write_pairs(out, pairs);
        write_bearings(out, bearings);
    }
}

/// The tables from the source's `hmtx`. A missing or cut `hhea`, and a metric that isn't there, are `MalformedFont`; no pairs are `OverflowError`.
#[tactic(auto, unfolding(crate::specs::Common::Hmtx::Written::tables_of))]
fn tables<'a>(
    alloc: Global,
    hhea: Option<&'a [u8]>,
    hmtx: &[u8],
    mapper: &GlyphRemapper,
) -> Result<NewMetrics<'a>, Error>
    ensures { Gives (λ new. new) result (tables_of (option_copied hhea.entry) hmtx.now mapper.now) }
{
    let header = hhea.ok_or(Error::MalformedFont)?;
    let count = source_count(header, hmtx)?;
    let metrics = metrics(alloc, hmtx, count, mapper)?;
    let pairs = least_count(&metrics) as u16;
    Ok(NewMetrics {
        header,
        metrics,
        number_of_h_metrics: pairs,
    })
}

/// `hhea` and `hmtx` of a subset, where the source has `hmtx`: each glyph of the list has the metric of its source, by the least number of pairs.
/// A missing or cut `hhea`, and a last advance or a metric outside of `hmtx`, are `MalformedFont`; no pairs are `OverflowError`.
#[tactic(auto, unfolding(crate::specs::Common::Hmtx::Written::metrics_in))]
pub fn subset<'a>(
    alloc: Global,
    hhea: Option<&'a [u8]>,
    hmtx: Option<&[u8]>,
    mapper: &GlyphRemapper,
) -> Result<Option<NewMetrics<'a>>, Error>
    ensures { Gives (λ new. new) result (metrics_in (option_copied hhea.entry) (option_copied hmtx.entry) mapper.now) }
{
    let Some(hmtx) = hmtx else {
        return Ok(None);
    };
    let tables = tables(alloc, hhea, hmtx, mapper)?;
    Ok(Some(tables))
}
