//! The tables of more glyphs, each written anew (OpenType, "head", "hhea", "hmtx" and "loca").

ghost use Rattle.std.specs.Prelude.{◌≡◌, ◌≤◌, length, IfOk, IfErr};
ghost use Rattle.std.specs.List.{flat_map};
ghost use Rattle.subsetter_base.specs.declared.error.Error.TheVariants.{OutOfMemory};
ghost use Rattle.subsetter_sfnt.specs.Fields.Hmtx.{hmtx_bytes, metric_bytes};
ghost use Rattle.subsetter_sfnt.specs.Fields.Loca.{loca_bytes};
ghost use Rattle.subsetter.specs.Common.Head.Written.{head_bytes};
ghost use Rattle.subsetter.specs.Common.Hmtx.Written.{hhea_bytes};

use std::alloc::Global;
use subsetter_base::Error;
use subsetter_sfnt::fields::head::{MAC_STYLE, X_MIN, write_head};
use subsetter_sfnt::fields::hhea::{ADVANCE_WIDTH_MAX, CARET_SLOPE_RISE, write_hhea};
use subsetter_sfnt::fields::hmtx::{LONG_HOR_METRIC_SIZE, LongHorMetric};
use subsetter_sfnt::fields::loca::{OFFSET32_SIZE, write_offset};

/// `head` with the format of the new `loca`, and zeros in checksumAdjustment until the file is laid out.
pub fn head(alloc: Global, source: &[u8], long: bool) -> Result<Vec<u8>, Error>
    requires { 52 ≤ length source.now }
    ensures ok { IfOk result (λ v. v.items ≡ head_bytes long source.now) }
    ensures err { IfErr result (λ e. e ≡ OutOfMemory) }
{
    let mut head = Vec::with_capacity(alloc, source.len())?;
    write_head(&mut head, source, long, &source[X_MIN..MAC_STYLE]);
    Ok(head)
}

/// `hhea` with another numberOfHMetrics.
#[tactic(auto, unfolding(subsetter::specs::Common::Hmtx::Written::hhea_bytes))]
pub fn hhea(alloc: Global, source: &[u8], count: u16) -> Result<Vec<u8>, Error>
    requires { 36 ≤ length source.now }
    ensures ok { IfOk result (λ v. v.items ≡ hhea_bytes count source.now) }
    ensures err { IfErr result (λ e. e ≡ OutOfMemory) }
{
    let mut hhea = Vec::with_capacity(alloc, source.len())?;
    let extremes = &source[ADVANCE_WIDTH_MAX..CARET_SLOPE_RISE];
    write_hhea(&mut hhea, source, extremes, count);
    Ok(hhea)
}

/// `hmtx` with a pair for each glyph.
pub fn hmtx(alloc: Global, metrics: &[LongHorMetric]) -> Result<Vec<u8>, Error>
    ensures ok { IfOk result (λ v. v.items ≡ flat_map metric_bytes metrics.now) }
    ensures err { IfErr result (λ e. e ≡ OutOfMemory) }
{
    let size = metrics.len().saturating_mul(LONG_HOR_METRIC_SIZE);
    let mut hmtx = Vec::with_capacity(alloc, size)?;
    for metric in metrics {
        hmtx.extend_from_slice(&metric.to_bytes())?;
    }
    Ok(hmtx)
}

/// `loca` of these offsets.
pub fn loca(alloc: Global, offsets: &[usize], long: bool) -> Result<Vec<u8>, Error>
    ensures ok { IfOk result (λ v. v.items ≡ loca_bytes long offsets.now) }
    ensures err { IfErr result (λ e. e ≡ OutOfMemory) }
{
    let size = offsets.len().saturating_mul(OFFSET32_SIZE);
    let mut loca = Vec::with_capacity(alloc, size)?;
    for offset in offsets {
        write_offset(&mut loca, long, *offset)?;
    }
    Ok(loca)
}
