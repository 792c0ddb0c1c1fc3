//! The tables of outlines and metrics of an instance (OpenType, "glyf" and "hmtx").
//!
//! Each glyph of the font has its entry, in the order of the font. One that wasn't requested has no bytes in `glyf`, and the metric 0 and 0.

ghost use Rattle.std.specs.Prelude.{◌≡◌, ◌++◌, IfOk, IfErr, OnOk};
ghost use Rattle.std.specs.Option.{option_copied};
ghost use Rattle.subsetter_base.specs.declared.error.Error.TheVariants.{OutOfMemory};
ghost use Rattle.subsetter_instance.specs.Tables.Requested.{IsOrder, outlines_by, starts_by};
ghost use Rattle.subsetter_instance.specs.Tables.Written.{by_glyph, glyph_among, outline_bytes, is_long, drawn_metric, hmtx_of};

use crate::glyphs::drawn::Drawn;
use std::alloc::Global;
use subsetter_base::{Error, GlyphRemapper};
use subsetter_sfnt::fields::hmtx::{LONG_HOR_METRIC_SIZE, LongHorMetric};
use subsetter_sfnt::fields::loca::OFFSET16_MAX;

/// What is drawn of a glyph, if it was requested.
fn glyph_among<'a>(mapper: &GlyphRemapper, drawn: &'a [Drawn], glyph: u16) -> Option<&'a Drawn>
    ensures { option_copied result ≡ glyph_among mapper.now drawn.now glyph }
{
    let place = mapper.get(glyph)?;
    drawn.get(usize::from(place))
}

/// Appends the description of a glyph, of even length; nothing where it wasn't requested.
fn write_outline(glyf: &mut Vec<u8>, drawn: Option<&Drawn>) -> Result<(), Error>
    ensures ok { OnOk result (glyf.new.items ≡ glyf.old.items ++ outline_bytes (option_copied drawn.entry)) }
    ensures err { IfErr result (λ e. e ≡ OutOfMemory) }
{
    match drawn {
        Some(drawn) => drawn.write_outline(glyf),
        None => Ok(()),
    }
}

/// The descriptions of the requested glyphs, and where each begins.
#[derive(Drop)]
pub struct Outlines {
    pub glyf: Vec<u8>,
    pub starts: Vec<usize>,
}

/// `glyf`: the descriptions of the requested glyphs, in the order of the font.
pub fn all_outlines(
    alloc: Global,
    mapper: &GlyphRemapper,
    drawn: &[Drawn],
    order: &[u16],
) -> Result<Outlines, Error>
    ensures glyf { IfOk result (λ o. o.glyf.items ≡ outlines_by (glyph_among mapper.now drawn.now) order.now) }
    ensures starts { IfOk result (λ o. o.starts.items ≡ starts_by (glyph_among mapper.now drawn.now) 0 order.now) }
    ensures err { IfErr result (λ e. e ≡ OutOfMemory) }
{
    let mut glyf = Vec::new(alloc);
    let mut starts = Vec::with_capacity(alloc, order.len())?;
    for glyph in order {
        starts.push(glyf.len())?;
        write_outline(&mut glyf, glyph_among(mapper, drawn, *glyph))?;
    }
    Ok(Outlines { glyf, starts })
}

/// Whether offsets are long: half of the last one doesn't fit 16 bits.
pub fn is_long(glyf: &[u8]) -> bool
    ensures { result ≡ is_long glyf.now }
{
    glyf.len() > OFFSET16_MAX
}

/// The metric of a glyph, 0 and 0 where it wasn't requested.
fn metric_of(drawn: Option<&Drawn>) -> LongHorMetric
    ensures { result ≡ drawn_metric (option_copied drawn.entry) }
{
    match drawn {
        Some(drawn) => drawn.metric(),
        None => LongHorMetric {
            advance_width: 0,
            lsb: 0,
        },
    }
}

/// `hmtx`: an advance and a left side bearing for each of `count` glyphs.
pub fn hmtx(
    alloc: Global,
    mapper: &GlyphRemapper,
    drawn: &[Drawn],
    count: u16,
    order: &[u16],
) -> Result<Vec<u8>, Error>
    requires { IsOrder mapper.now count 0 order.now }
    ensures ok { IfOk result (λ v. v.items ≡ hmtx_of (by_glyph mapper.now drawn.now count)) }
    ensures err { IfErr result (λ e. e ≡ OutOfMemory) }
{
    let size = LONG_HOR_METRIC_SIZE * usize::from(count);
    let mut hmtx = Vec::with_capacity(alloc, size)?;
    for glyph in order {
        hmtx.resize(LONG_HOR_METRIC_SIZE * usize::from(*glyph), 0)?;
        hmtx.extend_from_slice(&metric_of(glyph_among(mapper, drawn, *glyph)).to_bytes())?;
    }
    hmtx.resize(size, 0)?;
    Ok(hmtx)
}
