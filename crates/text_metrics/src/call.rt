//! The call.

ghost use Rattle.std.specs.Prelude.{◌≡◌, ◌<◌, ◌-◌, ◌+◌, map, IfOk, IfErr};
ghost use Rattle.subsetter_base.specs.Gives.{Gives};
ghost use Rattle.subsetter_base.specs.declared.error.Error.TheVariants.{OutOfMemory};
ghost use Rattle.subsetter_sfnt.specs.Extras.{all_extras};
ghost use Rattle.subsetter_sfnt.specs.FontAt.{font_at};
ghost use Rattle.subsetter_sfnt.specs.Read.{table_in};
ghost use Rattle.cid_embed.specs.Width.{thousandths};
ghost use Rattle.text_metrics.specs.Ink.{each_from};
ghost use Rattle.text_metrics.specs.Metrics.{count_in, metrics_of, metrics_seen, text_metrics};

use crate::ink::inked_in;
use crate::metrics::TextMetrics;
use font_advances::advances;
use pdf_operators::GlyphMetrics;
use std::alloc::Global;
use subsetter_base::{Error, Tag};
use subsetter_sfnt::extras::Extras;
use subsetter_sfnt::face::Face;
use subsetter_sfnt::fields::maxp::num_glyphs;
use subsetter_sfnt::parse::parse;
use subsetter_type2::limits::Limits;

/// The width of an advance in thousandths of the em, rounded half up, as W has it.
fn metrics_of(units: u16, advance: u16) -> GlyphMetrics
    requires { 0 < units }
    ensures { result ≡ metrics_of units advance }
{
    let units = u32::from(units);
    let width = (2 * (u32::from(advance) * 1000) + units) / (2 * units);
    GlyphMetrics {
        displacement: width as i32,
        position: 0,
    }
}

/// The metrics of advances.
fn each_metrics(alloc: Global, units: u16, advances: &[u16]) -> Result<Vec<GlyphMetrics>, Error>
    requires { 0 < units }
    ensures ok { IfOk result (λ v. v.items ≡ map (metrics_of units) advances.now) }
    ensures err { IfErr result (λ e. e ≡ OutOfMemory) }
{
    let mut metrics = Vec::with_capacity(alloc, advances.len())?;
    for advance in advances {
        metrics.push(metrics_of(units, *advance))?;
    }
    Ok(metrics)
}

/// The glyphs 0 to `count` - 1.
#[tactic(auto, using(crate::proofs::Each::each_more, crate::proofs::Each::each_done))]
pub(crate) fn numbers(alloc: Global, count: u16) -> Result<Vec<u16>, Error>
    ensures ok { IfOk result (λ v. v.items ≡ each_from (λ g. g) 0 count) }
    ensures err { IfErr result (λ e. e ≡ OutOfMemory) }
{
    let mut glyphs = Vec::with_capacity(alloc, usize::from(count))?;
    for glyph in 0..count {
        glyphs.push(glyph)?;
    }
    Ok(glyphs)
}

/// How many glyphs a font has. `MalformedFont` where `maxp` is missing or cut.
pub(crate) fn count_in(face: &Face<'_>) -> Result<u16, Error>
    ensures { result ≡ count_in (table_in face.now.«data».now face.now.records.now) }
{
    let maxp = face.stored(Tag::MAXP).ok_or(Error::MalformedFont)?;
    num_glyphs(maxp).ok_or(Error::MalformedFont)
}

/// What runs of text, from left to right or from right to left, need of a font at coordinates: of each glyph the width that W
/// has, in thousandths of the em, and whether it has ink: whether its outline isn't empty, as `kinds_of` has it. `data`, `index`
/// and `coordinates` are as for `advances`.
///
/// # Errors
///
/// Those of `advances` for all glyphs; and `MalformedFont` where `maxp` is missing or cut.
#[tactic(auto, unfolding(crate::specs::Metrics::text_metrics))]
pub fn text_metrics(
    alloc: Global,
    data: &[u8],
    index: u32,
    coordinates: &[(Tag, i32)],
    limits: &Limits,
) -> Result<TextMetrics, Error>
    ensures { Gives metrics_seen result (text_metrics (font_at «data».now index all_extras) coordinates.now limits.now.tokens) }
{
    let face = parse(data, index, Extras::ALL)?;
    let count = count_in(&face)?;
    let glyphs = numbers(alloc, count)?;
    let found = advances(alloc, data, index, &glyphs, coordinates, limits)?;
    Ok(TextMetrics {
        units: found.units_per_em,
        metrics: each_metrics(alloc, found.units_per_em, &found.widths)?,
        inked: inked_in(alloc, &face, count)?,
    })
}
