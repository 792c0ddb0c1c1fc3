//! A font with own glyphs after its own.

ghost use Rattle.std.specs.Prelude.{◌≡◌, ◌<◌, ◌++◌, length, map, IfOk, IfErr};
ghost use Rattle.pdf_runs.specs.declared.error.RunError.TheVariants.{OutOfMemory};
ghost use Rattle.pdf_own_runs.specs.Fonts.{all_inked, first_inked, has_parts, own_metrics};

use pdf_figures::OwnInk;
use pdf_operators::GlyphMetrics;
use pdf_runs::RunError;
use std::alloc::Global;

/// The width of an own glyph's advance in thousandths of the em, rounded half up, as W has it.
fn own_metrics(units: u16, own: &OwnInk) -> GlyphMetrics
    requires { 0 < units }
    ensures { result ≡ own_metrics units own.now }
{
    let units = u32::from(units);
    let width = (2 * (u32::from(own.advance) * 1000) + units) / (2 * units);
    GlyphMetrics {
        displacement: width as i32,
        position: 0,
    }
}

/// The metrics of glyphs, and of own ones after them.
pub fn all_metrics(
    alloc: Global,
    units: u16,
    metrics: &[GlyphMetrics],
    own: &[OwnInk],
) -> Result<Vec<GlyphMetrics>, RunError>
    requires { 0 < units }
    ensures ok { IfOk result (λ v. v.items ≡ metrics.now ++ map (own_metrics units) own.now) }
    ensures err { IfErr result (λ e. e ≡ OutOfMemory) }
{
    let mut all = Vec::with_capacity(alloc, metrics.len() + own.len())?;
    all.extend_from_slice(metrics)?;
    for glyph in own {
        all.push(own_metrics(units, glyph))?;
    }
    Ok(all)
}

/// Whether an own glyph has parts.
fn has_parts(own: &OwnInk) -> bool
    ensures { result ≡ has_parts own.now }
{
    !own.parts.is_empty()
}

/// Whether each of the first `count` glyphs has ink, as far as that is known.
fn first_inked(alloc: Global, count: u16, inked: &[bool]) -> Result<Vec<bool>, RunError>
    ensures ok { IfOk result (λ v. v.items ≡ first_inked count inked.now) }
    ensures err { IfErr result (λ e. e ≡ OutOfMemory) }
{
    let known = usize::from(count).min(inked.len());
    let mut all = Vec::from_slice(alloc, &inked[..known])?;
    let unknown = vec![in alloc; true; usize::from(count) - known]?;
    all.extend_from_slice(&unknown)?;
    Ok(all)
}

/// Of these whether they have ink, and of own glyphs after them.
pub fn all_inked(
    alloc: Global,
    count: u16,
    inked: &[bool],
    own: &[OwnInk],
) -> Result<Vec<bool>, RunError>
    ensures ok { IfOk result (λ v. v.items ≡ all_inked count inked.now own.now) }
    ensures err { IfErr result (λ e. e ≡ OutOfMemory) }
{
    let mut all = first_inked(alloc, count, inked)?;
    for glyph in own {
        all.push(has_parts(glyph))?;
    }
    Ok(all)
}
