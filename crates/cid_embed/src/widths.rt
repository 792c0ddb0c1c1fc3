//! Widths of glyphs, in thousandths of the em.
//!
//! Rounding is one division of whole numbers, (2n + d) / (2d) for n / d, which is half up.

ghost use Rattle.std.specs.Prelude.{◌≡◌, ◌<◌};
ghost use Rattle.subsetter_base.specs.Gives.{Gives};
ghost use Rattle.cid_embed.specs.Afresh.{table_of, measures_seen, widths_from, widths_of};
ghost use Rattle.cid_embed.specs.Width.{thousandths};

use crate::reader::{Metrics, read_metrics};
use std::alloc::Global;
use subsetter_base::Error;

/// A length in thousandths of the em, rounded half up.
fn thousandths(length: u16, units_per_em: u16) -> u32
    requires { 0 < units_per_em }
    ensures { result ≡ thousandths length units_per_em }
{
    let units = u32::from(units_per_em);
    (2 * (u32::from(length) * 1000) + units) / (2 * units)
}

/// The widths of the first `count` glyphs. An advance that isn't there is `MalformedFont`.
pub fn all_widths(alloc: Global, metrics: &Metrics<'_>, count: u16) -> Result<Vec<u32>, Error>
    requires { 0 < metrics.now.units }
    ensures { Gives (λ v. v.items) result (widths_from (measures_seen metrics.now) 0 count) }
{
    let mut widths = Vec::with_capacity(alloc, usize::from(count))?;
    for glyph in 0..count {
        let advance = metrics.advance(glyph).ok_or(Error::MalformedFont)?;
        widths.push(thousandths(advance, metrics.units))?;
    }
    Ok(widths)
}

/// The widths of the first `count` glyphs of a file that holds one font. What is missing is `MalformedFont`.
#[tactic(auto, unfolding(crate::specs::Afresh::widths_of))]
pub fn read_widths(alloc: Global, file: &[u8], count: u16) -> Result<Vec<u32>, Error>
    ensures { Gives (λ v. v.items) result (widths_of (table_of file.now) count) }
{
    let metrics = read_metrics(file)?;
    all_widths(alloc, &metrics, count)
}
