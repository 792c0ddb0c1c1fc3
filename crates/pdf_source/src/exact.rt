//! The widths of all glyphs of a new font, in its units (OpenType, "head", "hhea" and "hmtx").

ghost use Rattle.std.specs.Prelude.{◌≡◌};
ghost use Rattle.subsetter_base.specs.Gives.{Gives};
ghost use Rattle.subsetter_sfnt.specs.Read.{table_in};
ghost use Rattle.cid_embed.specs.Afresh.{measures_seen};
ghost use Rattle.pdf_source.specs.Exact.{advances_from, exact_of, exact_seen};

use crate::widths::metrics_of;
use cid_embed::Metrics;
use std::alloc::Global;
use subsetter_base::Error;
use subsetter_sfnt::face::Face;

/// Widths in the font's units.
#[derive(Drop)]
pub struct ExactWidths {
    /// unitsPerEm: how many units the em has.
    pub units_per_em: u16,
    /// The width of each glyph.
    pub widths: Vec<u16>,
}

/// The advances of the first `count` glyphs. An advance that isn't there is `MalformedFont`.
fn all_advances(alloc: Global, metrics: &Metrics<'_>, count: u16) -> Result<Vec<u16>, Error>
    ensures { Gives (λ v. v.items) result (advances_from (measures_seen metrics.now) 0 count) }
{
    let mut advances = Vec::with_capacity(alloc, usize::from(count))?;
    for glyph in 0..count {
        let advance = metrics.advance(glyph).ok_or(Error::MalformedFont)?;
        advances.push(advance)?;
    }
    Ok(advances)
}

/// The exact widths of the first `count` glyphs of a font. What is missing is `MalformedFont`.
#[tactic(auto, unfolding(crate::specs::Exact::exact_of))]
pub fn exact_of(alloc: Global, face: &Face<'_>, count: u16) -> Result<ExactWidths, Error>
    ensures { Gives exact_seen result (exact_of (table_in face.now.«data».now face.now.records.now) count) }
{
    let metrics = metrics_of(face)?;
    let widths = all_advances(alloc, &metrics, count)?;
    Ok(ExactWidths {
        units_per_em: metrics.units,
        widths,
    })
}
