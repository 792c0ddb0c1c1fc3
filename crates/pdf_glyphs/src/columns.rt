//! The columns of the CIDs that strings can show (ISO 32000-1, 9.7.4.3).

ghost use Rattle.std.specs.Prelude.{◌≡◌, ◌<◌, ◌≤◌, ◌⊎◌, ℕ, [], ◌∷◌, length, IfErr, IfOk, None, OnOk, slice_get, slice_index, slice_index_or};
ghost use Rattle.std.specs.Option.{option_map};
ghost use Rattle.subsetter_base.specs.Indexes.{HasAllAboveZero, with_glyphs};
ghost use Rattle.subsetter_base.specs.declared.error.Error.TheVariants.{OutOfMemory, OverflowError};
ghost use Rattle.pdf_glyphs.specs.Frequent.{most_frequent};
ghost use Rattle.pdf_glyphs.specs.HeightVariation.{AreDeltasBy, variation_view};
ghost use Rattle.pdf_glyphs.specs.Vertical.{columns_at, origin_of, vertical_view};

use crate::frequent::most_frequent;
use crate::heights::{Deltas, HeightVariation, deltas_of, known_at};
use crate::metrics::{VerticalTables, metric_at};
use crate::origins::origins_of;
use pdf_text::{Column, DefaultColumn};
use std::alloc::Global;
use subsetter_base::{Error, GlyphRemapper};

/// Columns of vertical writing, in thousandths of the em.
#[derive(Drop)]
pub struct Columns {
    /// The column of each CID from 0 on that a string can show.
    pub each: Vec<Column>,
    /// DW2: the most frequent one.
    pub default: DefaultColumn,
}

/// The glyphs, by their CIDs.
fn glyphs_of(alloc: Global, mapper: &GlyphRemapper) -> Result<Vec<u16>, Error>
    ensures ok { IfOk result (λ glyphs. glyphs.items ≡ mapper.now) }
    ensures err { IfErr result (λ e. e ≡ OutOfMemory) }
{
    Ok(mapper.remapped_gids().collect(alloc)?)
}

/// The top of the glyph at an index, if the tops are given.
fn top_at(tops: &[i16], index: usize) -> Option<i16>
    ensures { result ≡ slice_get tops.now index }
{
    tops.get(index).copied()
}

/// The column of each glyph that has a width, by what the glyphs vary by; their tops may be given.
fn each_column(
    alloc: Global,
    tables: VerticalTables<'_>,
    variation: Option<HeightVariation<'_>>,
    glyphs: &[u16],
    origins: &[Option<i16>],
    widths: &[u32],
    deltas: &Deltas,
    tops: &[i16],
) -> Result<Vec<Column>, Error>
    requires len { length origins.now ≡ length glyphs.now }
    requires deltas { AreDeltasBy (option_map variation_view variation) glyphs.now deltas.now }
    requires are { (k : ℕ) → k < length glyphs.now → slice_index_or origins.now k None ≡ origin_of (vertical_view tables).vorg (slice_index glyphs.now k) }
    ensures ok { IfOk result (λ columns. columns.items ≡ columns_at (vertical_view tables.entry) (option_map variation_view variation.entry) tops.now glyphs.now widths.now) }
    ensures few { IfOk result (λ columns. length columns.items ≤ length glyphs.now) }
    ensures err { IfErr result (λ e. e ≡ OutOfMemory) }
{
    let mut columns = Vec::with_capacity(alloc, glyphs.len())?;
    for index in 0..glyphs.len().min(widths.len()) {
        let column = metric_at(
            tables,
            variation,
            glyphs[index],
            widths[index],
            origins[index],
            known_at(&deltas.heights, index),
            known_at(&deltas.origins, index),
            top_at(tops, index),
        );
        columns.push(column)?;
    }
    Ok(columns)
}

/// The columns of a font for the glyphs in use, in order of use, whose CIDs have these widths.
///
/// `variation` is where the font is off its default, if it is and has `VVAR`: advance heights vary as that says, and so do
/// origins by `VORG`; those of TrueType outlines are the default's. `tops` are the tops of glyph 0 and of these glyphs, each once,
/// in the font's units, or none: by these and the top side bearings outlines in `CFF ` have their origins where there is no
/// `VORG`. Where the font has no advance height of a glyph its column is PDF's own: 880 and -1000.
///
/// # Errors
///
/// - `OverflowError`: all glyphs above 0 are in use.
/// - `OutOfMemory`: a request for memory was refused.
pub fn columns_at(
    alloc: Global,
    tables: VerticalTables<'_>,
    variation: Option<HeightVariation<'_>>,
    glyphs: &[u16],
    widths: &[u32],
    tops: &[i16],
) -> Result<Columns, Error>
    ensures each { IfOk result (λ c. c.each.items ≡ columns_at (vertical_view tables.entry) (option_map variation_view variation.entry) tops.now (with_glyphs (0 ∷ []) glyphs.now) widths.now) }
    ensures default { IfOk result (λ c. c.default ≡ most_frequent c.each.items) }
    ensures room { OnOk result (HasAllAboveZero glyphs.now → ⊥) }
    ensures err { IfErr result (λ e. (e ≡ OutOfMemory) ⊎ ((e ≡ OverflowError) × HasAllAboveZero glyphs.now)) }
{
    let mapper = GlyphRemapper::new_from_glyphs(alloc, glyphs)?;
    let origins = origins_of(alloc, tables.vorg, &mapper)?;
    let numbered = glyphs_of(alloc, &mapper)?;
    let _count = mapper.num_gids();
    let deltas = deltas_of(alloc, variation, &numbered)?;
    let each = each_column(
        alloc, tables, variation, &numbered, &origins, widths, &deltas, tops,
    )?;
    let default = most_frequent(alloc, &each)?;
    Ok(Columns { each, default })
}
