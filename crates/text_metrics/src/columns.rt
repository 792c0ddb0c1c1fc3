//! What runs from top to bottom need of a font.

ghost use Rattle.std.specs.Prelude.{◌≡◌, map, replicate, IfOk, IfErr};
ghost use Rattle.std.specs.Option.{option_map};
ghost use Rattle.subsetter_base.specs.Gives.{Gives};
ghost use Rattle.subsetter_base.specs.declared.error.Error.TheVariants.{OutOfMemory};
ghost use Rattle.subsetter_sfnt.specs.Extras.{all_extras};
ghost use Rattle.subsetter_sfnt.specs.FontAt.{font_at};
ghost use Rattle.subsetter_sfnt.specs.Read.{table_in};
ghost use Rattle.pdf_source.specs.Moved.{location_seen};
ghost use Rattle.text_metrics.specs.Columns.{column_metrics, columns_in, columns_there, metrics_of};
ghost use Rattle.text_metrics.specs.Metrics.{metrics_seen};

use crate::call::{count_in, numbers, text_metrics};
use crate::metrics::TextMetrics;
use pdf_glyphs::columns_at;
use pdf_operators::GlyphMetrics;
use pdf_source::{Location, heights_by, location_in, tops_of, vertical_of};
use pdf_text::Column;
use std::alloc::Global;
use subsetter_base::{Error, Tag};
use subsetter_sfnt::extras::Extras;
use subsetter_sfnt::face::Face;
use subsetter_sfnt::parse::parse;
use subsetter_type2::limits::Limits;

/// What a column has along the line.
fn metrics_of(column: Column) -> GlyphMetrics
    ensures { result ≡ metrics_of column }
{
    GlyphMetrics {
        displacement: column.advance,
        position: column.y,
    }
}

/// What columns have along the line.
fn each_metrics(alloc: Global, columns: &[Column]) -> Result<Vec<GlyphMetrics>, Error>
    ensures ok { IfOk result (λ v. v.items ≡ map metrics_of columns.now) }
    ensures err { IfErr result (λ e. e ≡ OutOfMemory) }
{
    let mut metrics = Vec::with_capacity(alloc, columns.len())?;
    for column in columns {
        metrics.push(metrics_of(*column))?;
    }
    Ok(metrics)
}

/// `count` widths of 0.
fn no_widths(alloc: Global, count: u16) -> Result<Vec<u32>, Error>
    ensures ok { IfOk result (λ v. v.items ≡ replicate count 0) }
    ensures err { IfErr result (λ e. e ≡ OutOfMemory) }
{
    let widths = vec![in alloc; 0; usize::from(count)]?;
    Ok(widths)
}

/// What the columns of the first `count` glyphs have along the line at a location.
fn columns_there(
    alloc: Global,
    face: &Face<'_>,
    location: &Option<Location>,
    limits: &Limits,
    count: u16,
) -> Result<Vec<GlyphMetrics>, Error>
    ensures ok { IfOk result (λ v. v.items ≡ columns_there (table_in face.now.«data».now face.now.records.now) (option_map location_seen location.now) limits.now count) }
    ensures err { IfErr result (λ e. e ≡ OutOfMemory) }
{
    let glyphs = numbers(alloc, count)?;
    let widths = no_widths(alloc, count)?;
    let tops = tops_of(alloc, face, limits, &glyphs).map_err(|_| Error::OutOfMemory)?;
    let heights = heights_by(face, location);
    let tables = vertical_of(face);
    let columns = columns_at(alloc, tables, heights, &glyphs, &widths, &tops).map_err(
        |_| Error::OutOfMemory,
    )?;
    each_metrics(alloc, &columns.each)
}

/// What the columns of the first `count` glyphs have along the line.
fn columns_in(
    alloc: Global,
    face: &Face<'_>,
    coordinates: &[(Tag, i32)],
    limits: &Limits,
    count: u16,
) -> Result<Vec<GlyphMetrics>, Error>
    ensures ok { IfOk result (λ v. v.items ≡ columns_in (table_in face.now.«data».now face.now.records.now) coordinates.now limits.now count) }
    ensures err { IfErr result (λ e. e ≡ OutOfMemory) }
{
    let location = location_in(alloc, face, coordinates)?;
    columns_there(alloc, face, &location, limits, count)
}

/// What runs of text from top to bottom need of a font at coordinates: of each glyph the w1y and the y of the position vector
/// that W2 has, in thousandths of the em, and whether it has ink, as of `text_metrics`.
///
/// # Errors
///
/// Those of `text_metrics`.
#[tactic(auto, unfolding(crate::specs::Columns::column_metrics))]
pub fn column_metrics(
    alloc: Global,
    data: &[u8],
    index: u32,
    coordinates: &[(Tag, i32)],
    limits: &Limits,
) -> Result<TextMetrics, Error>
    ensures { Gives metrics_seen result (column_metrics (font_at «data».now index all_extras) coordinates.now limits.now) }
{
    let found = text_metrics(alloc, data, index, coordinates, limits)?;
    let face = parse(data, index, Extras::ALL)?;
    let count = count_in(&face)?;
    let columns = columns_in(alloc, &face, coordinates, limits, count)?;
    Ok(TextMetrics {
        units: found.units,
        metrics: columns,
        inked: found.inked,
    })
}
