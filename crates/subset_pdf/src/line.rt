//! Glyphs with their texts as one run of a text.

ghost use Rattle.std.specs.Prelude.{◌≡◌, ◌⊎◌, ◌<◌, ◌≤◌, get_or, length, min, IfOk, IfErr, OnOk};
ghost use Rattle.subsetter_base.specs.Gives.{Gives};
ghost use Rattle.subsetter_base.specs.declared.error.Error.TheVariants.{OutOfMemory};
ghost use Rattle.pdf_operators.specs.Places.{no_metrics};
ghost use Rattle.pdf_operators.specs.Reading.{AreCoded};
ghost use Rattle.pdf_runs.specs.Codes.{AreCodes};
ghost use Rattle.pdf_runs.specs.Pieces.{pieces_of_run};
ghost use Rattle.text_metrics.specs.Metrics.{metrics_seen};
ghost use Rattle.subset_pdf.specs.Line.{HasLineFault, HasNoLine, IsLine, IsLineFor, direction_of, item_of, items_of, length_of, metrics_for, named};

use crate::options::PdfRequest;
use pdf_font::Shown;
use pdf_operators::{Font, GlyphMetrics, Order, show_run};
use pdf_runs::{Direction, Item, Pair, RunError, codes_of, is_run, no_pairs, pieces_of_run};
use std::alloc::Global;
use subsetter_base::Error;
use subsetter_base::remapper::Remapper;
use text_metrics::{TextMetrics, column_metrics, text_metrics};

/// A line, and what its font needs.
#[derive(Drop)]
pub struct Line {
    /// What shows it in a text object, where the font has 36 points.
    pub operators: Vec<u8>,
    pub pairs: Remapper<u16, Pair>,
    /// The codes that it shows, in order.
    pub codes: Vec<u16>,
    /// How far the pen goes on, in thousandths of the em, up to a bound.
    pub advance: u32,
    /// How many glyphs the font has.
    pub glyph_count: usize,
}

/// How the glyphs of the line follow each other.
fn direction_of(vertical: bool) -> Direction
    ensures { result ≡ direction_of vertical }
{
    if vertical {
        Direction::TopToBottom
    } else {
        Direction::LeftToRight
    }
}

/// The metrics of a glyph.
fn metrics_at(metrics: &[GlyphMetrics], glyph: u16) -> GlyphMetrics
    ensures { result ≡ get_or metrics.now glyph no_metrics }
{
    let place = usize::from(glyph);
    if place < metrics.len() {
        return metrics[place];
    }
    GlyphMetrics {
        displacement: 0,
        position: 0,
    }
}

/// A glyph and its text, where the pen goes on by the glyph's own advance, in thousandths of the em.
fn item_of<'a>(vertical: bool, metrics: &[GlyphMetrics], shown: Shown<'a>) -> Item<'a>
    ensures { result ≡ item_of vertical metrics.now shown.entry }
{
    let found = metrics_at(metrics, shown.glyph);
    if vertical {
        return Item {
            glyph: shown.glyph,
            text: Some(shown.text),
            x_advance: 0,
            y_advance: found.displacement,
            x_offset: 0,
            y_offset: 0_i32.saturating_sub(found.position),
        };
    }
    Item {
        glyph: shown.glyph,
        text: Some(shown.text),
        x_advance: found.displacement,
        y_advance: 0,
        x_offset: 0,
        y_offset: 0,
    }
}

/// Glyphs with their texts, so.
fn items_of<'a>(
    alloc: Global,
    vertical: bool,
    metrics: &[GlyphMetrics],
    shown: &[Shown<'a>],
) -> Result<Vec<Item<'a>>, Error>
    ensures ok { IfOk result (λ items. items.items ≡ items_of vertical metrics.now shown.now) }
    ensures err { IfErr result (λ e. e ≡ OutOfMemory) }
{
    let mut items = Vec::with_capacity(alloc, shown.len())?;
    for one in shown {
        items.push(item_of(vertical, metrics, *one))?;
    }
    Ok(items)
}

/// How far the pen goes on, up to a bound.
fn length_of(items: &[Item<'_>]) -> u32
    ensures { result ≡ min (length_of items.now) 398000 }
{
    let mut length: u64 = 0;
    for item in items {
        let further = u64::from(item.x_advance.unsigned_abs())
            + u64::from(item.y_advance.unsigned_abs());
        length = (length + further).min(398_000);
    }
    length as u32
}

/// The error of a run of glyphs that the font has.
fn named(error: RunError) -> Error
    ensures { result ≡ named error }
{
    match error {
        RunError::InvalidText | RunError::Overfull => Error::OverflowError,
        RunError::OutOfMemory => Error::OutOfMemory,
    }
}

/// The codes of a run that has pairs, in order.
#[tactic(auto, using(crate::proofs::Lines::pairs_stay, crate::proofs::Lines::codes_stay, crate::proofs::Lines::never_overfull))]
fn codes_for(
    alloc: Global,
    font: Font<'_>,
    direction: Direction,
    pairs: &mut Remapper<u16, Pair>,
    items: &[Item<'_>],
) -> Result<Vec<u16>, Error>
    requires coded { AreCoded pairs.old (pieces_of_run direction font.inked.now items.now) }
    requires few { length pairs.old ≤ 65535 }
    ensures stay { OnOk result (pairs.new ≡ pairs.old) }
    ensures codes { IfOk result (λ codes. AreCodes pairs.old (pieces_of_run direction font.entry.inked.now items.now) codes.items) }
    ensures err { IfErr result (λ e. e ≡ OutOfMemory) }
{
    let pieces = pieces_of_run(alloc, direction, font.inked, items)?;
    let codes = codes_of(alloc, pairs, &pieces)?;
    Ok(codes)
}

/// The line of a run.
#[tactic(auto, using(crate::proofs::Lines::line_is, crate::proofs::Lines::unshown_by))]
fn line_of<'a>(
    alloc: Global,
    font: Font<'_>,
    direction: Direction,
    items: &'a [Item<'a>],
) -> Result<Line, Error>
    requires { 0 < font.units }
    ensures ok { IfOk result (IsLine font.entry direction items.now) }
    ensures err { IfErr result (λ e. (e ≡ OutOfMemory) ⊎ HasNoLine font.entry direction items.now e) }
{
    if !is_run(direction, font.metrics.len(), items) {
        return Err(Error::MalformedFont);
    }
    let mut pairs = no_pairs(alloc)?;
    let operators = match show_run(
        alloc,
        font,
        direction,
        Order::Visual,
        36_000,
        &mut pairs,
        items,
    ) {
        Ok(operators) => operators,
        Err(error) => return Err(named(error)),
    };
    let codes = codes_for(alloc, font, direction, &mut pairs, items)?;
    Ok(Line {
        operators,
        pairs,
        codes,
        advance: length_of(items),
        glyph_count: font.metrics.len(),
    })
}

/// What a run needs of the font that is requested.
fn metrics_for(alloc: Global, data: &[u8], request: &PdfRequest<'_>) -> Result<TextMetrics, Error>
    ensures { Gives metrics_seen result (metrics_for «data».now request.now) }
{
    if request.choice.vertical {
        column_metrics(alloc, data, request.index, request.at, &request.limits)
    } else {
        text_metrics(alloc, data, request.index, request.at, &request.limits)
    }
}

/// The line of glyphs with their texts, by their advances in the font.
#[tactic(auto, using(crate::proofs::Lines::line_made, crate::proofs::Lines::line_unmade))]
pub fn line_for(
    alloc: Global,
    data: &[u8],
    request: &PdfRequest<'_>,
    shown: &[Shown<'_>],
) -> Result<Line, Error>
    ensures ok { IfOk result (IsLineFor «data».now request.now shown.now) }
    ensures err { IfErr result (λ e. (e ≡ OutOfMemory) ⊎ HasLineFault «data».now request.now shown.now e) }
{
    let metrics = metrics_for(alloc, data, request)?;
    let found = metrics.font();
    let font = Font {
        units: 1000,
        metrics: found.metrics,
        inked: found.inked,
    };
    let vertical = request.choice.vertical;
    let items = items_of(alloc, vertical, font.metrics, shown)?;
    line_of(alloc, font, direction_of(vertical), &items)
}
