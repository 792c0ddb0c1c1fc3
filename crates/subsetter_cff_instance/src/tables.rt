//! The tables and the file of a static font.
//!
//! `CFF ` is made by `subsetter_cff_at`. `hmtx` has a pair for each glyph. `head` is as it is in the font but for its box, `maxp` and `name` are
//! as they are, `hhea` and `post` have the metrics that vary. Bearings, extremes and box are those of the new charstrings.

ghost use Rattle.std.specs.Prelude.{◌≡◌, ◌≤◌, IfOk, IfErr, Some, None, length};
ghost use Rattle.std.specs.Option.{option_copied, unwrap_or};
ghost use Rattle.subsetter_base.specs.Gives.{Gives};
ghost use Rattle.subsetter_base.specs.declared.error.Error.TheVariants.{OutOfMemory};
ghost use Rattle.subsetter_sfnt.specs.Read.{table_in};
ghost use Rattle.subsetter_sfnt.specs.View.{font_seen};
ghost use Rattle.subsetter_cff_at.specs.Boxes.{table_boxes};
ghost use Rattle.subsetter_cff_instance.specs.Boxes.{all_extents, drawn_metrics};
ghost use Rattle.subsetter_cff_instance.specs.Metrics.{metrics_by_glyph, no_metric};
ghost use Rattle.subsetter_cff_instance.specs.Tables.{extreme_bytes, hmtx_of, hhea_bytes, head_bytes, laid};

use crate::boxes::{all_extents, drawn_metrics};
use crate::metrics::widest;
use crate::source::Source;
use std::alloc::{AllocError, Global};
use subsetter_base::{Error, GlyphRemapper, Tag};
use subsetter_instance::tables::extremes::{Extents, box_bytes, side_bytes};
use subsetter_instance::tables::lines::Lines;
use subsetter_points::Bounds;
use subsetter_sfnt::face::Face;
use subsetter_sfnt::fields::head::{MAC_STYLE, X_MIN};
use subsetter_sfnt::fields::hhea::write_hhea;
use subsetter_sfnt::fields::hmtx::{LONG_HOR_METRIC_SIZE, LongHorMetric};
use subsetter_sfnt::flavor::FontFlavor;
use subsetter_sfnt::laying::construct::finish;
use subsetter_sfnt::laying::tables::{FontTables, in_order};

/// checksumAdjustment of `head`, four bytes.
const CHECKSUM_ADJUSTMENT: usize = 8;

/// The metric of a glyph, 0 and 0 where it wasn't requested.
fn filled(metric: Option<LongHorMetric>) -> LongHorMetric
    ensures { result ≡ unwrap_or metric no_metric }
{
    match metric {
        Some(metric) => metric,
        None => LongHorMetric {
            advance_width: 0,
            lsb: 0,
        },
    }
}

/// `hmtx`: an advance and a left side bearing for each glyph.
fn hmtx(alloc: Global, all: &[Option<LongHorMetric>]) -> Result<Vec<u8>, Error>
    ensures ok { IfOk result (λ v. v.items ≡ hmtx_of all.now) }
    ensures err { IfErr result (λ e. e ≡ OutOfMemory) }
{
    let mut hmtx = Vec::with_capacity(alloc, all.len().saturating_mul(LONG_HOR_METRIC_SIZE))?;
    for metric in all {
        hmtx.extend_from_slice(&filled(*metric).to_bytes())?;
    }
    Ok(hmtx)
}

/// The greatest advance, and what is after it in `hhea`.
fn extreme_bytes(metrics: &[LongHorMetric], extents: Option<Extents>) -> [u8; 8]
    ensures { result ≡ extreme_bytes metrics.now extents }
{
    let [a, b] = widest(metrics).to_be_bytes();
    let [c, d, e, f, g, h] = side_bytes(extents);
    [a, b, c, d, e, f, g, h]
}

/// `hhea`: with the extremes of what is drawn, and a pair of `hmtx` for each glyph.
fn hhea(
    alloc: Global,
    source: &[u8],
    count: u16,
    metrics: &[LongHorMetric],
    extents: Option<Extents>,
) -> Result<Vec<u8>, AllocError>
    requires { 36 ≤ length source.now }
    ensures { IfOk result (λ v. v.items ≡ hhea_bytes count metrics.now extents source.now) }
{
    let mut hhea = Vec::with_capacity(alloc, source.len())?;
    write_hhea(&mut hhea, source, &extreme_bytes(metrics, extents), count);
    Ok(hhea)
}

/// `head`: without its checksum, with the box around what is drawn.
fn head(alloc: Global, source: &[u8], extents: Option<Extents>) -> Result<Vec<u8>, AllocError>
    requires { 44 ≤ length source.now }
    ensures { IfOk result (λ v. v.items ≡ head_bytes extents source.now) }
{
    let mut head = Vec::with_capacity(alloc, source.len())?;
    head.extend_from_slice(&source[..CHECKSUM_ADJUSTMENT])?;
    head.extend_from_slice(&[0; 4])?;
    head.extend_from_slice(&source[CHECKSUM_ADJUSTMENT + 4..X_MIN])?;
    head.extend_from_slice(&box_bytes(extents))?;
    head.extend_from_slice(&source[MAC_STYLE..])?;
    Ok(head)
}

/// The tables that are made anew, but for `CFF `.
#[derive(Drop)]
struct NewTables {
    head: Vec<u8>,
    hhea: Vec<u8>,
    hmtx: Vec<u8>,
}

/// Makes these.
fn new_tables(
    alloc: Global,
    source: &Source<'_>,
    hhea_there: &[u8],
    metrics: &[LongHorMetric],
    all: &[Option<LongHorMetric>],
    boxes: &[Option<Bounds>],
) -> Result<NewTables, Error>
    requires head { 44 ≤ length source.now.head }
    requires hhea { 36 ≤ length hhea_there.now }
    ensures head { IfOk result (λ t. t.head.items ≡ head_bytes (all_extents all.now boxes.now) source.now.head) }
    ensures hhea { IfOk result (λ t. t.hhea.items ≡ hhea_bytes source.now.count metrics.now (all_extents all.now boxes.now) hhea_there.now) }
    ensures hmtx { IfOk result (λ t. t.hmtx.items ≡ hmtx_of (drawn_metrics all.now boxes.now)) }
    ensures err { IfErr result (λ e. e ≡ OutOfMemory) }
{
    let extents = all_extents(all, boxes);
    let hmtx = hmtx(alloc, &drawn_metrics(alloc, all, boxes)?)?;
    let head = head(alloc, source.head(), extents)?;
    let hhea = hhea(alloc, hhea_there, source.count(), metrics, extents)?;
    Ok(NewTables { head, hhea, hmtx })
}

/// The tables of the file, with `maxp`, `name` and `post` of the font.
fn font_tables<'a>(
    new: &'a NewTables,
    cff: &'a [u8],
    maxp: &'a [u8],
    name: Option<&'a [u8]>,
    post: Option<&'a [u8]>,
) -> FontTables<&'a [u8]>
    ensures { font_seen (λ bytes. bytes.now) result ≡ record { cff = Some cff.now; cvt = None; fpgm = None; glyf = None; head = Some new.now.head.items; hhea = Some new.now.hhea.items; hmtx = Some new.now.hmtx.items; loca = None; maxp = Some maxp.now; name = option_copied name.entry; post = option_copied post.entry; prep = None } }
{
    FontTables {
        cff: Some(cff),
        cvt: None,
        fpgm: None,
        glyf: None,
        head: Some(&new.head),
        hhea: Some(&new.hhea),
        hmtx: Some(&new.hmtx),
        loca: None,
        maxp: Some(maxp),
        name,
        post,
        prep: None,
    }
}

/// The file of a `CFF `, with the metrics of the glyphs that were requested, in the mapper's order, those of all glyphs, and the boxes of the
/// glyphs of the `CFF `. `hhea` and `post` are those of the location. `OverflowError` where a table's offset or length is 2^32 or more.
#[tactic(auto, unfolding(crate::specs::Tables::laid))]
pub fn laid(
    alloc: Global,
    face: &Face<'_>,
    source: &Source<'_>,
    lines: &Lines<'_>,
    mapper: &GlyphRemapper,
    metrics: &[LongHorMetric],
    all: &[Option<LongHorMetric>],
    cff: &[u8],
    boxes: &[Option<Bounds>],
) -> Result<Vec<u8>, Error>
    requires all { all.now ≡ metrics_by_glyph mapper.now metrics.now source.now.count }
    requires boxes { boxes.now ≡ table_boxes cff.now }
    requires head { 44 ≤ length source.now.head }
    requires hhea { 36 ≤ length lines.now.hhea }
    ensures { Gives (λ v. v.items) result (laid (table_in face.now.«data».now face.now.records.now) source.now lines.now mapper.now metrics.now cff.now) }
{
    let new = new_tables(alloc, source, lines.hhea(), metrics, all, boxes)?;
    let tables = font_tables(
        &new,
        cff,
        source.maxp(),
        face.stored(Tag::NAME),
        lines.post(),
    );
    let list = in_order(alloc, tables)?;
    finish(alloc, FontFlavor::Cff, &list, None)
}
