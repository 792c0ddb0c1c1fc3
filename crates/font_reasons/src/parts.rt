//! What is wrong with one part of a face: a glyph, a table, metrics.

ghost use Rattle.std.specs.Prelude.{◌≡◌};
ghost use Rattle.subsetter_sfnt.specs.Extras.{all_extras};
ghost use Rattle.font_reasons.specs.Parts.{face_glyphs, first_past, no_glyph, no_table, wrong_metrics_of, wrong_metrics, if_none, pair_count, no_pairs, no_metric_of, first_without_metric, without_metric, no_metric, cut_outlines, cut_pair, cut_bitmaps, bare, no_outlines};

use crate::file::{cut_table, missing_table};
use crate::reason::Reason;
use subsetter_base::Tag;
use subsetter_sfnt::alone::{bitmaps_alone, has_outlines};
use subsetter_sfnt::directory::table;
use subsetter_sfnt::fields::hhea::number_of_h_metrics;
use subsetter_sfnt::fields::hmtx::{glyph_metric, last_advance};
use subsetter_sfnt::fields::maxp::num_glyphs;

/// numGlyphs of a face's `maxp`.
pub fn count_glyphs(font: &[u8], index: u32) -> Option<u16>
    ensures { result ≡ face_glyphs (record { bytes = font.now; index = index; extras = all_extras }) }
{
    let maxp = table(font, index, Tag::MAXP)?;
    num_glyphs(maxp)
}

/// The first of the glyphs that a face of this many glyphs doesn't have.
pub fn first_past(count: u16, glyphs: &[u16]) -> Option<u16>
    ensures { result ≡ first_past count glyphs.now }
{
    for glyph in glyphs {
        if *glyph >= count {
            return Some(*glyph);
        }
    }
    None
}

/// Whether a face doesn't have one of these glyphs.
pub fn no_glyph(font: &[u8], index: u32, glyphs: &[u16]) -> Option<Reason>
    ensures { result ≡ no_glyph (record { bytes = font.now; index = index; extras = all_extras }) glyphs.now }
{
    let count = count_glyphs(font, index)?;
    let glyph = first_past(count, glyphs)?;
    Some(Reason::NoGlyph(glyph, count))
}

/// Whether a face has no table of a tag.
pub fn no_table(font: &[u8], index: u32, tag: Tag) -> Option<Reason>
    ensures { result ≡ no_table (record { bytes = font.now; index = index; extras = all_extras }) tag }
{
    match table(font, index, tag) {
        Some(_) => None,
        None => Some(missing_table(font, index, tag)),
    }
}

/// What is wrong with numberOfHMetrics of `hhea`, by the length of `hmtx`.
fn wrong_metrics_of(hhea: &[u8], hmtx: &[u8]) -> Option<Reason>
    ensures { result ≡ wrong_metrics_of hhea.now hmtx.now }
{
    let count = number_of_h_metrics(hhea)?;
    if count == 0 {
        return None;
    }
    match last_advance(hmtx, count) {
        Some(_) => None,
        None => Some(Reason::FewMetrics(count)),
    }
}

/// What is wrong with the metrics of a face.
pub fn wrong_metrics(font: &[u8], index: u32) -> Option<Reason>
    ensures { result ≡ wrong_metrics (record { bytes = font.now; index = index; extras = all_extras }) }
{
    let hmtx = table(font, index, Tag::HMTX)?;
    match table(font, index, Tag::HHEA) {
        Some(hhea) => wrong_metrics_of(hhea, hmtx),
        None => Some(missing_table(font, index, Tag::HHEA)),
    }
}

/// Whether numberOfHMetrics is 0.
fn if_none(count: u16) -> Option<Reason>
    ensures { result ≡ if_none count }
{
    if count == 0 {
        return Some(Reason::NoMetrics);
    }
    None
}

/// numberOfHMetrics of a face.
pub fn pair_count(font: &[u8], index: u32) -> Option<u16>
    ensures { result ≡ pair_count (record { bytes = font.now; index = index; extras = all_extras }) }
{
    let hhea = table(font, index, Tag::HHEA)?;
    number_of_h_metrics(hhea)
}

/// Whether that of a face with `hmtx` is 0.
pub fn no_pairs(font: &[u8], index: u32) -> Option<Reason>
    ensures { result ≡ no_pairs (record { bytes = font.now; index = index; extras = all_extras }) }
{
    let _hmtx = table(font, index, Tag::HMTX)?;
    let count = pair_count(font, index)?;
    if_none(count)
}

/// Whether `hmtx` ends before the metrics of a glyph.
fn no_metric_of(hmtx: &[u8], count: u16, glyph: u16) -> Option<Reason>
    ensures { result ≡ no_metric_of hmtx.now count glyph }
{
    match glyph_metric(hmtx, count, glyph) {
        Some(_) => None,
        None => Some(Reason::NoMetric(glyph)),
    }
}

/// The first of the glyphs whose metrics `hmtx` doesn't have.
fn first_without_metric(hmtx: &[u8], count: u16, glyphs: &[u16]) -> Option<Reason>
    ensures { result ≡ first_without_metric hmtx.now count glyphs.now }
{
    for glyph in glyphs {
        if let Some(reason) = no_metric_of(hmtx, count, *glyph) {
            return Some(reason);
        }
    }
    None
}

/// Whether there are no metrics, or not those of one of these glyphs.
fn without_metric(hmtx: &[u8], count: u16, glyphs: &[u16]) -> Option<Reason>
    ensures { result ≡ without_metric hmtx.now glyphs.now count }
{
    if_none(count).or(first_without_metric(hmtx, count, glyphs))
}

/// Whether the `hmtx` of a face ends before the metrics of one of these glyphs.
pub fn no_metric(font: &[u8], index: u32, glyphs: &[u16]) -> Option<Reason>
    ensures { result ≡ no_metric (record { bytes = font.now; index = index; extras = all_extras }) glyphs.now }
{
    let hmtx = table(font, index, Tag::HMTX)?;
    let count = pair_count(font, index)?;
    without_metric(hmtx, count, glyphs)
}

/// Whether a table of outlines is cut.
#[tactic(auto, unfolding(crate::specs::Parts::cut_outlines))]
fn cut_outlines(font: &[u8], index: u32) -> Option<Reason>
    ensures { result ≡ cut_outlines (record { bytes = font.now; index = index; extras = all_extras }) }
{
    let others = cut_table(font, index, Tag::CFF).or(cut_table(font, index, Tag::CFF2));
    cut_table(font, index, Tag::GLYF).or(others)
}

/// Whether a table of bitmaps is cut, or that of their places.
fn cut_pair(font: &[u8], index: u32, bitmaps: Tag, places: Tag) -> Option<Reason>
    ensures { result ≡ cut_pair (record { bytes = font.now; index = index; extras = all_extras }) bitmaps places }
{
    cut_table(font, index, bitmaps).or(cut_table(font, index, places))
}

/// Whether one of those tables is cut.
#[tactic(auto, unfolding(crate::specs::Parts::cut_bitmaps))]
fn cut_bitmaps(font: &[u8], index: u32) -> Option<Reason>
    ensures { result ≡ cut_bitmaps (record { bytes = font.now; index = index; extras = all_extras }) }
{
    let colored = cut_pair(font, index, Tag::new(b"CBDT"), Tag::new(b"CBLC"));
    let gray = cut_pair(font, index, Tag::new(b"EBDT"), Tag::new(b"EBLC"));
    colored.or(cut_table(font, index, Tag::new(b"sbix")).or(gray))
}

/// Why a face has none of the tables that have outlines.
#[tactic(auto, unfolding(crate::specs::Parts::bare))]
fn bare(font: &[u8], index: u32) -> Option<Reason>
    ensures { result ≡ bare (record { bytes = font.now; index = index; extras = all_extras }) }
{
    let bitmaps = match bitmaps_alone(font, index) {
        Some(tag) => Some(Reason::BitmapsAlone(tag)),
        None => cut_bitmaps(font, index).or(Some(Reason::NoOutlines)),
    };
    cut_outlines(font, index).or(bitmaps)
}

/// Whether a face has none of these.
pub fn no_outlines(font: &[u8], index: u32) -> Option<Reason>
    ensures { result ≡ no_outlines (record { bytes = font.now; index = index; extras = all_extras }) }
{
    if has_outlines(font, index) {
        return None;
    }
    bare(font, index)
}
