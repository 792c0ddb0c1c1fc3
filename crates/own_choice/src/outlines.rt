//! Which glyphs can be parts of own ones at a font's default (OpenType, "glyf", "loca").

ghost use Rattle.std.specs.Prelude.{◌≡◌, ◌≤◌, true, length, IfOk, IfErr};
ghost use Rattle.std.specs.Option.{option_copied, option_map};
ghost use Rattle.subsetter_base.specs.declared.error.Error.TheVariants.{OutOfMemory};
ghost use Rattle.subsetter_sfnt.specs.Read.{table_in};
ghost use Rattle.subsetter.specs.Glyf.Read.{outline_in, outlines_in};
ghost use Rattle.own_glyphs.specs.Composite.{header_box};
ghost use Rattle.text_metrics.specs.Ink.{each_from};
ghost use Rattle.own_choice.specs.Parts.{has_small_outline, is_long, is_small, is_small_box, is_within, outlines_seen};

use std::alloc::Global;
use subsetter_base::read::{between_offsets, signed_at};
use subsetter_base::{Error, Tag};
use subsetter_points::Bounds;
use subsetter_sfnt::face::Face;
use subsetter_sfnt::fields::head::index_to_loc_format;
use subsetter_sfnt::fields::loca::loca_offset;

/// How many bytes the header of an outline has: numberOfContours, xMin, yMin, xMax and yMax, two each.
const HEADER_SIZE: usize = 10;

/// The tables of outlines in `glyf`.
#[derive(Clone, Copy)]
pub struct Outlines<'a> {
    pub glyf: &'a [u8],
    pub loca: &'a [u8],
    pub head: &'a [u8],
}

/// The tables of a font, unless one is missing or `head` is cut.
#[tactic(auto, unfolding(subsetter::specs::Glyf::Read::outlines_in))]
pub fn outlines_in<'a>(face: &Face<'a>) -> Option<Outlines<'a>>
    ensures { option_map outlines_seen result ≡ outlines_in true (table_in face.now.«data».now face.now.records.now) }
{
    let loca = face.stored(Tag::LOCA)?;
    let glyf = face.stored(Tag::GLYF)?;
    let head = face.stored(Tag::HEAD)?;
    index_to_loc_format(head)?;
    Some(Outlines { glyf, loca, head })
}

/// Whether offsets of `loca` are long.
fn is_long(head: &[u8]) -> bool
    ensures { result ≡ is_long head.now }
{
    match index_to_loc_format(head) {
        Some(format) => format != 0,
        None => false,
    }
}

/// The outline of a glyph, if there is one.
#[tactic(auto, unfolding(subsetter::specs::Glyf::Read::outline_in))]
fn outline<'a>(tables: Outlines<'a>, glyph: u16) -> Option<&'a [u8]>
    ensures { option_copied result ≡ outline_in (outlines_seen tables.entry) glyph }
{
    let long = is_long(tables.head);
    let from = loca_offset(tables.loca, long, usize::from(glyph))?;
    let to = loca_offset(tables.loca, long, usize::from(glyph) + 1)?;
    between_offsets(tables.glyf, from, to)
}

/// Whether a side of a box is at most so far from the origin that it has 16 bits wherever the box is placed.
fn is_within(side: i16) -> bool
    ensures { result ≡ is_within side }
{
    side.unsigned_abs() <= 16384
}

/// Whether all sides are.
pub fn is_small_box(bounds: Bounds) -> bool
    ensures { result ≡ is_small_box bounds }
{
    is_within(bounds.x_min)
        && is_within(bounds.y_min)
        && is_within(bounds.x_max)
        && is_within(bounds.y_max)
}

/// The box in the header of an outline.
fn header_box(outline: &[u8]) -> Bounds
    requires { 10 ≤ length outline.now }
    ensures { result ≡ header_box outline.now }
{
    Bounds {
        x_min: signed_at(outline, 2),
        y_min: signed_at(outline, 4),
        x_max: signed_at(outline, 6),
        y_max: signed_at(outline, 8),
    }
}

/// Whether an outline is empty, or has a header with such a box.
fn is_small(outline: &[u8]) -> bool
    ensures { result ≡ is_small outline.now }
{
    outline.is_empty() || (outline.len() >= HEADER_SIZE && is_small_box(header_box(outline)))
}

/// Whether a glyph has such an outline.
fn has_small_outline(tables: Outlines<'_>, glyph: u16) -> bool
    ensures { result ≡ has_small_outline (outlines_seen tables.entry) glyph }
{
    match outline(tables, glyph) {
        Some(found) => is_small(found),
        None => false,
    }
}

/// Whether each of the first `count` glyphs has such an outline.
#[tactic(auto, using(text_metrics::proofs::Each::each_more, text_metrics::proofs::Each::each_done))]
pub fn small_outlines(alloc: Global, tables: Outlines<'_>, count: u16) -> Result<Vec<bool>, Error>
    ensures ok { IfOk result (λ v. v.items ≡ each_from (has_small_outline (outlines_seen tables.entry)) 0 count) }
    ensures err { IfErr result (λ e. e ≡ OutOfMemory) }
{
    let mut small = Vec::with_capacity(alloc, usize::from(count))?;
    for glyph in 0..count {
        small.push(has_small_outline(tables, glyph))?;
    }
    Ok(small)
}
