//! The boxes of glyphs (OpenType, "glyf", "Glyph headers"; "loca").

ghost use Rattle.std.specs.Prelude.{◌≡◌, ◌≤◌, ◌<◌, ◌^◌, IfSome};
ghost use Rattle.std.specs.Option.{option_copied};
ghost use Rattle.pdf_glyphs.specs.Boxes.{around, box_at, boxes_from, entry, glyph_box, is_short, joined, outlines_view};

use pdf_values::GlyphBox;
use subsetter_base::compare::{larger, smaller};
use subsetter_base::fields::signed_in;
use subsetter_sfnt::fields::head::index_to_loc_format;
use subsetter_sfnt::fields::loca::loca_offset;

/// The tables that outlines are found by; none where the font lacks one.
#[derive(Clone, Copy)]
pub struct OutlineTables<'a> {
    pub head: Option<&'a [u8]>,
    pub loca: Option<&'a [u8]>,
    pub glyf: Option<&'a [u8]>,
}

/// Whether the entries of `loca` have two bytes, as `head` says.
fn is_short(head: Option<&[u8]>) -> bool
    ensures { result ≡ is_short (option_copied head.entry) }
{
    let Some(bytes) = head else {
        return true;
    };
    match index_to_loc_format(bytes) {
        Some(format) => format == 0,
        None => true,
    }
}

/// The box in the header of a glyph description, two bytes each.
const X_MIN: usize = 2;

const Y_MIN: usize = 4;

const X_MAX: usize = 6;

const Y_MAX: usize = 8;
/// How many bytes the header has.
const HEADER_SIZE: usize = 10;

/// An entry of `loca`.
fn entry(tables: OutlineTables<'_>, index: usize) -> Option<usize>
    requires { index ≤ 65536 }
    ensures exact { result ≡ entry (outlines_view tables.entry) index }
    ensures small { IfSome result (λ n. n < 2 ^ 32) }
{
    let loca = tables.loca?;
    if is_short(tables.head) {
        return loca_offset(loca, false, index);
    }
    loca_offset(loca, true, index)
}

/// The box of the header at an offset of `glyf`.
fn box_at(glyf: Option<&[u8]>, at: usize) -> Option<GlyphBox>
    requires { at < 2 ^ 32 }
    ensures { result ≡ box_at (option_copied glyf.entry) at }
{
    let x_min = signed_in(glyf, at + X_MIN)?;
    let y_min = signed_in(glyf, at + Y_MIN)?;
    let x_max = signed_in(glyf, at + X_MAX)?;
    let y_max = signed_in(glyf, at + Y_MAX)?;
    Some(GlyphBox {
        x_min,
        y_min,
        x_max,
        y_max,
    })
}

/// The box of a glyph, by the header of its outline; none where that is empty or cut.
pub fn glyph_box(tables: OutlineTables<'_>, glyph: u16) -> Option<GlyphBox>
    ensures { result ≡ glyph_box (outlines_view tables.entry) glyph }
{
    let from = entry(tables, usize::from(glyph))?;
    let to = entry(tables, usize::from(glyph) + 1)?;
    if from <= to && HEADER_SIZE <= to - from {
        return box_at(tables.glyf, from);
    }
    None
}

/// The least box around two.
fn around(a: GlyphBox, b: GlyphBox) -> GlyphBox
    ensures { result ≡ around a b }
{
    GlyphBox {
        x_min: smaller(a.x_min, b.x_min),
        y_min: smaller(a.y_min, b.y_min),
        x_max: larger(a.x_max, b.x_max),
        y_max: larger(a.y_max, b.y_max),
    }
}

/// The least box around those that are there.
pub fn joined(first: Option<GlyphBox>, second: Option<GlyphBox>) -> Option<GlyphBox>
    ensures { result ≡ joined first second }
{
    let Some(a) = first else {
        return second;
    };
    let Some(b) = second else {
        return Some(a);
    };
    Some(around(a, b))
}

/// The least box around those of the first `count` glyphs; none where no glyph has one.
#[tactic(auto, using(crate::proofs::BoxSteps::box_begun, crate::proofs::BoxSteps::box_more, crate::proofs::BoxSteps::box_done))]
pub fn box_around(tables: OutlineTables<'_>, count: u16) -> Option<GlyphBox>
    ensures { result ≡ boxes_from (outlines_view tables.entry) 0 count }
{
    let mut kept = None;
    let mut left = count;
    while left > 0 {
        left -= 1;
        kept = joined(glyph_box(tables, left), kept);
    }
    kept
}
