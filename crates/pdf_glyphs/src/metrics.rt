//! Vertical metrics of a glyph (OpenType, "vhea", "vmtx"), as a PDF has them (ISO 32000-1, 9.7.4.3).

ghost use Rattle.std.specs.Prelude.{◌≡◌, ◌≤◌, ◌<◌, ◌^◌, ◌+ℤ◌, IfSome, None, neg_ℤ, pos, unsigned_abs};
ghost use Rattle.std.specs.Option.{option_and_then, option_map, option_map_or};
ghost use Rattle.pdf_values.specs.Rounding.{thousandths};
ghost use Rattle.pdf_glyphs.specs.Boxes.{outlines_view};
ghost use Rattle.pdf_glyphs.specs.HeightVariation.{IsHeightBy, IsOriginBy, variation_view};
ghost use Rattle.pdf_glyphs.specs.Vertical.{advance_at, advance_of, bearing_of, box_top, by_top, half, metric_at, origin_of, origin_y_at, pair_count, vertical_view, vorg_y, vorg_y_at};

use crate::boxes::{OutlineTables, glyph_box};
use crate::heights::{HeightVariation, varied_height, varied_origin};
use crate::origins::default_origin;
use pdf_text::Column;
use pdf_values::{thousandths, units_per_em};
use subsetter_base::Error;
use subsetter_base::fields::signed_in;
use subsetter_sfnt::fields::hhea::number_of_h_metrics;
use subsetter_sfnt::fields::hmtx::glyph_advance;

/// The tables that vertical metrics are found by; none where the font lacks one.
#[derive(Clone, Copy)]
pub struct VerticalTables<'a> {
    pub vhea: Option<&'a [u8]>,
    pub vmtx: Option<&'a [u8]>,
    /// Of no effect where there is a `glyf`.
    pub vorg: Option<&'a [u8]>,
    pub outlines: OutlineTables<'a>,
}

/// For how many glyphs `vmtx` has an advance height.
fn pair_count(tables: VerticalTables<'_>) -> u16
    ensures { result ≡ pair_count (vertical_view tables.entry) }
{
    let Some(vhea) = tables.vhea else {
        return 0;
    };
    match number_of_h_metrics(vhea) {
        Some(count) => count,
        None => 0,
    }
}

/// The advance height of a glyph.
fn advance_of(tables: VerticalTables<'_>, glyph: u16) -> Option<u16>
    ensures { result ≡ advance_of (vertical_view tables.entry) glyph }
{
    let count = pair_count(tables);
    if count == 0 {
        return None;
    }
    let vmtx = tables.vmtx?;
    glyph_advance(vmtx, count, glyph)
}

/// The advance height of a glyph, with what it varies by, if it does.
fn advance_at(
    tables: VerticalTables<'_>,
    variation: Option<HeightVariation<'_>>,
    glyph: u16,
    delta: Result<i64, Error>,
) -> Option<u16>
    requires { IsHeightBy (option_map variation_view variation) glyph delta }
    ensures { result ≡ advance_at (vertical_view tables.entry) (option_map variation_view variation.entry) glyph }
{
    let advance = advance_of(tables, glyph)?;
    match variation {
        None => Some(advance),
        Some(_) => Some(varied_height(delta, advance)),
    }
}

/// The top side bearing of a glyph.
fn bearing_of(tables: VerticalTables<'_>, glyph: u16) -> Option<i16>
    ensures { result ≡ bearing_of (vertical_view tables.entry) glyph }
{
    let count = pair_count(tables);
    let at = if glyph < count {
        4 * usize::from(glyph) + 2
    } else {
        2 * (usize::from(count) + usize::from(glyph))
    };
    signed_in(tables.vmtx, at)
}

/// The top of a glyph's box; 0 if it is empty.
fn box_top(tables: OutlineTables<'_>, glyph: u16) -> i16
    ensures { result ≡ box_top (outlines_view tables.entry) glyph }
{
    match glyph_box(tables, glyph) {
        Some(header) => header.y_max,
        None => 0,
    }
}

/// The sum of a glyph's top and its top side bearing.
fn by_top(tables: VerticalTables<'_>, glyph: u16, top: i16) -> Option<i32>
    ensures exact { result ≡ by_top (vertical_view tables.entry) glyph top }
    ensures small { IfSome result (λ v. unsigned_abs v ≤ 2 ^ 16) }
{
    let bearing = bearing_of(tables, glyph)?;
    Some(i32::from(top) + i32::from(bearing))
}

/// The sum of a glyph's top, if it is given, and its top side bearing.
fn by_given_top(tables: VerticalTables<'_>, glyph: u16, top: Option<i16>) -> Option<i32>
    ensures exact { result ≡ option_and_then (by_top (vertical_view tables.entry) glyph) top }
    ensures small { IfSome result (λ v. unsigned_abs v ≤ 2 ^ 16) }
{
    by_top(tables, glyph, top?)
}

/// The y of the origin that VORG has: its record's, else the default one.
fn vorg_y(tables: VerticalTables<'_>, glyph: u16, recorded: Option<i16>) -> Option<i16>
    requires { recorded ≡ origin_of (vertical_view tables).vorg glyph }
    ensures { result ≡ vorg_y (vertical_view tables.entry).vorg glyph }
{
    match recorded {
        Some(y) => Some(y),
        None => default_origin(tables.vorg),
    }
}

/// The y of the origin that VORG has, with what it varies by, if it does.
fn vorg_y_at(
    tables: VerticalTables<'_>,
    variation: Option<HeightVariation<'_>>,
    glyph: u16,
    recorded: Option<i16>,
    delta: Result<i64, Error>,
) -> Option<i16>
    requires recorded { recorded ≡ origin_of (vertical_view tables).vorg glyph }
    requires delta { IsOriginBy (option_map variation_view variation) glyph delta }
    ensures { result ≡ vorg_y_at (vertical_view tables.entry).vorg (option_map variation_view variation.entry) glyph }
{
    let y = vorg_y(tables, glyph, recorded)?;
    match variation {
        None => Some(y),
        Some(_) => Some(varied_origin(delta, y)),
    }
}

/// The y of the origin: of TrueType outlines by box and bearing, else by VORG with what it varies by, else by the top that may
/// be given and the bearing.
fn origin_y_at(
    tables: VerticalTables<'_>,
    variation: Option<HeightVariation<'_>>,
    glyph: u16,
    recorded: Option<i16>,
    delta: Result<i64, Error>,
    top: Option<i16>,
) -> Option<i32>
    requires recorded { recorded ≡ origin_of (vertical_view tables).vorg glyph }
    requires delta { IsOriginBy (option_map variation_view variation) glyph delta }
    ensures exact { result ≡ origin_y_at (vertical_view tables.entry) (option_map variation_view variation.entry) top glyph }
    ensures small { IfSome result (λ v. unsigned_abs v ≤ 2 ^ 16) }
{
    if tables.outlines.glyf.is_some() {
        return by_top(tables, glyph, box_top(tables.outlines, glyph));
    }
    match vorg_y_at(tables, variation, glyph, recorded, delta) {
        Some(y) => Some(i32::from(y)),
        None => by_given_top(tables, glyph, top),
    }
}

/// Half of a width.
fn half(width: u32) -> i32
    ensures { result ≡ half width }
{
    (width / 2 + width % 2).min(i32::MAX as u32) as i32
}

/// An advance height in thousandths, downwards.
fn downwards(advance: u16, units: u16) -> i32
    requires { 0 < units }
    ensures { result ≡ neg_ℤ (thousandths (pos advance) units) }
{
    -thousandths(i32::from(advance), u32::from(units))
}

/// The y of an origin in thousandths.
fn scaled_y(y: Option<i32>, units: u16) -> i32
    requires above { 0 < units }
    requires small { IfSome y (λ v. unsigned_abs v ≤ 2 ^ 16) }
    ensures { result ≡ option_map_or (λ v. thousandths v units) y (pos 880) }
{
    match y {
        Some(v) => thousandths(v, u32::from(units)),
        None => 880,
    }
}

/// The column of a glyph with a width, of which VORG has this y, and whose top may be given. Where the font is off its default, its
/// advance varies by `height`, and an origin by VORG by `shift`.
pub fn metric_at(
    tables: VerticalTables<'_>,
    variation: Option<HeightVariation<'_>>,
    glyph: u16,
    width: u32,
    recorded: Option<i16>,
    height: Result<i64, Error>,
    shift: Result<i64, Error>,
    top: Option<i16>,
) -> Column
    requires recorded { recorded ≡ origin_of (vertical_view tables).vorg glyph }
    requires height { IsHeightBy (option_map variation_view variation) glyph height }
    requires shift { IsOriginBy (option_map variation_view variation) glyph shift }
    ensures { result ≡ metric_at (vertical_view tables.entry) (option_map variation_view variation.entry) top glyph width }
{
    let Some(advance) = advance_at(tables, variation, glyph, height) else {
        return Column {
            advance: -1000,
            x: half(width),
            y: 880,
        };
    };
    let units = units_per_em(tables.outlines.head);
    let y = origin_y_at(tables, variation, glyph, recorded, shift, top);
    Column {
        advance: downwards(advance, units),
        x: half(width),
        y: scaled_y(y, units),
    }
}
