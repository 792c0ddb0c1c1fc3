//! FontBBox, the box that all glyphs lie in (ISO 32000-1, Table 122), by `head` (OpenType, "head").

ghost use Rattle.std.specs.Prelude.{◌≡◌, ◌<◌};
ghost use Rattle.std.specs.Option.{option_copied, unwrap_or};
ghost use Rattle.pdf_values.specs.Looks.Bounds.{extended, head_box, no_box, box_of, outward, bounds_of, IsAround};
ghost use Rattle.pdf_values.specs.Rounding.{lowered, raised, IsBelow, IsAbove};

use crate::rounding::{lowered, raised};
use subsetter_sfnt::fields::head::{x_max, x_min, y_max, y_min};

/// Which glyphs FontBBox is to hold.
#[derive(Clone, Copy, PartialEq, Eq)]
pub enum Bounds {
    /// All glyphs of the font, as `head` says.
    Font,
    /// Those that are kept.
    Kept,
}

/// The edges of a box, in a font's units.
#[derive(Clone, Copy, PartialEq, Eq)]
pub struct GlyphBox {
    pub x_min: i16,
    pub y_min: i16,
    pub x_max: i16,
    pub y_max: i16,
}

/// The edges of a box, in thousandths of the em.
#[derive(Clone, Copy, PartialEq, Eq)]
pub struct Edges {
    pub x_min: i32,
    pub y_min: i32,
    pub x_max: i32,
    pub y_max: i32,
}

/// A box, if it has a width and a height.
fn extended(glyphs: GlyphBox) -> Option<GlyphBox>
    ensures { result ≡ extended glyphs }
{
    if glyphs.x_min < glyphs.x_max && glyphs.y_min < glyphs.y_max {
        return Some(glyphs);
    }
    None
}

/// The box of `head`, if it has a width and a height.
fn head_box(head: Option<&[u8]>) -> Option<GlyphBox>
    ensures { result ≡ head_box (option_copied head.entry) }
{
    let x_min = x_min(head)?;
    let y_min = y_min(head)?;
    let x_max = x_max(head)?;
    let y_max = y_max(head)?;
    extended(GlyphBox {
        x_min,
        y_min,
        x_max,
        y_max,
    })
}

/// The box around the kept glyphs, if the caller has one.
fn kept_box(kept: Option<GlyphBox>) -> GlyphBox
    ensures { result ≡ unwrap_or kept no_box }
{
    match kept {
        Some(glyphs) => glyphs,
        None => GlyphBox {
            x_min: 0,
            y_min: 0,
            x_max: 0,
            y_max: 0,
        },
    }
}

/// The box that is chosen.
fn box_of(choice: Bounds, head: Option<&[u8]>, kept: Option<GlyphBox>) -> GlyphBox
    ensures { result ≡ box_of choice (option_copied head.entry) kept }
{
    match choice {
        Bounds::Font => match head_box(head) {
            Some(glyphs) => glyphs,
            None => kept_box(kept),
        },
        Bounds::Kept => kept_box(kept),
    }
}

/// An edge that is rounded down.
fn low_edge(edge: i16, units: u16) -> i32
    requires { 0 < units }
    ensures value { result ≡ lowered edge units }
    ensures below { IsBelow edge units result }
{
    lowered(i32::from(edge), u32::from(units))
}

/// An edge that is rounded up.
fn high_edge(edge: i16, units: u16) -> i32
    requires { 0 < units }
    ensures value { result ≡ raised edge units }
    ensures above { IsAbove edge units result }
{
    raised(i32::from(edge), u32::from(units))
}

/// A box in thousandths, its low edges rounded down and its high ones up.
fn outward(glyphs: GlyphBox, units: u16) -> Edges
    requires { 0 < units }
    ensures value { result ≡ outward glyphs units }
    ensures around { IsAround glyphs units result }
{
    Edges {
        x_min: low_edge(glyphs.x_min, units),
        y_min: low_edge(glyphs.y_min, units),
        x_max: high_edge(glyphs.x_max, units),
        y_max: high_edge(glyphs.y_max, units),
    }
}

/// FontBBox of a font with `units` units per em: the box of `head`, unless the other is chosen, else the one around
/// the kept glyphs, if the caller has one.
pub fn bounds_of(choice: Bounds, head: Option<&[u8]>, kept: Option<GlyphBox>, units: u16) -> Edges
    requires { 0 < units }
    ensures value { result ≡ bounds_of choice (option_copied head.entry) kept units }
    ensures around { IsAround (box_of choice (option_copied head.entry) kept) units result }
{
    outward(box_of(choice, head, kept), units)
}
