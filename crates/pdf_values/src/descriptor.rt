//! The values of a font descriptor (ISO 32000-1, Table 122) but its name.

ghost use Rattle.std.specs.Prelude.{◌≡◌, ◌≤ℤ◌, pos};
ghost use Rattle.std.specs.Option.{option_map};
ghost use Rattle.pdf_values.specs.Looks.Bounds.{IsAround, box_of};
ghost use Rattle.pdf_values.specs.Descriptor.{tables_view, values_of};
ghost use Rattle.pdf_values.specs.Looks.Flags.{IsFlags};
ghost use Rattle.pdf_values.specs.Head.{units_per_em};
ghost use Rattle.pdf_values.specs.Movement.{movement_view};

use crate::looks::bounds::{Bounds, Edges, GlyphBox, bounds_of};
use crate::looks::flags::flags_by;
use crate::looks::heights::{Heights, heights_of};
use crate::looks::lean::{angle_at, is_italic_at};
use crate::looks::weight::{font_weight, stem_v, weight_at};
use crate::movement::Movement;
use crate::units::units_per_em;

/// The tables that the values are read of; none where the font lacks one.
#[derive(Clone, Copy)]
pub struct Tables<'a> {
    pub head: Option<&'a [u8]>,
    pub hhea: Option<&'a [u8]>,
    pub os2: Option<&'a [u8]>,
    pub post: Option<&'a [u8]>,
}

/// What the caller knows of a font's glyphs.
#[derive(Clone, Copy)]
pub struct Known {
    /// The top of "H", in the font's units.
    pub cap_top: Option<i16>,
    /// The top of "x".
    pub x_top: Option<i16>,
    /// The least box around the kept glyphs.
    pub kept: Option<GlyphBox>,
    /// The first stem that the font says, in thousandths.
    pub stem: Option<u32>,
}

/// The values of a descriptor. Lengths are in thousandths of the em, and the angle in thousandths of a degree.
#[derive(Clone, Copy, PartialEq, Eq)]
pub struct Values {
    pub flags: u32,
    pub bounds: Edges,
    pub italic_angle: i32,
    pub heights: Heights,
    pub stem_v: u32,
    pub font_weight: u16,
}

/// The values of a font, which may be moved along its axes. FontBBox holds the glyphs that are chosen; the box of `head` is that of the
/// font's default.
pub fn values_of(
    tables: Tables<'_>,
    known: Known,
    movement: Option<Movement<'_>>,
    choice: Bounds,
) -> Values
    ensures value { result ≡ values_of (tables_view tables.entry) known (option_map movement_view movement.entry) choice }
    ensures flags { IsFlags result.flags }
    ensures around { IsAround (box_of choice (tables_view tables.entry).head known.kept) (units_per_em (tables_view tables.entry).head) result.bounds }
    ensures descent { result.heights.descent ≤ℤ pos 0 }
{
    let units = units_per_em(tables.head);
    let angle = angle_at(movement, tables.post);
    let weight = weight_at(movement, tables.os2, tables.head);
    let is_italic = is_italic_at(movement, tables.os2, tables.head, angle);
    Values {
        flags: flags_by(tables.post, tables.os2, is_italic),
        bounds: bounds_of(choice, tables.head, known.kept, units),
        italic_angle: angle,
        heights: heights_of(
            movement,
            tables.hhea,
            tables.os2,
            tables.head,
            known.cap_top,
            known.x_top,
            units,
        ),
        stem_v: stem_v(known.stem, weight),
        font_weight: font_weight(weight),
    }
}
