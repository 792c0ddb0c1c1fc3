//! Where the pens are.

ghost use Rattle.std.specs.Prelude.{◌≡◌, ◌<◌, ◌≤◌, ◌*◌, ◌^◌, ◌+◌, ◌+ℤ◌, ◌-ℤ◌, ◌&&◌, if◌then◌else◌, unsigned_abs, pos, true, false, IfNone, IfSome, Some, None};
ghost use Rattle.pdf_values.specs.Rounding.{thousandfold, thousandths};
ghost use Rattle.pdf_operators.specs.Places.{above, along, first_three, fits, in_32_bits, is_near, last_back, metrics_of, narrowed, next, origin_at, pen_at, pen_then, with_last, x_of, y_of};
ghost use Rattle.pdf_operators.specs.Pens.{advance_of, are_pens, end_of, first_pen, pen_past, pen_of, start};

use pdf_runs::{Direction, Figure, Item, Piece};
use subsetter_variation::rounding::nearest;

/// The metrics of a glyph in the direction of writing, in thousandths of the em (ISO 32000-1, 9.2.4 and 9.7.4.3). C has it as
/// it is.
#[derive(Clone, Copy)]
#[repr(C)]
pub struct GlyphMetrics {
    /// How far the pen goes on: the width in W, or w1y in W2.
    pub displacement: i32,
    /// In vertical writing the y of the position vector in W2, else 0.
    pub position: i32,
}

/// What a run needs of its font.
#[derive(Clone, Copy)]
pub struct Font<'a> {
    /// Units per em.
    pub units: u16,
    /// The metrics of each glyph.
    pub metrics: &'a [GlyphMetrics],
    /// Whether a glyph has ink.
    pub inked: &'a [bool],
}

/// After a glyph.
#[derive(Clone, Copy)]
pub struct Stop {
    /// How far a reader's pen went back before the glyph, in thousandths of the em.
    pub back: i32,
    /// Where the shaper's pen is, in units of the font.
    pub x: i32,
    pub y: i32,
    /// Where a reader's pen is along the line, in thousandths of the em.
    pub at: i32,
    /// The text rise, in thousandths of the em.
    pub rise: i32,
    /// Whether glyphs are written from the last to the first.
    pub is_turned: bool,
}

/// How far the shaper's pen goes on in a run, in units of the font.
#[derive(Clone, Copy)]
pub struct Advance {
    pub x: i32,
    pub y: i32,
}

/// After a glyph, before it is known whether the numbers have 32 bits.
#[derive(Clone, Copy)]
pub struct Wide {
    back: i64,
    x: i64,
    y: i64,
    at: i64,
    rise: i64,
    is_turned: bool,
}

/// A length along the line.
fn along(direction: Direction, x: i64, y: i64) -> i64
    requires first { unsigned_abs x ≤ 2 ^ 33 }
    requires second { unsigned_abs y ≤ 2 ^ 33 }
    ensures value { result ≡ along direction x y }
    ensures bound { unsigned_abs result ≤ 2 ^ 33 }
{
    match direction {
        Direction::LeftToRight | Direction::RightToLeft => x,
        Direction::TopToBottom => y,
    }
}

/// A height above the line.
fn above(direction: Direction, y: i64) -> i64
    requires { unsigned_abs y ≤ 2 ^ 33 }
    ensures value { result ≡ above direction y }
    ensures bound { unsigned_abs result ≤ 2 ^ 33 }
{
    match direction {
        Direction::LeftToRight | Direction::RightToLeft => y,
        Direction::TopToBottom => 0,
    }
}

/// The metrics of a figure.
fn metrics_of(font: Font<'_>, figure: Figure) -> GlyphMetrics
    ensures { result ≡ metrics_of font.entry figure }
{
    let none = GlyphMetrics {
        displacement: 0,
        position: 0,
    };
    match figure {
        Figure::Source(glyph) => {
            let place = usize::from(glyph);
            if place < font.metrics.len() {
                font.metrics[place]
            } else {
                none
            }
        }
        Figure::Blank => none,
    }
}

/// A thousand times a length.
fn thousandfold(length: i64) -> i64
    requires { unsigned_abs length ≤ 2 ^ 33 }
    ensures value { result ≡ thousandfold length }
    ensures size { unsigned_abs result ≡ 1000 * unsigned_abs length }
{
    1000 * length
}

/// A length in thousandths of the em, at `units` units per em, to the nearest, halves up.
#[tactic(auto, unfolding(pdf_values::specs::Rounding::thousandths), using(crate::proofs::Near::none_long))]
fn thousandths(length: i64, units: u16) -> i64
    requires above { 0 < units }
    requires small { unsigned_abs length ≤ 2 ^ 33 }
    ensures value { result ≡ thousandths length units }
    ensures bound { unsigned_abs result ≤ 1000 * 2 ^ 33 }
{
    // (most glyphs are on the line)
    if length == 0 {
        return 0;
    }
    nearest(thousandfold(length), u64::from(units))
}

/// Where the shaper's pen is at a glyph: before the advance, or after it where glyphs are written from the last to the first.
fn pen_at(is_turned: bool, pen: i32, advance: i32) -> i64
    ensures value { result ≡ pen_at is_turned pen advance }
    ensures bound { unsigned_abs result ≤ 2 ^ 32 }
{
    if is_turned {
        i64::from(pen) - i64::from(advance)
    } else {
        i64::from(pen)
    }
}

/// Where the shaper's pen is then.
fn pen_then(is_turned: bool, pen: i32, advance: i32) -> i64
    ensures { result ≡ pen_then is_turned pen advance }
{
    if is_turned {
        i64::from(pen) - i64::from(advance)
    } else {
        i64::from(pen) + i64::from(advance)
    }
}

/// Where a glyph's origin is to be, in units of the font.
#[tactic(auto, using(pdf_text::proofs::Pieces::two_signed))]
fn x_of(stop: Stop, piece: Piece) -> i64
    ensures value { result ≡ x_of stop piece }
    ensures bound { unsigned_abs result ≤ 2 ^ 33 }
{
    pen_at(stop.is_turned, stop.x, piece.x_advance) + i64::from(piece.x)
}

/// How far up a glyph's origin is to be, in units of the font.
#[tactic(auto, using(pdf_text::proofs::Pieces::two_signed))]
fn y_of(stop: Stop, piece: Piece) -> i64
    ensures value { result ≡ y_of stop piece }
    ensures bound { unsigned_abs result ≤ 2 ^ 33 }
{
    pen_at(stop.is_turned, stop.y, piece.y_advance) + i64::from(piece.y)
}

/// Where a glyph's origin is to be, in thousandths of the em along the line.
#[tactic(auto, using(pdf_text::proofs::Pieces::two_signed))]
fn origin_at(font: Font<'_>, direction: Direction, stop: Stop, piece: Piece) -> i64
    requires { 0 < font.units }
    ensures value { result ≡ origin_at font.entry direction stop piece }
    ensures bound { unsigned_abs result ≤ 1000 * 2 ^ 33 }
{
    let x = x_of(stop, piece);
    let y = y_of(stop, piece);
    thousandths(along(direction, x, y), font.units)
}

/// The text rise of a glyph, in thousandths of the em.
#[tactic(auto, using(pdf_text::proofs::Pieces::two_signed))]
fn rise_at(font: Font<'_>, direction: Direction, stop: Stop, piece: Piece) -> i64
    requires { 0 < font.units }
    ensures value { result ≡ thousandths (above direction (y_of stop piece)) font.entry.units }
    ensures bound { unsigned_abs result ≤ 1000 * 2 ^ 33 }
{
    thousandths(above(direction, y_of(stop, piece)), font.units)
}

/// A place, so much further on.
fn moved(from: i64, by: i32) -> i64
    requires { unsigned_abs from ≤ 2 ^ 44 }
    ensures value { result ≡ from +ℤ by }
    ensures bound { unsigned_abs result ≤ unsigned_abs from + 2 ^ 31 }
{
    from + i64::from(by)
}

/// How far back a place is.
fn back_from(from: i32, to: i64) -> i64
    requires { unsigned_abs to ≤ 2 ^ 45 }
    ensures { result ≡ from -ℤ to }
{
    i64::from(from) - to
}

/// The pens after a piece.
#[tactic(auto, using(pdf_text::proofs::Pieces::two_signed))]
fn pens_after(font: Font<'_>, direction: Direction, stop: Stop, piece: Piece) -> Wide
    requires { 0 < font.units }
    ensures { narrowed result ≡ next font.entry direction stop piece }
{
    let metrics = metrics_of(font, piece.figure);
    let shown = moved(origin_at(font, direction, stop, piece), metrics.position);
    Wide {
        back: back_from(stop.at, shown),
        x: pen_then(stop.is_turned, stop.x, piece.x_advance),
        y: pen_then(stop.is_turned, stop.y, piece.y_advance),
        at: moved(shown, metrics.displacement),
        rise: rise_at(font, direction, stop, piece),
        is_turned: stop.is_turned,
    }
}

/// An integer, if it has 32 bits.
pub fn in_32_bits(z: i64) -> Option<i32>
    ensures value { result ≡ in_32_bits z }
    ensures same { IfSome result (λ w. w ≡ z) }
{
    i32::try_from(z).ok()
}

/// The first three numbers, if they have 32 bits.
fn first_three(wide: Wide) -> Option<Stop>
    ensures { result ≡ (if fits wide.back && (fits wide.x && fits wide.y) then Some (first_three (narrowed wide)) else None) }
{
    Some(Stop {
        back: in_32_bits(wide.back)?,
        x: in_32_bits(wide.x)?,
        y: in_32_bits(wide.y)?,
        at: 0,
        rise: 0,
        is_turned: wide.is_turned,
    })
}

/// The last two numbers after the first three, if they have 32 bits.
fn last_two(wide: Wide, first: Stop) -> Option<Stop>
    ensures { result ≡ (if fits wide.at && fits wide.rise then Some (with_last first (narrowed wide)) else None) }
{
    Some(Stop {
        at: in_32_bits(wide.at)?,
        rise: in_32_bits(wide.rise)?,
        ..first
    })
}

/// The pens, if their numbers have 32 bits.
fn narrow(wide: Wide) -> Option<Stop>
    ensures { result ≡ (if is_near (narrowed wide) then Some (narrowed wide) else None) }
{
    let first = first_three(wide)?;
    last_two(wide, first)
}

/// The stop after a piece, if its numbers have 32 bits.
pub fn next(font: Font<'_>, direction: Direction, stop: Stop, piece: Piece) -> Option<Stop>
    requires { 0 < font.units }
    ensures { result ≡ (if is_near (next font.entry direction stop piece) then Some (next font.entry direction stop piece) else None) }
{
    narrow(pens_after(font, direction, stop, piece))
}

/// How far a reader's pen is before the end of the line, in thousandths of the em, if that has 32 bits.
#[tactic(auto, using(pdf_text::proofs::Pieces::two_signed))]
pub fn last_back(font: Font<'_>, end: i32, stop: Stop) -> Option<i32>
    requires { 0 < font.units }
    ensures value { result ≡ in_32_bits (last_back font.entry end stop) }
    ensures same { IfSome result (λ z. z ≡ last_back font.entry end stop) }
{
    in_32_bits(i64::from(stop.at) - thousandths(i64::from(end), font.units))
}

// ---- a run

/// A pen, if its numbers have 32 bits.
fn pen_of(x: i64, y: i64) -> Option<Advance>
    ensures { result ≡ (if fits x && fits y then Some (pen_of x y) else None) }
{
    Some(Advance {
        x: in_32_bits(x)?,
        y: in_32_bits(y)?,
    })
}

/// A pen after a glyph, if its numbers have 32 bits.
fn pen_past(pen: Advance, item: &Item<'_>) -> Option<Advance>
    ensures { result ≡ (if fits (pen.x +ℤ item.now.x_advance) && fits (pen.y +ℤ item.now.y_advance) then Some (pen_past pen item.now) else None) }
{
    pen_of(
        moved(i64::from(pen.x), item.x_advance),
        moved(i64::from(pen.y), item.y_advance),
    )
}

/// How far the shaper's pen goes on, if each of its places has 32 bits.
pub fn advance_of(items: &[Item<'_>]) -> Option<Advance>
    ensures some { IfSome result (λ a. a ≡ advance_of items.now) }
    ensures pens { IfSome result (λ _a. are_pens (pos 0) (pos 0) items.now ≡ true) }
    ensures none { IfNone result (are_pens (pos 0) (pos 0) items.now ≡ false) }
{
    let mut pen = Advance { x: 0, y: 0 };
    for item in items {
        match pen_past(pen, item) {
            Some(next) => pen = next,
            None => return None,
        }
    }
    Some(pen)
}

/// The end of the line.
pub fn end_of(direction: Direction, advance: Advance) -> i32
    ensures { result ≡ end_of direction advance }
{
    match direction {
        Direction::LeftToRight | Direction::RightToLeft => advance.x,
        Direction::TopToBottom => advance.y,
    }
}

/// Where the shaper's pen is before the first glyph that is written.
fn first_pen(is_turned: bool, advance: i32) -> i32
    ensures { result ≡ first_pen is_turned advance }
{
    if is_turned { advance } else { 0 }
}

/// Before the first glyph that is written.
pub fn start(is_turned: bool, advance: Advance) -> Stop
    ensures { result ≡ start is_turned advance }
{
    Stop {
        back: 0,
        x: first_pen(is_turned, advance.x),
        y: first_pen(is_turned, advance.y),
        at: 0,
        rise: 0,
        is_turned,
    }
}
