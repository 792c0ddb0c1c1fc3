//! Which glyphs can be parts of an own one, and at which places.

ghost use Rattle.std.specs.Prelude.{◌≡◌, ◌≤◌, ◌+◌, ◌^◌, ◌&&◌, ◌+ℤ◌, true, false, pos, nat_lt, get_or, unsigned_abs, IfSome, IfNone, map, IfOk, IfErr};
ghost use Rattle.pdf_figures.specs.Figures.{can_be_own, is_advance, is_part, is_place, is_placed};
ghost use Rattle.pdf_figures.specs.View.{drawn_of};

use crate::choice::Choice;
use crate::ink::Placed;

/// The number of units of a part's place, if it is from the origin by less than 2^14 units, or back by that.
pub fn place_of(units: i64) -> Option<i16>
    ensures some { IfSome result (λ p. (p ≡ units) × (is_place units ≡ true)) }
    ensures none { IfNone result (is_place units ≡ false) }
{
    if -16384 <= units && units < 16384 {
        return Some(units as i16);
    }
    None
}

/// The advance of an own glyph, if it has 16 bits.
pub fn advance_in(units: i64) -> Option<u16>
    ensures some { IfSome result (λ a. (a ≡ unsigned_abs units) × (is_advance units ≡ true)) }
    ensures none { IfNone result (is_advance units ≡ false) }
{
    if 0 <= units && units < 65536 {
        return Some(units as u16);
    }
    None
}

/// Whether a glyph may be a part.
pub fn can_be_part(choice: &Choice<'_>, glyph: u16) -> bool
    ensures { result ≡ get_or choice.now.can_be_part.now glyph false }
{
    let place = usize::from(glyph);
    if place < choice.can_be_part.len() {
        return choice.can_be_part[place];
    }
    false
}

/// A part at a place, if it may be there.
pub fn part_at(choice: &Choice<'_>, glyph: u16, x: i64, y: i64) -> Option<Placed>
    ensures some { IfSome result (λ p. (drawn_of p ≡ record { glyph = glyph; x = x; y = y }) × (is_part choice.now (record { glyph = glyph; x = x; y = y }) ≡ true)) }
    ensures none { IfNone result (is_part choice.now (record { glyph = glyph; x = x; y = y }) ≡ false) }
{
    if !can_be_part(choice, glyph) {
        return None;
    }
    if choice.is_still && !(x == 0 && y == 0) {
        return None;
    }
    let x = place_of(x)?;
    let y = place_of(y)?;
    Some(Placed { glyph, x, y })
}
