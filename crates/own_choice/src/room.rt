//! How many parts own glyphs can have (OpenType, "maxp").

ghost use Rattle.std.specs.Prelude.{◌≡◌, ◌≤◌, length};
ghost use Rattle.std.specs.Option.{option_copied};
ghost use Rattle.own_choice.specs.Parts.{most_by, most_in, room_in, times_in};

use subsetter_base::read::u16_at;

/// maxPoints, and after it maxContours, two bytes each.
const MAX_POINTS: usize = 6;

const MAX_CONTOURS: usize = 8;
/// maxCompositePoints, and after it maxCompositeContours, two bytes each.
const MAX_COMPOSITE_POINTS: usize = 10;

const MAX_COMPOSITE_CONTOURS: usize = 12;
/// maxComponentDepth, two bytes, the last of version 1.0.
const MAX_COMPONENT_DEPTH: usize = 30;
/// How many bytes version 1.0 has.
const SIZE: usize = 32;

/// How many times a number has 16 bits.
pub fn times_in(number: usize) -> u16
    ensures { result ≡ times_in number }
{
    (65535 / number.max(1)) as u16
}

/// How many parts leave the points and the contours of a glyph 16 bits.
fn room_in(maxp: &[u8]) -> u16
    requires { 32 ≤ length maxp.now }
    ensures { result ≡ room_in maxp.now }
{
    let points = u16_at(maxp, MAX_POINTS).max(u16_at(maxp, MAX_COMPOSITE_POINTS));
    let contours = u16_at(maxp, MAX_CONTOURS).max(u16_at(maxp, MAX_COMPOSITE_CONTOURS));
    times_in(usize::from(points)).min(times_in(usize::from(contours)))
}

/// How many parts leave the points and the contours of a glyph 16 bits, where `maxp` has these fields and its depth leaves room for one
/// more.
fn most_in(maxp: &[u8]) -> u16
    ensures { result ≡ most_in maxp.now }
{
    if maxp.len() >= SIZE && u16_at(maxp, MAX_COMPONENT_DEPTH) < u16::MAX {
        return room_in(maxp);
    }
    0
}

/// The same of a font's `maxp`, if there is one.
pub fn most_for(maxp: Option<&[u8]>) -> u16
    ensures { result ≡ most_by (option_copied maxp.entry) }
{
    match maxp {
        Some(maxp) => most_in(maxp),
        None => 0,
    }
}
