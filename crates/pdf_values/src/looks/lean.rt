//! ItalicAngle, how far the dominant vertical strokes lean (ISO 32000-1, Table 122), by `post` (OpenType, "post") and by the
//! coordinates on `ital` and `slnt` of a font that is moved.

ghost use Rattle.std.specs.Prelude.{◌≡◌};
ghost use Rattle.std.specs.Option.{option_copied, option_map};
ghost use Rattle.pdf_values.specs.Looks.ItalicAngle.{angle, angle_at, angle_by, angle_of, is_ital, is_italic_at, italic_by, leans};
ghost use Rattle.pdf_values.specs.Movement.{movement_view};

use crate::looks::flags::is_italic;
use crate::movement::{Movement, coordinate_on};
use crate::rounding::thousandths;
use subsetter_base::Tag;
use subsetter_sfnt::fields;

/// The angle that a number of 65536ths of a degree is, in thousandths; 0 where it isn't between -90 and 90 degrees (OpenType,
/// "Registered design-variation axis tag: 'slnt'").
fn angle_of(v: i32) -> i32
    ensures { result ≡ angle_of v }
{
    if v.unsigned_abs() < 90 * 65536 {
        thousandths(v, 65536)
    } else {
        0
    }
}

/// ItalicAngle in thousandths of a degree, as `post` says, else 0.
fn italic_angle(post: Option<&[u8]>) -> i32
    ensures { result ≡ angle (option_copied post.entry) }
{
    match fields::post::italic_angle(post) {
        Some(angle) => angle_of(angle),
        None => 0,
    }
}

/// Whether a coordinate of `ital` is italic: from a half on.
fn is_ital(coordinate: i32) -> bool
    ensures { result ≡ is_ital coordinate }
{
    coordinate >= 32768
}

/// Whether a coordinate of `slnt` is: below 0.
fn leans(coordinate: i32) -> bool
    ensures { result ≡ leans coordinate }
{
    coordinate < 0
}

/// ItalicAngle by `post`, which is that of the italic, where the font has the axis `ital`.
fn angle_by(ital: Option<i32>, post: Option<&[u8]>) -> i32
    ensures { result ≡ angle_by ital (option_copied post.entry) }
{
    match ital {
        None => italic_angle(post),
        Some(coordinate) => {
            if is_ital(coordinate) {
                italic_angle(post)
            } else {
                0
            }
        }
    }
}

/// Whether a font is italic: by its coordinates on `ital` and `slnt`, where it has one of these axes, else as by default.
fn italic_by(ital: Option<i32>, slnt: Option<i32>, default: bool) -> bool
    ensures { result ≡ italic_by ital slnt default }
{
    match (ital, slnt) {
        (None, None) => default,
        (Some(ital), None) => is_ital(ital),
        (None, Some(slnt)) => leans(slnt),
        (Some(ital), Some(slnt)) => is_ital(ital) || leans(slnt),
    }
}

/// Whether a font with this ItalicAngle is italic.
pub(crate) fn is_italic_at(
    movement: Option<Movement<'_>>,
    os2: Option<&[u8]>,
    head: Option<&[u8]>,
    angle: i32,
) -> bool
    ensures { result ≡ is_italic_at (option_map movement_view movement.entry) (option_copied os2.entry) (option_copied head.entry) angle }
{
    let ital = coordinate_on(movement, Tag::new(b"ital"));
    let slnt = coordinate_on(movement, Tag::new(b"slnt"));
    italic_by(ital, slnt, is_italic(os2, head, angle))
}

/// ItalicAngle in thousandths of a degree: the coordinate on `slnt`, where the font has this axis.
pub(crate) fn angle_at(movement: Option<Movement<'_>>, post: Option<&[u8]>) -> i32
    ensures { result ≡ angle_at (option_map movement_view movement.entry) (option_copied post.entry) }
{
    match coordinate_on(movement, Tag::new(b"slnt")) {
        Some(coordinate) => angle_of(coordinate),
        None => angle_by(coordinate_on(movement, Tag::new(b"ital")), post),
    }
}
