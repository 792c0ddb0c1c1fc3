//! How bold a font is: FontWeight and StemV (ISO 32000-1, Table 122), by `OS/2` and `head` (OpenType, "OS/2",
//! usWeightClass), or by the coordinate on `wght` of a font that is moved.

ghost use Rattle.std.specs.Prelude.{◌≡◌, ◌≤◌, ◌%◌, ◌*◌};
ghost use Rattle.std.specs.Option.{option_copied, option_map};
ghost use Rattle.pdf_values.specs.Looks.Weight.{in_hundreds, class_weight, style_weight, weight_of, weight_in, weight_by, weight_at, font_weight, stem_of_weight, stem_v};
ghost use Rattle.pdf_values.specs.Movement.{movement_view};

use crate::fields::sets_bit;
use crate::movement::{Movement, coordinate_on};
use subsetter_base::Tag;
use subsetter_sfnt::fields::head::mac_style;
use subsetter_sfnt::fields::os2::us_weight_class;
use subsetter_variation::rounding::nearest;

/// Old fonts count from 1 to 9.
fn in_hundreds(class: u16) -> u16
    ensures { result ≡ in_hundreds class }
{
    if class <= 9 { 100 * class } else { class }
}

/// The weight of a class above 0.
fn class_weight(class: u16) -> Option<u16>
    ensures { result ≡ class_weight class }
{
    if class == 0 {
        return None;
    }
    Some(in_hundreds(class).min(1000))
}

/// Bold or regular.
fn style_weight(head: Option<&[u8]>) -> u16
    ensures { result ≡ style_weight (option_copied head.entry) }
{
    if sets_bit(mac_style(head), 0) {
        700
    } else {
        400
    }
}

/// The weight that `OS/2` says, else bold or regular, as `head` says: from 1 to 1000.
fn weight_of(os2: Option<&[u8]>, head: Option<&[u8]>) -> u16
    ensures value { result ≡ weight_of (option_copied os2.entry) (option_copied head.entry) }
    ensures least { 1 ≤ result }
    ensures most { result ≤ 1000 }
{
    if let Some(class) = us_weight_class(os2) {
        if let Some(weight) = class_weight(class) {
            return weight;
        }
    }
    style_weight(head)
}

/// A number as a weight, from 1 to 1000.
fn weight_in(n: i64) -> u16
    ensures value { result ≡ weight_in n }
    ensures least { 1 ≤ result }
    ensures most { result ≤ 1000 }
{
    if n <= 1 {
        return 1;
    }
    if n >= 1000 {
        return 1000;
    }
    n as u16
}

/// The weight: the coordinate on `wght`, where the font has this axis.
pub(crate) fn weight_at(
    movement: Option<Movement<'_>>,
    os2: Option<&[u8]>,
    head: Option<&[u8]>,
) -> u16
    ensures value { result ≡ weight_at (option_map movement_view movement.entry) (option_copied os2.entry) (option_copied head.entry) }
    ensures least { 1 ≤ result }
    ensures most { result ≤ 1000 }
{
    match coordinate_on(movement, Tag::new(b"wght")) {
        Some(coordinate) => weight_in(nearest(i64::from(coordinate), 65536)),
        None => weight_of(os2, head),
    }
}

/// FontWeight: the nearest hundred from 100 to 900.
pub fn font_weight(weight: u16) -> u16
    requires { weight ≤ 1000 }
    ensures value { result ≡ font_weight weight }
    ensures least { 100 ≤ result }
    ensures most { result ≤ 900 }
    ensures hundreds { result % 100 ≡ 0 }
{
    ((weight + 50) / 100 * 100).clamp(100, 900)
}

/// StemV of a font whose vertical stems aren't known: 10 + 31 w / 200 for a weight w, to the nearest whole number.
fn stem_of_weight(weight: u16) -> u32
    requires { weight ≤ 1000 }
    ensures { result ≡ stem_of_weight weight }
{
    10 + (31 * u32::from(weight) + 100) / 200
}

/// StemV: the stem that the font says, in thousandths, if the caller has it, else by its weight.
pub fn stem_v(stem: Option<u32>, weight: u16) -> u32
    requires { weight ≤ 1000 }
    ensures { result ≡ stem_v stem weight }
{
    match stem {
        Some(stem) => stem,
        None => stem_of_weight(weight),
    }
}
