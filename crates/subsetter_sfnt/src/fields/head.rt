//! `head`, the font header (OpenType, "head").

ghost use Rattle.std.specs.Prelude.{◌≡◌, ◌≤◌, ◌+◌, ◌++◌, length, vec_capacity, IfSome};
ghost use Rattle.std.specs.Option.{option_copied};
ghost use Rattle.subsetter_sfnt.specs.Fields.Head.{units_per_em, x_min, y_min, x_max, y_max, mac_style, index_to_loc_format, format_bytes, head_with};

use crate::laying::room::put;
use subsetter_base::fields::{number_in, signed_in};
use subsetter_base::read::Reader;

/// checksumAdjustment, four bytes.
pub(crate) const CHECKSUM_ADJUSTMENT: usize = 8;
/// magicNumber, four bytes.
const MAGIC_NUMBER: usize = 12;
/// unitsPerEm, two bytes.
const UNITS_PER_EM: usize = 18;
/// xMin, and after it yMin, xMax and yMax, two bytes each.
pub const X_MIN: usize = 36;

const Y_MIN: usize = 38;

const X_MAX: usize = 40;

const Y_MAX: usize = 42;
/// macStyle, two bytes.
pub const MAC_STYLE: usize = 44;
/// indexToLocFormat, two bytes.
const INDEX_TO_LOC_FORMAT: usize = 50;
/// glyphDataFormat, two bytes.
pub const GLYPH_DATA_FORMAT: usize = 52;

/// unitsPerEm.
pub fn units_per_em(head: &[u8]) -> Option<u16>
    ensures { result ≡ units_per_em head.now }
{
    Reader::new_at(head, UNITS_PER_EM).read::<u16>()
}

/// xMin.
pub fn x_min(head: Option<&[u8]>) -> Option<i16>
    ensures { result ≡ x_min (option_copied head.entry) }
{
    signed_in(head, X_MIN)
}

/// yMin.
pub fn y_min(head: Option<&[u8]>) -> Option<i16>
    ensures { result ≡ y_min (option_copied head.entry) }
{
    signed_in(head, Y_MIN)
}

/// xMax.
pub fn x_max(head: Option<&[u8]>) -> Option<i16>
    ensures { result ≡ x_max (option_copied head.entry) }
{
    signed_in(head, X_MAX)
}

/// yMax.
pub fn y_max(head: Option<&[u8]>) -> Option<i16>
    ensures { result ≡ y_max (option_copied head.entry) }
{
    signed_in(head, Y_MAX)
}

/// macStyle.
pub fn mac_style(head: Option<&[u8]>) -> Option<u16>
    ensures { result ≡ mac_style (option_copied head.entry) }
{
    number_in(head, MAC_STYLE)
}

/// indexToLocFormat. `loca` has the long format where it is not 0.
pub fn index_to_loc_format(head: &[u8]) -> Option<u16>
    ensures exact { result ≡ index_to_loc_format head.now }
    ensures whole { IfSome result (λ n. 52 ≤ length head.now) }
{
    Reader::new_at(head, INDEX_TO_LOC_FORMAT).read::<u16>()
}

/// Writes indexToLocFormat: 0 for halves of offsets, 1 for offsets.
fn write_format(out: &mut Vec<u8>, long: bool)
    requires { length out.old.items + 2 ≤ vec_capacity out.old }
    ensures items { out.new.items ≡ out.old.items ++ format_bytes long }
    ensures capacity { vec_capacity out.old ≤ vec_capacity out.new }
{
    put(out, &[0, u8::from(long)]);
}

/// Writes a copy of `head`: with zeros in checksumAdjustment, until the sum of the file is known, with a box in xMin, yMin,
/// xMax and yMax, and with the format of the new `loca`.
pub fn write_head(out: &mut Vec<u8>, head: &[u8], long: bool, bounds: &[u8])
    requires whole { 52 ≤ length head.now }
    requires room { length out.old.items + length (head_with long bounds.now head.now) ≤ vec_capacity out.old }
    ensures items { out.new.items ≡ out.old.items ++ head_with long bounds.now head.now }
    ensures capacity { vec_capacity out.old ≤ vec_capacity out.new }
{
    put(out, &head[..CHECKSUM_ADJUSTMENT]);
    put(out, &[0, 0, 0, 0]);
    put(out, &head[MAGIC_NUMBER..X_MIN]);
    put(out, bounds);
    put(out, &head[MAC_STYLE..INDEX_TO_LOC_FORMAT]);
    write_format(out, long);
    put(out, &head[GLYPH_DATA_FORMAT..]);
}
