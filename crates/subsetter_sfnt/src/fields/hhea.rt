//! `hhea`, the horizontal header (OpenType, "hhea"), and `vhea`, the vertical one, which has its fields (OpenType, "vhea").

ghost use Rattle.std.specs.Prelude.{◌≡◌, ◌≤◌, ◌+◌, ◌++◌, length, vec_capacity, IfSome};
ghost use Rattle.std.specs.Option.{option_copied};
ghost use Rattle.subsetter_sfnt.specs.Fields.Hhea.{ascender, descender, number_of_h_metrics, hhea_with};

use crate::laying::room::put;
use subsetter_base::fields::signed_in;
use subsetter_base::read::Reader;

/// ascender, and after it descender and lineGap, two bytes each.
pub const ASCENDER: usize = 4;
/// descender.
const DESCENDER: usize = 6;
/// advanceWidthMax, and after it minLeftSideBearing, minRightSideBearing and xMaxExtent, two bytes each.
pub const ADVANCE_WIDTH_MAX: usize = 10;
/// caretSlopeRise, and after it caretSlopeRun and caretOffset, two bytes each.
pub const CARET_SLOPE_RISE: usize = 18;
/// Four reserved fields, two bytes each.
pub const RESERVED: usize = 24;
/// numberOfHMetrics, two bytes; in `vhea` numOfLongVerMetrics.
const NUMBER_OF_H_METRICS: usize = 34;
/// How many bytes the table has.
const SIZE: usize = 36;

/// ascender.
pub fn ascender(hhea: Option<&[u8]>) -> Option<i16>
    ensures { result ≡ ascender (option_copied hhea.entry) }
{
    signed_in(hhea, ASCENDER)
}

/// descender.
pub fn descender(hhea: Option<&[u8]>) -> Option<i16>
    ensures { result ≡ descender (option_copied hhea.entry) }
{
    signed_in(hhea, DESCENDER)
}

/// numberOfHMetrics; of `vhea` numOfLongVerMetrics.
pub fn number_of_h_metrics(hhea: &[u8]) -> Option<u16>
    ensures exact { result ≡ number_of_h_metrics hhea.now }
    ensures whole { IfSome result (λ n. 36 ≤ length hhea.now) }
{
    Reader::new_at(hhea, NUMBER_OF_H_METRICS).read::<u16>()
}

/// Writes a copy of `hhea` with other extremes in advanceWidthMax, minLeftSideBearing, minRightSideBearing and xMaxExtent,
/// and with another numberOfHMetrics.
pub fn write_hhea(out: &mut Vec<u8>, hhea: &[u8], extremes: &[u8], count: u16)
    requires whole { 36 ≤ length hhea.now }
    requires room { length out.old.items + length (hhea_with extremes.now count hhea.now) ≤ vec_capacity out.old }
    ensures items { out.new.items ≡ out.old.items ++ hhea_with extremes.now count hhea.now }
    ensures capacity { vec_capacity out.old ≤ vec_capacity out.new }
{
    put(out, &hhea[..ADVANCE_WIDTH_MAX]);
    put(out, extremes);
    put(out, &hhea[CARET_SLOPE_RISE..NUMBER_OF_H_METRICS]);
    put(out, &count.to_be_bytes());
    put(out, &hhea[SIZE..]);
}
