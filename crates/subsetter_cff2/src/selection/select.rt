//! Which font dict a glyph has (OpenType, "CFF2": "FDSelect").

ghost use Rattle.std.specs.Prelude.{◌≡◌, ◌≤◌, ◌<◌, ◌+◌, ◌*◌, ◌^◌, ◌&&◌, nat_le, nat_lt};
ghost use Rattle.std.specs.Option.{option_map};
ghost use Rattle.subsetter_cff2.specs.Selection.Select.{range_at, range_by, width_of, in_ranges, in_format, selected};
ghost use Rattle.subsetter_cff2.specs.Selection.SelectView.{range_view};

use subsetter_base::read::Reader;

/// The formats: a font dict for each glyph, ranges, and ranges of wide numbers.
const FORMAT_0: u8 = 0;

pub(crate) const FORMAT_3: u8 = 3;

pub(crate) const FORMAT_4: u8 = 4;
/// fds of format 0, after the format.
const FDS: usize = 1;
/// nRanges of formats 3 and 4, two bytes and four.
pub(crate) const COUNT: usize = 1;
/// The ranges of format 3, and of format 4.
pub(crate) const RANGES: usize = 3;

pub(crate) const WIDE_RANGES: usize = 5;
/// How many bytes a range has; the next one's first glyph is after it.
const RANGE_SIZE: usize = 3;

const WIDE_RANGE_SIZE: usize = 6;
/// fd of a range, after its first glyph.
const FD: usize = 2;

const WIDE_FD: usize = 4;

/// A range of glyphs that have one font dict.
#[derive(Clone, Copy, Debug)]
pub struct Range {
    /// Its first glyph.
    pub first: u32,
    /// Their font dict.
    pub dict: u16,
    /// The first glyph after it.
    pub next: u32,
}

/// The range at a place, of format 4 or of format 3.
#[tactic(auto, unfolding(crate::specs::Selection::Select::range_at))]
pub(crate) fn range_at(bytes: &[u8], is_wide: bool, place: usize) -> Option<Range>
    requires { place ≤ 2 ^ 60 }
    ensures { option_map range_view result ≡ range_at bytes.now is_wide place }
{
    if is_wide {
        wide_range(bytes, place)
    } else {
        short_range(bytes, place)
    }
}

/// A range of format 4: glyphs of four bytes, font dicts of two.
fn wide_range(bytes: &[u8], place: usize) -> Option<Range>
    requires { place ≤ 2 ^ 60 }
    ensures { option_map range_view result ≡ range_by 4 2 bytes.now place }
{
    let first = Reader::new_at(bytes, place).read::<u32>()?;
    let dict = Reader::new_at(bytes, place + WIDE_FD).read::<u16>()?;
    let next = Reader::new_at(bytes, place + WIDE_RANGE_SIZE).read::<u32>()?;
    Some(Range { first, dict, next })
}

/// A range of format 3: glyphs of two bytes, font dicts of one.
fn short_range(bytes: &[u8], place: usize) -> Option<Range>
    requires { place ≤ 2 ^ 60 }
    ensures { option_map range_view result ≡ range_by 2 1 bytes.now place }
{
    let first = Reader::new_at(bytes, place).read::<u16>()?;
    let dict = Reader::new_at(bytes, place + FD).read::<u8>()?;
    let next = Reader::new_at(bytes, place + RANGE_SIZE).read::<u16>()?;
    Some(Range {
        first: u32::from(first),
        dict: u16::from(dict),
        next: u32::from(next),
    })
}

/// Whether a range has a glyph.
fn has(range: Range, glyph: u32) -> bool
    ensures { result ≡ (nat_le range.first glyph && nat_lt glyph range.next) }
{
    range.first <= glyph && glyph < range.next
}

/// Where range `i` is, of ranges from a place on.
pub(crate) fn range_offset(at: usize, i: u32, is_wide: bool) -> usize
    requires { at ≤ 2 ^ 59 }
    ensures value { result ≡ at + i * width_of is_wide }
    ensures bound { result ≤ at + 2 ^ 35 }
{
    at + i as usize * (if is_wide { WIDE_RANGE_SIZE } else { RANGE_SIZE })
}

/// The font dict of the first of `count` ranges that has a glyph.
#[tactic(auto, using(crate::proofs::SelectionLaws::Ranges2::ranges_next, crate::proofs::SelectionLaws::Ranges2::ranges_here, crate::proofs::SelectionLaws::Ranges2::ranges_cut, crate::proofs::SelectionLaws::Ranges2::ranges_end))]
pub(crate) fn in_ranges(
    bytes: &[u8],
    is_wide: bool,
    at: usize,
    count: u32,
    glyph: u16,
) -> Option<u16>
    requires { at ≤ 2 ^ 59 }
    ensures { result ≡ in_ranges bytes.now is_wide glyph count at }
{
    for i in 0..count {
        let range = range_at(bytes, is_wide, range_offset(at, i, is_wide))?;
        if has(range, u32::from(glyph)) {
            return Some(range.dict);
        }
    }
    None
}

/// The font dict of a glyph by the FDSelect at a place, whose format was read.
#[tactic(auto, unfolding(crate::specs::Selection::Select::in_format))]
fn in_format(bytes: &[u8], at: usize, format: u8, glyph: u16) -> Option<u16>
    requires { at < 2 ^ 32 }
    ensures { result ≡ in_format bytes.now at format glyph }
{
    match format {
        FORMAT_0 => {
            let dict = Reader::new_at(bytes, at + FDS + glyph as usize).read::<u8>()?;
            Some(u16::from(dict))
        }
        FORMAT_3 => {
            let count = Reader::new_at(bytes, at + COUNT).read::<u16>()?;
            in_ranges(bytes, false, at + RANGES, u32::from(count), glyph)
        }
        FORMAT_4 => {
            let count = Reader::new_at(bytes, at + COUNT).read::<u32>()?;
            in_ranges(bytes, true, at + WIDE_RANGES, count, glyph)
        }
        _ => None,
    }
}

/// The number of a glyph's font dict by the FDSelect at a location; without one it is 0.
pub fn font_dict_number(bytes: &[u8], select: Option<u32>, glyph: u16) -> Option<u16>
    ensures { result ≡ selected bytes.now select glyph }
{
    match select {
        None => Some(0),
        Some(at) => {
            let format = Reader::new_at(bytes, at as usize).read::<u8>()?;
            in_format(bytes, at as usize, format, glyph)
        }
    }
}
