//! FDSelect, looked through once (OpenType, "CFF2": "FDSelect"). Where none of its ranges ends before it begins, a glyph is looked up
//! by halves, else blocks of ranges that all lie before the glyph or after it are passed: either way it is the first range that
//! has the glyph.

ghost use Rattle.std.specs.Prelude.{◌≡◌, ◌≤◌, ◌<◌, ◌^◌, ◌+◌, ◌-◌, ◌*◌, IsTrue, IfSome, None, Some};
ghost use Rattle.std.specs.Option.{option_map};
ghost use Rattle.subsetter_cff2.specs.Selection.Select.{in_ranges, selected, width_of};
ghost use Rattle.subsetter_cff2.specs.Selection.SelectView.{range_view};
ghost use Rattle.subsetter_cff2.specs.Selection.SelectSearch.{AreInOrder, AreThere, AreWithin, IsWithin, range_numbered};
ghost use Rattle.subsetter_cff2.specs.Selection.SelectSearchView.{AreBlocks, AreKnown, IsRangeList, IsWholeList};

use crate::selection::select::{
    COUNT, FORMAT_3, FORMAT_4, RANGES, Range, WIDE_RANGES, font_dict_number, in_ranges, range_at,
    range_offset,
};
use std::marker::Model;
use subsetter_base::read::Reader;

/// Ranges of format 3 or 4, from an offset on.
#[derive(Clone, Copy, Debug)]
pub struct RangeList {
    /// They are of format 4.
    pub is_wide: bool,
    /// Their offset.
    pub at: usize,
    /// How many there are stated to be.
    pub count: u32,
}

/// How many blocks the ranges are in.
const BLOCKS: usize = 256;

/// A glyph for each block of ranges that none begins before, and one that none ends after.
#[derive(Clone, Copy, Debug)]
pub struct Blocks {
    /// How many ranges a block has; the last ones may have fewer.
    pub size: u32,
    pub least: [u32; BLOCKS],
    pub greatest: [u32; BLOCKS],
}

/// A glyph that no range of some begins before, and one that none ends after.
#[derive(Clone, Copy)]
struct Bounds {
    least: u32,
    greatest: u32,
}

/// Which font dict a glyph has.
#[derive(Drop)]
pub struct FontDictSelect<'a> {
    bytes: &'a [u8],
    select: Option<u32>,
    /// The ranges that are there, if there are ranges.
    ranges: Option<RangeList>,
    /// Their blocks, if they aren't in order.
    blocks: Option<Blocks>,
}

impl<'a> Model for FontDictSelect<'a> {
    ghost use Rattle.subsetter_cff2.specs.Selection.SelectSearch.{SelectSource};
    ghost use Rattle.subsetter_cff2.specs.Selection.SelectSearchView.{IsSearchableIf};

    ghost Value = { SelectSource };

    ghost view = { λ s. record { bytes = s.bytes.now; select = s.select } };

    ghost invariant = { λ s. IsSearchableIf s.bytes.now s.select s.ranges s.blocks };
}

/// The ranges of an FDSelect at a place, if it has ranges.
#[tactic(auto, unfolding(crate::specs::Selection::Select::in_format))]
fn range_list(bytes: &[u8], at: u32) -> Option<RangeList>
    ensures { IfSome result (λ l. IsRangeList bytes.now (Some at) l) }
{
    let at = at as usize;
    match Reader::new_at(bytes, at).read::<u8>()? {
        FORMAT_3 => {
            let count = Reader::new_at(bytes, at + COUNT).read::<u16>()?;
            Some(RangeList {
                is_wide: false,
                at: at + RANGES,
                count: u32::from(count),
            })
        }
        FORMAT_4 => {
            let count = Reader::new_at(bytes, at + COUNT).read::<u32>()?;
            Some(RangeList {
                is_wide: true,
                at: at + WIDE_RANGES,
                count,
            })
        }
        _ => None,
    }
}

/// Whether all ranges are there, and none ends before it begins.
fn are_in_order(bytes: &[u8], list: RangeList) -> bool
    requires { list.at ≤ 2 ^ 58 }
    ensures { IsTrue result → AreInOrder bytes.now list.is_wide list.at list.count }
{
    for i in 0..list.count {
        let Some(range) = range_at(bytes, list.is_wide, range_offset(list.at, i, list.is_wide))
        else {
            return false;
        };
        if range.next < range.first {
            return false;
        }
    }
    true
}

/// The font dict of a glyph, looked up by halves.
fn find_by_halves(bytes: &[u8], list: RangeList, glyph: u16) -> Option<u16>
    requires small { list.at ≤ 2 ^ 58 }
    requires order { AreInOrder bytes.now list.is_wide list.at list.count }
    ensures { result ≡ in_ranges bytes.now list.is_wide glyph list.count list.at }
{
    let glyph = u32::from(glyph);
    let mut low = 0;
    let mut high = list.count;
    while low < high {
        let middle = low + (high - low) / 2;
        let Some(range) = range_at(
            bytes,
            list.is_wide,
            range_offset(list.at, middle, list.is_wide),
        ) else {
            return None;
        };
        if range.next <= glyph {
            low = middle + 1;
        } else if glyph < range.first {
            high = middle;
        } else {
            return Some(range.dict);
        }
    }
    None
}

/// A range of a list.
fn range_numbered(bytes: &[u8], list: RangeList, i: u32) -> Option<Range>
    requires { list.at ≤ 2 ^ 58 }
    ensures { option_map range_view result ≡ range_numbered bytes.now list.is_wide list.at i }
{
    range_at(bytes, list.is_wide, range_offset(list.at, i, list.is_wide))
}

/// How many ranges are there, from the first on.
fn count_there(bytes: &[u8], list: RangeList) -> u32
    requires { list.at ≤ 2 ^ 58 }
    ensures bound { result ≤ list.count }
    ensures there { AreThere bytes.now list.is_wide list.at result }
    ensures cut { result < list.count → range_numbered bytes.now list.is_wide list.at result ≡ None }
{
    for i in 0..list.count {
        let Some(_range) = range_numbered(bytes, list, i) else {
            return i;
        };
    }
    list.count
}

/// The ranges of an FDSelect that are there, from the first on.
fn find_ranges(bytes: &[u8], select: Option<u32>) -> Option<RangeList>
    ensures { IfSome result (λ l. IsWholeList bytes.now select l) }
{
    let list = range_list(bytes, select?)?;
    let count = count_there(bytes, list);
    Some(RangeList {
        is_wide: list.is_wide,
        at: list.at,
        count,
    })
}

/// Bounds that a range is within too, if it is there.
fn widened(bounds: Bounds, range: Option<Range>) -> Bounds
    ensures range { IfSome (option_map range_view range) (IsWithin result.least result.greatest) }
    ensures least { result.least ≤ bounds.least }
    ensures greatest { bounds.greatest ≤ result.greatest }
{
    match range {
        None => bounds,
        Some(range) => Bounds {
            least: bounds.least.min(range.first),
            greatest: bounds.greatest.max(range.next),
        },
    }
}

/// Bounds of the ranges from one on, as far as another.
fn bounds_between(bytes: &[u8], list: RangeList, from: u32, to: u32) -> Bounds
    requires { list.at ≤ 2 ^ 58 }
    ensures { AreWithin bytes.now list.is_wide list.at from to result.least result.greatest }
{
    let mut bounds = Bounds {
        least: u32::MAX,
        greatest: 0,
    };
    for i in from..to {
        bounds = widened(bounds, range_numbered(bytes, list, i));
    }
    bounds
}

/// The blocks of ranges, with their bounds.
fn read_blocks(bytes: &[u8], list: RangeList) -> Blocks
    requires { list.at ≤ 2 ^ 58 }
    ensures { AreBlocks bytes.now list result }
{
    let size = list.count / 256 + 1;
    let mut least = [u32::MAX; BLOCKS];
    let mut greatest = [0; BLOCKS];
    let mut from: u32 = 0;
    for block in 0..BLOCKS {
        let to = from.saturating_add(size).min(list.count);
        let bounds = bounds_between(bytes, list, from, to);
        least[block] = bounds.least;
        greatest[block] = bounds.greatest;
        from = to;
    }
    Blocks {
        size,
        least,
        greatest,
    }
}

/// The font dict of a glyph by the ranges from one on, as far as another, of which these are bounds.
fn find_in_block(
    bytes: &[u8],
    list: RangeList,
    from: u32,
    to: u32,
    bounds: Bounds,
    glyph: u16,
) -> Option<u16>
    requires small { list.at ≤ 2 ^ 58 }
    requires order { from ≤ to }
    requires there { AreThere bytes.now list.is_wide list.at to }
    requires within { AreWithin bytes.now list.is_wide list.at from to bounds.least bounds.greatest }
    ensures { result ≡ in_ranges bytes.now list.is_wide glyph (to - from) (list.at + from * width_of list.is_wide) }
{
    if u32::from(glyph) < bounds.least {
        return None;
    }
    if bounds.greatest <= u32::from(glyph) {
        return None;
    }
    let place = range_offset(list.at, from, list.is_wide);
    in_ranges(bytes, list.is_wide, place, to - from, glyph)
}

/// The font dict of a glyph, looked up block by block.
fn find_by_blocks(bytes: &[u8], list: RangeList, blocks: &Blocks, glyph: u16) -> Option<u16>
    requires small { list.at ≤ 2 ^ 58 }
    requires there { AreThere bytes.now list.is_wide list.at list.count }
    requires blocks { AreBlocks bytes.now list blocks.now }
    ensures { result ≡ in_ranges bytes.now list.is_wide glyph list.count list.at }
{
    let mut from: u32 = 0;
    for block in 0..BLOCKS {
        let to = from.saturating_add(blocks.size).min(list.count);
        let bounds = Bounds {
            least: blocks.least[block],
            greatest: blocks.greatest[block],
        };
        let found = find_in_block(bytes, list, from, to, bounds, glyph);
        if found.is_some() {
            return found;
        }
        from = to;
    }
    None
}

/// The font dict of a glyph, by halves or by blocks.
fn find_in_ranges(bytes: &[u8], list: RangeList, blocks: &Option<Blocks>, glyph: u16) -> Option<u16>
    requires small { list.at ≤ 2 ^ 58 }
    requires there { AreThere bytes.now list.is_wide list.at list.count }
    requires known { AreKnown bytes.now list blocks.now }
    ensures { result ≡ in_ranges bytes.now list.is_wide glyph list.count list.at }
{
    match blocks {
        None => find_by_halves(bytes, list, glyph),
        Some(blocks) => find_by_blocks(bytes, list, blocks, glyph),
    }
}

/// The blocks of ranges, unless they are in order.
fn blocks_of(bytes: &[u8], list: RangeList) -> Option<Blocks>
    requires { list.at ≤ 2 ^ 58 }
    ensures { AreKnown bytes.now list result }
{
    if are_in_order(bytes, list) {
        None
    } else {
        Some(read_blocks(bytes, list))
    }
}

/// The blocks of ranges, if there are ranges, unless they are in order.
fn blocks_if(bytes: &[u8], ranges: Option<RangeList>) -> Option<Blocks>
    requires { IfSome ranges (λ l. l.at ≤ 2 ^ 58) }
    ensures { IfSome ranges (λ l. AreKnown bytes.now l result) }
{
    blocks_of(bytes, ranges?)
}

impl<'a> FontDictSelect<'a> {
    /// Looks an FDSelect through.
    pub fn new(bytes: &'a [u8], select: Option<u32>) -> Self
        ensures { result ≡ record { bytes = bytes.now; select = select } }
    {
        let ranges = find_ranges(bytes, select);
        FontDictSelect {
            bytes,
            select,
            ranges,
            blocks: blocks_if(bytes, ranges),
        }
    }

    /// The number of a glyph's font dict; without an FDSelect it is 0.
    pub fn font_dict_number(&self, glyph: u16) -> Option<u16>
        ensures { result ≡ selected self.now.bytes self.now.select glyph }
    {
        match self.ranges {
            Some(list) => find_in_ranges(self.bytes, list, &self.blocks, glyph),
            None => font_dict_number(self.bytes, self.select, glyph),
        }
    }
}
