//! An index of a table of format 4: at each segment the greatest end code so far.
//!
//! The first segment whose end isn't below a character is the first at which the greatest end code so far isn't, in
//! whatever order the segments are, and the greatest end codes ascend.

ghost use Rattle.std.specs.Prelude.{◌≡◌, ◌<◌, ◌≤◌, ◌^◌, ℕ, length, map, slice_index, IfOk};
ghost use Rattle.std.specs.Option.{unwrap_or};
ghost use Rattle.cmap.specs.Segments.{by_segments};
ghost use Rattle.cmap.specs.Index.{IsIndex};

use crate::segments::{END_CODES, in_segment};
use std::alloc::{AllocError, Global};
use subsetter_base::read::number_at;

/// At each segment the greatest end code so far, of those that are there.
pub(crate) fn greatest_ends(
    alloc: Global,
    table: &[u8],
    count: usize,
) -> Result<Vec<u16>, AllocError>
    requires { count < 2 ^ 16 }
    ensures { IfOk result (λ tops. IsIndex table.now count tops.items) }
{
    let mut tops = Vec::with_capacity(alloc, count)?;
    let mut top = 0;
    for segment in 0..count {
        let Some(end) = number_at(table, END_CODES + 2 * segment) else {
            return Ok(tops);
        };
        top = end.max(top);
        tops.push(top)?;
    }
    Ok(tops)
}

/// The first place whose number isn't below a character, in numbers that ascend; their count where there is none.
fn first_not_below(tops: &[u16], character: u16) -> usize
    requires { (j k : ℕ) → j ≤ k → k < length tops.now → slice_index tops.now j ≤ slice_index tops.now k }
    ensures within { result ≤ length tops.now }
    ensures before { (j : ℕ) → j < result → slice_index tops.now j < character }
    ensures here { result < length tops.now → character ≤ slice_index tops.now result }
{
    let mut low = 0;
    let mut high = tops.len();
    while low < high {
        let middle = low + (high - low) / 2;
        if tops[middle] < character {
            low = middle + 1;
        } else {
            high = middle;
        }
    }
    low
}

/// The glyph of a character, by the index of that many segments.
pub(crate) fn find_by_index(table: &[u8], count: usize, tops: &[u16], character: u16) -> Option<u16>
    requires few { count < 2 ^ 16 }
    requires index { IsIndex table.now count tops.now }
    ensures { result ≡ by_segments table.now count count 0 character }
{
    let segment = first_not_below(tops, character);
    if segment < tops.len() {
        in_segment(table, count, segment, character)
    } else {
        None
    }
}
