//! The ranges of FDSelect in format 3 (Technical Note 5176, section 19 "FDSelect").

ghost use Rattle.std.specs.Prelude.{◌≡◌, ◌<◌, ◌≤◌, ◌+◌, ◌-◌, ◌*◌, min, length, IsTrue};
ghost use Rattle.subsetter_cff.specs.Read.FdArray.FontDicts.{selected, Ranges as StoredRanges};
ghost use Rattle.subsetter_cff.specs.Read.FdArray.Ranges.{first_of_range, number_of_range, has_glyph, readable_ranges, found_from, Ascend, AreBounds};
ghost use Rattle.subsetter_cff.specs.Read.FdArray.RangeBlocks.{AreSearchable};

use std::marker::Model;
use subsetter_base::read::u16_at;

/// How many ranges a block has.
const BLOCK: usize = 256;
/// How many blocks there can be.
const BLOCKS: usize = 256;

/// A glyph for each block of ranges that none begins before, and one that none ends after.
#[derive(Clone, Copy, Debug)]
pub struct Blocks {
    least: [u16; BLOCKS],
    greatest: [u16; BLOCKS],
}

/// Ranges of glyphs with one font dict each. Where none begins before the one before it, a glyph is looked up by halves; else
/// blocks of ranges that all lie before the glyph or after it are passed.
#[derive(Drop)]
pub struct Ranges<'a> {
    data: &'a [u8],
    count: usize,
    blocks: Option<Blocks>,
}

impl<'a> Model for Ranges<'a> {
    ghost use Rattle.std.specs.Prelude.{◌≡◌, ◌<◌, ◌≤◌, ◌+◌, ◌*◌, ℕ, List, length, true};
    ghost use Rattle.subsetter_cff.specs.Read.FdArray.Ranges.{readable_ranges};
    ghost use Rattle.subsetter_cff.specs.Read.FdArray.RangeBlocks.{AreSearchable};

    ghost Value = { List ℕ };

    ghost view = { λ r. r.data.now };

    ghost invariant = { λ r. record {
      counted : r.count ≡ readable_ranges r.data.now;
      room : 0 < r.count → 3 * r.count + 4 ≤ length r.data.now;
      few : r.count ≤ 65536;
      known : AreSearchable r.data.now r.count r.blocks;
    } };
}

/// Where the ranges begin, after their number.
const RANGES: usize = 2;
/// How many bytes a range has.
const RANGE3_SIZE: usize = 3;
/// Where the font dict of the first range is, one byte, after its first glyph.
const FDS: usize = 4;

/// How many ranges are there, each with the first glyph of the next.
#[tactic(auto, using(crate::proofs::ReadLaws::FdArrayLaws::RangeLookups::readable))]
fn count_ranges(bytes: &[u8]) -> usize
    ensures value { result ≡ readable_ranges bytes.now }
    ensures room { 0 < result → 3 * result + 4 ≤ length bytes.now }
    ensures few { result ≤ 65536 }
{
    if bytes.len() < 2 {
        return 0;
    }
    let count = u16_at(bytes, 0);
    if count == 0 || count == 65535 {
        return 0;
    }
    usize::from(count).min((bytes.len().saturating_sub(4)) / RANGE3_SIZE)
}

/// The first glyph of a range.
fn first_of(bytes: &[u8], i: usize) -> u16
    requires { 3 * i + 4 ≤ length bytes.now }
    ensures { result ≡ first_of_range bytes.now i }
{
    u16_at(bytes, RANGE3_SIZE * i + RANGES)
}

fn ascend(bytes: &[u8], count: usize) -> bool
    requires { 0 < count → 3 * count + 4 ≤ length bytes.now }
    ensures { IsTrue result → Ascend bytes.now count }
{
    for i in 0..count {
        if first_of(bytes, i + 1) < first_of(bytes, i) {
            return false;
        }
    }
    true
}

/// The font dict of a range.
fn number_of(bytes: &[u8], i: usize) -> u8
    requires { 3 * i + 5 ≤ length bytes.now }
    ensures { result ≡ number_of_range bytes.now i }
{
    bytes[RANGE3_SIZE * i + FDS]
}

/// Whether a range has a glyph.
fn has(bytes: &[u8], i: usize, glyph: u16) -> bool
    requires { 3 * i + 7 ≤ length bytes.now }
    ensures { result ≡ has_glyph bytes.now glyph i }
{
    first_of(bytes, i) <= glyph && glyph < first_of(bytes, i + 1)
}

/// Bounds of each block of ranges.
fn read_blocks(bytes: &[u8], count: usize) -> Blocks
    requires room { 0 < count → 3 * count + 4 ≤ length bytes.now }
    requires few { count ≤ 65536 }
    ensures { AreBounds bytes.now count result.least result.greatest }
{
    let mut least = [u16::MAX; BLOCKS];
    let mut greatest = [0; BLOCKS];
    for i in 0..count {
        let block = i / BLOCK;
        least[block] = least[block].min(first_of(bytes, i));
        greatest[block] = greatest[block].max(first_of(bytes, i + 1));
    }
    Blocks { least, greatest }
}

/// Looks a glyph up in ranges from one on, as far as another.
fn find_between(bytes: &[u8], from: usize, to: usize, glyph: u16) -> Option<u8>
    requires room { 0 < to → 3 * to + 4 ≤ length bytes.now }
    requires order { from ≤ to }
    ensures { result ≡ found_from bytes.now glyph (to - from) from }
{
    for i in from..to {
        if has(bytes, i, glyph) {
            return Some(number_of(bytes, i));
        }
    }
    None
}

/// Looks a glyph up in a block.
fn find_in_block(
    bytes: &[u8],
    count: usize,
    blocks: &Blocks,
    block: usize,
    glyph: u16,
) -> Option<u8>
    requires room { 3 * count + 4 ≤ length bytes.now }
    requires bounds { AreBounds bytes.now count blocks.now.least blocks.now.greatest }
    requires within { block < 256 }
    requires there { 256 * block < count }
    ensures { result ≡ found_from bytes.now glyph (min (256 * block + 256) count - 256 * block) (256 * block) }
{
    if glyph < blocks.least[block] {
        return None;
    }
    if blocks.greatest[block] <= glyph {
        return None;
    }
    let from = BLOCK * block;
    find_between(bytes, from, (from + BLOCK).min(count), glyph)
}

/// Looks a glyph up block by block.
#[tactic(auto, using(crate::proofs::ReadLaws::FdArrayLaws::RangeBlockSteps::next_block))]
fn find_by_blocks(bytes: &[u8], count: usize, blocks: &Blocks, glyph: u16) -> Option<u8>
    requires room { 0 < count → 3 * count + 4 ≤ length bytes.now }
    requires few { count ≤ 65536 }
    requires bounds { AreBounds bytes.now count blocks.now.least blocks.now.greatest }
    ensures { result ≡ found_from bytes.now glyph count 0 }
{
    for block in 0..BLOCKS {
        if count <= BLOCK * block {
            return None;
        }
        let found = find_in_block(bytes, count, blocks, block, glyph);
        if found.is_some() {
            return found;
        }
    }
    None
}

/// Looks a glyph up by halves.
fn find_by_halves(bytes: &[u8], count: usize, glyph: u16) -> Option<u8>
    requires room { 0 < count → 3 * count + 4 ≤ length bytes.now }
    requires sorted { Ascend bytes.now count }
    ensures { result ≡ found_from bytes.now glyph count 0 }
{
    let mut low = 0;
    let mut high = count;
    while low < high {
        let middle = low + (high - low) / 2;
        if first_of(bytes, middle + 1) <= glyph {
            low = middle + 1;
        } else if glyph < first_of(bytes, middle) {
            high = middle;
        } else {
            return Some(number_of(bytes, middle));
        }
    }
    None
}

/// What is known of ranges, so that a glyph is looked up fast: bounds of their blocks, or that they ascend.
fn known_of(bytes: &[u8], count: usize) -> Option<Blocks>
    requires room { 0 < count → 3 * count + 4 ≤ length bytes.now }
    requires few { count ≤ 65536 }
    ensures { AreSearchable bytes.now count result }
{
    if ascend(bytes, count) {
        None
    } else {
        Some(read_blocks(bytes, count))
    }
}

impl<'a> Ranges<'a> {
    /// The ranges that the bytes after the format byte hold.
    pub fn new(bytes: &'a [u8]) -> Self
        ensures { result ≡ bytes.now }
    {
        let count = count_ranges(bytes);
        Ranges {
            data: bytes,
            count,
            blocks: known_of(bytes, count),
        }
    }

    /// The font dict of a glyph: that of the first range that has it.
    #[tactic(auto, using(crate::proofs::ReadLaws::FdArrayLaws::RangeLookups::selected_is))]
    pub fn font_dict(&self, glyph: u16) -> Option<u8>
        ensures { result ≡ selected (StoredRanges self.now) glyph }
    {
        match &self.blocks {
            None => find_by_halves(self.data, self.count, glyph),
            Some(blocks) => find_by_blocks(self.data, self.count, blocks, glyph),
        }
    }
}
