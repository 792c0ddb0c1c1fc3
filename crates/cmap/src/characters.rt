//! The glyphs of many characters.

ghost use Rattle.std.specs.Prelude.{◌≡◌, ◌<◌, ◌^◌, Some, length, map, slice_index, IfOk};
ghost use Rattle.subsetter_base.specs.Bytes.{number};
ghost use Rattle.cmap.specs.Halves.{AreAscending, AreThere};
ghost use Rattle.cmap.specs.Index.{IsIndex};
ghost use Rattle.cmap.specs.Painting.{characters};
ghost use Rattle.cmap.specs.Segments.{segment_count};
ghost use Rattle.cmap.specs.Subtable.{glyph_of, groups, segments};
ghost use Rattle.cmap.specs.View.{mapping_view};

use crate::groups::NUM_GROUPS;
use crate::halves::{ascend, find_by_halves, groups_there};
use crate::index::{find_by_index, greatest_ends};
use crate::mapping::Subtable;
use crate::painting::all_glyphs;
use crate::segments::SEG_COUNT_X2;
use std::alloc::{AllocError, Global};
use subsetter_base::read::{Reader, number_at};

/// So few characters are sought one by one: to open the table for them would take longer.
const FEW: usize = 64;

/// The glyph of each character, each sought from the table's start on.
fn one_by_one(
    alloc: Global,
    table: Subtable<'_>,
    characters: &[char],
) -> Result<Vec<u16>, AllocError>
    ensures { IfOk result (λ v. v.items ≡ map (glyph_of (mapping_view table.entry)) characters.now) }
{
    let mut glyphs = Vec::with_capacity(alloc, characters.len())?;
    for character in characters {
        glyphs.push(table.glyph_of(*character))?;
    }
    Ok(glyphs)
}

/// The glyph of a character, by the index of that many segments.
fn glyph_by_index(table: &[u8], count: usize, tops: &[u16], character: char) -> u16
    requires few { count < 2 ^ 16 }
    requires all { segment_count table.now ≡ Some count }
    requires index { IsIndex table.now count tops.now }
    ensures { result ≡ glyph_of (segments table.now) character }
{
    match u16::try_from(u32::from(character)) {
        Ok(small) => find_by_index(table, count, tops, small).unwrap_or(0),
        Err(_) => 0,
    }
}

/// The glyph of each character, by a table of format 4.
fn each_by_segments(
    alloc: Global,
    table: &[u8],
    characters: &[char],
) -> Result<Vec<u16>, AllocError>
    ensures { IfOk result (λ v. v.items ≡ map (glyph_of (segments table.now)) characters.now) }
{
    let Some(twice) = number_at(table, SEG_COUNT_X2) else {
        return one_by_one(alloc, Subtable::Segments(table), characters);
    };
    let count = usize::from(twice / 2);
    let tops = greatest_ends(alloc, table, count)?;
    let mut glyphs = Vec::with_capacity(alloc, characters.len())?;
    for character in characters {
        glyphs.push(glyph_by_index(table, count, &tops, *character))?;
    }
    Ok(glyphs)
}

/// The glyph of a character, by groups that ascend.
fn glyph_by_halves(table: &[u8], count: u32, there: usize, character: char) -> u16
    requires all { number table.now 12 4 ≡ Some count }
    requires there { AreThere table.now count there }
    requires ascending { AreAscending table.now there }
    ensures { result ≡ glyph_of (groups table.now) character }
{
    find_by_halves(table, count, there, u32::from(character)).unwrap_or(0)
}

/// The glyph of each character, by groups that ascend.
fn each_by_halves(
    alloc: Global,
    table: &[u8],
    count: u32,
    there: usize,
    characters: &[char],
) -> Result<Vec<u16>, AllocError>
    requires all { number table.now 12 4 ≡ Some count }
    requires there { AreThere table.now count there }
    requires ascending { AreAscending table.now there }
    ensures { IfOk result (λ v. v.items ≡ map (glyph_of (groups table.now)) characters.now) }
{
    let mut glyphs = Vec::with_capacity(alloc, characters.len())?;
    for character in characters {
        glyphs.push(glyph_by_halves(table, count, there, *character))?;
    }
    Ok(glyphs)
}

/// A character's glyph of those of all characters.
fn glyph_in(glyphs: &[u16], character: char) -> u16
    requires { length glyphs.now ≡ characters }
    ensures { result ≡ slice_index glyphs.now character }
{
    glyphs[u32::from(character) as usize]
}

/// The glyph of each character, by groups in any order.
fn each_by_painting(
    alloc: Global,
    table: &[u8],
    count: u32,
    characters: &[char],
) -> Result<Vec<u16>, AllocError>
    requires { number table.now 12 4 ≡ Some count }
    ensures { IfOk result (λ v. v.items ≡ map (glyph_of (groups table.now)) characters.now) }
{
    let all = all_glyphs(alloc, table, count)?;
    let mut glyphs = Vec::with_capacity(alloc, characters.len())?;
    for character in characters {
        glyphs.push(glyph_in(&all, *character))?;
    }
    Ok(glyphs)
}

/// The glyph of each character, by a table of format 12.
fn each_by_groups(alloc: Global, table: &[u8], characters: &[char]) -> Result<Vec<u16>, AllocError>
    ensures { IfOk result (λ v. v.items ≡ map (glyph_of (groups table.now)) characters.now) }
{
    let Some(count) = Reader::new_at(table, NUM_GROUPS).read::<u32>() else {
        return one_by_one(alloc, Subtable::Groups(table), characters);
    };
    let there = groups_there(table, count);
    if ascend(table, there) {
        each_by_halves(alloc, table, count, there, characters)
    } else {
        each_by_painting(alloc, table, count, characters)
    }
}

/// The glyph of each character: 0 where the table doesn't have it. The table is read through once, whatever the order of its
/// ranges, so that many characters take little longer than a few.
///
/// # Errors
///
/// `AllocError` where a request for memory is refused.
pub fn glyphs_of(
    alloc: Global,
    table: &Subtable<'_>,
    characters: &[char],
) -> Result<Vec<u16>, AllocError>
    ensures { IfOk result (λ v. v.items ≡ map (glyph_of (mapping_view table.now)) characters.now) }
{
    if characters.len() < FEW {
        return one_by_one(alloc, *table, characters);
    }
    match table {
        Subtable::Groups(bytes) => each_by_groups(alloc, bytes, characters),
        Subtable::Segments(bytes) => each_by_segments(alloc, bytes, characters),
    }
}
