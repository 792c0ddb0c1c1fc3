//! The glyph of a code by the formats of a table.

ghost use Rattle.std.specs.Prelude.{◌≡◌, ◌<◌, ◌≤◌, ◌^◌};
ghost use Rattle.text_glyphs.specs.Formats.{by_format, glyph_by_bytes, glyph_by_code, glyph_by_ranges, glyph_by_trimmed, group_glyph, trimmed};

use crate::halves::{Records, last_up_to, number_in};
use cmap::Subtable;
use subsetter_base::read::{Reader, number_at};

/// glyphIdArray of format 0, 256 bytes.
const BYTES: usize = 6;
/// firstCode, entryCount and glyphIdArray of format 6.
const FIRST_CODE: usize = 6;

const ENTRY_COUNT: usize = 8;

const GLYPH_IDS: usize = 10;
/// numGroups and the groups of format 13.
const NUM_GROUPS: usize = 12;

const GROUPS: Records = Records {
    at: 16,
    size: 12,
    width: 4,
};
/// endCharCode and glyphID of a group.
const END_CHAR_CODE: usize = 4;

const GLYPH_ID: usize = 8;

/// The glyph of a code by a table of format 0.
fn glyph_by_bytes(table: &[u8], code: u32) -> Option<u16>
    ensures { result ≡ glyph_by_bytes table.now code }
{
    if code >= 256 {
        return None;
    }
    let glyph = Reader::new_at(table, BYTES + code as usize).read::<u8>()?;
    Some(u16::from(glyph))
}

/// The glyph of a code by a table of format 6 with such a first code and count.
fn trimmed(table: &[u8], first: u16, count: u16, code: u32) -> Option<u16>
    ensures { result ≡ trimmed table.now first count code }
{
    let first = u32::from(first);
    if code < first {
        return None;
    }
    let place = code - first;
    if place >= u32::from(count) {
        return None;
    }
    number_at(table, GLYPH_IDS + 2 * place as usize)
}

/// The glyph of a code by a table of format 6.
fn glyph_by_trimmed(table: &[u8], code: u32) -> Option<u16>
    ensures { result ≡ glyph_by_trimmed table.now code }
{
    let first = number_at(table, FIRST_CODE)?;
    let count = number_at(table, ENTRY_COUNT)?;
    trimmed(table, first, count, code)
}

/// The glyph of a code by the group at an offset, which doesn't start above it.
fn group_glyph(table: &[u8], at: usize, code: u32) -> Option<u16>
    requires { at < 2 ^ 48 }
    ensures { result ≡ group_glyph table.now at code }
{
    let end = number_in(table, at + END_CHAR_CODE, 4)?;
    let glyph = number_in(table, at + GLYPH_ID, 4)?;
    if code > end {
        return None;
    }
    u16::try_from(glyph).ok()
}

/// The glyph of a code by a table of format 13.
fn glyph_by_ranges(table: &[u8], code: u32) -> Option<u16>
    ensures { result ≡ glyph_by_ranges table.now code }
{
    let count = number_in(table, NUM_GROUPS, 4)?;
    let place = last_up_to(table, GROUPS, count, code)?;
    group_glyph(table, GROUPS.at + GROUPS.size * place, code)
}

/// The glyph of a code by a table of a format: 0 where it has none.
fn by_format(format: u16, table: &[u8], code: char) -> u16
    ensures { result ≡ by_format format table.now code }
{
    match format {
        0 => glyph_by_bytes(table, u32::from(code)).unwrap_or(0),
        4 => Subtable::Segments(table).glyph_of(code),
        6 => glyph_by_trimmed(table, u32::from(code)).unwrap_or(0),
        12 => Subtable::Groups(table).glyph_of(code),
        13 => glyph_by_ranges(table, u32::from(code)).unwrap_or(0),
        _ => 0,
    }
}

/// The glyph of a code by a table: 0 where it has none.
#[tactic(auto, unfolding(crate::specs::Formats::glyph_by_code))]
pub(crate) fn glyph_by_code(table: &[u8], code: char) -> u16
    ensures { result ≡ glyph_by_code table.now code }
{
    match number_at(table, 0) {
        Some(format) => by_format(format, table, code),
        None => 0,
    }
}
