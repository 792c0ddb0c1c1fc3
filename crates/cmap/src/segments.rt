//! Tables of format 4.

ghost use Rattle.std.specs.Prelude.{◌≡◌, ◌≤◌, ◌<◌, ◌+◌, ◌*◌, ◌^◌};
ghost use Rattle.cmap.specs.Segments.{segment_count, end_code, start_code, id_delta, id_range_offset_at, shifted, listed, glyph_at, in_segment, by_segments, glyph_by_segments};

use subsetter_base::read::number_at;

/// segCountX2, two bytes.
pub(crate) const SEG_COUNT_X2: usize = 6;
/// endCode of each segment, two bytes.
pub(crate) const END_CODES: usize = 14;
/// startCode of each segment, after the end codes and reservedPad, where there are no segments; then idDelta and
/// idRangeOffset of each, two bytes each.
const START_CODES: usize = 16;

/// A glyph and a delta, modulo 65536.
fn shifted(glyph: u16, delta: u16) -> u16
    ensures { result ≡ shifted glyph delta }
{
    glyph.wrapping_add(delta)
}

/// The glyph of a number in the list of glyphs, where 0 means none.
fn listed(glyph: u16, delta: u16) -> Option<u16>
    ensures { result ≡ listed glyph delta }
{
    if glyph == 0 {
        return None;
    }
    Some(shifted(glyph, delta))
}

/// Where the number is that a segment's offset leads to, counted from the offset's own place.
fn glyph_id_offset(place: usize, offset: u16, distance: u16) -> usize
    requires { place < 2 ^ 32 }
    ensures { result ≡ place + offset + 2 * distance }
{
    place + usize::from(offset) + 2 * usize::from(distance)
}

/// The glyph of a character, from the numbers of its segment.
fn glyph_at(
    table: &[u8],
    place: usize,
    offset: u16,
    delta: u16,
    character: u16,
    start: u16,
) -> Option<u16>
    requires low { start ≤ character }
    requires small { place < 2 ^ 32 }
    ensures { result ≡ glyph_at table.now place offset delta character start }
{
    if offset == 0 {
        return Some(shifted(character, delta));
    }
    let glyph = number_at(table, glyph_id_offset(place, offset, character - start))?;
    listed(glyph, delta)
}

/// The glyph of a character in a segment, whose end isn't below it.
pub(crate) fn in_segment(table: &[u8], count: usize, segment: usize, character: u16) -> Option<u16>
    requires few { count < 2 ^ 16 }
    requires inside { segment < count }
    ensures { result ≡ in_segment table.now count segment character }
{
    let start = number_at(table, START_CODES + 2 * count + 2 * segment)?;
    let delta = number_at(table, START_CODES + 4 * count + 2 * segment)?;
    let place = START_CODES + 6 * count + 2 * segment;
    let offset = number_at(table, place)?;
    if start > character {
        return None;
    }
    glyph_at(table, place, offset, delta, character, start)
}

/// The glyph of a character, by that many segments.
#[tactic(auto, using(crate::proofs::Steps::segments_none, crate::proofs::Steps::segments_here, crate::proofs::Steps::segments_on, crate::proofs::Steps::segments_end))]
fn find_glyph(table: &[u8], count: usize, character: u16) -> Option<u16>
    requires { count < 2 ^ 16 }
    ensures { result ≡ by_segments table.now count count 0 character }
{
    for segment in 0..count {
        let end = number_at(table, END_CODES + 2 * segment)?;
        if character <= end {
            return in_segment(table, count, segment, character);
        }
    }
    None
}

/// The glyph of a character, by a table of format 4.
pub fn glyph_by_segments(table: &[u8], character: u16) -> Option<u16>
    ensures { result ≡ glyph_by_segments table.now character }
{
    let twice = number_at(table, SEG_COUNT_X2)?;
    find_glyph(table, usize::from(twice / 2), character)
}
