//! Bitmaps of glyphs, by `CBLC` and `EBLC`.

ghost use Rattle.std.specs.Prelude.{◌≡◌, ◌≤◌, ◌<◌, ◌^◌, ◌-◌, ◌+◌, IfSome};
ghost use Rattle.std.specs.Option.{option_copied};
ghost use Rattle.glyph_kinds.specs.Bitmaps.{gap, has_format, has_image, image_by, image_format, image_in, image_size, is_format, listed_size, paired_size};
ghost use Rattle.glyph_kinds.specs.Strikes.{any_from};

use crate::strikes::{NUM_STRIKES, most};
use subsetter_base::read::{Reader, from_offset, number_at};
use text_glyphs::{Records, last_up_to, number_in};

/// BitmapSize records.
const BITMAP_SIZES: usize = 8;
/// How many bytes each has.
const BITMAP_SIZE_SIZE: usize = 48;
/// numberOfIndexSubtables of a record, which begins with indexSubtableListOffset; both have four bytes.
const NUMBER_OF_INDEX_SUBTABLES: usize = 8;
/// IndexSubtableRecords of a list: firstGlyphIndex, lastGlyphIndex and indexSubtableOffset.
const INDEX_SUBTABLES: Records = Records {
    at: 0,
    size: 8,
    width: 2,
};

const LAST_GLYPH_INDEX: usize = 2;

const INDEX_SUBTABLE_OFFSET: usize = 4;
/// imageFormat of an index subtable, after indexFormat.
const IMAGE_FORMAT: usize = 2;
/// sbitOffsets of the formats 1 and 3, imageSize of the formats 2 and 5, numGlyphs of format 4.
const BODY: usize = 8;
/// glyphArray of format 4: glyphID and sbitOffset, two bytes each.
const PAIRS: Records = Records {
    at: 12,
    size: 4,
    width: 2,
};

const SBIT_OFFSET: usize = 2;
/// numGlyphs and glyphIdArray of format 5.
const NUM_GLYPHS: usize = 20;

const GLYPHS: Records = Records {
    at: 24,
    size: 2,
    width: 2,
};

/// How far a number of at most four bytes is below the one at another place.
fn gap(table: &[u8], at: usize, next: usize, width: usize) -> Option<u32>
    requires { width ≤ 4 }
    ensures { result ≡ gap table.now at next width }
{
    let from = number_in(table, at, width)?;
    let to = number_in(table, next, width)?;
    Some(to.saturating_sub(from))
}

/// The size of a glyph's image by an index subtable of format 4.
#[tactic(auto, unfolding(crate::specs::Bitmaps::paired_size))]
fn paired_size(subtable: &[u8], glyph: u16) -> Option<u32>
    ensures { result ≡ paired_size subtable.now glyph }
{
    let count = number_in(subtable, BODY, 4)?;
    let index = last_up_to(subtable, PAIRS, count, u32::from(glyph))?;
    let at = PAIRS.at + PAIRS.size * index;
    let found = number_at(subtable, at)?;
    let size = gap(subtable, at + SBIT_OFFSET, at + PAIRS.size + SBIT_OFFSET, 2)?;
    if found == glyph {
        return Some(size);
    }
    None
}

/// The size of a glyph's image by an index subtable of format 5.
#[tactic(auto, unfolding(crate::specs::Bitmaps::listed_size))]
fn listed_size(subtable: &[u8], glyph: u16) -> Option<u32>
    ensures { result ≡ listed_size subtable.now glyph }
{
    let size = number_in(subtable, BODY, 4)?;
    let count = number_in(subtable, NUM_GLYPHS, 4)?;
    let index = last_up_to(subtable, GLYPHS, count, u32::from(glyph))?;
    let found = number_at(subtable, GLYPHS.at + GLYPHS.size * index)?;
    if found == glyph {
        return Some(size);
    }
    None
}

/// The size of a glyph's image by an index subtable of a format, whose range has the glyph at a place.
fn image_size(format: u16, subtable: &[u8], place: u16, glyph: u16) -> Option<u32>
    ensures { result ≡ image_size format subtable.now place glyph }
{
    let place = usize::from(place);
    match format {
        1 => gap(subtable, BODY + 4 * place, BODY + 4 + 4 * place, 4),
        2 => number_in(subtable, BODY, 4),
        3 => gap(subtable, BODY + 2 * place, BODY + 2 + 2 * place, 2),
        4 => paired_size(subtable, glyph),
        5 => listed_size(subtable, glyph),
        _ => None,
    }
}

/// The format of a glyph's image by an index subtable, whose range has the glyph at a place.
#[tactic(auto, unfolding(crate::specs::Bitmaps::image_in))]
fn image_in(subtable: &[u8], place: u16, glyph: u16) -> Option<u16>
    ensures { result ≡ image_in subtable.now place glyph }
{
    let format = number_at(subtable, 0)?;
    let image = number_at(subtable, IMAGE_FORMAT)?;
    let size = image_size(format, subtable, place, glyph)?;
    if size == 0 {
        return None;
    }
    Some(image)
}

/// The format of a glyph's image by a list of `count` index subtables.
#[tactic(auto, unfolding(crate::specs::Bitmaps::image_by))]
fn image_by(list: &[u8], count: u32, glyph: u16) -> Option<u16>
    ensures { result ≡ image_by list.now count glyph }
{
    let index = last_up_to(list, INDEX_SUBTABLES, count, u32::from(glyph))?;
    let at = INDEX_SUBTABLES.size * index;
    let first = number_at(list, at)?;
    let last = number_at(list, at + LAST_GLYPH_INDEX)?;
    let offset = number_in(list, at + INDEX_SUBTABLE_OFFSET, 4)?;
    let subtable = from_offset(list, offset as usize)?;
    if glyph <= last {
        return image_in(subtable, glyph.saturating_sub(first), glyph);
    }
    None
}

/// The format of a glyph's image in a strike.
#[tactic(auto, unfolding(crate::specs::Bitmaps::image_format))]
fn image_format(table: &[u8], strike: u32, glyph: u16) -> Option<u16>
    requires { strike < 1024 }
    ensures { result ≡ image_format table.now strike glyph }
{
    let at = BITMAP_SIZES + BITMAP_SIZE_SIZE * (strike as usize);
    let offset = number_in(table, at, 4)?;
    let count = number_in(table, at + NUMBER_OF_INDEX_SUBTABLES, 4)?;
    let list = from_offset(table, offset as usize)?;
    image_by(list, count, glyph)
}

/// Whether a format is the wanted one; where none is, it is one that `CBDT` doesn't have alone.
fn is_format(wanted: Option<u16>, format: u16) -> bool
    ensures { result ≡ is_format wanted format }
{
    match wanted {
        Some(wanted) => format == wanted,
        None => !(17 <= format && format <= 19),
    }
}

/// Whether there is such a format.
fn has_format(wanted: Option<u16>, format: Option<u16>) -> bool
    ensures { result ≡ has_format wanted format }
{
    match format {
        Some(format) => is_format(wanted, format),
        None => false,
    }
}

/// Whether a glyph has an image of such a format in one of the first strikes.
#[tactic(auto, using(crate::proofs::StrikeSteps::any_here, crate::proofs::StrikeSteps::any_on, crate::proofs::StrikeSteps::any_end))]
fn image_in_strikes(table: &[u8], count: u32, wanted: Option<u16>, glyph: u16) -> bool
    requires { count ≤ 1024 }
    ensures { result ≡ any_from (λ k. has_format wanted (image_format table.now k glyph)) count 0 }
{
    for strike in 0..count {
        if has_format(wanted, image_format(table, strike, glyph)) {
            return true;
        }
    }
    false
}

/// Whether a glyph has an image of a format; where none is wanted, of another than 17, 18 and 19, which `CBDT` alone has.
pub(crate) fn has_image(table: Option<&[u8]>, wanted: Option<u16>, glyph: u16) -> bool
    ensures { result ≡ has_image (option_copied table.entry) wanted glyph }
{
    let Some(bytes) = table else {
        return false;
    };
    match number_in(bytes, NUM_STRIKES, 4) {
        Some(count) => image_in_strikes(bytes, most(count), wanted, glyph),
        None => false,
    }
}
