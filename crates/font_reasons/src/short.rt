//! Tables that are shorter than what is read of them.

ghost use Rattle.std.specs.Prelude.{◌≡◌};
ghost use Rattle.subsetter_base.specs.Bytes.{number};
ghost use Rattle.subsetter_sfnt.specs.Extras.{all_extras};
ghost use Rattle.subsetter_sfnt.specs.Fields.Post.{num_glyphs, version};
ghost use Rattle.font_reasons.specs.Short.{short, short_table, short_head, short_maxp, short_hhea, short_header, indexes_end, post_size_by, short_post_of, short_kept_post, short_post, no_index_of, no_index, records_end, name_size_by, short_name_of, short_name};

use crate::parts::first_past;
use crate::reason::Reason;
use subsetter_base::Tag;
use subsetter_base::read::number_at;
use subsetter_sfnt::directory::table;
use subsetter_sfnt::fields::name::{COUNT, STORAGE_OFFSET};
use subsetter_sfnt::fields::post::{HEADER_SIZE, VERSION_2_0, num_glyphs, version};

/// Where indexToLocFormat of `head` ends.
const HEAD_END: u64 = 52;
/// Where numGlyphs of `maxp` ends.
const MAXP_END: u64 = 6;
/// Where numberOfHMetrics of `hhea` ends.
const HHEA_END: u64 = 36;

/// Whether a table has fewer bytes than it needs.
pub fn short(tag: Tag, needed: u64, bytes: &[u8]) -> Option<Reason>
    ensures { result ≡ short tag needed bytes.now }
{
    let size = bytes.len() as u64;
    if size < needed {
        return Some(Reason::Short(tag, size, needed));
    }
    None
}

/// Whether a table of a face does.
fn short_table(font: &[u8], index: u32, tag: Tag, needed: u64) -> Option<Reason>
    ensures { result ≡ short_table (record { bytes = font.now; index = index; extras = all_extras }) tag needed }
{
    let bytes = table(font, index, tag)?;
    short(tag, needed, bytes)
}

/// Whether `head` ends before the format of `loca`.
fn short_head(font: &[u8], index: u32) -> Option<Reason>
    ensures { result ≡ short_head (record { bytes = font.now; index = index; extras = all_extras }) }
{
    short_table(font, index, Tag::HEAD, HEAD_END)
}

/// Whether `maxp` ends before the count of glyphs.
fn short_maxp(font: &[u8], index: u32) -> Option<Reason>
    ensures { result ≡ short_maxp (record { bytes = font.now; index = index; extras = all_extras }) }
{
    short_table(font, index, Tag::MAXP, MAXP_END)
}

/// Whether `hhea` ends before the count that `hmtx` is read by.
pub fn short_hhea(font: &[u8], index: u32) -> Option<Reason>
    ensures { result ≡ short_hhea (record { bytes = font.now; index = index; extras = all_extras }) }
{
    let _hmtx = table(font, index, Tag::HMTX)?;
    short_table(font, index, Tag::HHEA, HHEA_END)
}

/// Whether one of these does.
#[tactic(auto, unfolding(crate::specs::Short::short_header))]
pub fn short_header(font: &[u8], index: u32) -> Option<Reason>
    ensures { result ≡ short_header (record { bytes = font.now; index = index; extras = all_extras }) }
{
    short_head(font, index).or(short_maxp(font, index).or(short_hhea(font, index)))
}

/// Where the indexes of `post` end, by their count.
fn indexes_end(count: Option<u16>) -> u64
    ensures { result ≡ indexes_end count }
{
    match count {
        Some(count) => 34 + 2 * u64::from(count),
        None => 34,
    }
}

/// How many bytes `post` needs, by its version.
fn post_size_by(post: &[u8], version: Option<u32>) -> u64
    ensures { result ≡ post_size_by post.now version }
{
    match version {
        Some(VERSION_2_0) => indexes_end(num_glyphs(post)),
        _ => 4,
    }
}

/// Whether a table `post` ends before its version, or before the indexes of its glyphs.
fn short_post_of(post: &[u8]) -> Option<Reason>
    ensures { result ≡ short_post_of post.now }
{
    let needed = post_size_by(post, version(post));
    short(Tag::POST, needed, post)
}

/// Whether a table `post` does whose names of glyphs are kept or not.
fn short_kept_post(names: bool, post: &[u8]) -> Option<Reason>
    ensures { result ≡ short_kept_post names post.now }
{
    if !names && post.len() >= HEADER_SIZE {
        return None;
    }
    short_post_of(post)
}

/// Whether the `post` of a face does.
pub fn short_post(names: bool, font: &[u8], index: u32) -> Option<Reason>
    ensures { result ≡ short_post names (record { bytes = font.now; index = index; extras = all_extras }) }
{
    let post = table(font, index, Tag::POST)?;
    short_kept_post(names, post)
}

/// The first of these glyphs that a table `post` of version 2.0 has no index for.
fn no_index_of(post: &[u8], glyphs: &[u16]) -> Option<Reason>
    ensures { result ≡ no_index_of glyphs.now post.now }
{
    if version(post)? != VERSION_2_0 {
        return None;
    }
    let count = num_glyphs(post)?;
    let glyph = first_past(count, glyphs)?;
    Some(Reason::NoIndex(glyph))
}

/// The first of these glyphs that the `post` of a face has none for.
pub fn no_index(font: &[u8], index: u32, glyphs: &[u16]) -> Option<Reason>
    ensures { result ≡ no_index (record { bytes = font.now; index = index; extras = all_extras }) glyphs.now }
{
    let post = table(font, index, Tag::POST)?;
    no_index_of(post, glyphs)
}

/// Where the records of `name` end and its storage begins, whichever is later, by their count and its offset.
fn records_end(count: Option<u16>, storage: Option<u16>) -> u64
    ensures { result ≡ records_end count storage }
{
    match (count, storage) {
        (Some(count), Some(storage)) => (6 + 12 * u64::from(count)).max(u64::from(storage)),
        (Some(_), None) => 6,
        (None, _) => 6,
    }
}

/// How many bytes `name` needs, by its version.
fn name_size_by(name: &[u8], version: Option<u16>) -> u64
    ensures { result ≡ name_size_by name.now version }
{
    match version {
        Some(0) => records_end(number_at(name, COUNT), number_at(name, STORAGE_OFFSET)),
        Some(_) => 2,
        None => 2,
    }
}

/// Whether a table `name` ends before its version, its records or its storage.
fn short_name_of(name: &[u8]) -> Option<Reason>
    ensures { result ≡ short_name_of name.now }
{
    let needed = name_size_by(name, number_at(name, 0));
    short(Tag::NAME, needed, name)
}

/// Whether the `name` of a face does.
pub fn short_name(font: &[u8], index: u32) -> Option<Reason>
    ensures { result ≡ short_name (record { bytes = font.now; index = index; extras = all_extras }) }
{
    let name = table(font, index, Tag::NAME)?;
    short_name_of(name)
}
