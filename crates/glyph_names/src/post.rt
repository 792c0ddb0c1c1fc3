//! The names of glyphs in `post` (OpenType, "post").

ghost use Rattle.std.specs.Prelude.{◌≡◌, [], map, drop, get_or, IfOk};
ghost use Rattle.std.specs.Option.{option_map};
ghost use Rattle.glyph_names.specs.Post.{first_string, pascal_strings, past_indexes, own_names, name_of_index, name_by_index, name_by_version, name_by_names};

use std::alloc::{AllocError, Global};
use subsetter_base::read::Reader;
use subsetter_sfnt::fields::post::{INDEXES, num_glyphs, version};

/// How many names of its own a font can name by indexes of 16 bits.
const OWN_NAMES: usize = 65_278;

/// The Pascal string at the front, and what follows it; `None` where it is cut.
fn first_string(bytes: &[u8]) -> Option<(&[u8], &[u8])>
    ensures { option_map (λ s. (s.0.now, s.1.now)) result ≡ first_string bytes.now }
{
    let (len, rest) = bytes.split_first()?;
    let len = usize::from(*len);
    if len > rest.len() {
        return None;
    }
    Some((&rest[..len], &rest[len..]))
}

/// The first `most` of these strings, or all that there are.
#[tactic(auto, using(crate::proofs::Steps::string_next, crate::proofs::Steps::string_cut, crate::proofs::Steps::strings_end))]
fn strings_in(alloc: Global, most: usize, bytes: &[u8]) -> Result<Vec<&[u8]>, AllocError>
    ensures { IfOk result (λ v. map (λ s. s.now) v.items ≡ pascal_strings most bytes.now) }
{
    let mut strings = Vec::new(alloc);
    let mut rest = bytes;
    for i in 0..most {
        let Some((string, following)) = first_string(rest) else {
            return Ok(strings);
        };
        strings.push(string)?;
        rest = following;
    }
    Ok(strings)
}

/// The bytes after the indexes.
fn past_indexes(post: &[u8]) -> &[u8]
    ensures { result.now ≡ past_indexes post.now }
{
    match num_glyphs(post) {
        Some(count) => post.get(INDEXES + 2 * usize::from(count)..).unwrap_or(&[]),
        None => &[],
    }
}

/// The font's own names.
pub fn own_names(alloc: Global, post: &[u8]) -> Result<Vec<&[u8]>, AllocError>
    ensures { IfOk result (λ v. map (λ s. s.now) v.items ≡ own_names post.now) }
{
    strings_in(alloc, OWN_NAMES, past_indexes(post))
}

/// A name of the Macintosh; an empty one where it has no such number.
fn macintosh_name<'a>(macintosh: &[&'a str], number: u16) -> &'a [u8]
    ensures { result.now ≡ get_or (map (λ s. s.now) macintosh.now) number [] }
{
    match macintosh.get(usize::from(number)) {
        Some(name) => name.as_bytes(),
        None => &[],
    }
}

/// The name of an index, by the names of the Macintosh and the font's own.
fn name_of_index<'a>(macintosh: &[&'a str], own: &[&'a [u8]], index: u16) -> &'a [u8]
    ensures { result.now ≡ name_of_index (map (λ s. s.now) macintosh.now) (map (λ s. s.now) own.now) index }
{
    if index < 258 {
        return macintosh_name(macintosh, index);
    }
    match own.get(usize::from(index) - 258) {
        Some(name) => name,
        None => &[],
    }
}

/// The name of a glyph in a table of version 2.0 with `count` indexes.
fn name_by_index<'a>(
    macintosh: &[&'a str],
    own: &[&'a [u8]],
    post: &[u8],
    glyph: u16,
    count: u16,
) -> &'a [u8]
    ensures { result.now ≡ name_by_index (map (λ s. s.now) macintosh.now) (map (λ s. s.now) own.now) post.now glyph count }
{
    if glyph >= count {
        return &[];
    }
    match Reader::new_at(post, INDEXES + 2 * usize::from(glyph)).read::<u16>() {
        Some(index) => name_of_index(macintosh, own, index),
        None => &[],
    }
}

/// The name of a glyph in a table of a version.
fn name_by_version<'a>(
    macintosh: &[&'a str],
    own: &[&'a [u8]],
    post: &[u8],
    glyph: u16,
    version: u32,
) -> &'a [u8]
    ensures { result.now ≡ name_by_version (map (λ s. s.now) macintosh.now) (map (λ s. s.now) own.now) post.now glyph version }
{
    if version == 0x0001_0000 {
        return macintosh_name(macintosh, glyph);
    }
    if version != 0x0002_0000 {
        return &[];
    }
    match num_glyphs(post) {
        Some(count) => name_by_index(macintosh, own, post, glyph, count),
        None => &[],
    }
}

/// The name of a glyph, by the names of the Macintosh and the font's own; an empty one where there is none.
pub fn post_name<'a>(macintosh: &[&'a str], own: &[&'a [u8]], post: &[u8], glyph: u16) -> &'a [u8]
    ensures { result.now ≡ name_by_names (map (λ s. s.now) macintosh.now) (map (λ s. s.now) own.now) post.now glyph }
{
    match version(post) {
        Some(version) => name_by_version(macintosh, own, post, glyph, version),
        None => &[],
    }
}
