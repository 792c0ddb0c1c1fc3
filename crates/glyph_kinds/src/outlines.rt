//! Whether a glyph has an outline.

ghost use Rattle.std.specs.Prelude.{◌≡◌, codes, IfErr, Ok};
ghost use Rattle.std.specs.Option.{option_copied, option_map};
ghost use Rattle.subsetter_base.specs.Gives.{Gives};
ghost use Rattle.subsetter_base.specs.declared.error.Error.TheVariants.{OutOfMemory};
ghost use Rattle.subsetter_cffdata.specs.Indexes.IndexView.{items};
ghost use Rattle.subsetter_sfnt.specs.Read.{table_in};
ghost use Rattle.glyph_kinds.specs.Outlines.{charstrings_by, contours_by, draws, entries_of, entries_of_2, has_outline, is_bare, is_end, number_of_contours, outlines_by};
ghost use Rattle.glyph_kinds.specs.View.{outlines_view};

use std::alloc::Global;
use subsetter_base::read::{between_offsets, number_at};
use subsetter_base::{Error, Tag};
use subsetter_cff::read::source::Table;
use subsetter_cff2::front2::parse_front;
use subsetter_cff2::offsets::named_index;
use subsetter_cffdata::dicts::dict::operators::CHAR_STRINGS;
use subsetter_cffdata::indexes::index::Index;
use subsetter_cffdata::numerals::charstring_number::read_number;
use subsetter_sfnt::face::Face;
use subsetter_sfnt::fields::head::index_to_loc_format;
use subsetter_sfnt::fields::loca::loca_offset;
use subsetter_type2::operators::first_byte;

/// The outlines of a face.
#[derive(Clone, Copy)]
pub enum FaceOutlines<'a> {
    /// Whether the entries of `loca` have four bytes, `loca`, and `glyf`.
    Contours(bool, &'a [u8], &'a [u8]),
    /// The CharStrings INDEX.
    CharStrings(Index<'a>),
}

/// The outlines of `glyf`.
fn contours_by<'a>(
    glyf: &'a [u8],
    head: Option<&'a [u8]>,
    loca: Option<&'a [u8]>,
) -> Option<FaceOutlines<'a>>
    ensures { option_map outlines_view result ≡ contours_by glyf.now (option_copied head.entry) (option_copied loca.entry) }
{
    let bytes = head?;
    let offsets = loca?;
    let format = index_to_loc_format(bytes)?;
    Some(FaceOutlines::Contours(format != 0, offsets, glyf))
}

/// The CharStrings INDEX of a `CFF ` that can be opened.
fn entries_of(alloc: Global, cff: &[u8]) -> Result<Option<Index<'_>>, Error>
    ensures value { Gives (option_map items) result (Ok (entries_of cff.now)) }
    ensures err { IfErr result (λ e. e ≡ OutOfMemory) }
{
    match Table::parse(alloc, cff) {
        Ok(table) => Ok(Some(table.char_strings)),
        Err(Error::OutOfMemory) => Err(Error::OutOfMemory),
        Err(_) => Ok(None),
    }
}

/// The CharStrings INDEX of a `CFF2`.
fn entries_of_2(cff: &[u8]) -> Option<Index<'_>>
    ensures { option_map items result ≡ entries_of_2 cff.now }
{
    let front = parse_front(cff)?;
    named_index(cff, front.top, &CHAR_STRINGS)
}

/// The CharStrings INDEX of a face with these tables.
fn charstrings_by<'a>(
    alloc: Global,
    cff: Option<&'a [u8]>,
    cff2: Option<&'a [u8]>,
) -> Result<Option<Index<'a>>, Error>
    ensures value { Gives (option_map items) result (Ok (charstrings_by (option_copied cff.entry) (option_copied cff2.entry))) }
    ensures err { IfErr result (λ e. e ≡ OutOfMemory) }
{
    match cff {
        Some(bytes) => entries_of(alloc, bytes),
        None => match cff2 {
            Some(bytes) => Ok(entries_of_2(bytes)),
            None => Ok(None),
        },
    }
}

/// The outlines of a face, as far as they can be read.
pub fn outlines_in<'a>(alloc: Global, face: &Face<'a>) -> Result<Option<FaceOutlines<'a>>, Error>
    ensures value { Gives (option_map outlines_view) result (Ok (outlines_by (table_in face.now.«data».now face.now.records.now (codes "glyf")) (table_in face.now.«data».now face.now.records.now))) }
    ensures err { IfErr result (λ e. e ≡ OutOfMemory) }
{
    if let Some(glyf) = face.stored(Tag::GLYF) {
        return Ok(contours_by(glyf, face.stored(Tag::HEAD), face.stored(Tag::LOCA)));
    }
    match charstrings_by(alloc, face.stored(Tag::CFF), face.stored(Tag::CFF2))? {
        Some(index) => Ok(Some(FaceOutlines::CharStrings(index))),
        None => Ok(None),
    }
}

/// numberOfContours of a glyph.
#[tactic(auto, unfolding(crate::specs::Outlines::number_of_contours))]
fn number_of_contours(long: bool, loca: &[u8], glyf: &[u8], glyph: u16) -> Option<u16>
    ensures { result ≡ number_of_contours long loca.now glyf.now glyph }
{
    let from = loca_offset(loca, long, usize::from(glyph))?;
    let to = loca_offset(loca, long, usize::from(glyph) + 1)?;
    let description = between_offsets(glyf, from, to)?;
    number_at(description, 0)
}

/// Whether nothing is left of a charstring, or endchar alone.
fn is_end(charstring: &[u8]) -> bool
    ensures { result ≡ is_end charstring.now }
{
    match charstring {
        [] => true,
        [byte] => *byte == first_byte::ENDCHAR,
        [_, _, ..] => false,
    }
}

/// Whether a charstring ends at once, or after a number.
fn is_bare(charstring: &[u8]) -> bool
    ensures { result ≡ is_bare charstring.now }
{
    if is_end(charstring) {
        return true;
    }
    match read_number(charstring) {
        Some(read) => is_end(read.rest),
        None => false,
    }
}

/// Whether a glyph has an outline with contours, or a charstring that isn't bare.
fn draws(outlines: FaceOutlines<'_>, glyph: u16) -> bool
    ensures { result ≡ draws (outlines_view outlines.entry) glyph }
{
    match outlines {
        FaceOutlines::Contours(long, loca, glyf) => match number_of_contours(
            long, loca, glyf, glyph,
        ) {
            Some(count) => count != 0,
            None => false,
        },
        FaceOutlines::CharStrings(index) => match index.get(u32::from(glyph)) {
            Some(charstring) => !is_bare(charstring),
            None => false,
        },
    }
}

/// Whether a glyph has an outline.
pub fn has_outline(outlines: Option<FaceOutlines<'_>>, glyph: u16) -> bool
    ensures { result ≡ has_outline (option_map outlines_view outlines.entry) glyph }
{
    match outlines {
        Some(it) => draws(it, glyph),
        None => false,
    }
}
