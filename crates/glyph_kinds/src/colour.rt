//! Glyphs with colours, by `COLR` and `SVG `.

ghost use Rattle.std.specs.Prelude.{◌≡◌, ◌<◌, ◌^◌};
ghost use Rattle.std.specs.Option.{option_copied};
ghost use Rattle.glyph_kinds.specs.Colour.{document_record, glyph_record, is_found, layers_record, paint_record, part};

use subsetter_base::read::{Reader, from_offset, number_at};
use text_glyphs::{Records, last_up_to};

/// numBaseGlyphRecords of `COLR`, two bytes.
const NUM_BASE_GLYPH_RECORDS: usize = 2;
/// baseGlyphRecordsOffset, four bytes.
const BASE_GLYPH_RECORDS_OFFSET: usize = 4;
/// baseGlyphListOffset, four bytes.
const BASE_GLYPH_LIST_OFFSET: usize = 14;
/// The BaseGlyphPaintRecords of a BaseGlyphList, after four bytes of their number.
const BASE_GLYPH_PAINT_RECORDS: usize = 4;
/// How many bytes a record of a base glyph has.
const BASE_GLYPH_RECORD_SIZE: usize = 6;
/// svgDocumentListOffset of `SVG `, four bytes.
const SVG_DOCUMENT_LIST_OFFSET: usize = 2;
/// The SVGDocumentRecords, after two bytes of their number: startGlyphID, endGlyphID and ten bytes more.
const SVG_DOCUMENTS: Records = Records {
    at: 2,
    size: 12,
    width: 2,
};

const END_GLYPH_ID: usize = 2;

/// The part of a table that the offset at a place leads to; 0 is none.
fn part(table: &[u8], at: usize) -> Option<&[u8]>
    ensures { option_copied result ≡ part table.now at }
{
    let offset = Reader::new_at(table, at).read::<u32>()?;
    if offset == 0 {
        return None;
    }
    from_offset(table, offset as usize)
}

/// The index of a glyph's record in the `count` records of base glyphs that begin at `at`.
fn glyph_record(table: &[u8], at: usize, count: u32, glyph: u16) -> Option<usize>
    requires { at < 2 ^ 16 }
    ensures { result ≡ glyph_record table.now at count glyph }
{
    let records = Records {
        at,
        size: BASE_GLYPH_RECORD_SIZE,
        width: 2,
    };
    let index = last_up_to(table, records, count, u32::from(glyph))?;
    let found = number_at(table, at + BASE_GLYPH_RECORD_SIZE * index)?;
    if found == glyph {
        return Some(index);
    }
    None
}

/// The index of a glyph's record with layers, of version 0.
#[tactic(auto, unfolding(crate::specs::Colour::layers_record))]
fn layers_record(colr: &[u8], glyph: u16) -> Option<usize>
    ensures { result ≡ layers_record colr.now glyph }
{
    let count = number_at(colr, NUM_BASE_GLYPH_RECORDS)?;
    let records = part(colr, BASE_GLYPH_RECORDS_OFFSET)?;
    glyph_record(records, 0, u32::from(count), glyph)
}

/// The index of a glyph's record with a paint, of version 1.
#[tactic(auto, unfolding(crate::specs::Colour::paint_record))]
fn paint_record(colr: &[u8], glyph: u16) -> Option<usize>
    ensures { result ≡ paint_record colr.now glyph }
{
    let version = number_at(colr, 0)?;
    let list = part(colr, BASE_GLYPH_LIST_OFFSET)?;
    let count = Reader::new_at(list, 0).read::<u32>()?;
    if version == 0 {
        return None;
    }
    glyph_record(list, BASE_GLYPH_PAINT_RECORDS, count, glyph)
}

/// The index of the record of a glyph's document.
#[tactic(auto, unfolding(crate::specs::Colour::document_record))]
fn document_record(svg: &[u8], glyph: u16) -> Option<usize>
    ensures { result ≡ document_record svg.now glyph }
{
    let list = part(svg, SVG_DOCUMENT_LIST_OFFSET)?;
    let count = number_at(list, 0)?;
    let index = last_up_to(list, SVG_DOCUMENTS, u32::from(count), u32::from(glyph))?;
    let last = number_at(
        list,
        SVG_DOCUMENTS.at + SVG_DOCUMENTS.size * index + END_GLYPH_ID,
    )?;
    if glyph <= last {
        return Some(index);
    }
    None
}

/// Whether a glyph has layers.
pub(crate) fn has_layers(colr: Option<&[u8]>, glyph: u16) -> bool
    ensures { result ≡ is_found layers_record (option_copied colr.entry) glyph }
{
    match colr {
        Some(table) => layers_record(table, glyph).is_some(),
        None => false,
    }
}

/// Whether a glyph has a paint.
pub(crate) fn has_paint(colr: Option<&[u8]>, glyph: u16) -> bool
    ensures { result ≡ is_found paint_record (option_copied colr.entry) glyph }
{
    match colr {
        Some(table) => paint_record(table, glyph).is_some(),
        None => false,
    }
}

/// Whether a glyph has a document.
pub(crate) fn has_document(svg: Option<&[u8]>, glyph: u16) -> bool
    ensures { result ≡ is_found document_record (option_copied svg.entry) glyph }
{
    match svg {
        Some(table) => document_record(table, glyph).is_some(),
        None => false,
    }
}
