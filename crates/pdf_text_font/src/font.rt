//! The font of a text, of the subset that its codes want.

ghost use Rattle.std.specs.Prelude.{◌≡◌, ◌≤◌, ◌<◌, ◌+◌, ◌⊎◌, length, drop, map, IfOk, IfErr};
ghost use Rattle.std.specs.Option.{option_map};
ghost use Rattle.subsetter_base.specs.declared.error.Error.TheVariants.{OutOfMemory};
ghost use Rattle.pdf_font.specs.PdfFont.{IsCidSetIf};
ghost use Rattle.pdf_source.specs.Source.{tag_in};
ghost use Rattle.pdf_text_font.specs.Drawn.{HasDrawingFault};
ghost use Rattle.pdf_text_font.specs.Own.{all_parts};
ghost use Rattle.pdf_text_font.specs.TextFont.{HasSubsetFault, IsByCode, IsOfSubset, columns_by, drawn_by, each_of, parts_in, renamed};

use crate::drawn::draw_codes;
use crate::own::{added, advances_of, parts_by, widths_of};
use crate::pairs::{Drawing, drawings_of, has_blank, values_of};
use crate::texts::to_unicode;
use own_glyphs::{OwnGlyph, Part};
use pdf_figures::{OwnInk, Placed};
use pdf_font::{Columns, Descriptor, FontOptions, PdfFont, SubsetTag};
use pdf_runs::Pair;
use pdf_source::most_frequent;
use pdf_text::{Column, cid_set, tag_of};
use std::alloc::Global;
use subsetter_base::Error;

/// What a PDF has of the font of a text.
#[derive(Drop)]
pub struct TextFont {
    /// Each code is its CID, and widths and columns are by code. It has no entries: codes are those of the runs.
    pub font: PdfFont,
    /// CIDToGIDMap as a stream, of TrueType outlines (ISO 32000-1, 9.7.4.2).
    pub cid_to_gid_map: Option<Vec<u8>>,
}

/// A blank or an own glyph in vertical writing.
const BLANK_COLUMN: Column = Column {
    advance: 0,
    x: 0,
    y: 0,
};

/// Columns by code, in vertical writing.
fn columns_by(
    alloc: Global,
    columns: &Option<Columns>,
    drawings: &[Drawing],
) -> Result<Option<Columns>, Error>
    ensures each { IfOk result (λ by. option_map each_of by ≡ columns_by drawings.now columns.now) }
    ensures default { IfOk result (λ by. option_map (λ (c : Columns). c.default) by ≡ option_map (λ (c : Columns). c.default) columns.now) }
    ensures err { IfErr result (λ e. e ≡ OutOfMemory) }
{
    match columns {
        None => Ok(None),
        Some(columns) => Ok(Some(Columns {
            each: values_of(alloc, BLANK_COLUMN, &columns.each, &[], drawings)?,
            default: columns.default,
        })),
    }
}

/// CIDSet, if it is requested.
fn cid_set_if(alloc: Global, is_requested: bool, count: u16) -> Result<Option<Vec<u8>>, Error>
    ensures ok { IfOk result (λ set. IsCidSetIf is_requested count (option_map (λ v. v.items) set)) }
    ensures err { IfErr result (λ e. e ≡ OutOfMemory) }
{
    if is_requested {
        return Ok(Some(cid_set(alloc, count)?));
    }
    Ok(None)
}

/// The tag of a program, or the caller's.
fn tag_in(program: &[u8], tag: Option<SubsetTag>) -> [u8; 6]
    ensures { result ≡ tag_in tag program.now }
{
    match tag {
        Some(tag) => tag.letters(),
        None => tag_of(program),
    }
}

/// What is after the tag of a name.
fn untagged(name: &[u8]) -> &[u8]
    ensures { result.now ≡ drop 6 name.now }
{
    if name.len() < 6 {
        return &[];
    }
    &name[6..]
}

/// A name with the tag of another program.
fn renamed(
    alloc: Global,
    tag: Option<SubsetTag>,
    program: &[u8],
    name: &[u8],
) -> Result<Vec<u8>, Error>
    ensures ok { IfOk result (λ v. v.items ≡ renamed tag program.now name.now) }
    ensures err { IfErr result (λ e. e ≡ OutOfMemory) }
{
    let mut renamed = Vec::new(alloc);
    renamed.extend_from_slice(&tag_in(program, tag))?;
    renamed.extend_from_slice(untagged(name))?;
    Ok(renamed)
}

/// The font of a text, of a subset that draws its codes so, with others after its glyphs, of which the first are these own ones.
fn filled(
    alloc: Global,
    subset: PdfFont,
    pairs: &[Pair],
    own: &[OwnInk],
    drawings: &[Drawing],
    others: &[OwnGlyph<'_>],
    options: &FontOptions,
) -> Result<TextFont, Error>
    requires drawings { length drawings.now ≡ length pairs.now }
    requires some { 0 < length pairs.now }
    requires few { length pairs.now ≤ 65535 }
    ensures ok { IfOk result (λ t. IsByCode options.now own.now pairs.now drawings.now others.now subset t) }
    ensures err { IfErr result (λ e. (e ≡ OutOfMemory) ⊎ HasDrawingFault subset.kind subset.program.items others.now (length own.now) drawings.now e) }
{
    let count = pairs.len() as u16;
    let own_widths = widths_of(alloc, subset.units_per_em, own)?;
    let advances = advances_of(alloc, own)?;
    let widths = values_of(alloc, 0, &subset.widths, &own_widths, drawings)?;
    let exact_widths = values_of(alloc, 0, &subset.exact_widths, &advances, drawings)?;
    let default_width = most_frequent(alloc, &widths)?;
    let columns = columns_by(alloc, &subset.columns, drawings)?;
    let to_unicode = to_unicode(alloc, pairs)?;
    let cid_set = cid_set_if(alloc, options.cid_set, count)?;
    let drawn = draw_codes(
        alloc,
        subset.kind,
        subset.program,
        others,
        own.len(),
        &exact_widths,
        drawings,
    )?;
    let font_name = renamed(
        alloc,
        options.tag,
        &drawn.program,
        &subset.descriptor.font_name,
    )?;
    Ok(TextFont {
        font: PdfFont {
            program: drawn.program,
            kind: subset.kind,
            glyph_count: count,
            cids: Vec::new(alloc),
            codes: Vec::new(alloc),
            is_said: Vec::new(alloc),
            widths,
            exact_widths,
            units_per_em: subset.units_per_em,
            default_width,
            columns,
            descriptor: Descriptor {
                font_name,
                values: subset.descriptor.values,
            },
            unknown_axes: subset.unknown_axes,
            permission: subset.permission,
            to_unicode,
            encoding: None,
            cid_set,
        },
        cid_to_gid_map: drawn.map,
    })
}

/// The numbers after those of codes.
fn after_codes(numbers: &[u16], codes: usize) -> &[u16]
    requires { codes ≤ length numbers.now }
    ensures { result.now ≡ drop codes numbers.now }
{
    &numbers[codes..]
}

/// The font of a text, from the subset with the glyphs that the codes want and the parts of own glyphs. The source has `count`
/// glyphs.
///
/// # Errors
///
/// - those of `draw_codes`
/// - `OutOfMemory`: a request for memory was refused.
pub fn font_by_code(
    alloc: Global,
    subset: PdfFont,
    pairs: &[Pair],
    count: usize,
    own: &[OwnInk],
    parts: &[Placed],
    options: &FontOptions,
) -> Result<TextFont, Error>
    requires parts { parts.now ≡ all_parts own.now }
    requires cids { length subset.cids.items ≡ length pairs.now + length parts.now }
    requires some { 0 < length pairs.now }
    requires few { length pairs.now ≤ 65535 }
    ensures ok { IfOk result (λ t. IsOfSubset options.now count own.now pairs.now subset t) }
    ensures err { IfErr result (λ e. (e ≡ OutOfMemory) ⊎ HasSubsetFault count own.now pairs.now subset e) }
{
    let drawings = drawings_of(alloc, count, own.len(), pairs, &subset.cids)?;
    let numbers = after_codes(&subset.cids, pairs.len());
    let parts = parts_by(alloc, parts, numbers)?;
    let others = added(alloc, own, &parts, has_blank(&drawings))?;
    filled(alloc, subset, pairs, own, &drawings, &others, options)
}
