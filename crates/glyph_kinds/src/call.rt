//! The call.

ghost use Rattle.std.specs.Prelude.{◌≡◌, ◌≤◌, ◌<◌, ◌^◌, length, map, codes, IfOk, IfErr, Ok};
ghost use Rattle.std.specs.Option.{option_and_then, option_copied, unwrap_or};
ghost use Rattle.subsetter_base.specs.Gives.{Gives};
ghost use Rattle.subsetter_base.specs.declared.error.Error.TheVariants.{OutOfMemory};
ghost use Rattle.subsetter_sfnt.specs.Extras.{all_extras};
ghost use Rattle.subsetter_sfnt.specs.Fields.Maxp.{num_glyphs};
ghost use Rattle.subsetter_sfnt.specs.FontAt.{font_at};
ghost use Rattle.subsetter_sfnt.specs.Read.{table_in};
ghost use Rattle.glyph_kinds.specs.Kinds.{beside, bits, is_unseen, kind_bits, kinds, kinds_of, tables_by, unseen_by, unseen_glyphs};
ghost use Rattle.glyph_kinds.specs.View.{tables_view};

use crate::bitmaps::has_image;
use crate::colour::{has_document, has_layers, has_paint};
use crate::graphics::{DUPE, JPG, MASK, PDF, PNG, TIFF, has_graphic};
use crate::outlines::{FaceOutlines, has_outline, outlines_in};
use std::alloc::{AllocError, Global};
use subsetter_base::{Error, Tag};
use subsetter_sfnt::extras::Extras;
use subsetter_sfnt::face::Face;
use subsetter_sfnt::fields::maxp::num_glyphs;
use subsetter_sfnt::parse::parse;

/// The tables that pictures are found by, as far as the font has them.
#[derive(Clone, Copy)]
pub(crate) struct FaceTables<'a> {
    pub(crate) colr: Option<&'a [u8]>,
    pub(crate) svg: Option<&'a [u8]>,
    pub(crate) cblc: Option<&'a [u8]>,
    pub(crate) sbix: Option<&'a [u8]>,
    pub(crate) glyphs: u16,
    pub(crate) eblc: Option<&'a [u8]>,
    pub(crate) outlines: Option<FaceOutlines<'a>>,
}

/// A table that says where images are, if the one with the images is there.
fn beside<'a>(images: Option<&'a [u8]>, table: Option<&'a [u8]>) -> Option<&'a [u8]>
    ensures { option_copied result ≡ beside (option_copied images.entry) (option_copied table.entry) }
{
    match images {
        Some(_) => table,
        None => None,
    }
}

/// How many glyphs a font has; 0 where `maxp` doesn't say it.
fn glyphs_in(maxp: Option<&[u8]>) -> u16
    ensures { result ≡ unwrap_or (option_and_then num_glyphs (option_copied maxp.entry)) 0 }
{
    match maxp {
        Some(table) => num_glyphs(table).unwrap_or(0),
        None => 0,
    }
}

/// The tables of a face.
#[tactic(auto, unfolding(crate::specs::Kinds::tables_by))]
fn tables_of<'a>(alloc: Global, face: &Face<'a>) -> Result<FaceTables<'a>, Error>
    ensures value { Gives tables_view result (Ok (tables_by (table_in face.now.«data».now face.now.records.now))) }
    ensures err { IfErr result (λ e. e ≡ OutOfMemory) }
{
    let outlines = outlines_in(alloc, face)?;
    Ok(FaceTables {
        colr: face.stored(Tag::new(b"COLR")),
        svg: face.stored(Tag::new(b"SVG ")),
        cblc: beside(
            face.stored(Tag::new(b"CBDT")),
            face.stored(Tag::new(b"CBLC")),
        ),
        sbix: face.stored(Tag::new(b"sbix")),
        glyphs: glyphs_in(face.stored(Tag::MAXP)),
        eblc: beside(
            face.stored(Tag::new(b"EBDT")),
            face.stored(Tag::new(b"EBLC")),
        ),
        outlines,
    })
}

/// How many kinds there are.
const KINDS: usize = 17;
/// The bit of an empty outline.
const EMPTY: u32 = 0x10000;

/// Whether a glyph has a picture of each kind.
fn kinds(tables: &FaceTables<'_>, glyph: u16) -> [bool; KINDS]
    ensures { result ≡ kinds (tables_view tables.now) glyph }
{
    let cblc = tables.cblc;
    let sbix = tables.sbix;
    let count = tables.glyphs;
    let outline = has_outline(tables.outlines, glyph);
    [
        has_paint(tables.colr, glyph),
        has_layers(tables.colr, glyph),
        has_document(tables.svg, glyph),
        has_image(cblc, Some(17), glyph),
        has_image(cblc, Some(18), glyph),
        has_image(cblc, Some(19), glyph),
        has_image(cblc, None, glyph),
        has_graphic(sbix, count, Some(PNG), glyph),
        has_graphic(sbix, count, Some(JPG), glyph),
        has_graphic(sbix, count, Some(TIFF), glyph),
        has_graphic(sbix, count, Some(PDF), glyph),
        has_graphic(sbix, count, Some(MASK), glyph),
        has_graphic(sbix, count, Some(DUPE), glyph),
        has_graphic(sbix, count, None, glyph),
        has_image(tables.eblc, None, glyph),
        outline,
        !outline,
    ]
}

/// A number with a bit for each mark, from the lowest on.
fn bits(marks: &[bool]) -> u32
    requires { length marks.now ≤ 17 }
    ensures value { result ≡ bits marks.now }
    ensures small { result < 2 ^ length marks.now }
{
    match marks {
        [] => 0,
        [mark, rest @ ..] => u32::from(*mark) + 2 * bits(rest),
    }
}

/// The kinds of pictures of a glyph.
#[tactic(auto, unfolding(crate::specs::Kinds::kind_bits))]
fn kind_bits(tables: &FaceTables<'_>, glyph: u16) -> u32
    ensures { result ≡ kind_bits (tables_view tables.now) glyph }
{
    bits(&kinds(tables, glyph))
}

/// The kinds of pictures of glyphs.
fn each_kinds(alloc: Global, tables: &FaceTables<'_>, glyphs: &[u16]) -> Result<Vec<u32>, Error>
    ensures ok { IfOk result (λ v. v.items ≡ map (kind_bits (tables_view tables.now)) glyphs.now) }
    ensures err { IfErr result (λ e. e ≡ OutOfMemory) }
{
    let mut found = Vec::with_capacity(alloc, glyphs.len())?;
    for glyph in glyphs {
        found.push(kind_bits(tables, *glyph))?;
    }
    Ok(found)
}

/// Whether these kinds of a glyph are an empty outline and another picture: a PDF shows a blank of it.
pub fn is_unseen(kinds: u32) -> bool
    ensures { result ≡ is_unseen kinds }
{
    kinds > EMPTY
}

/// The unseen ones among glyphs.
fn unseen_by(alloc: Global, tables: &FaceTables<'_>, glyphs: &[u16]) -> Result<Vec<u16>, AllocError>
    ensures { IfOk result (λ v. v.items ≡ unseen_by (tables_view tables.now) glyphs.now) }
{
    glyphs
        .iter()
        .copied()
        .filter(|glyph| is_unseen(kind_bits(tables, *glyph)))
        .collect(alloc)
}

/// Those of these glyphs that are unseen: the outline is empty, and the font has another picture.
///
/// # Errors
///
/// Those of `kinds_of`.
#[tactic(auto, unfolding(crate::specs::Kinds::unseen_glyphs))]
pub fn unseen_glyphs(
    alloc: Global,
    data: &[u8],
    index: u32,
    glyphs: &[u16],
) -> Result<Vec<u16>, Error>
    ensures { Gives (λ v. v.items) result (unseen_glyphs (font_at «data».now index all_extras) glyphs.now) }
{
    let face = parse(data, index, Extras::ALL)?;
    let tables = tables_of(alloc, &face)?;
    let found = unseen_by(alloc, &tables, glyphs)?;
    Ok(found)
}

/// All kinds of pictures that a font has of each glyph: a bit for each kind, from the lowest on in the order in which a reader of
/// OpenType prefers them.
///
/// - Bits 0 and 1: a paint of `COLR` version 1, layers of version 0. Bit 2: a document of `SVG `.
/// - Bits 3 to 6: an image of `CBDT` in format 17, 18, 19, another. Bits 7 to 13: a graphic of `sbix` of the type `png `, `jpg `,
///   `tiff`, `pdf `, `mask`, `dupe`, another. Bit 14: an image of `EBDT`.
/// - Bit 15: an outline; bit 16: none, or an empty one.
///
/// A picture is what a table lists: it isn't drawn. A table that can't be read lists none. The outlines are those of `glyf`, else of
/// `CFF `, else of `CFF2`; a charstring counts as empty where it is endchar alone, with or without a width.
///
/// # Errors
///
/// Those of opening the font's directory: `UnknownKind`, `MalformedFont`; and `OutOfMemory`. A font needs no outlines.
#[tactic(auto, unfolding(crate::specs::Kinds::kinds_of))]
pub fn kinds_of(alloc: Global, data: &[u8], index: u32, glyphs: &[u16]) -> Result<Vec<u32>, Error>
    ensures { Gives (λ v. v.items) result (kinds_of (font_at «data».now index all_extras) glyphs.now) }
{
    let face = parse(data, index, Extras::ALL)?;
    let tables = tables_of(alloc, &face)?;
    let kinds = each_kinds(alloc, &tables, glyphs)?;
    Ok(kinds)
}
