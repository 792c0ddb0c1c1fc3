//! What a PDF has of a font.

ghost use Rattle.std.specs.Prelude.{◌≡◌, ◌<◌, ◌^◌, ◌⊎◌, codes, length, take, IfOk, IfErr};
ghost use Rattle.std.specs.Option.{option_map};
ghost use Rattle.subsetter_base.specs.declared.error.Error.TheVariants.{OutOfMemory, OverflowError};
ghost use Rattle.subsetter_base.specs.Indexes.{HasAllAboveZero};
ghost use Rattle.subsetter_sfnt.specs.Read.{table_in};
ghost use Rattle.cid_embed.specs.Embed.{numbering};
ghost use Rattle.pdf_codes.specs.Codes.{AreCids, IsOverfull, glyphs_of};
ghost use Rattle.pdf_codes.specs.Shown.{uses_of};
ghost use Rattle.pdf_font.specs.Taken.{Takes};
ghost use Rattle.pdf_text.specs.Dictionaries.Fonts.{identity_name};
ghost use Rattle.pdf_font.specs.PdfFont.{AreColumns, IsCidSetIf, IsFilled, cmap_name, cut_name, name_room, short_name};
ghost use Rattle.pdf_source.specs.Moved.{location_seen};
ghost use Rattle.pdf_source.specs.Named.{heights_by};
ghost use Rattle.pdf_source.specs.Source.{vertical_of};
ghost use Rattle.pdf_source.specs.Tops.{tops_of};

use pdf_codes::{Shown, codes_and_texts, encoding_of};
use pdf_glyphs::{Columns, columns_at};
use pdf_source::{
    Descriptor, Direction, FontOptions, Location, NewFont, heights_by, location_in, most_frequent,
    name_in, tops_of, unknown_axes, vertical_of,
};
use pdf_text::{NamedCmap, ProgramKind, cid_set, tag_of};
use pdf_values::Permission;
use std::alloc::Global;
use subsetter_base::{Error, Tag};
use subsetter_sfnt::face::Face;

/// What a PDF has of a font for the glyphs in use.
#[derive(Drop)]
pub struct PdfFont {
    /// The font program.
    pub program: Vec<u8>,
    pub kind: ProgramKind,
    /// How many glyphs the program has: its CIDs are those below.
    pub glyph_count: u16,
    /// The CID of each entry.
    pub cids: Vec<u16>,
    /// The code of each entry, which strings hold.
    pub codes: Vec<u16>,
    /// Whether readers find the text of an entry by its code; else ActualText says it (ISO 32000-1, 14.9.4).
    pub is_said: Vec<bool>,
    /// The width of each CID, in thousandths of the em.
    pub widths: Vec<u32>,
    /// The width of each CID, in the font's units.
    pub exact_widths: Vec<u16>,
    /// unitsPerEm: how many of these units the em has.
    pub units_per_em: u16,
    /// DW.
    pub default_width: u32,
    /// In vertical writing of each CID that a string can show, which are those of glyph 0 and of the glyphs in use, the
    /// advance and the origin; else none.
    pub columns: Option<Columns>,
    pub descriptor: Descriptor,
    /// The axes that were asked for and that the font doesn't have, in the order asked, each once.
    pub unknown_axes: Vec<Tag>,
    pub permission: Permission,
    /// The ToUnicode CMap.
    pub to_unicode: Vec<u8>,
    /// The CMap of the codes; none where each code is its CID.
    pub encoding: Option<NamedCmap>,
    pub cid_set: Option<Vec<u8>>,
}

/// CIDSet, if it is requested.
fn cid_set_if(alloc: Global, is_requested: bool, count: u16) -> Result<Option<Vec<u8>>, Error>
    ensures ok { IfOk result (λ set. IsCidSetIf is_requested count (option_map (λ v. v.items) set)) }
    ensures err { IfErr result (λ e. e ≡ OutOfMemory) }
{
    if is_requested {
        return Ok(Some(cid_set(alloc, count)?));
    }
    Ok(None)
}

/// Columns of glyphs in use at a location, in vertical writing.
fn columns_if(
    alloc: Global,
    options: &FontOptions,
    location: &Option<Location>,
    face: &Face<'_>,
    glyphs: &[u16],
    widths: &[u32],
) -> Result<Option<Columns>, Error>
    ensures ok { IfOk result (λ columns. AreColumns options.now.direction (vertical_of (table_in face.now.«data».now face.now.records.now)) (heights_by (option_map location_seen location.now) (table_in face.now.«data».now face.now.records.now (codes "VVAR"))) (tops_of (table_in face.now.«data».now face.now.records.now) options.now.limits (numbering glyphs.now)) glyphs.now widths.now columns) }
    ensures err { IfErr result (λ e. (e ≡ OutOfMemory) ⊎ ((e ≡ OverflowError) × HasAllAboveZero glyphs.now)) }
{
    match options.direction {
        Direction::Horizontal => Ok(None),
        Direction::Vertical => {
            let tables = vertical_of(face);
            let tops = tops_of(alloc, face, &options.limits, glyphs)?;
            let heights = heights_by(face, location);
            let columns = columns_at(alloc, tables, heights, glyphs, widths, &tops)?;
            Ok(Some(columns))
        }
    }
}

/// The predefined CMap whose codes are CIDs.
fn identity_name(vertical: bool) -> &'static [u8]
    ensures { result.now ≡ identity_name vertical }
{
    if vertical {
        b"Identity-V"
    } else {
        b"Identity-H"
    }
}

/// The name of the CMap of the codes.
fn cmap_name<'a>(encoding: &'a Option<NamedCmap>, options: &FontOptions) -> &'a [u8]
    ensures { result.now ≡ cmap_name encoding.now options.now.direction }
{
    match encoding {
        Some(cmap) => &cmap.name,
        None => identity_name(options.is_vertical()),
    }
}

/// The greatest number of bytes of a name (ISO 32000-1, Annex C).
const NAME_SIZE: usize = 127;

/// How many bytes the font's name has room for, with which BaseFont, with the name of the CMap, has at most 127.
fn name_room(kind: ProgramKind, cmap: &[u8]) -> usize
    ensures { result ≡ name_room kind cmap.now }
{
    match kind {
        ProgramKind::TrueType => NAME_SIZE,
        ProgramKind::BareCff | ProgramKind::OpenType => NAME_SIZE
            .saturating_sub(cmap.len())
            .saturating_sub(1),
    }
}

/// The first `size` bytes, or all where there are fewer.
fn front_of(bytes: &[u8], size: usize) -> &[u8]
    ensures { result.now ≡ take size bytes.now }
{
    if bytes.len() <= size {
        return bytes;
    }
    &bytes[..size]
}

/// The front of a name, and six letters that it determines, in `room` bytes.
#[tactic(auto, using(pdf_text::proofs::Pieces::four_after_nothing))]
fn cut_name(alloc: Global, room: usize, name: &[u8]) -> Result<Vec<u8>, Error>
    ensures ok { IfOk result (λ t. t.items ≡ cut_name room name.now) }
    ensures err { IfErr result (λ e. e ≡ OutOfMemory) }
{
    let mut cut = Vec::new(alloc);
    cut.extend_from_slice(front_of(name, room.saturating_sub(10)))?;
    cut.extend_from_slice(b"-")?;
    cut.extend_from_slice(&tag_of(name))?;
    cut.extend_from_slice(b"...")?;
    Ok(cut)
}

/// A name, cut where it has more bytes than there is room for.
fn short_name(alloc: Global, room: usize, name: Vec<u8>) -> Result<Vec<u8>, Error>
    ensures ok { IfOk result (λ t. t.items ≡ short_name room name.items) }
    ensures err { IfErr result (λ e. e ≡ OutOfMemory) }
{
    if name.len() <= room {
        return Ok(name);
    }
    cut_name(alloc, room, &name)
}

/// What a PDF has of a new font for the glyphs in use: those of the source, of which this is the face, at coordinates. Its CIDs are those
/// of the entries, and these are the widths of glyph 0 and of the glyphs in use.
///
/// # Errors
///
/// - `OverflowError`: no codes are left, or in vertical writing all glyphs above 0 are in use.
/// - `OutOfMemory`: a request for memory was refused.
pub fn filled(
    alloc: Global,
    face: &Face<'_>,
    settings: &[(Tag, i32)],
    shown: &[Shown<'_>],
    options: &FontOptions,
    glyphs: &[u16],
    cids: Vec<u16>,
    widths: &[u32],
    new: NewFont,
    permission: Permission,
) -> Result<PdfFont, Error>
    requires glyphs { glyphs.now ≡ glyphs_of (uses_of shown.now) }
    requires cids { AreCids (uses_of shown.now) cids.items }
    requires some { 0 < length new.profile.widths.items }
    requires few { length new.profile.widths.items < 2 ^ 32 }
    ensures ok { IfOk result (λ f. IsFilled (table_in face.now.«data».now face.now.records.now) settings.now options.now (uses_of shown.now) widths.now f) }
    ensures takes { IfOk result (λ f. Takes new cids.items permission f) }
    ensures err { IfErr result (λ e. (e ≡ OutOfMemory) ⊎ ((e ≡ OverflowError) × (IsOverfull options.now.codes (uses_of shown.now) ⊎ HasAllAboveZero glyphs.now))) }
{
    let default_width = most_frequent(alloc, &new.profile.widths)?;
    let coded = codes_and_texts(alloc, shown, options.codes)?;
    let encoding = encoding_of(alloc, options.is_vertical(), &coded.codes, &cids)?;
    let location = location_in(alloc, face, settings)?;
    let columns = columns_if(alloc, options, &location, face, glyphs, widths)?;
    let cid_set = cid_set_if(alloc, options.cid_set, new.profile.count)?;
    let unknown_axes = unknown_axes(alloc, face, settings)?;
    let room = name_room(new.kind, cmap_name(&encoding, options));
    let whole = name_in(alloc, &location, face, &new.program, options.tag, settings)?;
    let font_name = short_name(alloc, room, whole)?;
    Ok(PdfFont {
        program: new.program,
        kind: new.kind,
        glyph_count: new.profile.count,
        cids,
        codes: coded.codes,
        is_said: coded.is_said,
        widths: new.profile.widths,
        exact_widths: new.profile.exact.widths,
        units_per_em: new.profile.exact.units_per_em,
        default_width,
        columns,
        descriptor: Descriptor {
            font_name,
            values: new.profile.values,
        },
        unknown_axes,
        permission,
        to_unicode: coded.to_unicode,
        encoding,
        cid_set,
    })
}
