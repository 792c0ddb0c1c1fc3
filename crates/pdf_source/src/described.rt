//! The font descriptor.

ghost use Rattle.std.specs.Prelude.{◌≡◌, codes, Ok, IfOk, IfErr};
ghost use Rattle.std.specs.Option.{option_copied, option_map};
ghost use Rattle.subsetter_base.specs.Gives.{Gives};
ghost use Rattle.subsetter_base.specs.declared.error.Error.TheVariants.{OutOfMemory};
ghost use Rattle.subsetter_sfnt.specs.Read.{table_in};
ghost use Rattle.pdf_glyphs.specs.Boxes.{outlines_view};
ghost use Rattle.pdf_glyphs.specs.HeightVariation.{variation_view};
ghost use Rattle.pdf_glyphs.specs.Vertical.{vertical_view};
ghost use Rattle.pdf_text.specs.SubsetName.{font_name, IsTag};
ghost use Rattle.pdf_values.specs.Descriptor.{tables_view};
ghost use Rattle.pdf_source.specs.Boxed.{head_box};
ghost use Rattle.pdf_source.specs.Named.{heights_by, name_by};
ghost use Rattle.pdf_source.specs.Moved.{kept_by, kept_in, location_seen, moves, values_by};
ghost use Rattle.pdf_source.specs.Source.{bounds_by, outlines_of, source_name, tables_of, tag_in, vertical_of};

use crate::boxed::head_box;
use crate::cff::{cff_box, cff_values_by};
use crate::moved::{Location, movement_of, moves};
use crate::tag::SubsetTag;
use pdf_glyphs::{HeightVariation, OutlineTables, VerticalTables, box_around};
use pdf_names::name_at;
use pdf_text::{font_name, tag_of};
use pdf_values::{Bounds, GlyphBox, Known, Tables, Values, postscript_name, values_of};
use std::alloc::Global;
use subsetter_base::{Error, Tag};
use subsetter_sfnt::face::Face;

/// The values of a font descriptor (ISO 32000-1, Table 122).
#[derive(Drop)]
pub struct Descriptor {
    /// FontName, with its tag.
    pub font_name: Vec<u8>,
    pub values: Values,
}

/// The tables that outlines are found by.
pub(crate) fn outlines_of<'a>(face: &Face<'a>) -> OutlineTables<'a>
    ensures { outlines_view result ≡ outlines_of (table_in face.now.«data».now face.now.records.now) }
{
    OutlineTables {
        head: face.stored(Tag::HEAD),
        loca: face.stored(Tag::LOCA),
        glyf: face.stored(Tag::GLYF),
    }
}

/// The tables that the columns of vertical writing are found by.
pub fn vertical_of<'a>(face: &Face<'a>) -> VerticalTables<'a>
    ensures { vertical_view result ≡ vertical_of (table_in face.now.«data».now face.now.records.now) }
{
    VerticalTables {
        vhea: face.stored(Tag::new(b"vhea")),
        vmtx: face.stored(Tag::new(b"vmtx")),
        vorg: face.stored(Tag::new(b"VORG")),
        outlines: outlines_of(face),
    }
}

/// The tables that the values are read of.
fn tables_of<'a>(face: &Face<'a>) -> Tables<'a>
    ensures { tables_view result ≡ tables_of (table_in face.now.«data».now face.now.records.now) }
{
    Tables {
        head: face.stored(Tag::HEAD),
        hhea: face.stored(Tag::HHEA),
        os2: face.stored(Tag::new(b"OS/2")),
        post: face.stored(Tag::POST),
    }
}

/// Which glyphs FontBBox is to hold, where boxes are known of outlines that may move.
fn bounds_by(moving: bool, choice: Bounds) -> Bounds
    ensures { result ≡ bounds_by moving choice }
{
    if moving { choice } else { Bounds::Font }
}

/// The least box around the first `count` glyphs of the new font, by the `glyf` of the source, and whether its outlines move.
fn kept_by(
    alloc: Global,
    glyf: Option<&[u8]>,
    moving: bool,
    new: &Face<'_>,
    count: u16,
) -> Result<Option<GlyphBox>, Error>
    ensures value { Gives (λ kept. kept) result (Ok (kept_by (option_copied glyf.entry) moving (table_in new.now.«data».now new.now.records.now) count)) }
    ensures err { IfErr result (λ e. e ≡ OutOfMemory) }
{
    match glyf {
        Some(_) => Ok(box_around(outlines_of(new), count)),
        None => {
            if moving {
                return cff_box(alloc, new.stored(Tag::CFF), count);
            }
            Ok(None)
        }
    }
}

/// The least box around the first `count` glyphs of the new font, where it is known.
pub fn kept_in(
    alloc: Global,
    face: &Face<'_>,
    new: &Face<'_>,
    count: u16,
) -> Result<Option<GlyphBox>, Error>
    ensures value { Gives (λ kept. kept) result (Ok (kept_in (table_in face.now.«data».now face.now.records.now) (table_in new.now.«data».now new.now.records.now) count)) }
    ensures err { IfErr result (λ e. e ≡ OutOfMemory) }
{
    kept_by(alloc, face.stored(Tag::GLYF), moves(face), new, count)
}

/// The box that the `head` of the program gets: that of the kept glyphs, where FontBBox is to hold these.
pub fn program_box(face: &Face<'_>, kept: Option<GlyphBox>, choice: Bounds) -> Option<GlyphBox>
    ensures { result ≡ head_box (bounds_by (moves (table_in face.now.«data».now face.now.records.now)) choice) kept }
{
    head_box(bounds_by(moves(face), choice), kept)
}

/// The values of a font of whose glyphs this is known, at coordinates that are off its default, if they are. There FontBBox holds
/// the kept glyphs, where their boxes are known.
pub fn values_by(
    location: &Option<Location>,
    known: Known,
    face: &Face<'_>,
    choice: Bounds,
    settings: &[(Tag, i32)],
) -> Values
    ensures { result ≡ values_by (option_map location_seen location.now) known (table_in face.now.«data».now face.now.records.now) choice settings.now }
{
    let tables = tables_of(face);
    let moving = moves(face);
    match location {
        None => values_of(tables, known, None, bounds_by(moving, choice)),
        Some(location) => values_of(
            tables,
            known,
            Some(movement_of(face, settings, location)),
            bounds_by(moving, Bounds::Kept),
        ),
    }
}

/// The tag of a program, or the caller's.
fn tag_in(program: &[u8], tag: Option<SubsetTag>) -> [u8; 6]
    ensures tag { result ≡ tag_in tag program.now }
    ensures is { IsTag result }
{
    match tag {
        Some(tag) => tag.letters(),
        None => tag_of(program),
    }
}

/// The PostScript name: that of `name`, else the first of `CFF `.
#[tactic(auto, unfolding(crate::specs::Source::source_name))]
fn source_name(alloc: Global, face: &Face<'_>) -> Result<Vec<u8>, Error>
    ensures ok { IfOk result (λ name. name.items ≡ source_name (table_in face.now.«data».now face.now.records.now)) }
    ensures err { IfErr result (λ e. e ≡ OutOfMemory) }
{
    let name = postscript_name(alloc, face.stored(Tag::NAME), None)?;
    if name.len() > 0 {
        return Ok(name);
    }
    let said = cff_values_by(alloc, face)?;
    postscript_name(alloc, None, said.name)
}

/// The PostScript name at a location.
fn name_by(
    alloc: Global,
    location: &Option<Location>,
    face: &Face<'_>,
    settings: &[(Tag, i32)],
) -> Result<Vec<u8>, Error>
    ensures ok { IfOk result (λ name. name.items ≡ name_by (option_map location_seen location.now) (table_in face.now.«data».now face.now.records.now) settings.now) }
    ensures err { IfErr result (λ e. e ≡ OutOfMemory) }
{
    match location {
        None => source_name(alloc, face),
        Some(location) => {
            let name = face.stored(Tag::NAME);
            let fvar = face.stored(Tag::new(b"fvar"));
            name_at(
                alloc,
                name,
                fvar,
                movement_of(face, settings, location),
                None,
            )
        }
    }
}

/// FontName: the tag, `+` and the PostScript name at a location.
pub fn name_in(
    alloc: Global,
    location: &Option<Location>,
    face: &Face<'_>,
    program: &[u8],
    tag: Option<SubsetTag>,
    settings: &[(Tag, i32)],
) -> Result<Vec<u8>, Error>
    ensures ok { IfOk result (λ name. name.items ≡ font_name (tag_in tag program.now) (name_by (option_map location_seen location.now) (table_in face.now.«data».now face.now.records.now) settings.now)) }
    ensures err { IfErr result (λ e. e ≡ OutOfMemory) }
{
    let name = name_by(alloc, location, face, settings)?;
    font_name(alloc, &tag_in(program, tag), &name)
}

/// What advance heights and the origins of `VORG` vary by at a location.
pub fn heights_by<'a>(
    face: &Face<'a>,
    location: &'a Option<Location>,
) -> Option<HeightVariation<'a>>
    ensures { option_map variation_view result ≡ heights_by (option_map location_seen location.now) (table_in face.now.«data».now face.now.records.now (codes "VVAR")) }
{
    let Some(location) = location else {
        return None;
    };
    let vvar = face.stored(Tag::new(b"VVAR"))?;
    Some(HeightVariation {
        at: &location.at,
        vvar,
    })
}
