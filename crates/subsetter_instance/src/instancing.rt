//! Making an instance.
//!
//! The font is opened before any memory is taken.

ghost use Rattle.std.specs.Prelude.{◌≡◌, IfOk, IfErr, Ok};
ghost use Rattle.subsetter_base.specs.Bytes.{IsBytes};
ghost use Rattle.subsetter_base.specs.Gives.{Gives};
ghost use Rattle.subsetter_sfnt.specs.declared.flavor.FontFlavor.TheVariants.{TrueType};
ghost use Rattle.subsetter_sfnt.specs.Extras.{all_extras};
ghost use Rattle.subsetter_sfnt.specs.FontAt.{font_at};
ghost use Rattle.subsetter_sfnt.specs.Plain.{opened, flavored};
ghost use Rattle.subsetter_sfnt.specs.Read.{table_in};
ghost use Rattle.subsetter_instance.specs.Answer.{IsClosed};
ghost use Rattle.subsetter_instance.specs.Plain.{instance_in};
ghost use Rattle.subsetter_instance.specs.Promise.{IsInstancePromised};

use crate::glyphs::drawn::draw_all;
use crate::source::{normalized_coordinates, source_or_fault};
use crate::tables::file::laid;
use crate::tables::lines::lines_of;
use std::alloc::Global;
use subsetter_base::{Error, GlyphRemapper, Tag};
use subsetter_sfnt::extras::Extras;
use subsetter_sfnt::face::Face;
use subsetter_sfnt::flavor::{FontFlavor, flavor};
use subsetter_sfnt::parse::parse;

/// The directory of a font whose outlines are in `glyf`. No memory is taken.
fn open(data: &[u8], index: u32) -> Result<Face<'_>, Error>
    ensures bytes { IsBytes «data».now }
    ensures same { IfOk result (λ face. face.«data».now ≡ «data».now) }
    ensures opened { IfOk result (λ face. opened (font_at «data».now index all_extras) ≡ Ok face.records.now) }
    ensures flavor { IfOk result (λ face. flavored (table_in «data».now face.records.now) ≡ Ok TrueType) }
    ensures err { IfErr result (λ e. IsClosed (font_at «data».now index all_extras) e) }
{
    let face = parse(data, index, Extras::ALL)?;
    match flavor(&face)? {
        FontFlavor::TrueType => Ok(face),
        FontFlavor::Cff => Err(Error::Unimplemented),
    }
}

/// The instance of a font whose directory was read.
#[tactic(auto, unfolding(crate::specs::Plain::instance_in))]
fn make(
    alloc: Global,
    face: &Face<'_>,
    coordinates: &[(Tag, i32)],
    mapper: &GlyphRemapper,
    steps: u32,
) -> Result<Vec<u8>, Error>
    ensures { Gives (λ v. v.items) result (instance_in (table_in face.now.«data».now face.now.records.now) coordinates.now mapper.now steps) }
{
    let at = normalized_coordinates(alloc, face, coordinates)?;
    let source = source_or_fault(face, at.len())?;
    let drawn = draw_all(alloc, &source, &at, steps, mapper)?;
    let lines = lines_of(alloc, face, coordinates, &at)?;
    laid(alloc, face, &source, mapper, &drawn, &lines)
}

/// A static TrueType font: the mapper's glyphs, glyph 0 among them, as a variable font has them at these coordinates, each
/// under its old number as a simple glyph without instructions. Every other glyph is empty.
///
/// `data` is a font file or a collection, of which `index` names a face (it is ignored for a single font). A coordinate is the
/// tag of an axis and a value in 65536ths; where a tag comes twice the last value counts, and an axis without a value stays at
/// its default. A font without `fvar` has no axes. Each glyph may take `steps` steps: one for each component at
/// any depth, each point, each tuple, and each point again of a tuple that counts.
///
/// # Errors
///
/// Each names what is in the source (`HasInstanceFault`); a font without a fault is refused only when out of memory.
///
/// - `UnknownKind`: the file doesn't begin with a known kind of font, or has none of `glyf`, `CFF ` and `CFF2`.
/// - `Unimplemented`: the outlines aren't those of `glyf`; `fvar`, `avar`, `gvar`, `HVAR` or `MVAR` has a major version
///   other than 1; or a glyph is made in a way that isn't taken.
/// - `MalformedFont`: the directory, `fvar`, `avar`, `gvar`, `HVAR` or `MVAR` is cut, or a table of outlines or metrics is missing or
///   cut; a glyph isn't one of the font's, or its description, its metric or its variations can't be read.
/// - `OverflowError`: a glyph takes more than `steps`; a coordinate, the delta between two points, the advance or a metric of `hhea`
///   or `post` doesn't fit its 16 bits; or the file passes 2^32 bytes.
pub fn instance(
    alloc: Global,
    data: &[u8],
    index: u32,
    coordinates: &[(Tag, i32)],
    mapper: &GlyphRemapper,
    steps: u32,
) -> Result<Vec<u8>, Error>
    // What is returned is the instance, what is refused has a fault of that name.
    ensures promise { IsInstancePromised (λ v. v.items) steps (font_at «data».now index all_extras) coordinates.now mapper.now result }
{
    let face = open(data, index)?;
    make(alloc, &face, coordinates, mapper, steps)
}
