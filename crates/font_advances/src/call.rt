//! The call.

ghost use Rattle.std.specs.Prelude.{◌≡◌, Ok, Err, IfOk, IfErr};
ghost use Rattle.subsetter_base.specs.Gives.{Gives};
ghost use Rattle.subsetter_base.specs.declared.error.Error.{Error as SpecError};
ghost use Rattle.subsetter_sfnt.specs.Extras.{all_extras};
ghost use Rattle.subsetter_sfnt.specs.FontAt.{font_at};
ghost use Rattle.subsetter_sfnt.specs.Read.{table_in};
ghost use Rattle.font_advances.specs.Advances.{advances_by, advances_of, advances_seen, opening, units_in};

use crate::heights::heights_in;
use crate::widths::{Outlines, outlines_in, widths_of};
use std::alloc::Global;
use subsetter_base::{Error, Tag};
use subsetter_sfnt::extras::Extras;
use subsetter_sfnt::face::Face;
use subsetter_sfnt::fields::head::units_per_em;
use subsetter_sfnt::parse::parse;
use subsetter_type2::limits::Limits;

/// Advances of glyphs, in the font's units.
#[derive(Debug, Drop)]
pub struct GlyphAdvances {
    /// unitsPerEm: how many units the em has. It isn't 0.
    pub units_per_em: u16,
    /// The advance width of each given glyph, in the order given.
    pub widths: Vec<u16>,
    /// The advance height of each given glyph; one em where the font has none.
    pub heights: Vec<u16>,
}

/// A font that is opened: its directory, and the outlines that are taken. No memory is taken.
#[tactic(auto, unfolding(crate::specs::Advances::opening))]
fn open(data: &[u8], index: u32) -> Result<(Face<'_>, Outlines), Error>
    ensures same { IfOk result (λ r. r.0.«data».now ≡ «data».now) }
    ensures ok { IfOk result (λ r. opening (font_at «data».now index all_extras) ≡ Ok (r.0.records.now, r.1)) }
    ensures err { IfErr result (λ e. opening (font_at «data».now index all_extras) ≡ Err e) }
{
    let face = parse(data, index, Extras::ALL)?;
    let outlines = outlines_in(&face)?;
    Ok((face, outlines))
}

/// unitsPerEm of `head`. `MalformedFont` where it is missing or 0.
#[tactic(auto, unfolding(crate::specs::Advances::units_in))]
fn units_in(face: &Face<'_>) -> Result<u16, Error>
    ensures { result ≡ units_in (table_in face.now.«data».now face.now.records.now) }
{
    let head = face.stored(Tag::HEAD).ok_or(Error::MalformedFont)?;
    let units = units_per_em(head).ok_or(Error::MalformedFont)?;
    if units == 0 {
        return Err(Error::MalformedFont);
    }
    Ok(units)
}

/// The advances of a font with these outlines.
#[tactic(auto, unfolding(crate::specs::Advances::advances_by))]
fn advances_by(
    alloc: Global,
    outlines: Outlines,
    face: &Face<'_>,
    coordinates: &[(Tag, i32)],
    steps: u32,
    glyphs: &[u16],
) -> Result<GlyphAdvances, Error>
    ensures { Gives advances_seen result (advances_by outlines (table_in face.now.«data».now face.now.records.now) coordinates.now steps glyphs.now) }
{
    let units = units_in(face)?;
    let widths = widths_of(alloc, outlines, face, coordinates, steps, glyphs)?;
    let heights = heights_in(alloc, face, coordinates, units, glyphs)?;
    Ok(GlyphAdvances {
        units_per_em: units,
        widths,
        heights,
    })
}

/// The advances of glyphs at coordinates, in the font's units: exactly those of the font that `embed_with_variations` makes.
///
/// `data`, `index` and `coordinates` are as for `embed_with_variations`; `glyphs` are in any order, with repeats if need be.
///
/// - A width is that of `hmtx`. Off the font's default it is varied by `HVAR`; where there is none, and outlines are in `glyf`, it
///   is the distance between the phantom points of the glyph, which may take as many steps as `limits` has tokens.
/// - A height is that of `vmtx`, varied by `VVAR` off the default, as in a column of `pdf_font`; one em where there is none.
///
/// The font's permission isn't asked for: nothing of it is copied.
///
/// # Errors
///
/// - `UnknownKind`: the file doesn't begin with a known kind of font, or has none of `glyf`, `CFF ` and `CFF2`.
/// - `MalformedFont`: the directory, or a table that is read is missing or cut; unitsPerEm is 0; a glyph has no metric. Off the
///   default, and with outlines in `CFF2`, also: `maxp` counts fewer glyphs. Without `HVAR`, also: a glyph's description or its
///   variations can't be read.
/// - `Unimplemented`: `fvar`, `avar`, `gvar`, `HVAR` or `MVAR` has a major version other than 1, where the font varies; without
///   `HVAR`, also: a composite glyph scales the offset of a component.
/// - `OverflowError`: numberOfHMetrics is 0; an advance has no 16 bits; a glyph takes more steps.
/// - `OutOfMemory`: a request for memory was refused; never for a font that can't be opened.
#[tactic(auto, unfolding(crate::specs::Advances::advances_of))]
pub fn advances(
    alloc: Global,
    data: &[u8],
    index: u32,
    glyphs: &[u16],
    coordinates: &[(Tag, i32)],
    limits: &Limits,
) -> Result<GlyphAdvances, Error>
    // What is answered is what the font's tables say, or the name of what is wrong with them, unless memory ran out.
    ensures value { Gives advances_seen result (advances_of (font_at «data».now index all_extras) coordinates.now limits.now.tokens glyphs.now) }
    // A font that can't be opened is refused before memory is taken.
    ensures opening { (e : SpecError) → opening (font_at «data».now index all_extras) ≡ Err e → result ≡ Err e }
{
    let (face, outlines) = open(data, index)?;
    advances_by(alloc, outlines, &face, coordinates, limits.tokens(), glyphs)
}
