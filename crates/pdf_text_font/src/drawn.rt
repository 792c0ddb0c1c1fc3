//! What draws the codes of a text: the program, and with TrueType outlines the map to its glyphs.

ghost use Rattle.std.specs.Prelude.{◌≡◌, ◌⊎◌, ◌≤◌, ◌<◌, ◌+◌, ◌∷◌, [], Some, length, IfOk, IfErr};
ghost use Rattle.std.specs.Option.{option_map};
ghost use Rattle.subsetter_base.specs.declared.error.Error.TheVariants.{OutOfMemory, OverflowError};
ghost use Rattle.subsetter_sfnt.specs.Read.{table_in};
ghost use Rattle.pdf_text_font.specs.Drawn.{AreDrawn, AreMapped, AreRepeated, HasDrawingFault, HasMore, HasNoMore, IsUncounted, IsUnmapped, IsUnrepeated, are_still, count_by, figure_of, figures_of, glyph_count, is_still, own_figure, part_glyph, with_advances};

use crate::glyph_map::map_to_glyphs;
use crate::pairs::Drawing;
use cff_repeats::with_repeats;
use own_glyphs::{OwnGlyph, Part, with_own_glyphs};
use pdf_text::ProgramKind;
use pdf_widths::with_widths;
use std::alloc::Global;
use subsetter_base::{Error, Tag};
use subsetter_sfnt::extras::Extras;
use subsetter_sfnt::face::Face;
use subsetter_sfnt::fields::maxp::num_glyphs;
use subsetter_sfnt::parse::parse;

/// The program, and the map to its glyphs.
#[derive(Drop)]
pub struct Drawn {
    pub program: Vec<u8>,
    /// None of outlines in `CFF `.
    pub map: Option<Vec<u8>>,
}

/// numGlyphs.
fn glyph_count(face: &Face<'_>) -> Option<u16>
    ensures { result ≡ count_by (table_in face.now.«data».now face.now.records.now) }
{
    num_glyphs(face.stored(Tag::MAXP)?)
}

/// How many glyphs a file has.
fn counted(file: &[u8]) -> Result<u16, Error>
    ensures ok { IfOk result (λ n. glyph_count file.now ≡ Some n) }
    ensures err { IfErr result (λ e. IsUncounted file.now e) }
{
    let face = parse(file, 0, Extras::ALL)?;
    match glyph_count(&face) {
        Some(count) => Ok(count),
        None => Err(Error::MalformedFont),
    }
}

/// How many own glyphs there are, if they and the `count` glyphs before them are at most 65,535.
fn few(count: u16, owns: usize) -> Result<u16, Error>
    ensures value { IfOk result (λ n. n ≡ owns) }
    ensures ok { IfOk result (λ _n. count + owns ≤ 65535) }
    ensures err { IfErr result (λ e. (e ≡ OverflowError) × (65535 < count + owns)) }
{
    if owns > usize::from(u16::MAX - count) {
        return Err(Error::OverflowError);
    }
    Ok(owns as u16)
}

/// The glyphs of a file and others after them, the first `owns` of these own ones, and a map to them.
fn with_more(
    alloc: Global,
    file: &[u8],
    others: &[OwnGlyph<'_>],
    owns: usize,
    drawings: &[Drawing],
) -> Result<Drawn, Error>
    ensures ok { IfOk result (λ d. HasMore file.now others.now owns drawings.now d.program.items (option_map (λ m. m.items) d.map)) }
    ensures err { IfErr result (λ e. (e ≡ OutOfMemory) ⊎ IsUnmapped file.now others.now owns e) }
{
    let number = counted(file)?;
    let owns = few(number, owns)?;
    let program = with_own_glyphs(alloc, file, others)?;
    let map = map_to_glyphs(alloc, number, owns, drawings)?;
    Ok(Drawn {
        program,
        map: Some(map),
    })
}

/// The glyphs of a file and others after them, if there are any, the first `owns` of these own ones, and a map to them.
fn mapped(
    alloc: Global,
    file: Vec<u8>,
    others: &[OwnGlyph<'_>],
    owns: usize,
    drawings: &[Drawing],
) -> Result<Drawn, Error>
    ensures ok { IfOk result (λ d. AreMapped file.items others.now owns drawings.now d.program.items (option_map (λ m. m.items) d.map)) }
    ensures err { IfErr result (λ e. (e ≡ OutOfMemory) ⊎ ((0 < length others.now) × IsUnmapped file.items others.now owns e)) }
{
    if others.len() != 0 {
        return with_more(alloc, &file, others, owns, drawings);
    }
    let map = map_to_glyphs(alloc, 0, 0, drawings)?;
    Ok(Drawn {
        program: file,
        map: Some(map),
    })
}

/// Whether an own glyph is a glyph at the origin, or a blank.
fn is_still(parts: &[Part]) -> bool
    ensures { result ≡ is_still parts.now }
{
    match parts {
        [] => true,
        [part] => part.x == 0 && part.y == 0,
        _ => false,
    }
}

/// Whether all own glyphs are.
fn are_still(others: &[OwnGlyph<'_>]) -> bool
    ensures { result ≡ are_still others.now }
{
    for other in others {
        if !is_still(other.parts) {
            return false;
        }
    }
    true
}

/// The glyph that an own glyph is; none of a blank.
fn part_glyph(parts: &[Part]) -> Option<u16>
    ensures { result ≡ part_glyph parts.now }
{
    let part = parts.first()?;
    Some(part.glyph)
}

/// The glyph that the own glyph with this place is.
fn own_figure(others: &[OwnGlyph<'_>], place: u16) -> Option<u16>
    ensures { result ≡ own_figure others.now place }
{
    let own = others.get(usize::from(place))?;
    part_glyph(own.parts)
}

/// The glyph of a `CFF ` that draws a code.
fn figure_of(others: &[OwnGlyph<'_>], drawing: Drawing) -> Option<u16>
    ensures { result ≡ figure_of others.now drawing }
{
    match drawing {
        Drawing::Glyph(number) => Some(number),
        Drawing::Own(place) => own_figure(others, place),
        Drawing::Nothing => None,
    }
}

/// The glyphs of a `CFF ` that draw the codes.
fn figures_of(
    alloc: Global,
    others: &[OwnGlyph<'_>],
    drawings: &[Drawing],
) -> Result<Vec<Option<u16>>, Error>
    ensures ok { IfOk result (λ v. v.items ≡ figures_of others.now drawings.now) }
    ensures err { IfErr result (λ e. e ≡ OutOfMemory) }
{
    let mut figures = Vec::with_capacity(alloc, drawings.len())?;
    for drawing in drawings {
        figures.push(figure_of(others, *drawing))?;
    }
    Ok(figures)
}

/// A `CFF ` whose codes have these advances.
fn with_advances(alloc: Global, advances: &[u16], cff: Vec<u8>) -> Result<Vec<u8>, Error>
    ensures ok { IfOk result (λ v. v.items ≡ with_advances advances.now cff.items) }
    ensures err { IfErr result (λ e. e ≡ OutOfMemory) }
{
    match with_widths(alloc, &cff, advances)? {
        Some(new) => Ok(new),
        None => Ok(cff),
    }
}

/// A `CFF ` with the charstring of each code's figure, and with its advance.
fn repeated(
    alloc: Global,
    cff: &[u8],
    others: &[OwnGlyph<'_>],
    advances: &[u16],
    drawings: &[Drawing],
) -> Result<Drawn, Error>
    ensures ok { IfOk result (λ d. AreRepeated cff.now others.now advances.now drawings.now d.program.items (option_map (λ m. m.items) d.map)) }
    ensures err { IfErr result (λ e. (e ≡ OutOfMemory) ⊎ IsUnrepeated cff.now others.now drawings.now e) }
{
    if !are_still(others) {
        return Err(Error::OverflowError);
    }
    let figures = figures_of(alloc, others, drawings)?;
    let again = with_repeats(alloc, cff, &figures)?;
    let program = with_advances(alloc, advances, again)?;
    Ok(Drawn { program, map: None })
}

/// What draws the codes: glyphs of a subset, and others after them, of which the first `owns` are own ones. `advances` are those
/// of the codes, in the font's units.
///
/// # Errors
///
/// - `OverflowError`: there would be more than 65,535 glyphs, or `with_own_glyphs` returns it; with outlines in `CFF ` an own
///   glyph has several parts or one that isn't at the origin, or `with_repeats` returns it.
/// - `MalformedFont`: the program isn't that of a subset.
/// - `OutOfMemory`: a request for memory was refused.
pub fn draw_codes(
    alloc: Global,
    kind: ProgramKind,
    program: Vec<u8>,
    others: &[OwnGlyph<'_>],
    owns: usize,
    advances: &[u16],
    drawings: &[Drawing],
) -> Result<Drawn, Error>
    ensures ok { IfOk result (λ d. AreDrawn kind program.items others.now owns advances.now drawings.now d.program.items (option_map (λ m. m.items) d.map)) }
    ensures err { IfErr result (λ e. (e ≡ OutOfMemory) ⊎ HasDrawingFault kind program.items others.now owns drawings.now e) }
{
    match kind {
        ProgramKind::TrueType => mapped(alloc, program, others, owns, drawings),
        ProgramKind::BareCff | ProgramKind::OpenType => {
            repeated(alloc, &program, others, advances, drawings)
        }
    }
}
