//! What the codes of a text draw.

ghost use Rattle.std.specs.Prelude.{◌≡◌, ◌≤◌, ◌<◌, ◌-◌, length, get_or, IfOk, IfErr};
ghost use Rattle.subsetter_base.specs.declared.error.Error.TheVariants.{OutOfMemory};
ghost use Rattle.pdf_codes.specs.Shown.{uses_of as uses};
ghost use Rattle.pdf_text_font.specs.Pairs.{by_code, code_use, drawing_of, drawings_of, glyph_of, has_blank, own_or_nothing, part_use, uses_of, value_of, values_of};
ghost use Rattle.pdf_runs.specs.Codes.{zeroth};

use pdf_codes::Shown;
use pdf_figures::Placed;
use pdf_runs::{Figure, Pair};
use std::alloc::Global;
use subsetter_base::Error;
use subsetter_base::remapper::Remapper;

/// What draws a code.
#[derive(Clone, Copy)]
pub enum Drawing {
    /// A glyph of the subset.
    Glyph(u16),
    /// The own glyph with this place among them.
    Own(u16),
    /// A blank.
    Nothing,
}

/// Glyph 0, which says nothing.
fn zeroth() -> Pair
    ensures { result ≡ zeroth }
{
    Pair {
        figure: Figure::Source(0),
        says: None,
    }
}

/// The pair of each code: that of code 0 is glyph 0, which says nothing.
pub fn by_code(alloc: Global, pairs: &Remapper<u16, Pair>) -> Result<Vec<Pair>, Error>
    ensures ok { IfOk result (λ v. v.items ≡ by_code pairs.now) }
    ensures some { IfOk result (λ v. 0 < length v.items) }
    ensures few { IfOk result (λ v. length v.items ≤ 65535) }
    ensures err { IfErr result (λ e. e ≡ OutOfMemory) }
{
    let _count = pairs.len();
    let mut coded = Vec::new(alloc);
    coded.push(zeroth())?;
    let mut rest = pairs.sorted_iter();
    rest.next();
    for pair in rest {
        coded.push(pair)?;
    }
    Ok(coded)
}

/// The glyph that a figure wants in the subset of a source with `count` glyphs.
fn glyph_of(count: usize, figure: Figure) -> u16
    ensures { result ≡ glyph_of count figure }
{
    match figure {
        Figure::Source(glyph) => { if usize::from(glyph) < count { glyph } else { 0 } }
        Figure::Blank => 0,
    }
}

/// The glyphs in use, without texts: one for each code, and after them these parts. The source has `count` glyphs.
pub fn shown_of(
    alloc: Global,
    count: usize,
    pairs: &[Pair],
    parts: &[Placed],
) -> Result<Vec<Shown<'static>>, Error>
    ensures ok { IfOk result (λ shown. uses shown.items ≡ uses_of count pairs.now parts.now) }
    ensures err { IfErr result (λ e. e ≡ OutOfMemory) }
{
    let mut shown = Vec::with_capacity(alloc, pairs.len())?;
    for pair in pairs {
        shown.push(Shown {
            glyph: glyph_of(count, pair.figure),
            text: &[],
        })?;
    }
    for part in parts {
        shown.push(Shown {
            glyph: part.glyph,
            text: &[],
        })?;
    }
    Ok(shown)
}

/// The own glyph at a place, of `owns`, or nothing.
fn own_or_nothing(owns: usize, place: u16) -> Drawing
    ensures { result ≡ own_or_nothing owns place }
{
    if usize::from(place) < owns {
        Drawing::Own(place)
    } else {
        Drawing::Nothing
    }
}

/// What draws a figure, where the glyph that it wants has this number in the subset: `owns` own glyphs come after the `count` of
/// the source.
fn drawing_of(count: usize, owns: usize, figure: Figure, number: u16) -> Drawing
    ensures { result ≡ drawing_of count owns figure number }
{
    match figure {
        Figure::Source(glyph) => {
            let glyph = usize::from(glyph);
            if glyph < count {
                Drawing::Glyph(number)
            } else {
                own_or_nothing(owns, (glyph - count) as u16)
            }
        }
        Figure::Blank => Drawing::Nothing,
    }
}

/// What draws each code, where the glyphs that the codes want have these numbers in the subset. The source has `count` glyphs,
/// and there are `owns` own ones.
pub fn drawings_of(
    alloc: Global,
    count: usize,
    owns: usize,
    pairs: &[Pair],
    numbers: &[u16],
) -> Result<Vec<Drawing>, Error>
    requires { length pairs.now ≤ length numbers.now }
    ensures ok { IfOk result (λ drawings. drawings.items ≡ drawings_of count owns pairs.now numbers.now) }
    ensures err { IfErr result (λ e. e ≡ OutOfMemory) }
{
    let mut drawings = Vec::with_capacity(alloc, pairs.len())?;
    for place in 0..pairs.len() {
        drawings.push(drawing_of(count, owns, pairs[place].figure, numbers[place]))?;
    }
    Ok(drawings)
}

/// Whether a code draws nothing.
pub fn has_blank(drawings: &[Drawing]) -> bool
    ensures { result ≡ has_blank drawings.now }
{
    for drawing in drawings {
        if matches!(drawing, Drawing::Nothing) {
            return true;
        }
    }
    false
}

/// What a list has at a place, or another value.
fn value_at<T: Copy>(none: T, values: &[T], place: u16) -> T
    ensures { result ≡ get_or values.now place none }
{
    let place = usize::from(place);
    if place < values.len() {
        values[place]
    } else {
        none
    }
}

/// What a list has for a glyph, another one for an own glyph, and for a blank a value of its own.
fn value_of<T: Copy>(none: T, values: &[T], owns: &[T], drawing: Drawing) -> T
    ensures { result ≡ value_of none values.now owns.now drawing }
{
    match drawing {
        Drawing::Glyph(number) => value_at(none, values, number),
        Drawing::Own(place) => value_at(none, owns, place),
        Drawing::Nothing => none,
    }
}

/// What a list has for the glyph of each code, another one for its own glyph, and for a blank a value of its own.
pub fn values_of<T: Copy + Drop>(
    alloc: Global,
    none: T,
    values: &[T],
    owns: &[T],
    drawings: &[Drawing],
) -> Result<Vec<T>, Error>
    ensures ok { IfOk result (λ v. v.items ≡ values_of none values.now owns.now drawings.now) }
    ensures err { IfErr result (λ e. e ≡ OutOfMemory) }
{
    let mut by_code = Vec::with_capacity(alloc, drawings.len())?;
    for drawing in drawings {
        by_code.push(value_of(none, values, owns, *drawing))?;
    }
    Ok(by_code)
}
