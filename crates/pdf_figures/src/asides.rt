//! A glyph as it is, or far off its advance as an own one.

ghost use Rattle.std.specs.Prelude.{◌≡◌, ◌≤◌, ◌<◌, ◌+◌, ◌*◌, ◌^◌, ◌&&◌, ◌∷◌, [], not, map, pos, true, false, get_or, unsigned_abs, IfSome, IfNone, IfOk, IfErr};
ghost use Rattle.std.specs.Ordering.{int_eq};
ghost use Rattle.subsetter_base.specs.declared.error.Error.TheVariants.{OutOfMemory};
ghost use Rattle.pdf_figures.specs.Figures.{are_parts, aside, beside, is_aside, is_back, is_zeroth, own, plain};
ghost use Rattle.pdf_figures.specs.View.{drawn_of, figure_seen, own_seen};

use crate::choice::Choice;
use crate::ink::{Figure, FigureInk, OwnInk, Placed};
use crate::parts::{advance_in, part_at};
use crate::whole::has_ink;
use pdf_runs::Item;
use std::alloc::Global;
use subsetter_base::Error;

/// A glyph as it is.
pub fn plain<'a>(item: &Item<'a>) -> Figure<'a>
    ensures { figure_seen result ≡ plain item.now }
{
    Figure {
        ink: FigureInk::Glyph(item.glyph),
        text: item.text,
        x_advance: item.x_advance,
        y_advance: item.y_advance,
        x_offset: item.x_offset,
        y_offset: item.y_offset,
    }
}

/// The advance of a glyph in the font.
pub fn font_advance(choice: &Choice<'_>, glyph: u16) -> u16
    ensures { result ≡ get_or choice.now.advances.now glyph 0 }
{
    let place = usize::from(glyph);
    if place < choice.advances.len() {
        return choice.advances[place];
    }
    0
}

/// Whether a glyph is aside by more than a tenth of the em, or its advance is so much less than the font's.
fn is_back(choice: &Choice<'_>, item: &Item<'_>) -> bool
    ensures { result ≡ is_back choice.now item.now }
{
    let units = u64::from(choice.units);
    let aside = 10 * u64::from(item.x_offset.unsigned_abs());
    let advance = units + 10 * u64::from(item.x_advance.unsigned_abs());
    units < aside || advance < 10 * u64::from(font_advance(choice, item.glyph))
}

/// Whether a glyph with ink, other than glyph 0, is far off its advance, along the line.
fn is_off(choice: &Choice<'_>, item: &Item<'_>) -> bool
    ensures { result ≡ ((not (is_zeroth item.now) && get_or choice.now.inked.now item.now.glyph true) && (int_eq item.now.y_offset (pos 0) && is_back choice.now item.now)) }
{
    item.glyph != 0
        && has_ink(choice.inked, item.glyph)
        && item.y_offset == 0
        && is_back(choice, item)
}

/// The part that a glyph aside is, if it can be one.
fn aside_part(choice: &Choice<'_>, item: &Item<'_>) -> Option<Placed>
    ensures some { IfSome result (λ p. (map drawn_of (p ∷ []) ≡ aside item.now) × (are_parts choice.now choice.now.most_parts (aside item.now) ≡ true)) }
    ensures none { IfNone result (are_parts choice.now choice.now.most_parts (aside item.now) ≡ false) }
{
    if choice.most_parts == 0 {
        return None;
    }
    part_at(choice, item.glyph, i64::from(item.x_offset), 0)
}

/// An own glyph of one part.
fn one_part(alloc: Global, part: Placed, advance: u16) -> Result<OwnInk, Error>
    ensures ok { IfOk result (λ o. own_seen o ≡ own (map drawn_of (part ∷ [])) advance) }
    ensures err { IfErr result (λ e. e ≡ OutOfMemory) }
{
    let mut parts = Vec::new(alloc);
    parts.push(part)?;
    Ok(OwnInk { parts, advance })
}

/// A glyph far off its advance, as an own glyph, if it can be one.
fn set_aside(alloc: Global, choice: &Choice<'_>, item: &Item<'_>) -> Result<Option<OwnInk>, Error>
    ensures some { IfOk result (λ found. IfSome found (λ o. (is_aside choice.now item.now ≡ true) × (own_seen o ≡ own (aside item.now) (unsigned_abs item.now.x_advance)))) }
    ensures none { IfOk result (λ found. IfNone found (is_aside choice.now item.now ≡ false)) }
    ensures err { IfErr result (λ e. e ≡ OutOfMemory) }
{
    if !is_off(choice, item) {
        return Ok(None);
    }
    let part = match aside_part(choice, item) {
        Some(part) => part,
        None => return Ok(None),
    };
    match advance_in(i64::from(item.x_advance)) {
        Some(advance) => Ok(Some(one_part(alloc, part, advance)?)),
        None => Ok(None),
    }
}

/// A glyph as it is, or far off its advance as an own one.
pub fn beside<'a>(alloc: Global, choice: &Choice<'_>, item: &Item<'a>) -> Result<Figure<'a>, Error>
    ensures ok { IfOk result (λ f. figure_seen f ≡ beside choice.now item.now) }
    ensures err { IfErr result (λ e. e ≡ OutOfMemory) }
{
    match set_aside(alloc, choice, item)? {
        Some(ink) => Ok(Figure {
            ink: FigureInk::Own(ink),
            text: item.text,
            x_advance: item.x_advance,
            y_advance: item.y_advance,
            x_offset: 0,
            y_offset: 0,
        }),
        None => Ok(plain(item)),
    }
}
