//! A figure of several characters, cut into equal parts.

ghost use Rattle.std.specs.Prelude.{◌≡◌, ◌≤◌, ◌<◌, ◌+◌, ◌-◌, ◌*◌, ◌/◌, ◌^◌, ◌++◌, ◌∷◌, [], true, false, not, get_or, length, map, drop, unsigned_abs, nat_lt, pos, ◌-ℤ◌, ◌==◌, None, ◌&&◌, IfSome, IfNone, IfOk, IfErr, OnOk};
ghost use Rattle.subsetter_base.specs.declared.error.Error.TheVariants.{OutOfMemory};
ghost use Rattle.pdf_runs.specs.Items.{in_reading, visual};
ghost use Rattle.pdf_runs.specs.Marks.{is_mark};
ghost use Rattle.pdf_figures.specs.Figures.{blank, cut, cut_one, going, in_parts, ink_advance, ink_parts, is_bare, is_divisible, is_divisible_ink, is_part, is_short_way, own, part_of, rest_of, untitled, wide_count};
ghost use Rattle.pdf_figures.specs.View.{cut_seen, drawn_of, figure_seen, figures_seen, ink_seen};

use crate::asides::font_advance;
use crate::choice::Choice;
use crate::ink::{Figure, FigureInk, OwnInk, Placed};
use crate::parts::part_at;
use crate::whole::has_ink;
use pdf_runs::{Direction, is_mark};
use std::alloc::Global;
use subsetter_base::Error;

/// What is left of a figure: its ink as parts.
#[derive(Drop)]
pub struct Uncut<'a> {
    pub parts: Vec<Placed>,
    pub text: Option<&'a [char]>,
    pub x_advance: i32,
    pub y_advance: i32,
    pub x_offset: i32,
    pub y_offset: i32,
}

/// A part of a figure, and what is left.
#[derive(Drop)]
struct Parted<'a> {
    part: Figure<'a>,
    rest: Uncut<'a>,
}

/// The place in reading order of what is seen at a place, of `count`.
pub fn in_reading(direction: Direction, count: usize, place: usize) -> usize
    requires { place < count }
    ensures value { result ≡ in_reading direction count place }
    ensures within { result < count }
{
    match direction {
        Direction::RightToLeft => count - 1 - place,
        Direction::LeftToRight | Direction::TopToBottom => place,
    }
}

/// Whether the character at a place is a mark, as they are seen.
fn is_mark_at(direction: Direction, share: &[char], place: usize) -> bool
    requires { place < length share.now }
    ensures { result ≡ is_mark (get_or (visual direction share.now) place 0) }
{
    is_mark(share[in_reading(direction, share.len(), place)])
}

/// How many characters are no marks.
fn wide_count(direction: Direction, share: &[char]) -> usize
    ensures value { result ≡ wide_count (visual direction share.now) }
    ensures bound { result ≤ length share.now }
{
    let mut count = 0;
    for character in share {
        if !is_mark(*character) {
            count += 1;
        }
    }
    count
}

/// A blank with a text.
fn blank<'a>(alloc: Global, text: Option<&'a [char]>) -> Figure<'a>
    ensures { figure_seen result ≡ blank text.entry }
{
    Figure {
        ink: FigureInk::Own(OwnInk {
            parts: Vec::new(alloc),
            advance: 0,
        }),
        text,
        x_advance: 0,
        y_advance: 0,
        x_offset: 0,
        y_offset: 0,
    }
}

/// How far the pen goes on at a part with `more` parts after it: at the last one all the way.
fn going(more: usize, way: i32, part: u16) -> i32
    ensures { result ≡ going more way part }
{
    if more == 0 { way } else { i32::from(part) }
}

/// An equal part of what is left of an advance, with `more` parts after it.
fn equal_part(width: u16, more: usize) -> u16
    requires { more + 1 < 2 ^ 64 }
    ensures value { result ≡ width / (more + 1) }
    ensures within { result ≤ width }
{
    (u64::from(width) / (more as u64 + 1)) as u16
}

/// The part of a character that is no mark, and what is left.
fn part_and_rest<'a>(alloc: Global, whole: Uncut<'a>, part: u16, more: usize) -> Parted<'a>
    requires { unsigned_abs whole.x_advance + part < 2 ^ 31 }
    ensures part { figure_seen result.part ≡ record { ink = own (map drawn_of whole.entry.parts.items) part; text = whole.entry.text; x_advance = going more whole.entry.x_advance part; y_advance = whole.entry.y_advance; x_offset = whole.entry.x_offset; y_offset = whole.entry.y_offset } }
    ensures rest { cut_seen result.rest ≡ record { ink = own [] 0; text = None; x_advance = whole.entry.x_advance -ℤ pos part; y_advance = pos 0; x_offset = pos 0; y_offset = pos 0 } }
{
    let Uncut {
        parts,
        text,
        x_advance,
        y_advance,
        x_offset,
        y_offset,
    } = whole;
    Parted {
        part: Figure {
            ink: FigureInk::Own(OwnInk {
                parts,
                advance: part,
            }),
            text,
            x_advance: going(more, x_advance, part),
            y_advance,
            x_offset,
            y_offset,
        },
        rest: Uncut {
            parts: Vec::new(alloc),
            text: None,
            x_advance: x_advance - i32::from(part),
            y_advance: 0,
            x_offset: 0,
            y_offset: 0,
        },
    }
}

/// Whether several characters are no marks.
#[tactic(auto, using(crate::proofs::WideCounts::few_wide))]
fn are_several(direction: Direction, share: &[char]) -> bool
    ensures { result ≡ nat_lt 1 (wide_count (visual direction share.now)) }
{
    1 < share.len() && 1 < wide_count(direction, share)
}

/// Puts a figure for each character after others, as they are seen. Marks have no width.
fn push_cut<'a>(
    alloc: Global,
    figures: &mut Vec<Figure<'a>>,
    direction: Direction,
    whole: Uncut<'a>,
    width: u16,
    share: &[char],
) -> Result<(), Error>
    requires { unsigned_abs whole.x_advance < 2 ^ 30 }
    ensures ok { OnOk result (figures_seen figures.new.items ≡ figures_seen figures.old.items ++ cut (cut_seen whole.entry) width (visual direction share.now)) }
    ensures err { IfErr result (λ e. e ≡ OutOfMemory) }
{
    let mut rest = whole;
    let mut width = width;
    let mut more = wide_count(direction, share);
    for place in 0..share.len() {
        if is_mark_at(direction, share, place) {
            figures.push(blank(alloc, rest.text))?;
            rest.text = None;
        } else {
            more -= 1;
            let part = equal_part(width, more);
            let parted = part_and_rest(alloc, rest, part, more);
            figures.push(parted.part)?;
            rest = parted.rest;
            width -= part;
        }
    }
    Ok(())
}

// ---- which figures are cut

/// Whether a glyph of the font can be cut: it can be a part, and it isn't glyph 0, nor one without ink and advance.
fn is_divisible_glyph(choice: &Choice<'_>, glyph: u16, is_still: bool) -> bool
    ensures { result ≡ ((not (glyph == 0) && not (not (get_or choice.now.inked.now glyph true) && is_still)) && is_part choice.now (record { glyph = glyph; x = pos 0; y = pos 0 })) }
{
    glyph != 0
        && (has_ink(choice.inked, glyph) || !is_still)
        && part_at(choice, glyph, 0, 0).is_some()
}

/// Whether a figure can be cut: the pen goes on by less than 2^30 units, and its glyph can be.
fn is_divisible(choice: &Choice<'_>, figure: &Figure<'_>) -> bool
    ensures { result ≡ is_divisible choice.now (figure_seen figure.now) }
{
    let is_still = figure.x_advance == 0 && figure.y_advance == 0;
    let can_be = match &figure.ink {
        FigureInk::Glyph(glyph) => is_divisible_glyph(choice, *glyph, is_still),
        FigureInk::Own(_) => true,
    };
    can_be && figure.x_advance.unsigned_abs() < 1_073_741_824
}

/// The advance of what is drawn; that of a glyph is the font's.
fn ink_advance(choice: &Choice<'_>, ink: &FigureInk) -> u16
    ensures { result ≡ ink_advance choice.now (ink_seen ink.now) }
{
    match ink {
        FigureInk::Glyph(glyph) => font_advance(choice, *glyph),
        FigureInk::Own(own) => own.advance,
    }
}

/// What is drawn, as parts.
fn parts_of(alloc: Global, ink: FigureInk) -> Result<Vec<Placed>, Error>
    ensures ok { IfOk result (λ parts. map drawn_of parts.items ≡ ink_parts (ink_seen ink)) }
    ensures err { IfErr result (λ e. e ≡ OutOfMemory) }
{
    match ink {
        FigureInk::Own(own) => {
            let OwnInk { parts, .. } = own;
            Ok(parts)
        }
        FigureInk::Glyph(glyph) => {
            let mut parts = Vec::new(alloc);
            parts.push(Placed { glyph, x: 0, y: 0 })?;
            Ok(parts)
        }
    }
}

/// A figure before it is cut: its ink as parts.
fn in_parts<'a>(alloc: Global, figure: Figure<'a>) -> Result<Uncut<'a>, Error>
    ensures ok { IfOk result (λ u. cut_seen u ≡ in_parts (figure_seen figure.entry)) }
    ensures x { IfOk result (λ u. u.x_advance ≡ figure.entry.x_advance) }
    ensures err { IfErr result (λ e. e ≡ OutOfMemory) }
{
    let Figure {
        ink,
        text,
        x_advance,
        y_advance,
        x_offset,
        y_offset,
    } = figure;
    Ok(Uncut {
        parts: parts_of(alloc, ink)?,
        text,
        x_advance,
        y_advance,
        x_offset,
        y_offset,
    })
}

/// Puts a figure after others, cut where it has several characters that are no marks, and can be.
pub fn push_cut_one<'a>(
    alloc: Global,
    figures: &mut Vec<Figure<'a>>,
    direction: Direction,
    choice: &Choice<'_>,
    figure: Figure<'a>,
    share: &[char],
) -> Result<(), Error>
    ensures ok { OnOk result (figures_seen figures.new.items ≡ figures_seen figures.old.items ++ cut_one choice.now (visual direction share.now) (figure_seen figure.entry)) }
    ensures err { IfErr result (λ e. e ≡ OutOfMemory) }
{
    if are_several(direction, share) && is_divisible(choice, &figure) {
        let width = ink_advance(choice, &figure.ink);
        let whole = in_parts(alloc, figure)?;
        return push_cut(alloc, figures, direction, whole, width, share);
    }
    figures.push(figure)?;
    Ok(())
}
