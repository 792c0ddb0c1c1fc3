//! A cluster in one own glyph.

ghost use Rattle.std.specs.Prelude.{◌≡◌, ◌≤◌, ◌<◌, ◌+◌, ◌*◌, ◌^◌, ◌-◌, ◌+ℤ◌, true, false, not, pos, nat_lt, get_or, length, unsigned_abs, IfSome, IfNone, IfOk, IfErr};
ghost use Rattle.std.specs.List.{list_any};
ghost use Rattle.subsetter_base.specs.declared.error.Error.TheVariants.{OutOfMemory};
ghost use Rattle.pdf_runs.specs.Items.{text_of};
ghost use Rattle.pdf_runs.specs.Pieces.{is_bare};
ghost use Rattle.pdf_figures.specs.Figures.{are_parts, is_moved, is_part, is_whole, is_zeroth, own, parts_of, wants_one, x_total, y_total};
ghost use Rattle.pdf_figures.specs.View.{drawn_of, own_seen};

use crate::choice::Choice;
use crate::ink::{OwnInk, Placed};
use crate::parts::{advance_in, part_at};
use pdf_runs::{Item, text_of};
use std::alloc::Global;
use subsetter_base::Error;

/// Whether a glyph has ink, as far as that is known.
pub fn has_ink(inked: &[bool], glyph: u16) -> bool
    ensures { result ≡ get_or inked.now glyph true }
{
    let place = usize::from(glyph);
    if place < inked.len() {
        return inked[place];
    }
    true
}

/// Whether a glyph has no ink, and the run gives it no advance.
pub fn is_bare(inked: &[bool], item: &Item<'_>) -> bool
    ensures { result ≡ is_bare inked.now item.now }
{
    !has_ink(inked, item.glyph) && item.x_advance == 0 && item.y_advance == 0
}

/// Whether a glyph has an offset; the one of a cluster that is only moved aside is kerned.
fn is_moved(alone: bool, item: &Item<'_>) -> bool
    ensures { result ≡ is_moved alone item.now }
{
    item.y_offset != 0 || (item.x_offset != 0 && (!alone || item.x_advance == 0))
}

/// Whether a glyph has an offset.
fn is_any_moved(alone: bool, items: &[Item<'_>]) -> bool
    ensures { result ≡ list_any (is_moved alone) items.now }
{
    for item in items {
        if is_moved(alone, item) {
            return true;
        }
    }
    false
}

/// Whether one is glyph 0.
fn is_any_zeroth(items: &[Item<'_>]) -> bool
    ensures { result ≡ list_any is_zeroth items.now }
{
    for item in items {
        if item.glyph == 0 {
            return true;
        }
    }
    false
}

/// Whether a cluster has glyphs that are moved, or are more than its characters, and a text, and not glyph 0.
pub fn wants_one(items: &[Item<'_>]) -> bool
    ensures { result ≡ wants_one items.now }
{
    let count = items.len();
    let characters = text_of(items).len();
    if characters == 0 || is_any_zeroth(items) {
        return false;
    }
    is_any_moved(count == 1, items) || (1 < count && characters < count)
}

/// A place, so much further on.
pub fn moved(from: i64, by: i32) -> i64
    requires { unsigned_abs from ≤ 2 ^ 48 }
    ensures value { result ≡ from +ℤ by }
    ensures bound { unsigned_abs result ≤ unsigned_abs from + 2 ^ 31 }
{
    from + i64::from(by)
}

/// A part of a cluster whose pen is at a place.
fn part_of(choice: &Choice<'_>, item: &Item<'_>, x: i64, y: i64) -> Option<Placed>
    requires x_near { unsigned_abs x ≤ 2 ^ 48 }
    requires y_near { unsigned_abs y ≤ 2 ^ 48 }
    ensures some { IfSome result (λ p. (drawn_of p ≡ record { glyph = item.now.glyph; x = x +ℤ item.now.x_offset; y = y +ℤ item.now.y_offset }) × (is_part choice.now (record { glyph = item.now.glyph; x = x +ℤ item.now.x_offset; y = y +ℤ item.now.y_offset }) ≡ true)) }
    ensures none { IfNone result (is_part choice.now (record { glyph = item.now.glyph; x = x +ℤ item.now.x_offset; y = y +ℤ item.now.y_offset }) ≡ false) }
{
    part_at(
        choice,
        item.glyph,
        moved(x, item.x_offset),
        moved(y, item.y_offset),
    )
}

/// A cluster in one own glyph, if it can be one.
pub fn whole_of(
    alloc: Global,
    choice: &Choice<'_>,
    items: &[Item<'_>],
) -> Result<Option<OwnInk>, Error>
    ensures some { IfOk result (λ found. IfSome found (λ o. (is_whole choice.now items.now ≡ true) × (own_seen o ≡ own (parts_of choice.now items.now) (unsigned_abs (x_total items.now))))) }
    ensures none { IfOk result (λ found. IfNone found (is_whole choice.now items.now ≡ false)) }
    ensures err { IfErr result (λ e. e ≡ OutOfMemory) }
{
    let most = usize::from(choice.most_parts);
    let mut parts = Vec::new(alloc);
    let mut x = 0i64;
    let mut y = 0i64;
    for item in items {
        if !is_bare(choice.inked, item) {
            if parts.len() == most {
                return Ok(None);
            }
            match part_of(choice, item, x, y) {
                Some(part) => parts.push(part)?,
                None => return Ok(None),
            }
            x = moved(x, item.x_advance);
            y = moved(y, item.y_advance);
        }
    }
    if y != 0 {
        return Ok(None);
    }
    match advance_in(x) {
        Some(advance) => Ok(Some(OwnInk { parts, advance })),
        None => Ok(None),
    }
}
