//! The glyphs of the new table: their font dicts and their charstrings.

ghost use Rattle.std.specs.Prelude.{◌≡◌, ◌≤◌, ◌<◌, ◌-◌, ◌^◌, ℕ, false, min, length, IfOk, IfErr};
ghost use Rattle.subsetter_base.specs.Within.{FailsWithin, is_past};
ghost use Rattle.subsetter_cff_at.specs.Plain.{drawn};
ghost use Rattle.subsetter_cff_at.specs.View.{opened_of, IsDrawn, KeepsBound, drawn_size};

use crate::numbers::{dict_bound, find_numbers, present};
use crate::opening::OpenTable;
use crate::texts::draw_texts;
use std::alloc::Global;
use subsetter_base::error::Error;
use subsetter_cff2::made::{NewGlyphs, PlacedDict, place_dicts};
use subsetter_cff2::selection::used::{indexes_of, used_dicts};
use subsetter_points::Bounds;
use subsetter_type2::limits::Limits;

/// The private dicts at the coordinates, and all glyphs.
#[derive(Drop)]
pub struct DrawnGlyphs<'a> {
    /// The private dicts that the requested glyphs have.
    pub dicts: Vec<PlacedDict<'a>>,
    /// The glyphs.
    pub glyphs: NewGlyphs,
    /// The box of each.
    pub boxes: Vec<Option<Bounds>>,
}

/// A count of bytes that ends at the greatest `usize` passes a bound where the whole count does, as a bound has 32 bits.
fn count_is_whole(limits: Limits, counted: usize)
    ensures { (n : ℕ) → counted ≡ min n (2 ^ 64 - 1) → is_past limits.bytes counted ≡ false → is_past limits.bytes n ≡ false }
{
    let _counted = counted;
}

/// Draws the requested glyphs. `OverflowError` also where their charstrings pass the bound on bytes.
#[tactic(auto, unfolding(crate::specs::Plain::drawn))]
pub fn draw<'a>(
    alloc: Global,
    opened: &OpenTable<'a>,
    glyphs: &[Option<u16>],
    limits: Limits,
) -> Result<DrawnGlyphs<'a>, Error>
    requires { length glyphs.now ≤ 65535 }
    ensures ok { IfOk result (IsDrawn (opened_of opened.now).cff (opened_of opened.now).variation limits.tokens limits.depth glyphs.now) }
    ensures few { IfOk result (λ d. length d.dicts.items < 256) }
    ensures within { IfOk result (λ _. KeepsBound limits.bytes (drawn (opened_of opened.now).cff (opened_of opened.now).variation limits.tokens limits.depth glyphs.now)) }
    ensures err { IfErr result (λ e. FailsWithin limits.bytes drawn_size e (drawn (opened_of opened.now).cff (opened_of opened.now).variation limits.tokens limits.depth glyphs.now)) }
{
    let numbers = find_numbers(alloc, &opened.table, glyphs)?;
    let found = present(alloc, &numbers)?;
    let used = used_dicts(alloc, &found, dict_bound(&opened.table))?;
    let places = indexes_of(alloc, &used, &numbers)?;
    let dicts = place_dicts(alloc, &opened.table, &opened.variation.variation, &used)?;
    let texts = draw_texts(alloc, opened, &dicts, &places, glyphs, limits)?;
    count_is_whole(limits, texts.requested);
    Ok(DrawnGlyphs {
        dicts,
        glyphs: NewGlyphs {
            places,
            char_strings: texts.char_strings,
            ends: texts.ends,
        },
        boxes: texts.boxes,
    })
}
