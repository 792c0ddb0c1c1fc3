//! A run that is shown, for C.

ghost use Rattle.std.specs.Prelude.{◌≡◌, ◌<◌, map, length, IfOk, IfErr};
ghost use Rattle.pdf_runs.specs.Shaped.{is_shaped, items_of};
ghost use Rattle.subsetter_text_c.specs.Items.{labelled_in};
ghost use Rattle.subsetter_text_c.specs.Shown.{AreUnshown, IsOneShown, IsRunRefused, IsRunShown, IsTextShown, IsTextUnshown, are_one, lists_given, lists_shown};

use crate::items::{TextItem, items_in};
use crate::own::{TextOwn, TextPart, glyphs_of, owns_of, parts_of};
use crate::pairs::{TextPair, entries_of, pairs_of};
use crate::units::{Units, characters_of, characters_of_numbers, unit_of};
use pdf_figures::Choice;
use pdf_operators::{Font, Order};
use pdf_own_runs::show_own_run;
use pdf_runs::{Direction, Item, RunError, Shaped, Unit, items_of};
use std::alloc::Global;

/// What a text has of the runs before.
#[derive(Clone, Copy)]
pub struct Kept<'a> {
    /// What each code from 1 on draws and says.
    pub pairs: &'a [TextPair],
    /// The own glyphs, whose numbers are after those of the font's glyphs.
    pub own: &'a [TextOwn],
    /// Their parts, one after the other.
    pub parts: &'a [TextPart],
}

/// A run that is shown, and what the text has then.
#[derive(Drop)]
pub struct ShownRun {
    /// The operators.
    pub operators: Vec<u8>,
    pub pairs: Vec<TextPair>,
    pub own: Vec<TextOwn>,
    pub parts: Vec<TextPart>,
}

/// Shows a run of a text that has this.
#[tactic(auto, using(crate::proofs::ShownSteps::not_own, crate::proofs::ShownSteps::too_many, crate::proofs::ShownSteps::no_memory))]
fn show<'a>(
    alloc: Global,
    font: Font<'_>,
    choice: &Choice<'_>,
    kept: Kept<'_>,
    items: &'a [Item<'a>],
    direction: Direction,
    order: Order,
    size: u32,
) -> Result<ShownRun, RunError>
    requires { 0 < font.units }
    ensures ok { IfOk result (λ s. IsRunShown font.entry choice.now direction order size (lists_given kept.entry) (lists_shown s) items.now s.operators.items) }
    ensures err { IfErr result (λ e. IsRunRefused font.entry choice.now direction order (lists_given kept.entry) items.now e) }
{
    let mut pairs = pairs_of(alloc, kept.pairs)?;
    let mut own = glyphs_of(alloc, kept.own, kept.parts)?;
    let operators = show_own_run(
        alloc, font, choice, direction, order, size, &mut pairs, &mut own, items,
    )?;
    let pairs = entries_of(alloc, &pairs)?;
    let parts = parts_of(alloc, &own.list)?;
    let own = owns_of(alloc, &own.list)?;
    Ok(ShownRun {
        operators,
        pairs,
        own,
        parts,
    })
}

/// Shows a run of items, whose texts are ranges of characters, of a text that has this. The size is in thousandths of a unit
/// of text space.
///
/// # Errors
///
/// - `InvalidText`: a number is no character, the items aren't of the characters, own glyphs aren't what `own_of` reads, or what
///   `show_own_run` says.
/// - `Overfull`: there would be more than 65,535 codes, or glyphs of the font with own ones.
/// - `OutOfMemory`: a request for memory was refused.
#[tactic(auto, using(crate::proofs::ShownSteps::no_scalars, crate::proofs::ShownSteps::no_items))]
pub fn show_items(
    alloc: Global,
    font: Font<'_>,
    choice: &Choice<'_>,
    kept: Kept<'_>,
    items: &[TextItem],
    text: &[u32],
    direction: Direction,
    order: Order,
    size: u32,
) -> Result<ShownRun, RunError>
    requires { 0 < font.units }
    ensures ok { IfOk result (λ s. IsOneShown font.entry choice.now direction order size (lists_given kept.entry) (lists_shown s) (are_one text.now items.now) (map (labelled_in text.now) items.now) s.operators.items) }
    ensures err { IfErr result (λ e. AreUnshown font.entry choice.now direction order (lists_given kept.entry) (are_one text.now items.now) (map (labelled_in text.now) items.now) e) }
{
    let characters = characters_of_numbers(alloc, text)?;
    let items = items_in(alloc, &characters, items)?;
    show(alloc, font, choice, kept, &items, direction, order, size)
}

/// Shows a run of glyphs with cluster numbers.
#[tactic(auto, using(crate::proofs::ShownSteps::not_one))]
fn show_glyphs(
    alloc: Global,
    font: Font<'_>,
    choice: &Choice<'_>,
    kept: Kept<'_>,
    glyphs: &[Shaped],
    unit: Unit,
    characters: &[char],
    direction: Direction,
    order: Order,
    size: u32,
) -> Result<ShownRun, RunError>
    requires { 0 < font.units }
    ensures ok { IfOk result (λ s. IsOneShown font.entry choice.now direction order size (lists_given kept.entry) (lists_shown s) (is_shaped direction unit characters.now glyphs.now) (items_of direction unit characters.now glyphs.now) s.operators.items) }
    ensures err { IfErr result (λ e. AreUnshown font.entry choice.now direction order (lists_given kept.entry) (is_shaped direction unit characters.now glyphs.now) (items_of direction unit characters.now glyphs.now) e) }
{
    let items = items_of(alloc, direction, unit, characters, glyphs)?;
    show(alloc, font, choice, kept, &items, direction, order, size)
}

/// Shows a run of glyphs with cluster numbers, which count the units of a text. The size is in thousandths of a unit of text space.
///
/// # Errors
///
/// - `InvalidText`: the units are no text, the glyphs aren't of it, own glyphs aren't what `own_of` reads, or what `show_own_run`
///   says.
/// - `Overfull`: there would be more than 65,535 codes, or glyphs of the font with own ones.
/// - `OutOfMemory`: a request for memory was refused.
pub fn show_shaped(
    alloc: Global,
    font: Font<'_>,
    choice: &Choice<'_>,
    kept: Kept<'_>,
    glyphs: &[Shaped],
    units: Units<'_>,
    direction: Direction,
    order: Order,
    size: u32,
) -> Result<ShownRun, RunError>
    requires { 0 < font.units }
    ensures ok { IfOk result (λ s. IsTextShown font.entry choice.now direction order size (lists_given kept.entry) (lists_shown s) units.entry glyphs.now s.operators.items) }
    ensures err { IfErr result (λ e. IsTextUnshown font.entry choice.now direction order (lists_given kept.entry) units.entry glyphs.now e) }
{
    let characters = characters_of(alloc, units)?;
    show_glyphs(
        alloc,
        font,
        choice,
        kept,
        glyphs,
        unit_of(units),
        &characters,
        direction,
        order,
        size,
    )
}
