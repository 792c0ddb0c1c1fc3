//! What shows a run of a font that gets own glyphs.

ghost use Rattle.std.specs.Prelude.{◌≡◌, ◌<◌, ◌≤◌, ◌+◌, ◌⊎◌, true, false, length, map, IfErr, IfOk, OnOk};
ghost use Rattle.pdf_runs.specs.Codes.{KeepsCodes};
ghost use Rattle.pdf_runs.specs.Items.{are_known, is_run};
ghost use Rattle.pdf_runs.specs.declared.error.RunError.TheVariants.{InvalidText, OutOfMemory, Overfull};
ghost use Rattle.pdf_figures.specs.Figures.{figured_run};
ghost use Rattle.pdf_figures.specs.Numbers.{figured_by};
ghost use Rattle.pdf_figures.specs.View.{Extends, inks_of};
ghost use Rattle.pdf_own_runs.specs.Shown.{AreFigures, IsShownBy, IsShownWithOwn, IsUnshown, IsUnshownWithOwn};

use crate::expanded::{all_inked, all_metrics};
use pdf_figures::{Choice, OwnGlyphs, OwnInk, figured_items};
use pdf_operators::{Font, Order, show_run};
use pdf_runs::{Direction, Item, Pair, RunError, is_run};
use std::alloc::Global;
use subsetter_base::Error;
use subsetter_base::remapper::Remapper;

/// How many glyphs a font has whose run items are. `InvalidText` where they are none, `Overfull` where it has more than
/// 65,535.
fn count_of(font: Font<'_>, direction: Direction, items: &[Item<'_>]) -> Result<u16, RunError>
    ensures ok { IfOk result (λ count. count ≡ length font.entry.metrics.now) }
    ensures run { OnOk result (is_run direction (length font.entry.metrics.now) items.now ≡ true) }
    ensures err { IfErr result (λ e. ((e ≡ InvalidText) × (is_run direction (length font.entry.metrics.now) items.now ≡ false)) ⊎ ((e ≡ Overfull) × (65535 < length font.entry.metrics.now))) }
{
    let count = font.metrics.len();
    if !is_run(direction, count, items) {
        return Err(RunError::InvalidText);
    }
    if count > 65535 {
        return Err(RunError::Overfull);
    }
    Ok(count as u16)
}

/// The figures of a run as items of the font with own glyphs after its glyphs.
#[tactic(auto, using(crate::proofs::FiguresRun::are_figures))]
fn items_with_own<'a>(
    alloc: Global,
    own: &mut OwnGlyphs,
    direction: Direction,
    choice: &Choice<'_>,
    count: u16,
    items: &'a [Item<'a>],
) -> Result<Vec<Item<'a>>, RunError>
    requires { is_run direction count items.now ≡ true }
    ensures ok { IfOk result (λ js. AreFigures count choice.now own.new.list.items direction items.now js.items) }
    ensures extends { Extends own.old.list.items own.new.list.items }
    ensures err { IfErr result (λ e. (e ≡ OutOfMemory) ⊎ ((e ≡ Overfull) × (65535 ≤ count + length own.new.list.items))) }
{
    match figured_items(alloc, own, direction, choice, count, items) {
        Ok(figures) => Ok(figures),
        Err(Error::OverflowError) => Err(RunError::Overfull),
        Err(_) => Err(RunError::OutOfMemory),
    }
}

/// The operators that show items of a font with own glyphs after its glyphs.
fn show_items(
    alloc: Global,
    font: Font<'_>,
    inked: &[bool],
    own: &[OwnInk],
    count: u16,
    direction: Direction,
    order: Order,
    size: u32,
    pairs: &mut Remapper<u16, Pair>,
    items: &[Item<'_>],
) -> Result<Vec<u8>, RunError>
    requires above { 0 < font.units }
    requires count { count ≡ length font.metrics.now }
    ensures shown { IfOk result (λ text. IsShownBy font.entry inked.now own.now direction order size pairs.old pairs.new items.now text.items) }
    ensures few { OnOk result (length pairs.new ≤ 65535) }
    ensures stay { KeepsCodes pairs.old pairs.new }
    ensures err { IfErr result (λ e. IsUnshown font.entry inked.now own.now direction order pairs.old pairs.new items.now e) }
{
    let metrics = all_metrics(alloc, font.units, font.metrics, own)?;
    let inked = all_inked(alloc, count, inked, own)?;
    let all = Font {
        units: font.units,
        metrics: &metrics,
        inked: &inked,
    };
    show_run(alloc, all, direction, order, size, pairs, items)
}

/// The operators that show a run with own glyphs, for a content stream as of [`pdf_operators::show_run`]: figures in
/// place of its glyphs, as items of the font with the own glyphs after its glyphs. Which glyphs have ink is asked of
/// the choice alone. Codes of earlier runs and numbers of earlier own glyphs stay, after an error too.
///
/// # Errors
///
/// - `InvalidText`: the glyphs are no run of the font, a number hasn't 32 bits, or an ActualText has more than 32,767
///   bytes. The pairs are as they were.
/// - `Overfull`: the font would have more than 65,535 glyphs, or there would be more than 65,535 codes. The pairs are
///   as they were.
/// - `OutOfMemory`: a request for memory was refused. The pairs of the first pieces may be there, and then have their
///   codes.
///
/// After each of them own glyphs of the run may be there, and then have their numbers.
#[tactic(auto, using(crate::proofs::WithOwn::uncounted, crate::proofs::WithOwn::unfigured))]
pub fn show_own_run<'a>(
    alloc: Global,
    font: Font<'_>,
    choice: &Choice<'_>,
    direction: Direction,
    order: Order,
    size: u32,
    pairs: &mut Remapper<u16, Pair>,
    own: &mut OwnGlyphs,
    items: &'a [Item<'a>],
) -> Result<Vec<u8>, RunError>
    requires { 0 < font.units }
    ensures shown { IfOk result (λ text. IsShownWithOwn font.entry choice.now direction order size pairs.old pairs.new own.new.list.items items.now text.items) }
    ensures few { OnOk result (length pairs.new ≤ 65535) }
    ensures stay { KeepsCodes pairs.old pairs.new }
    ensures extends { Extends own.old.list.items own.new.list.items }
    ensures err { IfErr result (λ e. IsUnshownWithOwn font.entry choice.now direction order pairs.old pairs.new own.new.list.items items.now e) }
{
    let count = count_of(font, direction, items)?;
    let figures = items_with_own(alloc, own, direction, choice, count, items)?;
    show_items(
        alloc,
        font,
        choice.inked,
        &own.list,
        count,
        direction,
        order,
        size,
        pairs,
        &figures,
    )
}
