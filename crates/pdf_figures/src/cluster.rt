//! The figures of a run, cluster by cluster.

ghost use Rattle.std.specs.Prelude.{◌≡◌, ◌≤◌, ◌<◌, ◌+◌, ◌-◌, ◌++◌, ◌∷◌, [], true, false, length, map, take, drop, flat_map, unsigned_abs, pos, if◌then◌else◌, IfOk, IfErr, OnOk};
ghost use Rattle.subsetter_base.specs.declared.error.Error.TheVariants.{OutOfMemory};
ghost use Rattle.pdf_runs.specs.Clusters.{lists};
ghost use Rattle.pdf_runs.specs.Items.{in_reading, visual};
ghost use Rattle.pdf_runs.specs.Shares.{first_count};
ghost use Rattle.pdf_figures.specs.Figures.{at_place, beside_unless, cut_one, divided, figured_cluster, figured_run, first_share, is_across, is_whole, own, parts_of, plain, title_of, whole, x_total};
ghost use Rattle.pdf_figures.specs.View.{figure_seen, figures_seen, own_seen};

use crate::asides::{beside, plain};
use crate::choice::Choice;
use crate::cutting::{in_reading, push_cut_one};
use crate::ink::{Figure, FigureInk, OwnInk};
use crate::whole::{wants_one, whole_of};
use pdf_runs::{Direction, Item, clusters_of_run, text_of};
use std::alloc::Global;
use subsetter_base::Error;

/// Whether glyphs follow each other along a horizontal line.
fn is_across(direction: Direction) -> bool
    ensures { result ≡ is_across direction }
{
    match direction {
        Direction::LeftToRight | Direction::RightToLeft => true,
        Direction::TopToBottom => false,
    }
}

/// The characters of the first of `count` figures in reading order.
fn first_share(text: &[char], count: usize) -> &[char]
    ensures { result.now ≡ take (first_count count text.now) text.now }
{
    let others = text.len().saturating_sub(count);
    if others < text.len() {
        &text[..others + 1]
    } else {
        text
    }
}

/// The first `count` glyphs.
fn front<'a, 'b>(items: &'b [Item<'a>], count: usize) -> &'b [Item<'a>]
    requires { count ≤ length items.now }
    ensures { result.now ≡ take count items.now }
{
    &items[..count]
}

/// The glyphs after the first `count`.
fn after<'a, 'b>(items: &'b [Item<'a>], count: usize) -> &'b [Item<'a>]
    requires { count ≤ length items.now }
    ensures { result.now ≡ drop count items.now }
{
    &items[count..]
}

/// The figure of a glyph: itself, or an own glyph where it is far off its advance and not taken as it is.
fn figure_of<'a>(
    alloc: Global,
    choice: &Choice<'_>,
    item: &Item<'a>,
    as_it_is: bool,
) -> Result<Figure<'a>, Error>
    ensures ok { IfOk result (λ f. figure_seen f ≡ beside_unless as_it_is choice.now item.now) }
    ensures err { IfErr result (λ e. e ≡ OutOfMemory) }
{
    if as_it_is {
        return Ok(plain(item));
    }
    beside(alloc, choice, item)
}

/// Adds the figures of glyphs.
fn push_each<'a>(
    alloc: Global,
    figures: &mut Vec<Figure<'a>>,
    choice: &Choice<'_>,
    items: &[Item<'a>],
    as_they_are: bool,
) -> Result<(), Error>
    ensures ok { OnOk result (figures_seen figures.new.items ≡ figures_seen figures.old.items ++ map (beside_unless as_they_are choice.now) items.now) }
    ensures err { IfErr result (λ e. e ≡ OutOfMemory) }
{
    for item in items {
        figures.push(figure_of(alloc, choice, item, as_they_are)?)?;
    }
    Ok(())
}

/// Adds the figure of a glyph with these characters, cut.
fn push_alone<'a>(
    alloc: Global,
    figures: &mut Vec<Figure<'a>>,
    direction: Direction,
    choice: &Choice<'_>,
    item: &Item<'a>,
    as_it_is: bool,
    share: &[char],
) -> Result<(), Error>
    ensures ok { OnOk result (figures_seen figures.new.items ≡ figures_seen figures.old.items ++ cut_one choice.now (visual direction share.now) (beside_unless as_it_is choice.now item.now)) }
    ensures err { IfErr result (λ e. e ≡ OutOfMemory) }
{
    let figure = figure_of(alloc, choice, item, as_it_is)?;
    push_cut_one(alloc, figures, direction, choice, figure, share)
}

/// Adds the figures of a cluster's glyphs, the first in reading order cut.
#[tactic(auto, using(crate::proofs::Placing::alone_put))]
fn push_divided<'a>(
    alloc: Global,
    figures: &mut Vec<Figure<'a>>,
    direction: Direction,
    choice: &Choice<'_>,
    items: &[Item<'a>],
    as_they_are: bool,
) -> Result<(), Error>
    requires { 0 < length items.now }
    ensures ok { OnOk result (figures_seen figures.new.items ≡ figures_seen figures.old.items ++ at_place (in_reading direction (length items.now) 0) (cut_one choice.now (first_share direction (length items.now) items.now)) (map (beside_unless as_they_are choice.now) items.now)) }
    ensures err { IfErr result (λ e. e ≡ OutOfMemory) }
{
    let text = text_of(items);
    if items.len() == 1 {
        return push_alone(
            alloc,
            figures,
            direction,
            choice,
            &items[0],
            as_they_are,
            text,
        );
    }
    let first = in_reading(direction, items.len(), 0);
    let share = first_share(text, items.len());
    let before = front(items, first);
    push_each(alloc, figures, choice, before, as_they_are)?;
    let figure = figure_of(alloc, choice, &items[first], as_they_are)?;
    push_cut_one(alloc, figures, direction, choice, figure, share)?;
    let others = after(items, first + 1);
    push_each(alloc, figures, choice, others, as_they_are)
}

/// The text of a cluster, where it has one.
fn title_of<'a>(items: &[Item<'a>]) -> Option<&'a [char]>
    ensures { result ≡ title_of items.now }
{
    match items {
        [] => None,
        [item, ..] => item.text,
    }
}

/// A cluster in one own glyph.
fn in_one<'a>(own: OwnInk, items: &[Item<'a>]) -> Figure<'a>
    ensures { figure_seen result ≡ record { ink = own_seen own; text = title_of items.now; x_advance = pos own.advance; y_advance = pos 0; x_offset = pos 0; y_offset = pos 0 } }
{
    let x_advance = i32::from(own.advance);
    Figure {
        ink: FigureInk::Own(own),
        text: title_of(items),
        x_advance,
        y_advance: 0,
        x_offset: 0,
        y_offset: 0,
    }
}

/// Adds the figures of a cluster that wants one own glyph.
fn push_in_one<'a>(
    alloc: Global,
    figures: &mut Vec<Figure<'a>>,
    direction: Direction,
    choice: &Choice<'_>,
    items: &[Item<'a>],
) -> Result<(), Error>
    requires { 0 < length items.now }
    ensures ok { OnOk result (figures_seen figures.new.items ≡ figures_seen figures.old.items ++ divided direction choice.now items.now (if is_whole choice.now items.now then whole choice.now items.now ∷ [] else map plain items.now)) }
    ensures err { IfErr result (λ e. e ≡ OutOfMemory) }
{
    match whole_of(alloc, choice, items)? {
        Some(own) => {
            let figure = in_one(own, items);
            let share = first_share(text_of(items), 1);
            push_cut_one(alloc, figures, direction, choice, figure, share)
        }
        None => push_divided(alloc, figures, direction, choice, items, true),
    }
}

/// Adds the figures of a cluster.
fn push_cluster<'a>(
    alloc: Global,
    figures: &mut Vec<Figure<'a>>,
    direction: Direction,
    choice: &Choice<'_>,
    items: &[Item<'a>],
) -> Result<(), Error>
    ensures ok { OnOk result (figures_seen figures.new.items ≡ figures_seen figures.old.items ++ figured_cluster direction choice.now items.now) }
    ensures err { IfErr result (λ e. e ≡ OutOfMemory) }
{
    if items.len() == 0 || !is_across(direction) || choice.most_parts == 0 {
        return push_each(alloc, figures, choice, items, true);
    }
    if wants_one(items) {
        return push_in_one(alloc, figures, direction, choice, items);
    }
    push_divided(alloc, figures, direction, choice, items, false)
}

/// The figures of a run, in visual order.
///
/// # Errors
///
/// `OutOfMemory` alone.
pub fn figures_of_run<'a>(
    alloc: Global,
    direction: Direction,
    choice: &Choice<'_>,
    items: &'a [Item<'a>],
) -> Result<Vec<Figure<'a>>, Error>
    ensures ok { IfOk result (λ figures. figures_seen figures.items ≡ figured_run direction choice.now items.now) }
    ensures err { IfErr result (λ e. e ≡ OutOfMemory) }
{
    let clusters = clusters_of_run(alloc, items)?;
    let mut figures = Vec::with_capacity(alloc, items.len())?;
    for cluster in &clusters {
        push_cluster(alloc, &mut figures, direction, choice, cluster)?;
    }
    Ok(figures)
}
