//! What shows a run.

ghost use Rattle.std.specs.Prelude.{◌≡◌, ◌<◌, ◌≤◌, ◌⊎◌, ◌++◌, ◌∷◌, [], true, false, length, IfErr, IfOk, OnErr, OnOk};
ghost use Rattle.pdf_runs.specs.declared.error.RunError.TheVariants.{InvalidText, OutOfMemory, Overfull};
ghost use Rattle.pdf_runs.specs.Clusters.{clusters, lists};
ghost use Rattle.pdf_runs.specs.Codes.{KeepsCodes, pair_of, with_pairs};
ghost use Rattle.pdf_runs.specs.Pieces.{pieces_of_run};
ghost use Rattle.pdf_runs.specs.Words.{groups};
ghost use Rattle.pdf_operators.specs.Operators.{act_of, acts_of, operators, text_of_all};
ghost use Rattle.pdf_operators.specs.Order.{is_turned, turned};
ghost use Rattle.pdf_operators.specs.Pens.{advance_of};
ghost use Rattle.pdf_operators.specs.Places.{are_near, fits, is_near, laid, last_back, next, shown_at, stop_after};
ghost use Rattle.pdf_operators.specs.Reading.{AreCoded, IsShown};
ghost use Rattle.pdf_operators.specs.Runs.{IsFull, IsRefused, acts_after, are_shown, back_acts, end_acts, in_span, is_laid, is_long, is_part_shown, is_valid, level_acts, part_acts, part_stop, parts, run_acts};

use crate::operations::{Operation, write_operators};
use crate::order::{Order, is_turned, turn_parts, turn_pieces};
use crate::parts::{is_long, is_spanned, parts_of_run};
use crate::places::{Font, Stop, advance_of, end_of, last_back, next, start};
use pdf_runs::{
    Direction, Item, Pair, Piece, RunError, clusters_of_run, codes_of, is_run, pair_of,
    pieces_of_clusters,
};
use std::alloc::Global;
use subsetter_base::Error;
use subsetter_base::remapper::Remapper;

// ---- a piece

/// Puts an operation after others.
#[tactic(auto, using(crate::proofs::RunSteps::act_put))]
fn push<'a>(operations: &mut Vec<Operation<'a>>, operation: Operation<'a>) -> Result<(), RunError>
    ensures ok { OnOk result (acts_of operations.new.items ≡ acts_of operations.old.items ++ act_of operation.entry ∷ []) }
    ensures err { IfErr result (λ e. e ≡ OutOfMemory) }
{
    operations.push(operation)?;
    Ok(())
}

/// Puts what shows a piece after others: from a stop on to the next.
fn push_shown(
    operations: &mut Vec<Operation<'_>>,
    stop: Stop,
    next: Stop,
    piece: Piece,
) -> Result<(), RunError>
    ensures ok { OnOk result (acts_of operations.new.items ≡ acts_of operations.old.items ++ shown_at stop next (pair_of piece)) }
    ensures err { IfErr result (λ e. e ≡ OutOfMemory) }
{
    if next.rise != stop.rise {
        push(operations, Operation::Rise(next.rise))?;
    }
    push(operations, Operation::Show(next.back, pair_of(piece)))
}

/// Puts what shows a piece after others, and gives the stop after it.
fn push_piece(
    operations: &mut Vec<Operation<'_>>,
    font: Font<'_>,
    direction: Direction,
    stop: Stop,
    piece: Piece,
) -> Result<Stop, RunError>
    requires { 0 < font.units }
    ensures ok { OnOk result (acts_of operations.new.items ≡ acts_of operations.old.items ++ shown_at stop (next font.entry direction stop piece) (pair_of piece)) }
    ensures next { IfOk result (λ s. s ≡ next font.entry direction stop piece) }
    ensures near { OnOk result (is_near (next font.entry direction stop piece) ≡ true) }
    ensures err { IfErr result (λ e. (e ≡ OutOfMemory) ⊎ ((e ≡ InvalidText) × (is_near (next font.entry direction stop piece) ≡ false))) }
{
    match next(font, direction, stop, piece) {
        Some(following) => {
            push_shown(operations, stop, following, piece)?;
            Ok(following)
        }
        None => Err(RunError::InvalidText),
    }
}

/// Puts what shows pieces after others, and gives the stop after them.
fn push_pieces(
    operations: &mut Vec<Operation<'_>>,
    font: Font<'_>,
    direction: Direction,
    stop: Stop,
    pieces: &[Piece],
) -> Result<Stop, RunError>
    requires { 0 < font.units }
    ensures ok { OnOk result (acts_of operations.new.items ≡ acts_of operations.old.items ++ laid font.entry direction stop pieces.now) }
    ensures next { IfOk result (λ s. s ≡ stop_after font.entry direction stop pieces.now) }
    ensures near { OnOk result (are_near font.entry direction stop pieces.now ≡ true) }
    ensures err { IfErr result (λ e. (e ≡ OutOfMemory) ⊎ ((e ≡ InvalidText) × (are_near font.entry direction stop pieces.now ≡ false))) }
{
    let mut following = stop;
    for piece in pieces {
        following = push_piece(operations, font, direction, following, *piece)?;
    }
    Ok(following)
}

// ---- a part

/// Puts what shows pieces after others, with an ActualText around it.
fn push_span<'a>(
    operations: &mut Vec<Operation<'a>>,
    font: Font<'_>,
    direction: Direction,
    stop: Stop,
    clusters: &'a [&'a [Item<'a>]],
    pieces: &[Piece],
) -> Result<Stop, RunError>
    requires { 0 < font.units }
    ensures ok { OnOk result (acts_of operations.new.items ≡ acts_of operations.old.items ++ in_span true (text_of_all (lists clusters.now)) (laid font.entry direction stop pieces.now)) }
    ensures next { IfOk result (λ s. s ≡ stop_after font.entry direction stop pieces.now) }
    ensures near { OnOk result (are_near font.entry direction stop pieces.now ≡ true) }
    ensures short { OnOk result (is_long (lists clusters.now) ≡ false) }
    ensures err { IfErr result (λ e. (e ≡ OutOfMemory) ⊎ ((e ≡ InvalidText) × ((is_long (lists clusters.now) ≡ true) ⊎ (are_near font.entry direction stop pieces.now ≡ false)))) }
{
    if is_long(clusters) {
        return Err(RunError::InvalidText);
    }
    push(operations, Operation::Begin(clusters))?;
    let following = push_pieces(operations, font, direction, stop, pieces)?;
    push(operations, Operation::End)?;
    Ok(following)
}

/// Puts what shows a part after others, and gives the stop after it.
fn push_part<'a>(
    alloc: Global,
    operations: &mut Vec<Operation<'a>>,
    font: Font<'_>,
    direction: Direction,
    stop: Stop,
    clusters: &'a [&'a [Item<'a>]],
) -> Result<Stop, RunError>
    requires { 0 < font.units }
    ensures ok { OnOk result (acts_of operations.new.items ≡ acts_of operations.old.items ++ part_acts font.entry direction stop (lists clusters.now)) }
    ensures next { IfOk result (λ s. s ≡ part_stop font.entry direction stop (lists clusters.now)) }
    ensures valid { OnOk result (is_part_shown font.entry direction stop (lists clusters.now) ≡ true) }
    ensures err { IfErr result (λ e. (e ≡ OutOfMemory) ⊎ ((e ≡ InvalidText) × (is_part_shown font.entry direction stop (lists clusters.now) ≡ false))) }
{
    let mut pieces = pieces_of_clusters(alloc, direction, font.inked, clusters).map_err(
        |_| RunError::OutOfMemory,
    )?;
    turn_pieces(stop.is_turned, &mut pieces);
    if is_spanned(direction, clusters, &pieces) {
        push_span(operations, font, direction, stop, clusters, &pieces)
    } else {
        push_pieces(operations, font, direction, stop, &pieces)
    }
}

// ---- a run

/// Takes the pen back, if it has to go.
fn push_back(operations: &mut Vec<Operation<'_>>, back: i32) -> Result<(), RunError>
    ensures ok { OnOk result (acts_of operations.new.items ≡ acts_of operations.old.items ++ back_acts back) }
    ensures err { IfErr result (λ e. e ≡ OutOfMemory) }
{
    if back != 0 {
        push(operations, Operation::Back(back))?;
    }
    Ok(())
}

/// Takes the text rise to 0.
fn push_level(operations: &mut Vec<Operation<'_>>, rise: i32) -> Result<(), RunError>
    ensures ok { OnOk result (acts_of operations.new.items ≡ acts_of operations.old.items ++ level_acts rise) }
    ensures err { IfErr result (λ e. e ≡ OutOfMemory) }
{
    if rise != 0 {
        push(operations, Operation::Rise(0))?;
    }
    Ok(())
}

/// Takes the pen to the end, and the text rise to 0.
#[tactic(auto, using(crate::proofs::RunSteps::two_put))]
fn push_ends(operations: &mut Vec<Operation<'_>>, back: i32, rise: i32) -> Result<(), RunError>
    ensures ok { OnOk result (acts_of operations.new.items ≡ acts_of operations.old.items ++ (back_acts back ++ level_acts rise)) }
    ensures err { IfErr result (λ e. e ≡ OutOfMemory) }
{
    push_back(operations, back)?;
    push_level(operations, rise)
}

/// Takes the pen after a stop to the end, and the text rise to 0, if the number has 32 bits.
fn push_end(
    operations: &mut Vec<Operation<'_>>,
    font: Font<'_>,
    end: i32,
    stop: Stop,
) -> Result<(), RunError>
    requires { 0 < font.units }
    ensures ok { OnOk result (acts_of operations.new.items ≡ acts_of operations.old.items ++ end_acts font.entry end stop) }
    ensures valid { OnOk result (fits (last_back font.entry end stop) ≡ true) }
    ensures err { IfErr result (λ e. (e ≡ OutOfMemory) ⊎ ((e ≡ InvalidText) × (fits (last_back font.entry end stop) ≡ false))) }
{
    match last_back(font, end, stop) {
        Some(back) => {
            push_ends(operations, back, stop.rise)?;
            Ok(())
        }
        None => Err(RunError::InvalidText),
    }
}

/// What shows parts with `count` clusters from a stop on, up to the end of the line.
fn operations_of_parts<'a>(
    alloc: Global,
    font: Font<'_>,
    direction: Direction,
    end: i32,
    first: Stop,
    count: usize,
    parts: &[&'a [&'a [Item<'a>]]],
) -> Result<Vec<Operation<'a>>, RunError>
    requires { 0 < font.units }
    ensures ok { IfOk result (λ operations. acts_of operations.items ≡ acts_after font.entry direction end first (groups parts.now)) }
    ensures valid { OnOk result (are_shown font.entry direction end first (groups parts.now) ≡ true) }
    ensures err { IfErr result (λ e. (e ≡ OutOfMemory) ⊎ ((e ≡ InvalidText) × (are_shown font.entry direction end first (groups parts.now) ≡ false))) }
{
    let mut operations = Vec::with_capacity(alloc, count)?;
    let mut stop = first;
    for part in parts {
        stop = push_part(alloc, &mut operations, font, direction, stop, *part)?;
    }
    push_end(&mut operations, font, end, stop)?;
    Ok(operations)
}

/// The parts of a run in the order in which they are written.
fn run_parts<'a, 'b>(
    alloc: Global,
    direction: Direction,
    order: Order,
    clusters: &'b [&'a [Item<'a>]],
) -> Result<Vec<&'b [&'a [Item<'a>]]>, RunError>
    ensures ok { IfOk result (λ found. groups found.items ≡ turned (is_turned direction order) (parts direction (lists clusters.now))) }
    ensures err { IfErr result (λ e. e ≡ OutOfMemory) }
{
    let mut parts = parts_of_run(alloc, direction, clusters)?;
    turn_parts(is_turned(direction, order), &mut parts);
    Ok(parts)
}

/// What shows a run, given its clusters.
#[tactic(auto, using(crate::proofs::RunSteps::acts_are, crate::proofs::RunSteps::laid_are, crate::proofs::RunSteps::unlaid))]
fn operations_of_run<'a>(
    alloc: Global,
    font: Font<'_>,
    direction: Direction,
    order: Order,
    items: &[Item<'_>],
    found: &'a [&'a [Item<'a>]],
) -> Result<Vec<Operation<'a>>, RunError>
    requires above { 0 < font.units }
    requires found { lists found.now ≡ clusters items.now }
    ensures ok { IfOk result (λ operations. acts_of operations.items ≡ run_acts font.entry direction order items.now) }
    ensures valid { OnOk result (is_laid font.entry direction order items.now ≡ true) }
    ensures err { IfErr result (λ e. (e ≡ OutOfMemory) ⊎ ((e ≡ InvalidText) × (is_laid font.entry direction order items.now ≡ false))) }
{
    let advance = match advance_of(items) {
        Some(advance) => advance,
        None => return Err(RunError::InvalidText),
    };
    let parts = run_parts(alloc, direction, order, found)?;
    let first = start(is_turned(direction, order), advance);
    operations_of_parts(
        alloc,
        font,
        direction,
        end_of(direction, advance),
        first,
        found.len(),
        &parts,
    )
}

/// Gives pieces codes.
fn code_pieces(
    alloc: Global,
    pairs: &mut Remapper<u16, Pair>,
    pieces: &[Piece],
) -> Result<(), RunError>
    ensures pairs { OnOk result (pairs.new ≡ with_pairs pairs.old pieces.now) }
    ensures coded { OnOk result (AreCoded pairs.new pieces.now) }
    ensures few { OnOk result (length pairs.new ≤ 65535) }
    ensures stay { KeepsCodes pairs.old pairs.new }
    ensures err { IfErr result (λ e. IsFull pairs.old pairs.new pieces.now e) }
{
    match codes_of(alloc, pairs, pieces) {
        Ok(_) => {}
        Err(Error::OverflowError) => return Err(RunError::Overfull),
        Err(_) => return Err(RunError::OutOfMemory),
    }
    Ok(())
}

/// Gives the pieces of a run codes, given its clusters.
fn add_codes(
    alloc: Global,
    font: Font<'_>,
    direction: Direction,
    pairs: &mut Remapper<u16, Pair>,
    items: &[Item<'_>],
    found: &[&[Item<'_>]],
) -> Result<(), RunError>
    requires { lists found.now ≡ clusters items.now }
    ensures pairs { OnOk result (pairs.new ≡ with_pairs pairs.old (pieces_of_run direction font.entry.inked.now items.now)) }
    ensures coded { OnOk result (AreCoded pairs.new (pieces_of_run direction font.entry.inked.now items.now)) }
    ensures few { OnOk result (length pairs.new ≤ 65535) }
    ensures stay { KeepsCodes pairs.old pairs.new }
    ensures err { IfErr result (λ e. IsFull pairs.old pairs.new (pieces_of_run direction font.entry.inked.now items.now) e) }
{
    let pieces = match pieces_of_clusters(alloc, direction, font.inked, found) {
        Ok(pieces) => pieces,
        Err(_) => return Err(RunError::OutOfMemory),
    };
    code_pieces(alloc, pairs, &pieces)
}

/// The operators of a run whose pieces have codes.
fn write_run(
    alloc: Global,
    font: Font<'_>,
    direction: Direction,
    order: Order,
    size: u32,
    pairs: &Remapper<u16, Pair>,
    items: &[Item<'_>],
    operations: &[Operation<'_>],
) -> Result<Vec<u8>, RunError>
    requires acts { acts_of operations.now ≡ run_acts font direction order items.now }
    requires coded { AreCoded pairs.now (pieces_of_run direction font.inked.now items.now) }
    ensures text { IfOk result (λ text. text.items ≡ operators size pairs.now (run_acts font.entry direction order items.now)) }
    ensures shown { IfOk result (λ text. IsShown font.entry direction order size pairs.now items.now text.items) }
    ensures err { IfErr result (λ e. e ≡ OutOfMemory) }
{
    match write_operators(alloc, size, pairs, operations) {
        Ok(text) => Ok(text),
        Err(_) => Err(RunError::OutOfMemory),
    }
}

/// The operators that show a run, for a content stream: between BT and ET, after Tf and Td or Tm, where the character and
/// word spacing and the text rise are 0 and the scaling is 100. The size of the font is in thousandths of a unit of text
/// space. The pen goes on by the run's advance, and the text rise is 0 then. Codes of earlier runs stay, after an error too.
///
/// # Errors
///
/// - `InvalidText`: the glyphs are no run of the font, a number hasn't 32 bits, or an ActualText has more than 32,767 bytes.
///   The pairs are as they were.
/// - `Overfull`: there would be more than 65,535 codes. The pairs are as they were.
/// - `OutOfMemory`: a request for memory was refused. The pairs of the first pieces may be there, and then have their codes.
#[tactic(auto, using(crate::proofs::RunSteps::refused, crate::proofs::RunSteps::is_shown, crate::proofs::RunSteps::no_memory, crate::proofs::RunSteps::unshown, crate::proofs::RunSteps::unwritten))]
pub fn show_run<'a>(
    alloc: Global,
    font: Font<'_>,
    direction: Direction,
    order: Order,
    size: u32,
    pairs: &mut Remapper<u16, Pair>,
    items: &'a [Item<'a>],
) -> Result<Vec<u8>, RunError>
    requires { 0 < font.units }
    ensures text { IfOk result (λ text. text.items ≡ operators size pairs.new (run_acts font.entry direction order items.now)) }
    ensures shown { IfOk result (λ text. IsShown font.entry direction order size pairs.new items.now text.items) }
    ensures valid { OnOk result (is_valid font.entry direction order items.now ≡ true) }
    ensures pairs { OnOk result (pairs.new ≡ with_pairs pairs.old (pieces_of_run direction font.entry.inked.now items.now)) }
    ensures coded { OnOk result (AreCoded pairs.new (pieces_of_run direction font.entry.inked.now items.now)) }
    ensures few { OnOk result (length pairs.new ≤ 65535) }
    ensures stay { KeepsCodes pairs.old pairs.new }
    ensures err { IfErr result (λ e. IsRefused font.entry direction order pairs.old pairs.new items.now e) }
{
    if !is_run(direction, font.metrics.len(), items) {
        return Err(RunError::InvalidText);
    }
    let found = match clusters_of_run(alloc, items) {
        Ok(found) => found,
        Err(_) => return Err(RunError::OutOfMemory),
    };
    let operations = operations_of_run(alloc, font, direction, order, items, &found)?;
    add_codes(alloc, font, direction, pairs, items, &found)?;
    write_run(
        alloc,
        font,
        direction,
        order,
        size,
        pairs,
        items,
        &operations,
    )
}
