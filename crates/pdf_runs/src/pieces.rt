//! The pieces of a run: figures that each say at most one character.

ghost use Rattle.std.specs.Prelude.{◌≡◌, ◌<◌, ◌≤◌, ◌-◌, ◌+◌, ◌++◌, ◌∷◌, [], true, not, get_or, length, map, take, drop, slice_get, IfErr, IfOk, OnOk, Some};
ghost use Rattle.subsetter_base.specs.declared.error.Error.TheVariants.{OutOfMemory};
ghost use Rattle.pdf_runs.specs.Clusters.{lists};
ghost use Rattle.pdf_runs.specs.Items.{text_in, text_of, visual};
ghost use Rattle.pdf_runs.specs.Marks.{is_mark};
ghost use Rattle.pdf_runs.specs.Pieces.{bearer, blank_of, figure_of, is_bare, piece_of, pieces_of_cluster, pieces_of_clusters, pieces_of_run, shares_of, spread, spread_all};

use crate::clusters::clusters_of_run;
use crate::items::{Direction, Item};
use crate::marks::is_mark;
use crate::shares::{in_reading, share_at};
use std::alloc::Global;
use subsetter_base::Error;

/// What a code draws.
#[derive(Clone, Copy, PartialEq, Eq, Hash, Debug)]
pub enum Figure {
    /// A glyph of the font.
    Source(u16),
    /// A glyph without ink and without advance, which the font may not have.
    Blank,
}

/// A figure, and what it says, in units of the font.
#[derive(Clone, Copy, PartialEq, Eq, Debug)]
pub struct Piece {
    pub figure: Figure,
    /// A character, or nothing.
    pub says: Option<char>,
    /// From the pen to its origin.
    pub x: i32,
    pub y: i32,
    /// How far the pen goes on.
    pub x_advance: i32,
    pub y_advance: i32,
}

// ---- a glyph

/// Whether a glyph has ink, as far as that is known.
fn has_ink(inked: &[bool], glyph: u16) -> bool
    ensures { result ≡ get_or inked.now glyph true }
{
    let place = usize::from(glyph);
    if place < inked.len() {
        return inked[place];
    }
    true
}

/// Whether a glyph has no ink, and the run gives it no advance.
fn is_bare(inked: &[bool], item: &Item<'_>) -> bool
    ensures { result ≡ is_bare inked.now item.now }
{
    !has_ink(inked, item.glyph) && item.x_advance == 0 && item.y_advance == 0
}

/// What is drawn for a glyph.
fn figure_of(inked: &[bool], item: &Item<'_>) -> Figure
    ensures { result ≡ figure_of inked.now item.now }
{
    if is_bare(inked, item) {
        Figure::Blank
    } else {
        Figure::Source(item.glyph)
    }
}

/// A glyph, and what it says.
fn piece_of(inked: &[bool], item: &Item<'_>, says: Option<char>) -> Piece
    ensures { result ≡ piece_of inked.now item.now says }
{
    Piece {
        figure: figure_of(inked, item),
        says,
        x: item.x_offset,
        y: item.y_offset,
        x_advance: item.x_advance,
        y_advance: item.y_advance,
    }
}

/// A blank that says a character.
fn blank_of(character: char) -> Piece
    ensures { result ≡ blank_of character }
{
    Piece {
        figure: Figure::Blank,
        says: Some(character),
        x: 0,
        y: 0,
        x_advance: 0,
        y_advance: 0,
    }
}

// ---- the characters of a glyph

/// The character at a place, as they are seen.
fn character_at(direction: Direction, share: &[char], place: usize) -> char
    requires { place < length share.now }
    ensures { result ≡ get_or (visual direction share.now) place 0 }
{
    share[in_reading(direction, share.len(), place)]
}

/// Whether the character at a place is no mark, as they are seen.
fn is_wide(direction: Direction, share: &[char], place: usize) -> bool
    requires { place < length share.now }
    ensures { result ≡ not (is_mark (get_or (visual direction share.now) place 0)) }
{
    !is_mark(character_at(direction, share, place))
}

/// The place of the first character that is no mark, as they are seen; 0 where there is none.
fn bearer(direction: Direction, share: &[char]) -> usize
    ensures { result ≡ bearer (visual direction share.now) }
{
    for place in 0..share.len() {
        if is_wide(direction, share, place) {
            return place;
        }
    }
    0
}

/// Puts blanks after others, which say the characters from a place to another, as they are seen.
fn push_blanks(
    pieces: &mut Vec<Piece>,
    direction: Direction,
    share: &[char],
    start: usize,
    end: usize,
) -> Result<(), Error>
    requires order { start ≤ end }
    requires within { end ≤ length share.now }
    ensures ok { OnOk result (pieces.new.items ≡ pieces.old.items ++ map blank_of (take (end - start) (drop start (visual direction share.now)))) }
    ensures err { IfErr result (λ e. e ≡ OutOfMemory) }
{
    for place in start..end {
        pieces.push(blank_of(character_at(direction, share, place)))?;
    }
    Ok(())
}

/// The first character, if there is one.
fn first_of(share: &[char]) -> Option<char>
    ensures { result ≡ slice_get share.now 0 }
{
    share.first().copied()
}

/// Puts a glyph with what it says after others, and blanks for its other characters.
#[tactic(auto, using(crate::proofs::PieceSteps::spread_alone))]
fn push_spread(
    pieces: &mut Vec<Piece>,
    direction: Direction,
    inked: &[bool],
    item: &Item<'_>,
    share: &[char],
) -> Result<(), Error>
    ensures ok { OnOk result (pieces.new.items ≡ pieces.old.items ++ spread inked.now item.now (visual direction share.now)) }
    ensures err { IfErr result (λ e. e ≡ OutOfMemory) }
{
    if share.len() <= 1 {
        pieces.push(piece_of(inked, item, first_of(share)))?;
        return Ok(());
    }
    let bearer = bearer(direction, share);
    push_blanks(pieces, direction, share, 0, bearer)?;
    let character = character_at(direction, share, bearer);
    pieces.push(piece_of(inked, item, Some(character)))?;
    push_blanks(pieces, direction, share, bearer + 1, share.len())
}

// ---- clusters

/// A text, or nothing.
fn text_in(text: Option<&[char]>) -> &[char]
    ensures { result.now ≡ text_in text.entry }
{
    match text {
        Some(text) => text,
        None => &[],
    }
}

/// The text of a cluster.
pub fn text_of<'a>(items: &[Item<'a>]) -> &'a [char]
    ensures { result.now ≡ text_of items.now }
{
    match items {
        [] => &[],
        [item, ..] => text_in(item.text),
    }
}

/// Puts the pieces of a cluster after others.
#[tactic(auto, using(crate::proofs::PieceSteps::cluster_alone))]
fn push_cluster(
    pieces: &mut Vec<Piece>,
    direction: Direction,
    inked: &[bool],
    items: &[Item<'_>],
) -> Result<(), Error>
    ensures ok { OnOk result (pieces.new.items ≡ pieces.old.items ++ pieces_of_cluster direction inked.now items.now) }
    ensures err { IfErr result (λ e. e ≡ OutOfMemory) }
{
    let text = text_of(items);
    if items.len() == 1 {
        return push_spread(pieces, direction, inked, &items[0], text);
    }
    for place in 0..items.len() {
        let share = share_at(direction, text, items.len(), place);
        push_spread(pieces, direction, inked, &items[place], share)?;
    }
    Ok(())
}

/// The pieces of clusters, in visual order. `inked` says of each glyph of the font whether it has ink.
///
/// # Errors
///
/// `OutOfMemory` alone.
#[tactic(auto, using(crate::proofs::PieceSteps::run_more))]
pub fn pieces_of_clusters(
    alloc: Global,
    direction: Direction,
    inked: &[bool],
    clusters: &[&[Item<'_>]],
) -> Result<Vec<Piece>, Error>
    ensures ok { IfOk result (λ pieces. pieces.items ≡ pieces_of_clusters direction inked.now (lists clusters.now)) }
    ensures err { IfErr result (λ e. e ≡ OutOfMemory) }
{
    let mut pieces = Vec::with_capacity(alloc, clusters.len())?;
    for cluster in clusters {
        push_cluster(&mut pieces, direction, inked, cluster)?;
    }
    Ok(pieces)
}

/// The pieces of a run, in visual order. `inked` says of each glyph of the font whether it has ink.
///
/// # Errors
///
/// `OutOfMemory` alone.
pub fn pieces_of_run(
    alloc: Global,
    direction: Direction,
    inked: &[bool],
    items: &[Item<'_>],
) -> Result<Vec<Piece>, Error>
    ensures ok { IfOk result (λ pieces. pieces.items ≡ pieces_of_run direction inked.now items.now) }
    ensures err { IfErr result (λ e. e ≡ OutOfMemory) }
{
    let clusters = clusters_of_run(alloc, items)?;
    pieces_of_clusters(alloc, direction, inked, &clusters)
}
