//! What has one ActualText, or none.

ghost use Rattle.std.specs.Prelude.{◌≡◌, ◌<◌, ◌≤◌, ◌+◌, ◌++◌, true, false, length, IfErr, IfNone, IfOk, IfSome, OnOk};
ghost use Rattle.std.specs.List.{flat_map, list_any};
ghost use Rattle.subsetter_base.specs.Texts.{utf16};
ghost use Rattle.pdf_runs.specs.declared.error.RunError.TheVariants.{OutOfMemory};
ghost use Rattle.pdf_runs.specs.Clusters.{lists};
ghost use Rattle.pdf_runs.specs.Codes.{is_zeroth};
ghost use Rattle.pdf_runs.specs.Words.{groups, words};
ghost use Rattle.pdf_operators.specs.Operators.{units_of};
ghost use Rattle.pdf_operators.specs.Runs.{has_moved, is_long, is_moved, is_spanned, is_unsaid, parts, singles, word_parts};

use pdf_runs::{Direction, Figure, Item, Piece, RunError, text_of, words_of_run};
use std::alloc::Global;

// ---- a text

/// How many units a character has in UTF-16.
fn unit_count(character: char) -> usize
    ensures exact { result ≡ length (utf16 character) }
    ensures few { result ≤ 2 }
{
    if u32::from(character) < 65536 { 1 } else { 2 }
}

/// `count` units and those of a text, if an ActualText has room for them.
#[tactic(auto, using(crate::proofs::RunSteps::count_more))]
fn units_with(count: usize, text: &[char]) -> Option<usize>
    requires { count ≤ 16382 }
    ensures some { IfSome result (λ n. n ≡ count + length (units_of text.now)) }
    ensures room { IfSome result (λ n. n ≤ 16382) }
    ensures none { IfNone result (16382 < count + length (units_of text.now)) }
{
    let mut total = count;
    for character in text {
        total += unit_count(*character);
        if total > 16_382 {
            return None;
        }
    }
    Some(total)
}

/// Whether the text of clusters is too long for an ActualText.
#[tactic(auto, using(crate::proofs::RunSteps::long_more))]
pub fn is_long(clusters: &[&[Item<'_>]]) -> bool
    ensures { result ≡ is_long (lists clusters.now) }
{
    let mut count = 0;
    for cluster in clusters {
        match units_with(count, text_of(cluster)) {
            Some(more) => count = more,
            None => return true,
        }
    }
    false
}

// ---- pieces

/// Whether a figure is glyph 0.
fn is_zeroth(figure: Figure) -> bool
    ensures { result ≡ is_zeroth figure }
{
    match figure {
        Figure::Source(glyph) => glyph == 0,
        Figure::Blank => false,
    }
}

/// Whether the code of a piece has nothing to say.
fn is_unsaid(piece: Piece) -> bool
    ensures { result ≡ is_unsaid piece }
{
    piece.says.is_none() || is_zeroth(piece.figure)
}

/// Whether a code of pieces has nothing to say.
fn has_unsaid(pieces: &[Piece]) -> bool
    ensures { result ≡ list_any is_unsaid pieces.now }
{
    for piece in pieces {
        if is_unsaid(*piece) {
            return true;
        }
    }
    false
}

/// Whether a glyph has an offset.
fn is_moved(piece: Piece) -> bool
    ensures { result ≡ is_moved piece }
{
    !(piece.x == 0 && piece.y == 0)
}

/// Whether a glyph of pieces has an offset.
fn any_moved(pieces: &[Piece]) -> bool
    ensures { result ≡ list_any is_moved pieces.now }
{
    for piece in pieces {
        if is_moved(*piece) {
            return true;
        }
    }
    false
}

/// Whether a glyph of pieces from left to right has an offset.
fn has_moved(direction: Direction, pieces: &[Piece]) -> bool
    ensures { result ≡ has_moved direction pieces.now }
{
    match direction {
        Direction::LeftToRight => any_moved(pieces),
        Direction::RightToLeft | Direction::TopToBottom => false,
    }
}

/// Whether the pieces of clusters need an ActualText.
pub fn is_spanned(direction: Direction, clusters: &[&[Item<'_>]], pieces: &[Piece]) -> bool
    ensures { result ≡ is_spanned direction (lists clusters.now) pieces.now }
{
    has_unsaid(pieces) || (has_moved(direction, pieces) && !is_long(clusters))
}

// ---- parts

/// Puts clusters after parts, each as one.
fn push_singles<'a, 'b>(
    parts: &mut Vec<&'b [&'a [Item<'a>]]>,
    clusters: &'b [&'a [Item<'a>]],
) -> Result<(), RunError>
    ensures ok { OnOk result (groups parts.new.items ≡ groups parts.old.items ++ singles (lists clusters.now)) }
    ensures err { IfErr result (λ e. e ≡ OutOfMemory) }
{
    let mut rest = clusters;
    while rest.len() > 0 {
        let first = &rest[..1];
        parts.push(first)?;
        let after = &rest[1..];
        rest = after;
    }
    Ok(())
}

/// Puts a word after parts, or its clusters where it is too long.
fn push_word<'a, 'b>(
    parts: &mut Vec<&'b [&'a [Item<'a>]]>,
    word: &'b [&'a [Item<'a>]],
) -> Result<(), RunError>
    ensures ok { OnOk result (groups parts.new.items ≡ groups parts.old.items ++ word_parts (lists word.now)) }
    ensures err { IfErr result (λ e. e ≡ OutOfMemory) }
{
    if is_long(word) {
        return push_singles(parts, word);
    }
    parts.push(word)?;
    Ok(())
}

/// Puts words after parts.
fn push_words<'a, 'b>(
    parts: &mut Vec<&'b [&'a [Item<'a>]]>,
    words: &[&'b [&'a [Item<'a>]]],
) -> Result<(), RunError>
    ensures ok { OnOk result (groups parts.new.items ≡ groups parts.old.items ++ flat_map word_parts (groups words.now)) }
    ensures err { IfErr result (λ e. e ≡ OutOfMemory) }
{
    for word in words {
        push_word(parts, *word)?;
    }
    Ok(())
}

/// What has one ActualText or none: from left to right a word, else a cluster.
pub fn parts_of_run<'a, 'b>(
    alloc: Global,
    direction: Direction,
    clusters: &'b [&'a [Item<'a>]],
) -> Result<Vec<&'b [&'a [Item<'a>]]>, RunError>
    ensures ok { IfOk result (λ found. groups found.items ≡ parts direction (lists clusters.now)) }
    ensures err { IfErr result (λ e. e ≡ OutOfMemory) }
{
    let mut found = Vec::with_capacity(alloc, clusters.len())?;
    match direction {
        Direction::LeftToRight => {
            let words = words_of_run(alloc, clusters).map_err(|_| RunError::OutOfMemory)?;
            push_words(&mut found, &words)?;
        }
        Direction::RightToLeft | Direction::TopToBottom => push_singles(&mut found, clusters)?,
    }
    Ok(found)
}
