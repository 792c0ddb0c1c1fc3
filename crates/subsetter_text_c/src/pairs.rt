//! What the codes of a text draw and say, as C has it.

ghost use Rattle.std.specs.Prelude.{◌≡◌, ◌⊎◌, ◌<◌, ◌%◌, Some, map, length, drop, IfOk, IfErr};
ghost use Rattle.pdf_runs.specs.declared.error.RunError.TheVariants.{OutOfMemory, Overfull};
ghost use Rattle.subsetter_text_c.specs.Pairs.{figure_in, pairs_in, piece_in, piece_of, said};
ghost use Rattle.pdf_runs.specs.Codes.{with_pairs};

use pdf_runs::{Figure, Pair, Piece, RunError, codes_of, no_pairs};
use std::alloc::Global;
use subsetter_base::Error;
use subsetter_base::remapper::Remapper;

/// What a code draws and says.
#[derive(Clone, Copy)]
#[repr(C)]
pub struct TextPair {
    /// 0: the glyph; else a blank.
    pub kind: u32,
    /// Of a blank 0.
    pub glyph: u32,
    /// Where it is no character, the code says nothing.
    pub character: u32,
}

// ---- from C

/// What a code draws.
fn figure_in(entry: TextPair) -> Figure
    ensures { result ≡ figure_in entry }
{
    if entry.kind == 0 {
        return Figure::Source((entry.glyph % 65_536) as u16);
    }
    Figure::Blank
}

/// The character of a number, if it is one.
pub fn said(number: u32) -> Option<char>
    ensures { result ≡ said number }
{
    char::from_u32(number)
}

/// What a code draws and says, as a piece that moves no pen.
fn piece_in(entry: TextPair) -> Piece
    ensures { result ≡ piece_in entry }
{
    Piece {
        figure: figure_in(entry),
        says: said(entry.character),
        x: 0,
        y: 0,
        x_advance: 0,
        y_advance: 0,
    }
}

/// What codes draw and say.
fn pieces_in(alloc: Global, entries: &[TextPair]) -> Result<Vec<Piece>, RunError>
    ensures ok { IfOk result (λ v. v.items ≡ map piece_in entries.now) }
    ensures err { IfErr result (λ e. e ≡ OutOfMemory) }
{
    let mut pieces = Vec::with_capacity(alloc, entries.len())?;
    for entry in entries {
        pieces.push(piece_in(*entry))?;
    }
    Ok(pieces)
}

/// Pairs with those of pieces.
fn add_pairs(
    alloc: Global,
    mut pairs: Remapper<u16, Pair>,
    pieces: &[Piece],
) -> Result<Remapper<u16, Pair>, RunError>
    ensures ok { IfOk result (λ new. new ≡ with_pairs pairs pieces.now) }
    ensures err { IfErr result (λ e. (e ≡ OutOfMemory) ⊎ ((e ≡ Overfull) × (65535 < length (with_pairs pairs pieces.now)))) }
{
    match codes_of(alloc, &mut pairs, pieces) {
        Ok(_) => Ok(pairs),
        Err(Error::OverflowError) => Err(RunError::Overfull),
        Err(_) => Err(RunError::OutOfMemory),
    }
}

/// The pair of each code, that of code 0 among them, each once; of each code from 1 on it is what it draws and says.
///
/// # Errors
///
/// - `Overfull`: they are more than 65,535.
/// - `OutOfMemory`: a request for memory was refused.
pub fn pairs_of(alloc: Global, entries: &[TextPair]) -> Result<Remapper<u16, Pair>, RunError>
    ensures ok { IfOk result (λ pairs. pairs ≡ pairs_in entries.now) }
    ensures err { IfErr result (λ e. (e ≡ OutOfMemory) ⊎ ((e ≡ Overfull) × (65535 < length (pairs_in entries.now)))) }
{
    let pieces = pieces_in(alloc, entries)?;
    match no_pairs(alloc) {
        Ok(pairs) => add_pairs(alloc, pairs, &pieces),
        Err(_) => Err(RunError::OutOfMemory),
    }
}

// ---- to C

/// The number of a glyph.
fn glyph_number(glyph: u16) -> u32
    ensures value { result ≡ glyph }
    ensures small { result % 65536 ≡ glyph }
{
    u32::from(glyph)
}

/// The number of a character.
fn number_of(character: char) -> u32
    ensures { said result ≡ Some character }
{
    u32::from(character)
}

/// The number of what a code says.
fn number_said(says: Option<char>) -> u32
    ensures { said result ≡ says }
{
    match says {
        None => u32::MAX,
        Some(character) => number_of(character),
    }
}

/// What a code draws, with the number of what it says.
fn entry_with(figure: Figure, character: u32) -> TextPair
    ensures figure { figure_in result ≡ figure }
    ensures character { result.character ≡ character }
{
    match figure {
        Figure::Source(glyph) => TextPair {
            kind: 0,
            glyph: glyph_number(glyph),
            character,
        },
        Figure::Blank => TextPair {
            kind: 1,
            glyph: 0,
            character,
        },
    }
}

/// What a code draws and says.
fn entry_of(pair: Pair) -> TextPair
    ensures { piece_in result ≡ piece_of pair }
{
    entry_with(pair.figure, number_said(pair.says))
}

/// What each code from 1 on draws and says.
pub fn entries_of(alloc: Global, pairs: &Remapper<u16, Pair>) -> Result<Vec<TextPair>, RunError>
    ensures ok { IfOk result (λ v. map piece_in v.items ≡ map piece_of (drop 1 pairs.now)) }
    ensures err { IfErr result (λ e. e ≡ OutOfMemory) }
{
    let mut entries = Vec::new(alloc);
    let mut rest = pairs.sorted_iter();
    rest.next();
    for pair in rest {
        entries.push(entry_of(pair))?;
    }
    Ok(entries)
}
