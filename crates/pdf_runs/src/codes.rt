//! The codes of what is drawn and said.

ghost use Rattle.std.specs.Prelude.{◌≡◌, ◌<◌, ◌≤◌, ◌+◌, ◌⊎◌, ◌↔◌, length, is_some, IsTrue, IfOk, IfErr, IsSome, OnErr, OnOk, Some, [], ◌∷◌};
ghost use Rattle.subsetter_base.specs.Remap.{index_by, with_value};
ghost use Rattle.subsetter_base.specs.declared.error.Error.TheVariants.{OutOfMemory, OverflowError};
ghost use Rattle.pdf_runs.specs.Codes.{AreCodes, HasFirst, IsOverfull, IsUncoded, KeepsCodes, is_zeroth, pair_of, same, with_new, with_pairs, zeroth};

use crate::pieces::{Figure, Piece};
use std::alloc::Global;
use subsetter_base::Error;
use subsetter_base::remapper::Remapper;

/// What a code draws, and what it says.
#[derive(Clone, Copy, PartialEq, Eq, Hash, Debug)]
pub struct Pair {
    pub figure: Figure,
    pub says: Option<char>,
}

/// Glyph 0, whose code says nothing.
fn zeroth() -> Pair
    ensures { result ≡ zeroth }
{
    Pair {
        figure: Figure::Source(0),
        says: None,
    }
}

/// Whether a figure is glyph 0.
fn is_zeroth(figure: Figure) -> bool
    ensures { result ≡ is_zeroth figure }
{
    match figure {
        Figure::Source(glyph) => glyph == 0,
        Figure::Blank => false,
    }
}

/// What the code of a piece draws and says.
pub fn pair_of(piece: Piece) -> Pair
    ensures { result ≡ pair_of piece }
{
    if is_zeroth(piece.figure) {
        return zeroth();
    }
    Pair {
        figure: piece.figure,
        says: piece.says,
    }
}

/// The pairs of a text without a run: code 0 is that of glyph 0.
///
/// # Errors
///
/// `OutOfMemory` alone.
pub fn no_pairs(alloc: Global) -> Result<Remapper<u16, Pair>, Error>
    ensures ok { IfOk result (λ pairs. pairs ≡ zeroth ∷ []) }
    ensures err { IfErr result (λ e. e ≡ OutOfMemory) }
{
    let mut pairs = Remapper::new(alloc);
    pairs.remap(zeroth())?;
    Ok(pairs)
}

/// The code of a pair, if it has one.
#[tactic(auto, using(crate::proofs::PairLaws::found_same))]
pub fn code_in(pairs: &Remapper<u16, Pair>, pair: Pair) -> Option<u16>
    ensures { result ≡ index_by same pairs.now pair }
{
    pairs.get(pair)
}

/// The code of a pair, which goes last if it is new.
fn code_of(pairs: &mut Remapper<u16, Pair>, pair: Pair) -> Result<u16, Error>
    requires { (IsSome (index_by same pairs.old pair)) ⊎ (length pairs.old + 1 < 65536) }
    ensures list { OnOk result (pairs.new ≡ with_value same pairs.old pair) }
    ensures number { IfOk result (λ n. index_by same pairs.new pair ≡ Some n) }
    ensures stay { KeepsCodes pairs.old pairs.new }
    ensures same { OnErr result (pairs.new ≡ pairs.old) }
    ensures err { IfErr result (λ e. e ≡ OutOfMemory) }
{
    pairs.remap(pair)
}

/// Puts a pair after new ones, if neither they nor others have it.
#[tactic(auto, using(crate::proofs::NewPairs::known_new, crate::proofs::NewPairs::new_put))]
fn add_new(
    pairs: &Remapper<u16, Pair>,
    new: &mut Remapper<u32, Pair>,
    pair: Pair,
) -> Result<(), Error>
    requires { length new.old < 65536 }
    ensures ok { OnOk result (new.new ≡ with_new same pairs.now new.old pair) }
    ensures err { IfErr result (λ e. e ≡ OutOfMemory) }
{
    if code_in(pairs, pair).is_some() {
        return Ok(());
    }
    new.remap(pair)?;
    Ok(())
}

/// Whether there is room for `count` more pairs.
fn has_room(pairs: &Remapper<u16, Pair>, count: usize) -> bool
    ensures { IsTrue result ↔ (length pairs.now + count ≤ 65535) }
{
    count <= usize::from(u16::MAX - pairs.len())
}

/// Whether new pairs are too many.
fn is_overfull(pairs: &Remapper<u16, Pair>, new: &Remapper<u32, Pair>) -> bool
    ensures { IsTrue result ↔ (65535 < length pairs.now + length new.now) }
{
    u32::from(u16::MAX - pairs.len()) < new.len()
}

/// Counts the pairs that pieces bring.
fn count_new(alloc: Global, pairs: &Remapper<u16, Pair>, pieces: &[Piece]) -> Result<(), Error>
    ensures ok { OnOk result (length (with_pairs pairs.now pieces.now) ≤ 65535) }
    ensures err { IfErr result (λ e. (e ≡ OutOfMemory) ⊎ ((e ≡ OverflowError) × IsOverfull pairs.now pieces.now)) }
{
    let mut new = Remapper::new(alloc);
    for piece in pieces {
        if is_overfull(pairs, &new) {
            return Err(Error::OverflowError);
        }
        add_new(pairs, &mut new, pair_of(*piece))?;
    }
    if is_overfull(pairs, &new) {
        return Err(Error::OverflowError);
    }
    Ok(())
}

/// Whether there is room for the pairs of pieces.
#[tactic(auto, using(crate::proofs::PairLaws::few_pairs))]
fn check_room(alloc: Global, pairs: &Remapper<u16, Pair>, pieces: &[Piece]) -> Result<(), Error>
    ensures ok { OnOk result (length (with_pairs pairs.now pieces.now) ≤ 65535) }
    ensures err { IfErr result (λ e. (e ≡ OutOfMemory) ⊎ ((e ≡ OverflowError) × IsOverfull pairs.now pieces.now)) }
{
    if has_room(pairs, pieces.len()) {
        return Ok(());
    }
    count_new(alloc, pairs, pieces)
}

/// The codes of pieces, where there is room for their pairs.
fn codes_with_room(
    alloc: Global,
    pairs: &mut Remapper<u16, Pair>,
    pieces: &[Piece],
) -> Result<Vec<u16>, Error>
    requires { length (with_pairs pairs.old pieces.now) ≤ 65535 }
    ensures pairs { OnOk result (pairs.new ≡ with_pairs pairs.old pieces.now) }
    ensures codes { IfOk result (λ codes. AreCodes pairs.new pieces.now codes.items) }
    ensures few { OnOk result (length pairs.new ≤ 65535) }
    ensures stay { KeepsCodes pairs.old pairs.new }
    ensures first { OnErr result (HasFirst pairs.old pairs.new pieces.now) }
    ensures err { IfErr result (λ e. e ≡ OutOfMemory) }
{
    let mut codes = Vec::with_capacity(alloc, pieces.len())?;
    for piece in pieces {
        codes.push(code_of(pairs, pair_of(*piece))?)?;
    }
    Ok(codes)
}

/// The codes of pieces, whose pairs go after the earlier ones. The codes of earlier pieces stay, after an error too.
///
/// # Errors
///
/// - `OverflowError`: there would be more than 65,535 pairs, glyph 0 among them. The pairs are as they were.
/// - `OutOfMemory`: a request for memory was refused. The pairs of the first pieces may be there, and then have their codes.
pub fn codes_of(
    alloc: Global,
    pairs: &mut Remapper<u16, Pair>,
    pieces: &[Piece],
) -> Result<Vec<u16>, Error>
    ensures pairs { OnOk result (pairs.new ≡ with_pairs pairs.old pieces.now) }
    ensures codes { IfOk result (λ codes. AreCodes pairs.new pieces.now codes.items) }
    ensures few { OnOk result (length pairs.new ≤ 65535) }
    ensures stay { KeepsCodes pairs.old pairs.new }
    ensures err { IfErr result (λ e. IsUncoded pairs.old pairs.new pieces.now e) }
{
    check_room(alloc, pairs, pieces)?;
    codes_with_room(alloc, pairs, pieces)
}
