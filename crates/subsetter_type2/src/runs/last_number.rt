//! The last of some numbers.

ghost use Rattle.std.specs.Prelude.{◌≡◌, ◌≤◌, length, drop, List, MatchOption, IfSome};
ghost use Rattle.subsetter_cffdata.specs.declared.numerals.charstring_number.CharStringNumber.{CharStringNumber};
ghost use Rattle.subsetter_type2.specs.Flat.{flat_operands};
ghost use Rattle.subsetter_type2.specs.Runs.OutputView.{AllFit, IsLast};

use subsetter_cffdata::numerals::charstring_number::{CharStringNumber, read_number};

/// What is after the first `count` numbers.
#[inline(always)]
fn skip_numbers(bytes: &[u8], count: usize) -> Option<&[u8]>
    ensures inside { IfSome result (λ rest. length rest.now ≤ length bytes.now) }
    ensures following { (numbers : List CharStringNumber) → AllFit numbers → bytes.now ≡ flat_operands numbers → count ≤ length numbers → MatchOption result ⊥ (λ rest. rest.now ≡ flat_operands (drop count numbers)) }
{
    let mut rest = bytes;
    for _ in 0..count {
        let read = read_number(rest)?;
        rest = read.rest;
    }
    Some(rest)
}

/// The last of some numbers.
#[derive(Clone, Copy, Debug)]
pub struct LastNumber {
    /// The number.
    pub number: CharStringNumber,
    /// How many bytes are before it.
    pub before: usize,
}

/// The last of `count` numbers, which are all of these bytes, and how many bytes are before it.
#[inline(always)]
pub fn find_last_number(bytes: &[u8], count: usize) -> Option<LastNumber>
    ensures some { IfSome result (λ last. 1 ≤ count) }
    ensures inside { IfSome result (λ last. last.before ≤ length bytes.now) }
    ensures last { (numbers : List CharStringNumber) → AllFit numbers → bytes.now ≡ flat_operands numbers → count ≡ length numbers → IsLast numbers result }
{
    if count == 0 {
        return None;
    }
    let last = skip_numbers(bytes, count - 1)?;
    let read = read_number(last)?;
    Some(LastNumber {
        number: read.number,
        before: bytes.len() - last.len(),
    })
}
