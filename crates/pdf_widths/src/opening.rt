//! The width before a charstring, and the operator that it belongs to.

ghost use Rattle.std.specs.Prelude.{◌≡◌, ◌≤◌, IfSome};
ghost use Rattle.std.specs.Option.{option_map};
ghost use Rattle.pdf_widths.specs.Opening.{first_operator, opening_of, opening_by, operator_at, parity};
ghost use Rattle.pdf_widths.specs.View.{opening_view};

use subsetter_cffdata::numerals::charstring_number::{CharStringNumber, read_number};

/// The first operator of a charstring.
#[derive(Clone, Copy)]
pub struct FirstOperator {
    /// How many numbers are before it.
    pub operands: usize,
    /// Its first byte.
    pub operator: u8,
}

/// How a charstring begins.
#[derive(Clone, Copy)]
pub struct Opening<'a> {
    pub width: Option<CharStringNumber>,
    /// How many operands the first operator has beside the width.
    pub operands: usize,
    /// What is after the width.
    pub body: &'a [u8],
}

/// The operator at the front of bytes.
fn operator_at(operands: usize, bytes: &[u8]) -> Option<FirstOperator>
    ensures value { result ≡ operator_at operands bytes.now }
    ensures operands { IfSome result (λ f. f.operands ≡ operands) }
{
    let operator = *bytes.first()?;
    Some(FirstOperator { operands, operator })
}

/// The first operator, after at most 48 numbers.
#[tactic(auto, using(crate::proofs::Openings::past_number, crate::proofs::Openings::at_operator, crate::proofs::Openings::too_many))]
fn first_operator(charstring: &[u8]) -> Option<FirstOperator>
    ensures value { result ≡ first_operator 49 0 charstring.now }
    ensures few { IfSome result (λ f. f.operands ≤ 48) }
{
    let mut rest = charstring;
    let mut operands = 0;
    while operands < 49 {
        match read_number(rest) {
            Some(read) => {
                rest = read.rest;
                operands += 1;
            }
            None => return operator_at(operands, rest),
        }
    }
    None
}

/// How many operands an operator takes beside a width, modulo 2; none where no width is before them.
#[tactic(auto, unfolding(crate::specs::Opening::parity))]
fn parity(operator: u8) -> Option<usize>
    ensures { result ≡ parity operator }
{
    match operator {
        1 | 3 | 14 | 18 | 19 | 20 | 21 | 23 => Some(0),
        4 | 22 => Some(1),
        _ => None,
    }
}

/// How a charstring begins, by how many numbers are before its first operator.
fn opening_by(charstring: &[u8], operands: usize, parity: usize) -> Option<Opening<'_>>
    ensures { option_map opening_view result ≡ opening_by charstring.now operands parity }
{
    if operands % 2 == parity {
        return Some(Opening {
            width: None,
            operands,
            body: charstring,
        });
    }
    let read = read_number(charstring)?;
    Some(Opening {
        width: Some(read.number),
        operands: operands.saturating_sub(1),
        body: read.rest,
    })
}

/// How a charstring begins; none where its first operator takes no width.
#[tactic(auto, unfolding(crate::specs::Opening::opening_of))]
pub fn opening_of(charstring: &[u8]) -> Option<Opening<'_>>
    ensures { option_map opening_view result ≡ opening_of charstring.now }
{
    let first = first_operator(charstring)?;
    let parity = parity(first.operator)?;
    opening_by(charstring, first.operands, parity)
}
