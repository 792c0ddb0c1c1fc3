//! Entries of whole numbers in the form that they are written in: each number in the first form that holds it (Technical Note
//! 5176, section 4 "DICT Data").
//!
//! Of such an entry only the operator has to be read, and it is written again as it is.

ghost use Rattle.std.specs.Prelude.{◌≡◌};
ghost use Rattle.std.specs.Option.{option_map, option_copied};
ghost use Rattle.subsetter_cffdata.specs.Dicts.Plain.{after_word, after_second, after_number, marked_operator, operator_at, plain_at};
ghost use Rattle.subsetter_cffdata.specs.Views.{operator_of};

use crate::dicts::operator::{Operator, TWO_BYTE_OPERATOR_MARK};
use crate::dicts::tokens::begins_operator;
use crate::numerals::first_byte;

/// The most operands of an entry.
const OPERAND_LIMIT: u8 = 48;

/// The least whole number of three bytes above 0, and the greatest below 0, as 16 bits.
const LEAST_WORD: u16 = 1132;

const GREATEST_WORD: u16 = 64404;

/// The operator of an entry, and what follows the entry.
#[derive(Clone, Copy, Debug)]
pub struct PlainEntry<'a> {
    /// The operator.
    pub operator: Operator,
    /// What follows.
    pub rest: &'a [u8],
}

/// What follows the two bytes of a whole number, where it has no shorter form.
#[inline(always)]
fn after_word(bytes: &[u8]) -> Option<&[u8]>
    ensures { option_copied result ≡ after_word bytes.now }
{
    match bytes {
        [high, low, rest @ ..] => {
            let bits = *high as u16 * 256 + *low as u16;
            if bits < LEAST_WORD {
                return None;
            }
            if bits > GREATEST_WORD {
                return None;
            }
            Some(rest)
        }
        _ => None,
    }
}

/// What follows the second byte of a whole number.
#[inline(always)]
fn after_second(bytes: &[u8]) -> Option<&[u8]>
    ensures { option_copied result ≡ after_second bytes.now }
{
    match bytes {
        [second, rest @ ..] => {
            let _second = *second;
            Some(rest)
        }
        [] => None,
    }
}

/// What follows a whole number in the first form that holds it; None where there is none.
#[inline(always)]
#[tactic(auto, unfolding(crate::specs::Dicts::Plain::after_number))]
fn after_number(bytes: &[u8]) -> Option<&[u8]>
    ensures { option_copied result ≡ after_number bytes.now }
{
    match bytes {
        [first, rest @ ..] => match *first {
            first_byte::SHORT_INTEGER => after_word(rest),
            32..=246 => Some(rest),
            247..=254 => after_second(rest),
            _ => None,
        },
        [] => None,
    }
}

/// The operator of two bytes, whose mark was read, and what follows it.
#[inline(always)]
fn marked_operator(bytes: &[u8]) -> Option<PlainEntry<'_>>
    ensures { option_map (λ e. (operator_of e.operator, e.rest.now)) result ≡ marked_operator bytes.now }
{
    match bytes {
        [second, rest @ ..] => Some(PlainEntry {
            operator: Operator::from_two_byte(*second),
            rest,
        }),
        [] => None,
    }
}

/// The operator, and what follows it; None where there is none.
#[inline(always)]
#[tactic(auto, unfolding(crate::specs::Dicts::Plain::operator_at))]
fn operator_at(bytes: &[u8]) -> Option<PlainEntry<'_>>
    ensures { option_map (λ e. (operator_of e.operator, e.rest.now)) result ≡ operator_at bytes.now }
{
    match bytes {
        [first, rest @ ..] => {
            if !begins_operator(*first) {
                return None;
            }
            if *first == TWO_BYTE_OPERATOR_MARK {
                return marked_operator(rest);
            }
            Some(PlainEntry {
                operator: Operator::from_one_byte(*first),
                rest,
            })
        }
        [] => None,
    }
}

/// The entry at the front, where it has at most 48 operands, each a whole number in the first form that holds it, of one to three bytes.
pub fn plain_entry(bytes: &[u8]) -> Option<PlainEntry<'_>>
    ensures { option_map (λ e. (operator_of e.operator, e.rest.now)) result ≡ plain_at bytes.now }
{
    let mut rest = bytes;
    let mut left = OPERAND_LIMIT;
    while let Some(after) = after_number(rest) {
        if left == 0 {
            return None;
        }
        left -= 1;
        rest = after;
    }
    operator_at(rest)
}
