//! The tokens of a DICT: operands and operators (Technical Note 5176, section 4 "DICT Data").

ghost use Rattle.std.specs.Prelude.{ℕ, List, Some, ◌≡◌, ◌<◌, ◌≤◌, length, take, drop, map, IfSome};
ghost use Rattle.std.specs.Option.{option_map};
ghost use Rattle.subsetter_cffdata.specs.Dicts.Operands.{operands_at};
ghost use Rattle.subsetter_cffdata.specs.Dicts.Dict.{is_operator, operator_from, token_at, entry_at};
ghost use Rattle.subsetter_cffdata.specs.Reading.{rest, Takes};
ghost use Rattle.subsetter_cffdata.specs.Dicts.TokenView.{token_of, token_read};
ghost use Rattle.subsetter_cffdata.specs.Views.{number_of, operator_of};
ghost use Rattle.subsetter_cffdata.specs.Dicts.Tokens.{operator_part};

use crate::dicts::operator::{Operator, TWO_BYTE_OPERATOR_MARK};
use crate::dicts::plain::plain_entry;
use crate::numerals::number::Number;
use crate::reading;
use subsetter_base::read::Reader;

/// Whether an operator begins with a byte, or is reserved.
pub(crate) fn begins_operator(b: u8) -> bool
    ensures { result ≡ is_operator b }
{
    match b {
        0..=27 => true,
        28..=30 => false,
        31 => true,
        32..=254 => false,
        255 => true,
    }
}

/// The operator whose first byte was read.
fn operator_after(b: u8, r: &mut Reader<'_>) -> Option<Operator>
    ensures value { Takes operator_of result r.old r.new (operator_from b) }
    ensures same { r.new.bytes ≡ r.old.bytes }
{
    if b == TWO_BYTE_OPERATOR_MARK {
        let second = reading::next_byte(r)?;
        return Some(Operator::from_two_byte(second));
    }
    Some(Operator::from_one_byte(b))
}

/// What is in a DICT.
#[derive(Clone, Copy, Debug)]
enum Token {
    /// An operand, which was put into a variable of its own.
    Operand,
    /// An operator.
    Operator(Operator),
}

/// The next token. An operand is put into a variable of its own, so that it is moved just once.
#[inline(always)]
#[tactic(auto, unfolding(crate::specs::Dicts::Dict::token_at))]
fn next_token(r: &mut Reader<'_>, operand: &mut Number) -> Option<Token>
    ensures value { token_at (rest r.old) ≡ option_map (λ t. (token_of operand.new t, rest r.new)) result }
    ensures same { r.new.bytes ≡ r.old.bytes }
{
    let b = reading::next_byte(r)?;
    if begins_operator(b) {
        return Some(Token::Operator(operator_after(b, r)?));
    }
    operand.read_dict_number(b, r)?;
    Some(Token::Operand)
}

/// A token that was read.
#[derive(Clone, Copy, Debug)]
pub struct TokenRead {
    /// The operator; None where the token is an operand, which was put into a variable of its own.
    pub operator: Option<Operator>,
    /// Where the next token begins.
    pub end: usize,
}

/// The token at the offset; None where none can be read.
pub fn read_token(bytes: &[u8], offset: usize, operand: &mut Number) -> Option<TokenRead>
    ensures { token_at (drop offset bytes.now) ≡ option_map (λ t. (token_read operand.new t.operator, drop t.end bytes.now)) result }
{
    let mut r = Reader::new_at(bytes, offset);
    let operator = match next_token(&mut r, operand)? {
        Token::Operator(operator) => Some(operator),
        Token::Operand => None,
    };
    Some(TokenRead {
        operator,
        end: r.offset(),
    })
}

/// An operator that was read, and where the next entry begins.
#[derive(Clone, Copy, Debug)]
pub struct OperatorRead {
    /// The operator.
    pub operator: Operator,
    /// Where the next entry begins.
    pub end: usize,
}

/// The operator of the entry at the offset, and where the next one begins, read number by number.
#[inline(never)]
fn operator_by_tokens(bytes: &[u8], offset: usize) -> Option<OperatorRead>
    ensures { operator_part (entry_at (drop offset bytes.now)) ≡ option_map (λ x. (operator_of x.operator, drop x.end bytes.now)) result }
{
    let mut r = Reader::new_at(bytes, offset);
    let mut operand = Number::zero();
    while let Some(found) = next_token(&mut r, &mut operand) {
        if let Token::Operator(operator) = found {
            return Some(OperatorRead {
                operator,
                end: r.offset(),
            });
        }
    }
    None
}

/// The operator of the entry at the offset, and where the next one begins. Numbers in their first forms are passed and not read.
pub fn next_operator(bytes: &[u8], offset: usize) -> Option<OperatorRead>
    ensures { operator_part (entry_at (drop offset bytes.now)) ≡ option_map (λ x. (operator_of x.operator, drop x.end bytes.now)) result }
{
    let left = reading::tail(&Reader::new_at(bytes, offset));
    match plain_entry(left) {
        Some(entry) => Some(OperatorRead {
            operator: entry.operator,
            end: bytes.len() - entry.rest.len(),
        }),
        None => operator_by_tokens(bytes, offset),
    }
}

/// An entry whose operands were read.
#[derive(Clone, Copy, Debug)]
pub struct EntryRead {
    /// Its operator.
    pub operator: Operator,
    /// How many of its operands the buffer holds.
    pub len: usize,
    /// Where the next entry begins.
    pub end: usize,
}

/// The entry at the offset, with its operands, as many as the buffer holds; None where no entry can be read.
#[tactic(auto, unfolding(crate::specs::Dicts::Operands::operands_at))]
pub fn read_entry(bytes: &[u8], offset: usize, buffer: &mut [Number]) -> Option<EntryRead>
    requires { 0 < length buffer.old }
    ensures within { IfSome result (λ e. e.len ≤ length buffer.old) }
    ensures operands { option_map (λ e. map number_of (take e.len buffer.new)) result ≡ operands_at (length buffer.old) (drop offset bytes.now) }
    ensures operator { operator_part (entry_at (drop offset bytes.now)) ≡ option_map (λ e. (operator_of e.operator, drop e.end bytes.now)) result }
{
    let mut r = Reader::new_at(bytes, offset);
    let mut len = 0;
    while let Some(found) = next_token(&mut r, &mut buffer[len]) {
        match found {
            Token::Operator(operator) => {
                return Some(EntryRead {
                    operator,
                    len,
                    end: r.offset(),
                });
            }
            Token::Operand => {
                len += 1;
                if len == buffer.len() {
                    let read = next_operator(bytes, r.offset())?;
                    return Some(EntryRead {
                        operator: read.operator,
                        len,
                        end: read.end,
                    });
                }
            }
        }
    }
    None
}
