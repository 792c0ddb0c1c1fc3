//! The charstring that is written.

ghost use Rattle.std.specs.Prelude.{◌≡◌, ◌≤◌, ◌+◌, ◌^◌, ◌++◌, ◌∷◌, [], All, true, None, Some, OnOk, IfOk, IfErr, length, unsigned_abs, if◌then◌else◌};
ghost use Rattle.subsetter_base.specs.declared.error.Error.TheVariants.{OutOfMemory};
ghost use Rattle.subsetter_type2.specs.Flat.{flat_operands};
ghost use Rattle.subsetter_cffdata.specs.Views.{operator_of};
ghost use Rattle.subsetter_cffdata.specs.declared.dicts.operator.OperatorType.{OperatorType};
ghost use Rattle.subsetter_blend.specs.Writing.Flex.{opened_by};
ghost use Rattle.subsetter_blend.specs.Hint.{is_hint};
ghost use Rattle.subsetter_blend.specs.Runs.Number.{IsWithin};
ghost use Rattle.subsetter_blend.specs.Writing.Placed.{IsPosition};
ghost use Rattle.subsetter_blend.specs.Writing.Split.{split};
ghost use Rattle.subsetter_blend.specs.Writing.Taking.{Did, all_taken};
ghost use Rattle.subsetter_blend.specs.Writing.Written.{width, begins, may_begin, start_point, end_point, fitted_piece, fitted, fitted_start, finished};

use crate::writing::flex::{open_flex1, open_hflex, open_hflex1};
use crate::writing::placing::{Position, place_all};
use crate::writing::splitting::{carried, cut, part_of, piece_operator};
use crate::writing::taking::Takes;
use std::alloc::{AllocError, Global};
use std::marker::Model;
use subsetter_base::error::Error;
use subsetter_cffdata::dicts::operator::{Operator, OperatorType};
use subsetter_cffdata::numerals::charstring_number::CharStringNumber;
use subsetter_type2::argstack::MAX_OPERANDS;
use subsetter_type2::operators::{FLEX, first_byte, second_byte};

/// The bytes so far, where the path has come, and the advance as long as it isn't written.
#[derive(Drop)]
pub struct Fitting {
    bytes: Vec<u8>,
    at: Position,
    advance: Option<i16>,
}

impl Model for Fitting {
    ghost use Rattle.subsetter_blend.specs.Writing.Placed.{IsPosition};
    ghost use Rattle.subsetter_blend.specs.Writing.Written.{Fitted};

    ghost Value = { Fitted };

    ghost view = { λ f. record { bytes = f.bytes.items; pen = record { at = f.at; advance = f.advance } } };

    ghost invariant = { λ f. IsPosition f.at };
}

/// The operator counts stems.
#[inline(always)]
fn is_hint(operator: OperatorType) -> bool
    ensures { result ≡ is_hint operator }
{
    match operator {
        OperatorType::OneByteOperator(code) => match code {
            [first] => matches!(
                first,
                first_byte::HORIZONTAL_STEM
                    | first_byte::VERTICAL_STEM
                    | first_byte::HORIZONTAL_STEM_HINT_MASK
                    | first_byte::HINT_MASK
                    | first_byte::COUNTER_MASK
                    | first_byte::VERTICAL_STEM_HINT_MASK
            ),
        },
        OperatorType::TwoByteOperator(_) => false,
    }
}

/// A glyph may begin with this operator.
#[inline(always)]
fn begins(operator: OperatorType) -> bool
    ensures { result ≡ begins operator }
{
    match operator {
        OperatorType::OneByteOperator(code) => match code {
            [first] => matches!(
                first,
                first_byte::HORIZONTAL_STEM
                    | first_byte::VERTICAL_STEM
                    | first_byte::HORIZONTAL_STEM_HINT_MASK
                    | first_byte::HINT_MASK
                    | first_byte::COUNTER_MASK
                    | first_byte::VERTICAL_STEM_HINT_MASK
                    | first_byte::VERTICAL_MOVE_TO
                    | first_byte::MOVE_TO
                    | first_byte::HORIZONTAL_MOVE_TO
            ),
        },
        OperatorType::TwoByteOperator(_) => false,
    }
}

/// The operator may be here.
#[inline(always)]
fn may_begin(advance: Option<i16>, operator: OperatorType) -> bool
    ensures { result ≡ may_begin advance operator }
{
    match advance {
        None => true,
        Some(_) => begins(operator),
    }
}

/// Writes the advance after these bytes, where it isn't written yet.
#[inline(always)]
fn append_width(bytes: &mut Vec<u8>, advance: Option<i16>) -> Result<(), Error>
    ensures ok { OnOk result (bytes.new.items ≡ bytes.old.items ++ flat_operands (width advance)) }
    ensures err { IfErr result (λ e. e ≡ OutOfMemory) }
{
    if let Some(advance) = advance {
        CharStringNumber::Integer(advance).append(bytes)?;
    }
    Ok(())
}

/// Writes an operator after these bytes.
#[inline(always)]
fn append_code(bytes: &mut Vec<u8>, operator: Operator) -> Result<(), AllocError>
    ensures { OnOk result (bytes.new.items ≡ bytes.old.items ++ operator_of operator) }
{
    match operator.0 {
        OperatorType::OneByteOperator(code) => match code {
            [first] => {
                bytes.push(first)?;
                Ok(())
            }
        },
        OperatorType::TwoByteOperator(code) => bytes.extend_from_slice(&code),
    }
}

/// Writes a mask after these bytes: most operators have none.
#[inline(always)]
fn append_mask(bytes: &mut Vec<u8>, mask: &[u8]) -> Result<(), AllocError>
    ensures { OnOk result (bytes.new.items ≡ bytes.old.items ++ mask.now) }
{
    if mask.is_empty() {
        return Ok(());
    }
    bytes.extend_from_slice(mask)
}

/// Writes an operator and its mask after these bytes.
#[inline(always)]
fn append_operator(bytes: &mut Vec<u8>, operator: Operator, mask: &[u8]) -> Result<(), Error>
    ensures ok { OnOk result (bytes.new.items ≡ bytes.old.items ++ (operator_of operator ++ mask.now)) }
    ensures err { IfErr result (λ e. e ≡ OutOfMemory) }
{
    append_code(bytes, operator)?;
    append_mask(bytes, mask)?;
    Ok(())
}

/// The position that an operator begins at.
#[inline(always)]
fn start_point(hint: bool, at: Position) -> Position
    requires { IsPosition at }
    ensures value { result ≡ start_point hint at }
    ensures within { IsPosition result }
{
    if hint { Position { x: 0, y: 0 } } else { at }
}

/// The position after an operator.
#[inline(always)]
fn end_point(hint: bool, old: Position, new: Position) -> Position
    requires old { IsPosition old }
    requires new { IsPosition new }
    ensures value { result ≡ end_point hint old new }
    ensures within { IsPosition result }
{
    if hint { old } else { new }
}

impl Fitting {
    /// Nothing is written yet; there is room for `room` bytes.
    pub fn with_room(alloc: Global, advance: i16, room: usize) -> Result<Self, Error>
        ensures ok { IfOk result (λ f. f ≡ fitted_start advance) }
        ensures err { IfErr result (λ e. e ≡ OutOfMemory) }
    {
        Ok(Fitting {
            bytes: Vec::with_capacity(alloc, room)?,
            at: Position { x: 0, y: 0 },
            advance: Some(advance),
        })
    }

    /// How many numbers are before the next operands.
    #[inline(always)]
    fn front(&self) -> usize
        ensures value { result ≡ length (width self.now.pen.advance) }
        ensures few { result ≤ 1 }
    {
        match self.advance {
            None => 0,
            Some(_) => 1,
        }
    }

    /// An operator that is open already, and has few operands.
    #[inline(always)]
    fn draw_piece(&mut self, operator: Operator, operands: &[i64], mask: &[u8]) -> Result<(), Error>
        requires few { length (width self.old.pen.advance) + length operands.now ≤ 48 }
        requires small { All (λ v. unsigned_abs v ≤ 2 ^ 59) operands.now }
        ensures did { Did (fitted_piece (record { operator = operator; operands = operands.now; mask = mask.now })) self.old self.new result }
        ensures written { OnOk result (self.new.pen.advance ≡ None) }
    {
        let hint = is_hint(operator.0);
        let start = start_point(hint, self.at);
        append_width(&mut self.bytes, self.advance)?;
        let end = place_all(operator, operands, start, &mut self.bytes)?;
        append_operator(&mut self.bytes, operator, mask)?;
        self.at = end_point(hint, self.at, end);
        self.advance = None;
        Ok(())
    }

    /// An operator that is open already, in as many pieces as it takes.
    fn draw_pieces(
        &mut self,
        operator: Operator,
        operands: &[i64],
        mask: &[u8],
    ) -> Result<(), Error>
        requires few { length operands.now ≤ 513 }
        requires small { All (λ v. unsigned_abs v ≤ 2 ^ 48) operands.now }
        ensures { Did (λ f. all_taken fitted_piece (split (length (width f.pen.advance)) (record { operator = operator; operands = operands.now; mask = mask.now })) f) self.old self.new result }
    {
        let hint = is_hint(operator.0);
        let mut start = 0;
        let mut before = 0;
        while self.front() + (operands.len() - start) > MAX_OPERANDS {
            let len = cut(operator.0, operands.len() - start);
            let part = &operands[start..start + len];
            self.draw_piece(
                piece_operator(operator),
                part_of(before, part).as_slice(),
                &[],
            )?;
            before = carried(hint, before, part);
            start += len;
        }
        self.draw_piece(
            operator,
            part_of(before, &operands[start..]).as_slice(),
            mask,
        )
    }

    /// An operator that is open already, in as many pieces as it takes: mostly one.
    #[inline(always)]
    fn draw(&mut self, operator: Operator, operands: &[i64], mask: &[u8]) -> Result<(), Error>
        requires few { length operands.now ≤ 513 }
        requires small { All (λ v. unsigned_abs v ≤ 2 ^ 48) operands.now }
        ensures { Did (λ f. all_taken fitted_piece (split (length (width f.pen.advance)) (record { operator = operator; operands = operands.now; mask = mask.now })) f) self.old self.new result }
    {
        if self.front() + operands.len() <= MAX_OPERANDS {
            return self.draw_piece(operator, operands, mask);
        }
        self.draw_pieces(operator, operands, mask)
    }

    /// A form of flex, by the second byte of its operator.
    fn flex(&mut self, second: u8, operands: &[i64], mask: &[u8]) -> Result<(), Error>
        requires few { length operands.now ≤ 513 }
        requires within { All IsWithin operands.now }
        ensures { Did (λ f. all_taken fitted_piece (split (length (width f.pen.advance)) (record { operator = record { 0 = OperatorType.TwoByteOperator (12 ∷ 35 ∷ []) }; operands = opened_by second operands.now; mask = mask.now })) f) self.old self.new result }
    {
        match second {
            second_byte::HFLEX => self.draw(FLEX, &open_hflex(operands), mask),
            second_byte::HFLEX1 => self.draw(FLEX, &open_hflex1(operands), mask),
            second_byte::FLEX1 => self.draw(FLEX, &open_flex1(operands), mask),
            _ => self.draw(FLEX, operands, mask),
        }
    }

    /// All that is written, and endchar.
    pub fn finish(self) -> Result<Vec<u8>, Error>
        ensures ok { IfOk result (λ bytes. bytes.items ≡ finished self) }
        ensures err { IfErr result (λ e. e ≡ OutOfMemory) }
    {
        let mut bytes = self.bytes;
        append_width(&mut bytes, self.advance)?;
        bytes.push(first_byte::ENDCHAR)?;
        Ok(bytes)
    }
}

impl Takes for Fitting {
    ghost use Rattle.subsetter_blend.specs.Writing.Written.{fitted};

    ghost taken = { λ e f. fitted e f };

    #[tactic(auto, unfolding(crate::specs::Writing::Flex::opened))]
    fn take(&mut self, operator: Operator, operands: &[i64], mask: &[u8]) -> Result<(), Error> {
        if !may_begin(self.advance, operator.0) {
            return Err(Error::CFFError);
        }
        match operator.0 {
            OperatorType::OneByteOperator(_) => self.draw(operator, operands, mask),
            OperatorType::TwoByteOperator(code) => match code {
                [_, second] => self.flex(second, operands, mask),
            },
        }
    }
}
