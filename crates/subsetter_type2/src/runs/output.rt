//! The bytes of the flat form, with the operands that no operator has taken yet at their end.
//!
//! The operands are read at the end of the output and not kept beside it: only a call takes one, the last. Where it
//! begins is known after a stretch; else the numbers are walked from the last operator on (`last_number`).

ghost use Rattle.std.specs.Prelude.{◌≡◌, ◌≤◌, ◌++◌, [], length, OnOk, OnErr, IfOk, IfErr, MatchOption};
ghost use Rattle.subsetter_base.specs.declared.error.Error.TheVariants.{OutOfMemory};
ghost use Rattle.subsetter_cffdata.specs.Views.{operator_of};
ghost use Rattle.subsetter_type2.specs.Flat.{flat_operands};
ghost use Rattle.subsetter_type2.specs.Runs.OutputView.{last_operand_offset};
ghost use Rattle.subsetter_type2.specs.Stretches.Stretch.{Advances};

use crate::runs::last_number::find_last_number;
use crate::runs::sink::Sink;
use crate::stretches::scanning::find_stretch;
use crate::stretches::stretch::Stretch;
use std::marker::Model;
use subsetter_base::error::Error;
use subsetter_cffdata::dicts::operator::{Operator, OperatorType};
use subsetter_cffdata::numerals::charstring_number::{CharStringNumber, read_number};

/// The output, whose end is the operands on the stack: they are read there where they are needed.
#[derive(Drop)]
pub struct Output {
    bytes: Vec<u8>,
    /// Where the operands begin.
    settled: usize,
    /// How many operands there are.
    count: usize,
    /// Where the last operand begins, if that is known; else 0.
    last: usize,
}

impl Model for Output {
    ghost use Rattle.subsetter_type2.specs.Runs.Output.{Written};

    ghost Value = { Written };

    ghost use Rattle.subsetter_type2.specs.Runs.OutputView.{written_at, Holds};

    ghost view = { λ o. written_at o.bytes.items o.settled o.count };

    ghost invariant = { λ o. Holds o.bytes.items o.settled o.count o.last (written_at o.bytes.items o.settled o.count) };
}

impl<'a> Sink<'a> for Output {
    ghost written = { λ o. o };

    #[inline(always)]
    fn count(&self) -> usize {
        self.count
    }

    fn push(&mut self, value: CharStringNumber) -> Result<(), Error> {
        value.append(&mut self.bytes)?;
        self.count += 1;
        self.last = 0;
        Ok(())
    }

    fn pop(&mut self) -> Option<CharStringNumber> {
        let place = self.find_last()?;
        let value = read_number(&self.bytes[place..])?.number;
        self.bytes.truncate(place);
        self.count -= 1;
        self.last = 0;
        Some(value)
    }

    #[inline(always)]
    fn emit(&mut self, operator: Operator, mask: &'a [u8]) -> Result<(), Error> {
        append_operator(&mut self.bytes, operator)?;
        self.settled = self.bytes.len();
        self.count = 0;
        self.bytes.extend_from_slice(mask)?;
        self.settled = self.bytes.len();
        Ok(())
    }
}

impl Output {
    /// Nothing is written yet after these bytes.
    pub fn following(bytes: Vec<u8>) -> Self
        ensures { result ≡ record { settled = bytes.items; operands = [] } }
    {
        let settled = bytes.len();
        Output {
            bytes,
            settled,
            count: 0,
            last: 0,
        }
    }

    /// Where the last operand begins.
    #[inline(always)]
    fn find_last(&self) -> Option<usize>
        ensures { MatchOption result (self.now.operands ≡ []) (λ place. (place ≡ last_operand_offset self.now) × (1 ≤ length self.now.operands)) }
    {
        if self.count == 0 {
            return None;
        }
        if self.last != 0 {
            return Some(self.last);
        }
        let last = find_last_number(&self.bytes[self.settled..], self.count)?;
        Some(self.settled + last.before)
    }

    /// Writes the stretch of at most `tokens` tokens at the front of a charstring.
    #[inline(always)]
    pub fn take_stretch(
        &mut self,
        charstring: &[u8],
        tokens: u32,
        mask_len: u16,
    ) -> Result<Stretch, Error>
        ensures leads { IfOk result (λ s. Advances charstring.now s.len s.tokens mask_len self.old self.new) }
        ensures moves { IfOk result (λ s. s.tokens ≡ 0 → s.len ≡ 0) }
        ensures inside { IfOk result (λ s. s.len ≤ length charstring.now) }
        ensures few { IfOk result (λ s. s.tokens ≤ tokens) }
        ensures err { IfErr result (λ e. e ≡ OutOfMemory) }
    {
        let stretch = find_stretch(charstring, tokens, mask_len, self.count);
        if stretch.len == 0 {
            return Ok(stretch);
        }
        let before = self.bytes.len();
        self.bytes.extend_from_slice(&charstring[..stretch.len])?;
        self.settled = stretch.settled_after(self.settled, before);
        self.count = stretch.count;
        self.last = before + stretch.last;
        Ok(stretch)
    }

    /// How many bytes are before the operands.
    #[inline(always)]
    pub fn settled_len(&self) -> usize
        ensures { result ≡ length self.now.settled }
    {
        self.settled
    }

    /// All that is written.
    pub fn finish(self) -> Vec<u8>
        ensures { result.items ≡ self.settled ++ flat_operands self.operands }
    {
        self.bytes
    }
}

/// Writes the bytes of an operator after these.
#[inline(always)]
pub fn append_operator(bytes: &mut Vec<u8>, operator: Operator) -> Result<(), Error>
    ensures ok { OnOk result (bytes.new.items ≡ bytes.old.items ++ operator_of operator) }
    ensures err { IfErr result (λ e. e ≡ OutOfMemory) }
    ensures unchanged { OnErr result (bytes.new.items ≡ bytes.old.items) }
{
    match &operator.0 {
        OperatorType::OneByteOperator(code) => bytes.extend_from_slice(code)?,
        OperatorType::TwoByteOperator(code) => bytes.extend_from_slice(code)?,
    }
    Ok(())
}
