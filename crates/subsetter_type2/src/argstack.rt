//! The argument stack.

ghost use Rattle.std.specs.Prelude.{◌≡◌, ◌≤◌, ◌∷◌, ◌++◌, [], length, OnOk, OnErr, IfErr, MatchOption};

use crate::runs::fixed_stack::FixedStack;
use std::marker::Model;
use subsetter_base::error::Error;
use subsetter_cffdata::numerals::charstring_number::CharStringNumber;

/// How many numbers the stack holds (Technical Note 5177, appendix B "Type 2 Charstring Implementation Limits").
pub const MAX_OPERANDS: usize = 48;

/// The numbers that no operator has taken yet.
#[derive(Drop)]
pub struct ArgumentsStack {
    numbers: FixedStack<CharStringNumber, 48>,
}

impl Model for ArgumentsStack {
    ghost use Rattle.std.specs.Prelude.{◌≤◌, List, length};
    ghost use Rattle.subsetter_cffdata.specs.declared.numerals.charstring_number.CharStringNumber.{CharStringNumber};

    ghost Value = { List CharStringNumber };

    ghost view = { λ s. s.numbers };
}

impl ArgumentsStack {
    /// No numbers.
    pub fn new() -> Self
        ensures { result ≡ [] }
    {
        ArgumentsStack {
            numbers: FixedStack::new(CharStringNumber::default()),
        }
    }

    /// How many numbers there are.
    pub fn len(&self) -> usize
        ensures len { result ≡ length self.now }
        ensures room { length self.now ≤ 48 }
    {
        self.numbers.len()
    }

    /// Puts a number on the top; `CFFError` where there are 48 already.
    pub fn push(&mut self, number: CharStringNumber) -> Result<(), Error>
        ensures ok { OnOk result (self.new ≡ self.old ++ number ∷ []) }
        ensures err { IfErr result (λ e. (e ≡ Error.CFFError) × (length self.old ≡ 48)) }
        ensures unchanged { OnErr result (self.new ≡ self.old) }
    {
        if self.numbers.len() >= MAX_OPERANDS {
            return Err(Error::CFFError);
        }
        self.numbers.push(number);
        Ok(())
    }

    /// Takes the number at the top.
    pub fn pop(&mut self) -> Option<CharStringNumber>
        ensures { MatchOption result ((self.old ≡ []) × (self.new ≡ [])) (λ number. self.old ≡ self.new ++ number ∷ []) }
    {
        self.numbers.pop()
    }

    /// Takes all numbers, and leaves none.
    pub fn pop_all(&mut self) -> ArgumentsStack
        ensures taken { result ≡ self.old }
        ensures left { self.new ≡ [] }
    {
        std::mem::replace(self, ArgumentsStack::new())
    }
}
