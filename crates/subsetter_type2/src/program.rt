//! A charstring as a list of instructions.
//!
//! `Program::default` returns a `Program` and no `Result`, as it takes no memory.

ghost use Rattle.std.specs.Prelude.{◌≡◌, ◌++◌, ◌∷◌, [], OnOk, OnErr, IfOk, IfErr, MatchOption};
ghost use Rattle.subsetter_type2.specs.Flat.{flat_operands};
ghost use Rattle.subsetter_type2.specs.ProgramView.{instruction_bytes, program_bytes};
ghost use Rattle.subsetter_base.specs.declared.error.Error.TheVariants.{OutOfMemory};

use crate::argstack::ArgumentsStack;
use crate::runs::output::append_operator;
use crate::runs::sink::Sink;
use std::alloc::Global;
use std::marker::Model;
use subsetter_base::error::Error;
use subsetter_cffdata::dicts::operator::Operator;
use subsetter_cffdata::numerals::charstring_number::CharStringNumber;

/// One instruction of a program. The bytes of a mask are a part of the charstring that holds them.
#[derive(Clone, Copy, Debug)]
pub enum Instruction<'a> {
    /// A number for the operator that follows.
    Operand(CharStringNumber),
    /// An operator.
    Operator(Operator),
    /// The bytes of the mask whose operator is before.
    HintMask(&'a [u8]),
}

/// A charstring as a list of instructions.
#[derive(Drop)]
pub struct Program<'a> {
    instructions: Vec<Instruction<'a>>,
}

impl<'a> Model for Program<'a> {
    ghost use Rattle.std.specs.Prelude.{List};
    ghost use Rattle.subsetter_type2.specs.declared.program.Instruction.{Instruction};

    ghost Value = { List Instruction };

    ghost view = { λ p. p.instructions.items };
}

impl<'a> Program<'a> {
    /// A program of no instructions.
    pub fn default(alloc: Global) -> Self
        ensures { result ≡ [] }
    {
        Program {
            instructions: Vec::new(alloc),
        }
    }

    /// Puts an instruction at the end.
    pub fn push(&mut self, instruction: Instruction<'a>) -> Result<(), Error>
        ensures ok { OnOk result (self.new ≡ self.old ++ instruction.entry ∷ []) }
        ensures err { IfErr result (λ e. e ≡ OutOfMemory) }
        ensures unchanged { OnErr result (self.new ≡ self.old) }
    {
        self.instructions.push(instruction)?;
        Ok(())
    }

    /// Takes the last instruction.
    fn pop(&mut self) -> Option<Instruction<'a>>
        ensures { MatchOption result ((self.old ≡ []) × (self.new ≡ [])) (λ last. self.old ≡ self.new ++ last ∷ []) }
    {
        self.instructions.pop()
    }

    /// The bytes of the instructions, each number in the shortest form.
    pub fn compile(&self, alloc: Global) -> Result<Vec<u8>, Error>
        ensures ok { IfOk result (λ bytes. bytes.items ≡ program_bytes self.now) }
        ensures err { IfErr result (λ e. e ≡ OutOfMemory) }
    {
        let mut bytes = Vec::new(alloc);
        for instruction in &self.instructions {
            append(&mut bytes, instruction)?;
        }
        Ok(bytes)
    }
}

/// Writes the bytes of an instruction after these.
fn append(bytes: &mut Vec<u8>, instruction: &Instruction) -> Result<(), Error>
    ensures ok { OnOk result (bytes.new.items ≡ bytes.old.items ++ instruction_bytes instruction.now) }
    ensures err { IfErr result (λ e. e ≡ OutOfMemory) }
{
    match instruction {
        Instruction::Operand(number) => bytes.extend_from_slice(number.bytes().as_slice())?,
        Instruction::Operator(operator) => append_operator(bytes, *operator)?,
        Instruction::HintMask(mask) => bytes.extend_from_slice(mask)?,
    }
    Ok(())
}

/// The program of a run so far, whose end is the operands on the stack.
#[derive(Drop)]
pub struct Draft<'a> {
    program: Program<'a>,
    operands: ArgumentsStack,
}

impl<'a> Model for Draft<'a> {
    ghost use Rattle.subsetter_type2.specs.Runs.Output.{Written};

    ghost Value = { Written };

    ghost use Rattle.subsetter_type2.specs.ProgramView.{draft_of, IsDraft, settled_program};

    ghost view = { λ d. draft_of d.program d.operands };

    ghost invariant = { λ d. IsDraft d.program (settled_program d.program d.operands) d.operands };
}

impl<'a> Sink<'a> for Draft<'a> {
    ghost written = { λ d. d };

    fn count(&self) -> usize {
        self.operands.len()
    }

    fn push(&mut self, value: CharStringNumber) -> Result<(), Error> {
        self.program.push(Instruction::Operand(value))?;
        self.operands.push(value)
    }

    fn pop(&mut self) -> Option<CharStringNumber> {
        let value = self.operands.pop()?;
        let _operand = self.program.pop();
        Some(value)
    }

    fn emit(&mut self, operator: Operator, mask: &'a [u8]) -> Result<(), Error> {
        let _operands = self.operands.pop_all();
        self.program.push(Instruction::Operator(operator))?;
        if !mask.is_empty() {
            self.program.push(Instruction::HintMask(mask))?;
        }
        Ok(())
    }
}

impl<'a> Draft<'a> {
    /// No instructions, and no operands.
    pub fn new(alloc: Global) -> Self
        ensures { result ≡ record { settled = []; operands = [] } }
    {
        Draft {
            program: Program::default(alloc),
            operands: ArgumentsStack::new(),
        }
    }

    /// The whole program.
    pub fn finish(self) -> Program<'a>
        ensures { program_bytes result ≡ self.entry.settled ++ flat_operands self.entry.operands }
    {
        self.program
    }
}
