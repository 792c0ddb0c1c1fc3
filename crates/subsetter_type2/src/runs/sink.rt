//! What takes the numbers and the operators of a run.
//!
//! By this trait one machine serves `flatten`, which writes bytes, and `decompile`, which makes a `Program`.

ghost use Rattle.std.specs.Prelude.{◌≡◌, ◌++◌, ◌∷◌, [], ◌<◌, length, OnOk, IfErr};
ghost use Rattle.subsetter_type2.specs.Runs.Machine.{last_operand, but_last};
ghost use Rattle.subsetter_type2.specs.Flat.{flat_event};
ghost use Rattle.subsetter_cffdata.specs.Numerals.CharStringNumber.{NumberFits};
ghost use Rattle.subsetter_base.specs.declared.error.Error.TheVariants.{OutOfMemory};

use subsetter_base::error::Error;
use subsetter_cffdata::dicts::operator::Operator;
use subsetter_cffdata::numerals::charstring_number::CharStringNumber;

/// The flat form so far, whose end is the operands on the stack.
pub trait Sink<'a> {
    ghost use Rattle.subsetter_type2.specs.Runs.Output.{Written};

    ghost written: { Self → Written };

    /// How many operands are on the stack.
    fn count(&self) -> usize
        ensures { result ≡ length (written self.now).operands };

    /// A number, which is put onto the stack.
    fn push(&mut self, value: CharStringNumber) -> Result<(), Error>
        requires room { length (written self.old).operands < 48 }
        requires fits { NumberFits value }
        ensures ok { OnOk result (written self.new ≡ record { settled = (written self.old).settled; operands = (written self.old).operands ++ value ∷ [] }) }
        ensures err { IfErr result (λ e. e ≡ OutOfMemory) };

    /// Takes the last operand off the stack.
    fn pop(&mut self) -> Option<CharStringNumber>
        ensures value { result ≡ last_operand (written self.old).operands }
        ensures rest { written self.new ≡ record { settled = (written self.old).settled; operands = but_last (written self.old).operands } };

    /// An operator with its mask bytes, which takes all operands.
    fn emit(&mut self, operator: Operator, mask: &'a [u8]) -> Result<(), Error>
        ensures ok { OnOk result (written self.new ≡ record {
          settled = (written self.old).settled ++ flat_event (record { operator = operator; operands = (written self.old).operands; mask = mask.now });
          operands = [];
        }) }
        ensures err { IfErr result (λ e. e ≡ OutOfMemory) };
}
