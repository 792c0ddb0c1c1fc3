//! What takes the events of a run.

ghost use Rattle.std.specs.Prelude.{◌≡◌, ◌≤◌, All, length, true};
ghost use Rattle.subsetter_blend.specs.Runs.Kind.{accepts};
ghost use Rattle.subsetter_blend.specs.Runs.Number.{IsWithin};
ghost use Rattle.subsetter_blend.specs.Writing.Taking.{Did};

use subsetter_base::error::Error;
use subsetter_cffdata::dicts::operator::Operator;

/// Takes events, one after the other.
pub trait Takes {
    ghost use Rattle.std.specs.Prelude.{Result};
    ghost use Rattle.subsetter_base.specs.declared.error.Error.{Error};
    ghost use Rattle.subsetter_blend.specs.Writing.Taking.{Event};

    ghost taken: { Event → Self → Result Self Error };

    /// Takes an operator with its operands and its mask.
    fn take(&mut self, operator: Operator, operands: &[i64], mask: &[u8]) -> Result<(), Error>
        requires few { length operands.now ≤ 513 }
        requires within { All IsWithin operands.now }
        requires accepted { accepts operator (length operands.now) ≡ true }
        ensures { Did (taken (record { operator = operator; operands = operands.now; mask = mask.now })) self.old self.new result };
}
