//! The entries of a dict: operands, then the operator (Technical Note 5176, section 4 "DICT Data").

ghost use Rattle.std.specs.Prelude.{◌≡◌, ◌<◌, ◌^◌, ◌++◌, ◌∷◌, [], map, OnOk, IfErr};
ghost use Rattle.std.specs.Option.{option_map};
ghost use Rattle.subsetter_base.specs.declared.error.Error.TheVariants.{OutOfMemory};
ghost use Rattle.subsetter_base.specs.Gives.{Gives};
ghost use Rattle.subsetter_base.specs.Refusals.{IsOutOfMemoryOr, first_refusal};
ghost use Rattle.subsetter_cffdata.specs.Dicts.Dict.{entry_bytes, dict};
ghost use Rattle.subsetter_cffdata.specs.Numerals.Numbers.{offset};
ghost use Rattle.subsetter_cffdata.specs.Views.{number_of, operator_of};
ghost use Rattle.subsetter_cff.specs.Write.Laying.TableLimits.{limit, short};
ghost use Rattle.subsetter_cff.specs.Write.Laying.Layout.{integer, number_entries, offset_entry, private_entry};
ghost use Rattle.subsetter_cffdata.specs.Dicts.Plain.{plain_entry};

use subsetter_base::error::Error;
use subsetter_base::write::Writer;
use subsetter_cffdata::dicts::operator::Operator;
use subsetter_cffdata::numerals::number::{IntegerNumber, Number, StringId};

/// Writes numbers and an operator. A real that is too long is `OverflowError`.
#[tactic(auto, using(crate::proofs::WriteLaws::NewDictsLaws::WrittenEntries::written_entry_is, crate::proofs::WriteLaws::LayingLaws::Checked::numbers_kept, crate::proofs::WriteLaws::LayingLaws::Checked::numbers_refused))]
pub fn write_numbers(numbers: &[Number], operator: Operator, w: &mut Writer) -> Result<(), Error>
    ensures ok { OnOk result (w.new ≡ w.old ++ entry_bytes (plain_entry (operator_of operator) (map number_of numbers.now))) }
    ensures checked { Gives (λ _. tt) result (limit (short (map number_of numbers.now))) }
{
    w.write(&numbers)?;
    w.write(&operator)
}

/// Writes an integer and an operator.
pub fn write_integer(number: u16, operator: Operator, w: &mut Writer) -> Result<(), Error>
    ensures ok { OnOk result (w.new ≡ w.old ++ entry_bytes (plain_entry (operator_of operator) (integer number ∷ []))) }
    ensures err { IfErr result (λ e. e ≡ OutOfMemory) }
{
    w.write(&IntegerNumber(i32::from(number)))?;
    w.write(&operator)
}

/// Writes an offset and an operator.
pub fn write_offset(place: u32, operator: Operator, w: &mut Writer) -> Result<(), Error>
    requires { place < 2 ^ 31 }
    ensures ok { OnOk result (w.new ≡ w.old ++ entry_bytes (offset_entry (operator_of operator) place)) }
    ensures err { IfErr result (λ e. e ≡ OutOfMemory) }
{
    IntegerNumber(place as i32).write_as_5_bytes(w)?;
    w.write(&operator)
}

/// Writes a size, an offset and an operator.
pub fn write_range(size: u32, place: u32, operator: Operator, w: &mut Writer) -> Result<(), Error>
    requires size { size < 2 ^ 31 }
    requires offset { place < 2 ^ 31 }
    ensures ok { OnOk result (w.new ≡ w.old ++ (offset size ++ (offset place ++ operator_of operator))) }
    ensures err { IfErr result (λ e. e ≡ OutOfMemory) }
{
    IntegerNumber(size as i32).write_as_5_bytes(w)?;
    IntegerNumber(place as i32).write_as_5_bytes(w)?;
    w.write(&operator)
}

/// Writes the number of a string and an operator, if there is one.
pub fn write_string(
    number: Option<StringId>,
    operator: Operator,
    w: &mut Writer,
) -> Result<(), Error>
    ensures ok { OnOk result (w.new ≡ w.old ++ dict (number_entries (operator_of operator) (option_map (λ s. s.0) number))) }
    ensures err { IfErr result (λ e. e ≡ OutOfMemory) }
{
    match number {
        Some(number) => write_integer(number.0, operator, w),
        None => Ok(()),
    }
}
