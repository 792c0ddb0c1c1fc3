//! The width of a blank (Technical Note 5176, section 15 "Private DICT Data").

ghost use Rattle.std.specs.Prelude.{◌≡◌, map};
ghost use Rattle.subsetter_cff.specs.Read.Entries.Lookup.{last_of};
ghost use Rattle.subsetter_cffdata.specs.Dicts.Dict.{entries};
ghost use Rattle.subsetter_cffdata.specs.Views.{number_of, operator_of};
ghost use Rattle.pdf_widths.specs.Change.{is_advance, short, wanted};
ghost use Rattle.pdf_widths.specs.Defaults.{defaults_of, whole_of_one, whole_or_zero};

use subsetter_cff::read::entries::demands::show_last;
use subsetter_cffdata::dicts::dict::DictionaryParser;
use subsetter_cffdata::dicts::operator::{Operator, OperatorType};
use subsetter_cffdata::numerals::charstring_number::CharStringNumber;
use subsetter_cffdata::numerals::number::Number;

const DEFAULT_WIDTH: Operator = Operator(OperatorType::OneByteOperator([20]));

const NOMINAL_WIDTH: Operator = Operator(OperatorType::OneByteOperator([21]));

/// The whole number that one operand is.
fn whole_of_one(operands: &[Number]) -> Option<i32>
    ensures { result ≡ whole_of_one (map number_of operands.now) }
{
    match operands {
        [number] => number.as_i32(),
        _ => None,
    }
}

/// What the last entry of an operator says; 0 where there is none.
fn whole_or_zero(dict: &[u8], operator: &Operator) -> Option<i32>
    ensures { result ≡ whole_or_zero (last_of (operator_of operator.now) (entries dict.now)) }
{
    let mut buffer = [Number::zero(); 48];
    let mut parser = DictionaryParser::new(dict, &mut buffer);
    if !show_last(&mut parser, operator) {
        return Some(0);
    }
    whole_of_one(parser.operands())
}

/// Whether an advance is 0.
fn is_zero(said: Option<i32>) -> bool
    ensures { result ≡ is_advance said 0 }
{
    match said {
        Some(said) => said == 0,
        None => false,
    }
}

/// A whole number of 16 bits, as a charstring has it.
fn short(value: i64) -> Option<CharStringNumber>
    ensures { result ≡ short value }
{
    if -32768 <= value && value <= 32767 {
        return Some(CharStringNumber::Integer(value as i16));
    }
    None
}

/// The width that says the advance 0 under a private dict; none where no number does.
#[tactic(auto, unfolding(pdf_widths::specs::Defaults::defaults_of))]
pub fn zero_width(dict: &[u8]) -> Option<Option<CharStringNumber>>
    ensures { result ≡ wanted (defaults_of (entries dict.now)) 0 }
{
    if is_zero(whole_or_zero(dict, &DEFAULT_WIDTH)) {
        return Some(None);
    }
    let nominal = whole_or_zero(dict, &NOMINAL_WIDTH)?;
    let number = short(0 - i64::from(nominal))?;
    Some(Some(number))
}
