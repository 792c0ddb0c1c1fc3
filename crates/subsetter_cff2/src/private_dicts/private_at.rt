//! A private dict at a location (OpenType, "CFF2": "Private DICT Data").

ghost use Rattle.std.specs.Prelude.{◌≡◌, map, OnOk, IfErr, IfOk};
ghost use Rattle.subsetter_base.specs.Gives.{Fails};
ghost use Rattle.subsetter_cffdata.specs.Views.{number_of, operator_of};
ghost use Rattle.subsetter_cff2.specs.PrivateDicts.PrivateText.{following, after_step, operator_text, step_text, private_text};

use crate::private_dicts::kinds::{PrivateOperator, kind_of};
use crate::private_dicts::stack::PrivateStack;
use crate::variation::Variation;
use std::alloc::Global;
use subsetter_base::error::Error;
use subsetter_base::write::Writer;
use subsetter_cffdata::dicts::dict::DictionaryParser;
use subsetter_cffdata::dicts::operator::Operator;
use subsetter_cffdata::numerals::number::Number;

/// How many operands of an entry are read: one more than the stack holds, so that too many are seen.
const READ_OPERANDS: usize = 514;

/// Takes an operator, whose operands are on the stack.
fn take_operator(
    stack: &mut PrivateStack,
    operator: Operator,
    variation: &Option<Variation<'_>>,
    w: &mut Writer,
) -> Result<(), Error>
    ensures ok { OnOk result (after_step w.old (operator_text variation.now stack.old (operator_of operator)) ≡ Ok (record { text = w.new; next = stack.new })) }
    ensures err { IfErr result (λ e. Fails e (after_step w.old (operator_text variation.now stack.old (operator_of operator)))) }
{
    match kind_of(&operator) {
        PrivateOperator::Blends => stack.blend(variation).ok_or(Error::MalformedFont),
        PrivateOperator::ChoosesData => stack.choose(variation).ok_or(Error::MalformedFont),
        PrivateOperator::Edges => stack.write(true, operator, w),
        PrivateOperator::Numbers => stack.write(false, operator, w),
        PrivateOperator::Dropped => {
            stack.clear();
            Ok(())
        }
    }
}

/// Takes an entry: its operands, then its operator.
#[tactic(auto, unfolding(crate::specs::PrivateDicts::PrivateText::step_text))]
fn take_entry(
    stack: &mut PrivateStack,
    operator: Operator,
    operands: &[Number],
    variation: &Option<Variation<'_>>,
    w: &mut Writer,
) -> Result<(), Error>
    ensures ok { OnOk result (after_step w.old (step_text variation.now stack.old (operator_of operator) (map number_of operands.now)) ≡ Ok (record { text = w.new; next = stack.new })) }
    ensures err { IfErr result (λ e. Fails e (after_step w.old (step_text variation.now stack.old (operator_of operator) (map number_of operands.now)))) }
{
    if stack.push(operands).is_none() {
        return Err(Error::MalformedFont);
    }
    take_operator(stack, operator, variation, w)
}

/// Writes a private dict at a location: its entries with every blend resolved. Returns the item variation data of its charstrings.
/// A blend or a vsindex with wrong operands, and more than 513 operands, are `MalformedFont`; a real that is too long is
/// `OverflowError`.
pub fn write_private_at(
    alloc: Global,
    dict: &[u8],
    variation: &Option<Variation<'_>>,
    w: &mut Writer,
) -> Result<u16, Error>
    ensures ok { IfOk result (λ n. following w.old (private_text variation.now dict.now) ≡ Ok (record { text = w.new; data_index = n })) }
    ensures err { IfErr result (λ e. Fails e (following w.old (private_text variation.now dict.now))) }
{
    let mut buffer = vec![in alloc; Number::zero(); READ_OPERANDS]?;
    let mut stack = PrivateStack::new(alloc)?;
    let mut parser = DictionaryParser::new(dict, &mut buffer);
    while let Some(operator) = parser.parse_entry() {
        take_entry(&mut stack, operator, parser.operands(), variation, w)?;
    }
    Ok(stack.data_index())
}
