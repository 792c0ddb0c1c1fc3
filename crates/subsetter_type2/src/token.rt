//! What the operators of a charstring do (Technical Note 5177, section 4).

ghost use Rattle.std.specs.Prelude.{◌≡◌};
ghost use Rattle.subsetter_type2.specs.Token.{effect_of, one_byte_effect, two_byte_effect};

use crate::operators::{first_byte, second_byte};
use subsetter_cffdata::dicts::operator::{Operator, OperatorType, TWO_BYTE_OPERATOR_MARK};

/// What an operator does.
#[derive(Clone, Copy, PartialEq, Eq, Debug)]
pub enum Effect {
    /// It counts stems: its operands are their edges.
    CountsStems,
    /// It takes all operands, as those that move and draw do.
    Draws,
    /// It calls a local subroutine.
    CallsLocal,
    /// It calls a global subroutine.
    CallsGlobal,
    /// It returns to the caller.
    Returns,
    /// It ends the glyph.
    Ends,
    /// It takes the bytes of a mask.
    Masks,
}

/// What an operator does, if it is a known one.
#[inline(always)]
#[tactic(auto, unfolding(crate::specs::Token::effect_of))]
pub fn find_effect(operator: Operator) -> Option<Effect>
    ensures { result ≡ effect_of operator }
{
    match operator.0 {
        OperatorType::OneByteOperator(code) => match code {
            [first] => one_byte_effect(first),
        },
        OperatorType::TwoByteOperator(code) => match code {
            [mark, second] => two_byte_effect(mark, second),
        },
    }
}

/// What the operator of this byte does.
#[inline(always)]
pub fn one_byte_effect(first: u8) -> Option<Effect>
    ensures { result ≡ one_byte_effect first }
{
    match first {
        first_byte::HORIZONTAL_STEM
        | first_byte::VERTICAL_STEM
        | first_byte::HORIZONTAL_STEM_HINT_MASK
        | first_byte::VERTICAL_STEM_HINT_MASK => Some(Effect::CountsStems),
        first_byte::VERTICAL_MOVE_TO
        | first_byte::LINE_TO
        | first_byte::HORIZONTAL_LINE_TO
        | first_byte::VERTICAL_LINE_TO
        | first_byte::CURVE_TO
        | first_byte::MOVE_TO
        | first_byte::HORIZONTAL_MOVE_TO
        | first_byte::CURVE_LINE
        | first_byte::LINE_CURVE
        | first_byte::VV_CURVE_TO
        | first_byte::HH_CURVE_TO
        | first_byte::VH_CURVE_TO
        | first_byte::HV_CURVE_TO => Some(Effect::Draws),
        first_byte::CALL_LOCAL_SUBROUTINE => Some(Effect::CallsLocal),
        first_byte::CALL_GLOBAL_SUBROUTINE => Some(Effect::CallsGlobal),
        first_byte::RETURN => Some(Effect::Returns),
        first_byte::ENDCHAR => Some(Effect::Ends),
        first_byte::HINT_MASK | first_byte::COUNTER_MASK => Some(Effect::Masks),
        _ => None,
    }
}

/// What the operator of these two bytes does.
#[inline(always)]
fn two_byte_effect(mark: u8, second: u8) -> Option<Effect>
    ensures { result ≡ two_byte_effect mark second }
{
    match (mark, second) {
        (TWO_BYTE_OPERATOR_MARK, second_byte::HFLEX..=second_byte::FLEX1) => Some(Effect::Draws),
        _ => None,
    }
}
