//! What the operators of a CFF2 charstring do, and how many operands they take.

ghost use Rattle.std.specs.Prelude.{◌≡◌};
ghost use Rattle.subsetter_type2.specs.Token.{two_byte_effect};
ghost use Rattle.subsetter_blend.specs.Runs.Kind.{kind_of, one_byte_kind, accepts, one_byte_accepts, two_byte_accepts};

use subsetter_cffdata::dicts::operator::{Operator, OperatorType};
use subsetter_type2::operators::{first_byte, second_byte};
use subsetter_type2::token::{Effect, one_byte_effect};

/// vsindex, of CFF2 alone.
const VSINDEX: u8 = 15;
/// blend, of CFF2 alone.
const BLEND: u8 = 16;

/// What an operator does.
#[derive(Clone, Copy, PartialEq, Eq, Debug)]
pub enum Kind {
    ChoosesData,
    Blends,
    CountsStems,
    Draws,
    CallsLocal,
    CallsGlobal,
    Masks,
}

/// What both kinds of charstrings have: CFF2 has no return and no endchar.
#[inline(always)]
pub fn kind_of(effect: Option<Effect>) -> Option<Kind>
    ensures { result ≡ kind_of effect }
{
    match effect? {
        Effect::CountsStems => Some(Kind::CountsStems),
        Effect::Draws => Some(Kind::Draws),
        Effect::CallsLocal => Some(Kind::CallsLocal),
        Effect::CallsGlobal => Some(Kind::CallsGlobal),
        Effect::Returns => None,
        Effect::Ends => None,
        Effect::Masks => Some(Kind::Masks),
    }
}

/// What the operator of this byte does.
#[inline(always)]
pub fn one_byte_kind(first: u8) -> Option<Kind>
    ensures { result ≡ one_byte_kind first }
{
    match first {
        VSINDEX => Some(Kind::ChoosesData),
        BLEND => Some(Kind::Blends),
        _ => kind_of(one_byte_effect(first)),
    }
}

/// Whether the operator of this byte takes `count` operands.
#[inline(always)]
fn one_byte_accepts(first: u8, count: usize) -> bool
    ensures { result ≡ one_byte_accepts first count }
{
    match first {
        first_byte::HORIZONTAL_STEM
        | first_byte::VERTICAL_STEM
        | first_byte::LINE_TO
        | first_byte::HORIZONTAL_STEM_HINT_MASK
        | first_byte::VERTICAL_STEM_HINT_MASK => count >= 2 && count % 2 == 0,
        first_byte::HINT_MASK | first_byte::COUNTER_MASK => count % 2 == 0,
        first_byte::VERTICAL_MOVE_TO | first_byte::HORIZONTAL_MOVE_TO => count == 1,
        first_byte::MOVE_TO => count == 2,
        first_byte::HORIZONTAL_LINE_TO | first_byte::VERTICAL_LINE_TO => count >= 1,
        first_byte::CURVE_TO => count >= 6 && count % 6 == 0,
        first_byte::CURVE_LINE => count >= 8 && count % 6 == 2,
        first_byte::LINE_CURVE => count >= 8 && count % 2 == 0,
        first_byte::VV_CURVE_TO
        | first_byte::HH_CURVE_TO
        | first_byte::VH_CURVE_TO
        | first_byte::HV_CURVE_TO => count >= 4 && count % 4 < 2,
        _ => false,
    }
}

/// Whether the operator of the mark and this byte takes `count` operands.
fn two_byte_accepts(second: u8, count: usize) -> bool
    ensures { result ≡ two_byte_accepts second count }
{
    match second {
        second_byte::HFLEX => count == 7,
        second_byte::FLEX => count == 13,
        second_byte::HFLEX1 => count == 9,
        second_byte::FLEX1 => count == 11,
        _ => false,
    }
}

/// Whether the operator takes `count` operands.
#[inline(always)]
#[tactic(auto, unfolding(crate::specs::Runs::Kind::accepts))]
pub fn accepts(operator: Operator, count: usize) -> bool
    ensures { result ≡ accepts operator count }
{
    match operator.0 {
        OperatorType::OneByteOperator(code) => match code {
            [first] => one_byte_accepts(first, count),
        },
        OperatorType::TwoByteOperator(code) => match code {
            [_, second] => two_byte_accepts(second, count),
        },
    }
}
