//! What an operator of a private dict does where the dict is placed (OpenType, "CFF2": "Private DICT Data").

ghost use Rattle.std.specs.Prelude.{◌≡◌};
ghost use Rattle.subsetter_cffdata.specs.Views.{operator_of};
ghost use Rattle.subsetter_cff2.specs.PrivateDicts.PrivateKinds.{one_byte_kind, two_byte_kind, kind_by};

use subsetter_cffdata::dicts::operator::{Operator, TWO_BYTE_OPERATOR_MARK};

/// The operators of one byte that are kept or obeyed; OtherBlues and FamilyBlues are between these two.
const BLUE_VALUES: u8 = 6;

const FAMILY_OTHER_BLUES: u8 = 9;

const STD_HW: u8 = 10;

const STD_VW: u8 = 11;

const VSINDEX: u8 = 22;

const BLEND: u8 = 23;
/// The second bytes of those of two bytes that are kept.
const BLUE_SCALE: u8 = 9;

const BLUE_SHIFT: u8 = 10;

const BLUE_FUZZ: u8 = 11;

const STEM_SNAP_H: u8 = 12;

const STEM_SNAP_V: u8 = 13;

const LANGUAGE_GROUP: u8 = 17;

const EXPANSION_FACTOR: u8 = 18;

/// What an operator of a private dict does.
#[derive(Clone, Copy, Debug)]
pub enum PrivateOperator {
    /// It blends: results replace defaults and deltas.
    Blends,
    /// It chooses the item variation data.
    ChoosesData,
    /// It is kept, with an array of differences.
    Edges,
    /// It is kept, with a number.
    Numbers,
    /// It isn't kept.
    Dropped,
}

/// What an operator of one byte does.
fn one_byte_kind(b: u8) -> PrivateOperator
    ensures { result ≡ one_byte_kind b }
{
    match b {
        BLUE_VALUES..=FAMILY_OTHER_BLUES => PrivateOperator::Edges,
        STD_HW | STD_VW => PrivateOperator::Numbers,
        VSINDEX => PrivateOperator::ChoosesData,
        BLEND => PrivateOperator::Blends,
        _ => PrivateOperator::Dropped,
    }
}

/// What an operator of two bytes does, by the second.
fn two_byte_kind(b: u8) -> PrivateOperator
    ensures { result ≡ two_byte_kind b }
{
    match b {
        STEM_SNAP_H | STEM_SNAP_V => PrivateOperator::Edges,
        BLUE_SCALE | BLUE_SHIFT | BLUE_FUZZ | LANGUAGE_GROUP | EXPANSION_FACTOR =>
            PrivateOperator::Numbers,
        _ => PrivateOperator::Dropped,
    }
}

/// What an operator does.
pub fn kind_of(operator: &Operator) -> PrivateOperator
    ensures { result ≡ kind_by (operator_of operator.now) }
{
    match operator.as_slice() {
        [b] => one_byte_kind(*b),
        [TWO_BYTE_OPERATOR_MARK, b] => two_byte_kind(*b),
        _ => PrivateOperator::Dropped,
    }
}
