//! The operators of a DICT (Technical Note 5176, section 4 "DICT Data").

ghost use Rattle.std.specs.Prelude.{◌≡◌, ◌∷◌, [], Some};
ghost use Rattle.subsetter_cffdata.specs.Views.{operator_of, operator_text};

use std::fmt;
use subsetter_base::error::Error;
use subsetter_base::write::{Writeable, Writer};

/// The first byte of an operator of two bytes.
pub const TWO_BYTE_OPERATOR_MARK: u8 = 12;

/// The bytes of an operator.
#[derive(Clone, Copy, Debug, PartialEq, Eq)]
pub enum OperatorType {
    /// The operator is this byte.
    OneByteOperator([u8; 1]),
    /// The operator is the mark 12 and one byte more.
    TwoByteOperator([u8; 2]),
}

/// An operator.
#[derive(Clone, Copy, Debug, PartialEq, Eq)]
pub struct Operator(pub OperatorType);

impl Operator {
    /// The operator of one byte.
    pub const fn from_one_byte(b: u8) -> Self
        ensures { operator_of result ≡ b ∷ [] }
    {
        Self(OperatorType::OneByteOperator([b]))
    }

    /// The operator of the mark and one byte more.
    pub const fn from_two_byte(b: u8) -> Self
        ensures { operator_of result ≡ 12 ∷ b ∷ [] }
    {
        let bytes = [TWO_BYTE_OPERATOR_MARK, b];
        Self(OperatorType::TwoByteOperator(bytes))
    }

    /// The bytes of the operator.
    pub fn as_slice(&self) -> &[u8]
        ensures { result.now ≡ operator_of self.now }
    {
        match &self.0 {
            OperatorType::OneByteOperator(b) => b,
            OperatorType::TwoByteOperator(b) => b,
        }
    }
}

/// The bytes in decimal, joined.
impl fmt::Display for Operator {
    ghost output = { λ o. Some (operator_text o) };

    fn fmt<W: fmt::Write>(&self, f: &mut fmt::Formatter<W>) -> fmt::Result {
        match self.0 {
            OperatorType::OneByteOperator(b) => {
                let first = b[0];
                write!(f, "{first}")
            }
            OperatorType::TwoByteOperator(b) => {
                let first = b[0];
                let second = b[1];
                write!(f, "{first}{second}")
            }
        }
    }
}

impl Writeable for Operator {
    ghost bytes_of = { λ operator. operator_of operator };

    fn write(&self, w: &mut Writer) -> Result<(), Error> {
        w.extend(self.as_slice())
    }
}
