//! Operators that are the same.

ghost use Rattle.std.specs.Prelude.{◌≡◌};
ghost use Rattle.std.specs.Str.{bytes_eq};
ghost use Rattle.subsetter_cffdata.specs.Views.{operator_of};

use subsetter_cffdata::dicts::operator::{Operator, OperatorType};

/// Whether two bytes are the same.
fn same_byte(a: [u8; 1], b: [u8; 1]) -> bool
    ensures { result ≡ bytes_eq a b }
{
    a == b
}

/// Whether two bytes and two others are the same.
fn same_bytes(a: [u8; 2], b: [u8; 2]) -> bool
    ensures { result ≡ bytes_eq a b }
{
    a == b
}

/// One byte is never two.
fn never_same(a: [u8; 1], b: [u8; 2]) -> bool
    ensures one { result ≡ bytes_eq a b }
    ensures two { result ≡ bytes_eq b a }
{
    false
}

/// Whether two operators are the same.
pub fn same_operator(a: &Operator, b: &Operator) -> bool
    ensures { result ≡ bytes_eq (operator_of a.now) (operator_of b.now) }
{
    match a.0 {
        OperatorType::OneByteOperator(x) => match b.0 {
            OperatorType::OneByteOperator(y) => same_byte(x, y),
            OperatorType::TwoByteOperator(y) => never_same(x, y),
        },
        OperatorType::TwoByteOperator(x) => match b.0 {
            OperatorType::OneByteOperator(y) => never_same(y, x),
            OperatorType::TwoByteOperator(y) => same_bytes(x, y),
        },
    }
}
