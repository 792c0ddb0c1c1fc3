//! Which operands are together, where an operator has more than fit.

ghost use Rattle.std.specs.Prelude.{◌≡◌, ◌≤◌, ◌+◌, ◌*◌, ◌^◌, ◌+ℤ◌, All, length, unsigned_abs};
ghost use Rattle.subsetter_blend.specs.Writing.Split.{one_byte_cut, cut, one_byte_piece, piece_type, sum_of, moved_by, sum_before};

use subsetter_cffdata::dicts::operator::{Operator, OperatorType};
use subsetter_type2::operators::first_byte;
use subsetter_type2::runs::fixed_stack::FixedStack;

/// The operands of a piece.
pub type Part = FixedStack<i64, 48>;

/// How many of `count` operands the next piece takes, by an operator of one byte.
fn one_byte_cut(first: u8, count: usize) -> usize
    ensures value { result ≡ one_byte_cut first count }
    ensures low { 40 ≤ result }
    ensures high { result ≤ 47 }
{
    match first {
        first_byte::CURVE_TO | first_byte::CURVE_LINE => 42,
        first_byte::LINE_CURVE | first_byte::VH_CURVE_TO | first_byte::HV_CURVE_TO => 40,
        first_byte::VV_CURVE_TO | first_byte::HH_CURVE_TO => count % 4 + 44,
        _ => 46,
    }
}

/// How many of `count` operands the next piece takes.
pub fn cut(operator: OperatorType, count: usize) -> usize
    ensures value { result ≡ cut operator count }
    ensures low { 40 ≤ result }
    ensures high { result ≤ 47 }
{
    match operator {
        OperatorType::OneByteOperator(code) => match code {
            [first] => one_byte_cut(first, count),
        },
        OperatorType::TwoByteOperator(_) => 46,
    }
}

/// The operator of one byte of a piece.
fn one_byte_piece(first: u8) -> u8
    ensures { result ≡ one_byte_piece first }
{
    match first {
        first_byte::HINT_MASK | first_byte::COUNTER_MASK => first_byte::VERTICAL_STEM_HINT_MASK,
        first_byte::CURVE_LINE => first_byte::CURVE_TO,
        first_byte::LINE_CURVE => first_byte::LINE_TO,
        _ => first,
    }
}

/// The operator of a piece, but for the last one.
pub fn piece_operator(operator: Operator) -> Operator
    ensures { result ≡ record { 0 = piece_type operator.0 } }
{
    match operator.0 {
        OperatorType::OneByteOperator(code) => match code {
            [first] => Operator(OperatorType::OneByteOperator([one_byte_piece(first)])),
        },
        OperatorType::TwoByteOperator(_) => operator,
    }
}

/// A sum of few terms.
fn plus(sum: i64, more: i64) -> i64
    requires sum { unsigned_abs sum ≤ 2 ^ 58 }
    requires more { unsigned_abs more ≤ 2 ^ 58 }
    ensures value { result ≡ sum +ℤ more }
    ensures bound { unsigned_abs result ≤ unsigned_abs sum + unsigned_abs more }
{
    sum + more
}

/// The operands of a piece, the first with what is before.
pub fn part_of(before: i64, operands: &[i64]) -> Part
    requires few { length operands.now ≤ 48 }
    requires before { unsigned_abs before ≤ 2 ^ 58 }
    requires small { All (λ v. unsigned_abs v ≤ 2 ^ 48) operands.now }
    ensures value { result ≡ moved_by before operands.now }
    ensures small { All (λ v. unsigned_abs v ≤ 2 ^ 59) result }
{
    let mut part = FixedStack::new(0);
    let [first, rest @ ..] = operands else {
        return part;
    };
    part.push(plus(before, *first));
    for operand in rest {
        part.push(*operand);
    }
    part
}

/// The sum of operands.
fn sum(operands: &[i64]) -> i64
    requires few { length operands.now ≤ 513 }
    requires small { All (λ v. unsigned_abs v ≤ 2 ^ 48) operands.now }
    ensures value { result ≡ sum_of operands.now }
    ensures bound { unsigned_abs result ≤ length operands.now * 2 ^ 48 }
{
    let mut sum = 0;
    for operand in operands {
        sum = plus(sum, *operand);
    }
    sum
}

/// What is before the operands of the next piece.
pub fn carried(hint: bool, before: i64, operands: &[i64]) -> i64
    requires some { 1 ≤ length operands.now }
    requires few { length operands.now ≤ 513 }
    requires before { unsigned_abs before ≤ 2 ^ 58 }
    requires small { All (λ v. unsigned_abs v ≤ 2 ^ 48) operands.now }
    ensures value { result ≡ sum_before hint (moved_by before operands.now) }
    ensures bound { unsigned_abs result ≤ unsigned_abs before + length operands.now * 2 ^ 48 }
{
    if !hint {
        return 0;
    }
    plus(before, sum(operands))
}
