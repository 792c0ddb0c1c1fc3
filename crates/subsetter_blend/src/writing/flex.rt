//! The short forms of flex as flex (Technical Note 5177, section 4.2).

ghost use Rattle.std.specs.Prelude.{◌≡◌, ◌≤◌, ◌^◌, ◌*◌, ◌+◌, ◌+ℤ◌, neg_ℤ, All, length, unsigned_abs};
ghost use Rattle.subsetter_blend.specs.Runs.Number.{IsWithin};
ghost use Rattle.subsetter_blend.specs.Writing.Flex.{opened_hflex, opened_hflex1, opened_flex1, operand_at, last_x, last_y, sum_x, sum_y};

/// 50 hundredths of a pixel, in parts.
const DEPTH: i64 = 53687091200;

/// A sum of parts.
fn plus(a: i64, b: i64) -> i64
    requires first { unsigned_abs a ≤ 2 ^ 48 }
    requires second { unsigned_abs b ≤ 2 ^ 48 }
    ensures value { result ≡ a +ℤ b }
    ensures bound { unsigned_abs result ≤ unsigned_abs a + unsigned_abs b }
{
    a + b
}

/// As far in the other direction.
fn minus(a: i64) -> i64
    requires { unsigned_abs a ≤ 2 ^ 48 }
    ensures value { result ≡ neg_ℤ a }
    ensures bound { unsigned_abs result ≤ 2 ^ 48 }
{
    -a
}

/// The operand of this number.
fn operand(operands: &[i64], i: usize) -> i64
    requires within { All IsWithin operands.now }
    ensures value { result ≡ operand_at operands.now i }
    ensures bound { unsigned_abs result ≤ 2 ^ 45 }
{
    match operands.get(i) {
        Some(operand) => *operand,
        None => 0,
    }
}

/// hflex.
pub fn open_hflex(operands: &[i64]) -> [i64; 13]
    requires { All IsWithin operands.now }
    ensures value { result ≡ opened_hflex (operand_at operands.now) }
    ensures small { All (λ v. unsigned_abs v ≤ 2 ^ 48) result }
{
    [
        operand(operands, 0),
        0,
        operand(operands, 1),
        operand(operands, 2),
        operand(operands, 3),
        0,
        operand(operands, 4),
        0,
        operand(operands, 5),
        minus(operand(operands, 2)),
        operand(operands, 6),
        0,
        DEPTH,
    ]
}

/// hflex1.
pub fn open_hflex1(operands: &[i64]) -> [i64; 13]
    requires { All IsWithin operands.now }
    ensures value { result ≡ opened_hflex1 (operand_at operands.now) }
    ensures small { All (λ v. unsigned_abs v ≤ 2 ^ 48) result }
{
    let dy = plus(
        plus(operand(operands, 1), operand(operands, 3)),
        operand(operands, 7),
    );
    [
        operand(operands, 0),
        operand(operands, 1),
        operand(operands, 2),
        operand(operands, 3),
        operand(operands, 4),
        0,
        operand(operands, 5),
        0,
        operand(operands, 6),
        operand(operands, 7),
        operand(operands, 8),
        minus(dy),
        DEPTH,
    ]
}

/// The sum of the five moves along x.
fn sum_x(operands: &[i64]) -> i64
    requires { All IsWithin operands.now }
    ensures value { result ≡ sum_x (operand_at operands.now) }
    ensures bound { unsigned_abs result ≤ 5 * 2 ^ 45 }
{
    let two = plus(operand(operands, 0), operand(operands, 2));
    let four = plus(plus(two, operand(operands, 4)), operand(operands, 6));
    plus(four, operand(operands, 8))
}

/// The sum of the five moves along y.
fn sum_y(operands: &[i64]) -> i64
    requires { All IsWithin operands.now }
    ensures value { result ≡ sum_y (operand_at operands.now) }
    ensures bound { unsigned_abs result ≤ 5 * 2 ^ 45 }
{
    let two = plus(operand(operands, 1), operand(operands, 3));
    let four = plus(plus(two, operand(operands, 5)), operand(operands, 7));
    plus(four, operand(operands, 9))
}

/// The last move of flex1 along x.
fn last_x(dx: i64, dy: i64, d6: i64) -> i64
    requires dx { unsigned_abs dx ≤ 5 * 2 ^ 45 }
    requires d6 { unsigned_abs d6 ≤ 2 ^ 45 }
    ensures value { result ≡ last_x dx dy d6 }
    ensures bound { unsigned_abs result ≤ 2 ^ 48 }
{
    if dy.unsigned_abs() < dx.unsigned_abs() {
        return d6;
    }
    minus(dx)
}

/// The last move of flex1 along y.
fn last_y(dx: i64, dy: i64, d6: i64) -> i64
    requires dy { unsigned_abs dy ≤ 5 * 2 ^ 45 }
    requires d6 { unsigned_abs d6 ≤ 2 ^ 45 }
    ensures value { result ≡ last_y dx dy d6 }
    ensures bound { unsigned_abs result ≤ 2 ^ 48 }
{
    if dy.unsigned_abs() < dx.unsigned_abs() {
        return minus(dy);
    }
    d6
}

/// flex1.
pub fn open_flex1(operands: &[i64]) -> [i64; 13]
    requires { All IsWithin operands.now }
    ensures value { result ≡ opened_flex1 (operand_at operands.now) }
    ensures small { All (λ v. unsigned_abs v ≤ 2 ^ 48) result }
{
    let dx = sum_x(operands);
    let dy = sum_y(operands);
    let d6 = operand(operands, 10);
    [
        operand(operands, 0),
        operand(operands, 1),
        operand(operands, 2),
        operand(operands, 3),
        operand(operands, 4),
        operand(operands, 5),
        operand(operands, 6),
        operand(operands, 7),
        operand(operands, 8),
        operand(operands, 9),
        last_x(dx, dy, d6),
        last_y(dx, dy, d6),
        DEPTH,
    ]
}
