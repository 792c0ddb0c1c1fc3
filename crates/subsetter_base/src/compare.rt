//! The smaller and the larger of two numbers.

ghost use Rattle.std.specs.Prelude.{◌≡◌};
ghost use Rattle.std.specs.Int.{int_min, int_max};

/// The smaller of two numbers.
#[inline]
pub fn smaller(a: i16, b: i16) -> i16
    ensures { result ≡ int_min a b }
{
    if b < a { b } else { a }
}

/// The larger of two numbers.
#[inline]
pub fn larger(a: i16, b: i16) -> i16
    ensures { result ≡ int_max a b }
{
    if b < a { a } else { b }
}
