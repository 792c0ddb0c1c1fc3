//! Unsigned numbers of a few bytes, the high byte first.

ghost use Rattle.std.specs.Prelude.{◌≡◌, ◌≤◌, ◌*◌, length, take, drop};
ghost use Rattle.subsetter_base.specs.Bytes.{be};

/// The number that at most four bytes are, the high byte first.
#[tactic(auto, using(crate::proofs::ByteLemmas::be_cases))]
pub fn number_of(bytes: &[u8]) -> u32
    requires { length bytes.now ≤ 4 }
    ensures { result ≡ be bytes.now }
{
    match bytes {
        [] => 0,
        [a] => u32::from(*a),
        [a, b] => u32::from_be_bytes([0, 0, *a, *b]),
        [a, b, c] => u32::from_be_bytes([0, *a, *b, *c]),
        [a, b, c, d, ..] => u32::from_be_bytes([*a, *b, *c, *d]),
    }
}

/// Two numbers, one after the other.
#[derive(Clone, Copy, Debug)]
pub struct TwoNumbers {
    /// The first.
    pub first: u32,
    /// The second.
    pub second: u32,
}

/// The numbers that the two halves of these bytes are, each of at most four bytes.
#[inline]
#[tactic(auto, using(crate::proofs::ByteLemmas::be_cases))]
pub fn two_numbers(bytes: &[u8], size: usize) -> TwoNumbers
    requires halves { length bytes.now ≡ 2 * size }
    requires few { size ≤ 4 }
    ensures first { result.first ≡ be (take size bytes.now) }
    ensures second { result.second ≡ be (drop size bytes.now) }
{
    match bytes {
        [a, b, c, d, e, f, g, h, ..] => TwoNumbers {
            first: u32::from_be_bytes([*a, *b, *c, *d]),
            second: u32::from_be_bytes([*e, *f, *g, *h]),
        },
        [a, b, c, d, e, f, ..] => TwoNumbers {
            first: u32::from_be_bytes([0, *a, *b, *c]),
            second: u32::from_be_bytes([0, *d, *e, *f]),
        },
        [a, b, c, d, ..] => TwoNumbers {
            first: u32::from_be_bytes([0, 0, *a, *b]),
            second: u32::from_be_bytes([0, 0, *c, *d]),
        },
        [a, b, ..] => TwoNumbers {
            first: u32::from(*a),
            second: u32::from(*b),
        },
        _ => TwoNumbers {
            first: 0,
            second: 0,
        },
    }
}
