//! Digits and zeros as a whole number of at most 32 bits.

ghost use Rattle.std.specs.Prelude.{◌≡◌, ◌*◌, ◌^◌, ◌≤◌, IfSome};
ghost use Rattle.subsetter_cffdata.specs.Reals.Decimals.{number, signed};
ghost use Rattle.subsetter_cffdata.specs.Numerals.Limited.{limited};
ghost use Rattle.subsetter_cffdata.specs.Numerals.Numbers.{in_i32};

/// The greatest size of a signed number of 32 bits.
const LIMIT: u64 = 2147483648;

/// The number that digits are, up to the limit.
#[tactic(auto, unfolding(crate::specs::Numerals::Limited::limited))]
pub fn number_of_digits(ds: &[u8]) -> Option<u32>
    ensures value { result ≡ limited (number ds.now) }
    ensures small { IfSome result (λ n. n ≤ 2147483648) }
{
    let mut n: u64 = 0;
    for d in ds {
        n = n * 10 + u64::from(*d);
        if n > LIMIT {
            return None;
        }
    }
    Some(n as u32)
}

/// The number with zeros after it, up to the limit.
#[tactic(auto, unfolding(crate::specs::Numerals::Limited::limited))]
pub fn with_zeros(n: u32, count: u32) -> Option<u32>
    requires { n ≤ 2147483648 }
    ensures value { result ≡ limited (n * 10 ^ count) }
    ensures small { IfSome result (λ m. m ≤ 2147483648) }
{
    let mut size = u64::from(n);
    for _ in 0..count {
        size *= 10;
        if size > LIMIT {
            return None;
        }
    }
    Some(size as u32)
}

/// The size with its sign, where it fits.
#[tactic(auto, unfolding(crate::specs::Numerals::Numbers::in_i32))]
pub fn with_sign(negative: bool, size: u32) -> Option<i32>
    requires { size ≤ 2147483648 }
    ensures { result ≡ in_i32 (signed negative size) }
{
    if negative {
        return Some((-i64::from(size)) as i32);
    }
    i32::try_from(size).ok()
}

/// The digits with zeros after them and a sign, where they fit.
pub fn whole_of(negative: bool, ds: &[u8], zeros: u32) -> Option<i32>
    ensures { result ≡ in_i32 (signed negative (number ds.now * 10 ^ zeros)) }
{
    let size = number_of_digits(ds)?;
    let size = with_zeros(size, zeros)?;
    with_sign(negative, size)
}
