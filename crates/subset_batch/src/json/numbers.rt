//! Numbers.

ghost use Rattle.std.specs.Prelude.{◌≡◌, ◌≤◌, ℕ, List, Some, None, if◌then◌else◌, length};
ghost use Rattle.std.specs.Option.{option_map};
ghost use Rattle.std.specs.Str.{all_ascii_digits};
ghost use Rattle.std.specs.List.{position_or_len, before_first, after_first};
ghost use Rattle.subset_args.specs.Coordinates.{has_byte};
ghost use Rattle.subset_batch.specs.Numbers.{is_byte, is_digits, is_int, is_decimal, is_sign, is_exponent, is_unsigned, is_number};

/// Whether bytes are digits.
fn are_digits(bytes: &[u8]) -> bool
    ensures { result ≡ all_ascii_digits bytes.now }
{
    let mut rest = bytes;
    while let [b, following @ ..] = rest {
        if !b.is_ascii_digit() {
            return false;
        }
        rest = following;
    }
    true
}

/// Whether bytes are one or more digits.
fn is_digits(bytes: &[u8]) -> bool
    ensures { result ≡ is_digits bytes.now }
{
    !bytes.is_empty() && are_digits(bytes)
}

/// Whether bytes are 0, or digits of which the first isn't 0.
#[tactic(auto, unfolding(crate::specs::Numbers::is_int))]
fn is_int(bytes: &[u8]) -> bool
    ensures { result ≡ is_int bytes.now }
{
    is_digits(bytes) && (bytes.len() == 1 || !matches!(bytes, [b'0', ..]))
}

/// Whether a byte is this one.
fn is_byte(byte: u8, b: u8) -> bool
    ensures { result ≡ is_byte byte b }
{
    b == byte
}

/// The index of the first byte that is this one, or the number of bytes.
fn place_of(byte: u8, bytes: &[u8]) -> usize
    ensures value { result ≡ position_or_len (is_byte byte) bytes.now }
    ensures within { result ≤ length bytes.now }
{
    let mut rest = bytes;
    while let [b, following @ ..] = rest {
        if is_byte(byte, *b) {
            return bytes.len().saturating_sub(rest.len());
        }
        rest = following;
    }
    bytes.len()
}

/// What is before a byte, and after it.
fn split_once(byte: u8, bytes: &[u8]) -> Option<(&[u8], &[u8])>
    ensures { option_map {U = List ℕ × List ℕ} (λ p. (p.0.now, p.1.now)) result ≡ (if has_byte (is_byte byte) bytes.now then Some (before_first (is_byte byte) bytes.now, after_first (is_byte byte) bytes.now) else None) }
{
    let at = place_of(byte, bytes);
    if at < bytes.len() {
        return Some((&bytes[..at], &bytes[at + 1..]));
    }
    None
}

/// Whether bytes are a number without a sign and an exponent.
#[tactic(auto, unfolding(crate::specs::Numbers::is_decimal))]
fn is_decimal(bytes: &[u8]) -> bool
    ensures { result ≡ is_decimal bytes.now }
{
    match split_once(b'.', bytes) {
        Some((whole, digits)) => is_int(whole) && is_digits(digits),
        None => is_int(bytes),
    }
}

/// Whether a byte is a sign.
fn is_sign(b: u8) -> bool
    ensures { result ≡ is_sign b }
{
    b == b'-' || b == b'+'
}

/// Whether bytes are what follows the letter of an exponent.
#[tactic(auto, unfolding(crate::specs::Numbers::is_exponent))]
fn is_exponent(bytes: &[u8]) -> bool
    ensures { result ≡ is_exponent bytes.now }
{
    match bytes {
        [] => false,
        [b, digits @ ..] => {
            if is_sign(*b) {
                is_digits(digits)
            } else {
                is_digits(bytes)
            }
        }
    }
}

/// Whether bytes are a number without a sign.
#[tactic(auto, unfolding(crate::specs::Numbers::is_unsigned))]
fn is_unsigned(bytes: &[u8]) -> bool
    ensures { result ≡ is_unsigned bytes.now }
{
    if let Some((decimal, exponent)) = split_once(b'e', bytes) {
        return is_decimal(decimal) && is_exponent(exponent);
    }
    match split_once(b'E', bytes) {
        Some((decimal, exponent)) => is_decimal(decimal) && is_exponent(exponent),
        None => is_decimal(bytes),
    }
}

/// Whether bytes are a number.
#[tactic(auto, unfolding(crate::specs::Numbers::is_number))]
pub fn is_number(bytes: &[u8]) -> bool
    ensures { result ≡ is_number bytes.now }
{
    match bytes {
        [] => false,
        [b, digits @ ..] => {
            if *b == b'-' {
                is_unsigned(digits)
            } else {
                is_unsigned(bytes)
            }
        }
    }
}
