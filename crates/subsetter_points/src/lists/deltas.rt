//! The delta from a coordinate to the next, and how it is encoded.

ghost use Rattle.std.specs.Prelude.{◌≡◌, ◌<◌, ◌≤◌, ◌+◌, ◌++◌, ◌+ℤ◌, ◌-ℤ◌, vec_len, vec_capacity, IsTrue, OnOk, IfErr};
ghost use Rattle.std.specs.Option.{option_map};
ghost use Rattle.subsetter_points.specs.Simple.{encoding_of, delta_at, in_16_bits, coordinate, shortest_encoding, encoded_delta, has_16_bits};
ghost use Rattle.subsetter_base.specs.Bytes.{has_flag};
ghost use Rattle.subsetter_base.specs.declared.error.Error.TheVariants.{OutOfMemory};

use crate::lists::front::{read_byte, read_word};
use subsetter_base::Error;

/// The delta in x is one byte.
pub const X_SHORT_VECTOR: u8 = 0x02;
/// That byte is added; without it x is the same as before.
pub const X_IS_SAME_OR_POSITIVE_X_SHORT_VECTOR: u8 = 0x10;
/// The delta in y is one byte.
pub const Y_SHORT_VECTOR: u8 = 0x04;
/// That byte is added; without it y is the same as before.
pub const Y_IS_SAME_OR_POSITIVE_Y_SHORT_VECTOR: u8 = 0x20;

/// How a delta is encoded.
#[derive(Clone, Copy)]
pub enum Encoding {
    /// By nothing: the coordinate is the same as before.
    Same,
    /// By a byte, which is added.
    Positive,
    /// By a byte, which is subtracted.
    Negative,
    /// By an int16.
    Word,
}

/// Whether a flag has a bit set.
pub fn has(flag: u8, bit: u8) -> bool
    ensures { result ≡ has_flag flag bit }
{
    flag & bit != 0
}

/// The delta that a flag encodes, by the bit for a short vector and the one for the same coordinate or the sign, and the bytes
/// after it.
pub fn read_delta(short: u8, same: u8, flag: u8, bytes: &[u8]) -> Option<(i16, &[u8])>
    ensures { option_map (λ p. (p.0, p.1.now)) result ≡ delta_at (encoding_of short same flag) bytes.now }
{
    if has(flag, short) {
        let (size, rest) = read_byte(bytes)?;
        if has(flag, same) {
            Some((i16::from(size), rest))
        } else {
            Some((-i16::from(size), rest))
        }
    } else if has(flag, same) {
        Some((0, bytes))
    } else {
        let (bits, rest) = read_word(bytes)?;
        Some((bits.cast_signed(), rest))
    }
}

/// A coordinate that is a delta from another, if it has 16 bits.
pub fn next_coordinate(from: i16, by: i16) -> Option<i16>
    ensures { result ≡ in_16_bits (from +ℤ by) }
{
    from.checked_add(by)
}

/// The coordinate of a flag, a delta from the one before it, and the bytes after the delta.
pub fn read_coordinate(
    short: u8,
    same: u8,
    before: i16,
    flag: u8,
    bytes: &[u8],
) -> Option<(i16, &[u8])>
    ensures { option_map (λ p. (p.0, p.1.now)) result ≡ coordinate short same before flag bytes.now }
{
    let (by, rest) = read_delta(short, same, flag, bytes)?;
    let x = next_coordinate(before, by)?;
    Some((x, rest))
}

/// The shortest encoding of a delta.
pub fn shortest_encoding(delta: i16) -> Encoding
    ensures { result ≡ shortest_encoding delta }
{
    if delta == 0 {
        Encoding::Same
    } else if delta > 0 && delta < 256 {
        Encoding::Positive
    } else if delta < 0 && delta > -256 {
        Encoding::Negative
    } else {
        Encoding::Word
    }
}

/// The delta from a coordinate to the next, which has 16 bits.
pub fn delta_between(before: i16, x: i16) -> i16
    requires { IsTrue (has_16_bits (x -ℤ before)) }
    ensures { result ≡ x -ℤ before }
{
    x - before
}

/// Writes a delta in its shortest encoding, where there is room for a byte.
pub fn write_delta(out: &mut Vec<u8>, delta: i16) -> Result<(), Error>
    requires { vec_len out.old < vec_capacity out.old }
    ensures ok { OnOk result (out.new.items ≡ out.old.items ++ encoded_delta (shortest_encoding delta) delta) }
    ensures len { vec_len out.new ≤ vec_len out.old + 2 }
    ensures capacity { vec_capacity out.old ≤ vec_capacity out.new }
    ensures err { IfErr result (λ e. e ≡ OutOfMemory) }
{
    match shortest_encoding(delta) {
        Encoding::Same => {}
        Encoding::Positive | Encoding::Negative => out.push_reserved(delta.unsigned_abs() as u8),
        Encoding::Word => out.extend_from_slice(&delta.to_be_bytes())?,
    }
    Ok(())
}

/// Whether the delta from a coordinate to the next has 16 bits.
pub fn delta_fits(before: i16, x: i16) -> bool
    ensures { result ≡ has_16_bits (x -ℤ before) }
{
    x.checked_sub(before).is_some()
}
