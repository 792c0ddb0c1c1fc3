//! What a reader has next: bytes, and whole numbers, the high byte first.

ghost use Rattle.std.specs.Prelude.{◌≡◌, ◌≤◌, length, drop, IfSome};
ghost use Rattle.subsetter_cffdata.specs.Bytes.{card, part};
ghost use Rattle.subsetter_base.specs.Bytes.{byte};
ghost use Rattle.subsetter_cffdata.specs.Numerals.Numbers.{signed16, signed32};
ghost use Rattle.subsetter_cffdata.specs.Reading.{rest, Takes};

use subsetter_base::read::{Reader, u16_of, u32_of};

/// The next bytes, where there are as many.
#[tactic(auto, unfolding(crate::specs::Bytes::part))]
pub fn next_bytes<'a>(r: &mut Reader<'a>, len: usize) -> Option<&'a [u8]>
    ensures len { IfSome result (λ x. length x.now ≡ len) }
    ensures value { Takes (λ x. x.now) result r.old r.new (part len) }
    ensures same { r.new.bytes ≡ r.old.bytes }
{
    if len == 0 {
        return Some(&[]);
    }
    r.read_bytes(len)
}

/// The next byte.
#[tactic(auto, using(crate::proofs::NumeralsLaws::Cards::byte_of_part))]
pub fn next_byte(r: &mut Reader<'_>) -> Option<u8>
    ensures value { Takes (λ x. x) result r.old r.new byte }
    ensures same { r.new.bytes ≡ r.old.bytes }
{
    let bytes = next_bytes(r, 1)?;
    Some(bytes[0])
}

/// The next two bytes, as an unsigned number.
#[tactic(auto, using(crate::proofs::NumeralsLaws::Cards::cards))]
pub fn next_u16(r: &mut Reader<'_>) -> Option<u16>
    ensures value { Takes (λ x. x) result r.old r.new (card 2) }
    ensures same { r.new.bytes ≡ r.old.bytes }
{
    let bytes = next_bytes(r, 2)?;
    Some(u16_of(bytes))
}

/// The next four bytes, as an unsigned number.
#[tactic(auto, using(crate::proofs::NumeralsLaws::Cards::cards))]
pub fn next_u32(r: &mut Reader<'_>) -> Option<u32>
    ensures value { Takes (λ x. x) result r.old r.new (card 4) }
    ensures same { r.new.bytes ≡ r.old.bytes }
{
    let bytes = next_bytes(r, 4)?;
    Some(u32_of(bytes))
}

/// The next two bytes, in two's complement.
#[tactic(auto, using(crate::proofs::NumeralsLaws::Cards::cards), unfolding(crate::specs::Numerals::Numbers::signed16))]
pub fn next_i16(r: &mut Reader<'_>) -> Option<i16>
    ensures value { Takes (λ x. x) result r.old r.new signed16 }
    ensures same { r.new.bytes ≡ r.old.bytes }
{
    let bytes = next_bytes(r, 2)?;
    Some(u16_of(bytes).cast_signed())
}

/// The next four bytes, in two's complement.
#[tactic(auto, using(crate::proofs::NumeralsLaws::Cards::cards), unfolding(crate::specs::Numerals::Numbers::signed32))]
pub fn next_i32(r: &mut Reader<'_>) -> Option<i32>
    ensures value { Takes (λ x. x) result r.old r.new signed32 }
    ensures same { r.new.bytes ≡ r.old.bytes }
{
    let bytes = next_bytes(r, 4)?;
    Some(u32_of(bytes).cast_signed())
}

/// What is left.
pub fn tail<'a>(r: &Reader<'a>) -> &'a [u8]
    ensures { result.now ≡ rest r.now }
{
    match r.tail() {
        Some(bytes) => bytes,
        None => &[],
    }
}

/// Passes bytes of what is left.
pub fn pass(r: &mut Reader<'_>, len: usize)
    requires { len ≤ length (rest r.old) }
    ensures value { rest r.new ≡ drop len (rest r.old) }
    ensures same { r.new.bytes ≡ r.old.bytes }
{
    if len > 0 {
        r.skip_bytes(len);
    }
}
