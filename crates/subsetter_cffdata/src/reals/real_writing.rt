//! Writing the text of a real (Technical Note 5176, section 4 "DICT Data", table 5).

ghost use Rattle.std.specs.Prelude.{◌≡◌, ◌+◌, ◌<◌, ◌≤◌, ◌++◌, ◌∷◌, [], length, replicate};
ghost use Rattle.std.specs.Option.{option_map};
ghost use Rattle.std.specs.List.{AllByRecursion};
ghost use Rattle.subsetter_cffdata.specs.Reals.Decimals.{signs, unsigned_text, packed};
ghost use Rattle.subsetter_cffdata.specs.Reals.TextSteps.{shown, fitting};

use crate::numerals::first_byte;
use crate::reals::real_text::put_all;
use crate::reals::text::{END, MINUS, POINT, TWO_ENDS, Text};

/// Zeros after a text.
fn put_zeros(text: &mut Text, count: usize)
    requires { text.old.len + count ≤ 64 }
    ensures after { shown text.new ≡ shown text.old ++ replicate count 0 }
    ensures len { text.new.len ≡ text.old.len + count }
{
    for _ in 0..count {
        text.put(0);
    }
}

/// A sign, and four parts, where they aren't too long.
fn joined(negative: bool, front: &[u8], middle: &[u8], zeros: usize, back: &[u8]) -> Option<Text>
    requires front { length front.now ≤ 64 }
    requires middle { length middle.now ≤ 64 }
    requires zeros { zeros < 4294967296 }
    requires back { length back.now ≤ 64 }
    ensures { option_map shown result ≡ fitting (signs negative ++ (front.now ++ (middle.now ++ (replicate zeros 0 ++ back.now)))) }
{
    let mut text = Text::empty();
    let len = usize::from(negative) + front.len() + middle.len() + zeros + back.len();
    if len > 64 {
        return None;
    }
    if negative {
        text.put(MINUS);
    }
    put_all(&mut text, front);
    put_all(&mut text, middle);
    put_zeros(&mut text, zeros);
    put_all(&mut text, back);
    Some(text)
}

/// The text of digits times a power of ten, where it isn't too long.
pub fn text_of_digits(negative: bool, ds: &[u8], power: i32) -> Option<Text>
    requires { length ds.now ≤ 64 }
    ensures { option_map shown result ≡ fitting (signs negative ++ unsigned_text ds.now power) }
{
    if ds.len() == 0 {
        return joined(negative, &[0], &[], 0, &[]);
    }
    let size = power.unsigned_abs() as usize;
    if power >= 0 {
        return joined(negative, ds, &[], size, &[]);
    }
    if size < ds.len() {
        let (front, back) = ds.split_at(ds.len() - size);
        return joined(negative, front, &[POINT], 0, back);
    }
    joined(negative, &[0], &[POINT], size - ds.len(), ds)
}

/// The bytes of a text: 30, then two characters a byte, then the end.
pub fn pack(text: &[u8]) -> Text
    requires characters { AllByRecursion (λ c. c < 16) text.now }
    requires len { length text.now ≤ 64 }
    ensures { shown result ≡ 30 ∷ packed text.now }
{
    let mut bytes = Text::empty();
    bytes.put(first_byte::REAL);
    let mut rest = text;
    while rest.len() >= 2 {
        bytes.put(16 * rest[0] + rest[1]);
        rest = &rest[2..];
    }
    if rest.len() == 1 {
        bytes.put(16 * rest[0] + END);
    } else {
        bytes.put(TWO_ENDS);
    }
    bytes
}
