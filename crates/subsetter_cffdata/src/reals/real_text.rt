//! What the text of a real means.

ghost use Rattle.std.specs.Prelude.{◌≡◌, ◌+◌, ◌-◌, ◌<◌, ◌≤◌, ◌++◌, [], length, take, drop, pos, ◌-ℤ◌, ◌≤ℤ◌, negsuc, IfSome};
ghost use Rattle.std.specs.Option.{option_map};
ghost use Rattle.subsetter_cffdata.specs.Reals.Decimals.{IsPlain, signed, number, stripped, digits, after_digits, sign, fraction, small_number, exponent_value, exponent, trimmed, decimal, unsigned_real, real_of};
ghost use Rattle.subsetter_cffdata.specs.Reals.TextSteps.{shown};
ghost use Rattle.subsetter_cffdata.specs.Views.{decimal_of};

use crate::reals::real_number::RealNumber;
use crate::reals::text::{EXPONENT, MINUS, POINT, Text};

/// A sign that was read, and what follows.
#[derive(Clone, Copy, Debug)]
struct SignRead<'a> {
    /// A minus is in front.
    negative: bool,
    /// What follows.
    rest: &'a [u8],
}

/// Digits that were read, and what follows.
#[derive(Clone, Copy, Debug)]
struct DigitsRead<'a> {
    /// The digits.
    digits: &'a [u8],
    /// What follows.
    rest: &'a [u8],
}

/// Digits without outer zeros.
#[derive(Clone, Copy, Debug)]
struct SignificantDigits<'a> {
    /// The digits.
    digits: &'a [u8],
    /// How many zeros were at the end.
    zeros: usize,
}

/// Whether a minus is in front, and what follows.
fn split_sign(text: &[u8]) -> SignRead<'_>
    ensures value { (result.negative, result.rest.now) ≡ sign text.now }
    ensures len { length result.rest.now ≤ length text.now }
{
    match text {
        [MINUS, rest @ ..] => SignRead {
            negative: true,
            rest,
        },
        _ => SignRead {
            negative: false,
            rest: text,
        },
    }
}

/// The digits in front, and what follows them.
fn split_digits(text: &[u8]) -> DigitsRead<'_>
    ensures front { result.digits.now ≡ digits text.now }
    ensures digits { digits result.digits.now ≡ result.digits.now }
    ensures following { result.rest.now ≡ after_digits text.now }
    ensures len { length result.digits.now + length result.rest.now ≡ length text.now }
{
    for (i, c) in text.iter().enumerate() {
        if *c >= POINT {
            let (digits, rest) = text.split_at(i);
            return DigitsRead { digits, rest };
        }
    }
    DigitsRead {
        digits: text,
        rest: &[],
    }
}

/// The digits after a point, and what follows.
fn split_fraction(text: &[u8]) -> DigitsRead<'_>
    ensures value { (result.digits.now, result.rest.now) ≡ fraction text.now }
    ensures digits { digits result.digits.now ≡ result.digits.now }
    ensures len { length result.digits.now ≤ length text.now }
{
    match text {
        [POINT, rest @ ..] => split_digits(rest),
        _ => DigitsRead {
            digits: &[],
            rest: text,
        },
    }
}

/// The number that digits are, up to 999.
fn number_up_to_999(ds: &[u8]) -> Option<u16>
    ensures value { result ≡ small_number ds.now }
    ensures small { IfSome result (λ n. n ≤ 999) }
{
    let mut n: u16 = 0;
    for d in ds {
        n = n * 10 + u16::from(*d);
        if n > 999 {
            return None;
        }
    }
    Some(n)
}

/// The exponent after its mark and sign.
fn exponent_after(negative: bool, text: &[u8]) -> Option<i32>
    ensures value { result ≡ exponent_value negative text.now }
    ensures low { IfSome result (λ z. negsuc 999 ≤ℤ z) }
    ensures high { IfSome result (λ z. z ≤ℤ pos 1000) }
{
    let read = split_digits(text);
    if read.digits.is_empty() {
        return None;
    }
    if !read.rest.is_empty() {
        return None;
    }
    let n = i32::from(number_up_to_999(read.digits)?);
    if negative { Some(-n) } else { Some(n) }
}

/// The exponent after the digits: 0 where there is none.
fn exponent_of(text: &[u8]) -> Option<i32>
    ensures value { result ≡ exponent text.now }
    ensures low { IfSome result (λ z. negsuc 999 ≤ℤ z) }
    ensures high { IfSome result (λ z. z ≤ℤ pos 1000) }
{
    match text {
        [] => Some(0),
        [EXPONENT, rest @ ..] => {
            let read = split_sign(rest);
            exponent_after(read.negative, read.rest)
        }
        _ => None,
    }
}

/// Digits after a text.
pub fn put_all(text: &mut Text, ds: &[u8])
    requires { text.old.len + length ds.now ≤ 64 }
    ensures after { shown text.new ≡ shown text.old ++ ds.now }
    ensures len { text.new.len ≡ text.old.len + length ds.now }
{
    for d in ds {
        text.put(*d);
    }
}

/// How many digits are left without the zeros at the end.
fn trimmed_len(ds: &[u8]) -> usize
    ensures within { result ≤ length ds.now }
    ensures kept { take result ds.now ≡ trimmed ds.now }
{
    let mut len = ds.len();
    while len > 0 && ds[len - 1] == 0 {
        len -= 1;
    }
    len
}

/// How many zeros are in front.
fn zeros_in_front(ds: &[u8]) -> usize
    ensures within { result ≤ length ds.now }
    ensures left { drop result ds.now ≡ stripped ds.now }
{
    for (i, d) in ds.iter().enumerate() {
        if *d != 0 {
            return i;
        }
    }
    ds.len()
}

/// The digits without the zeros in front and at the end, and how many were at the end.
fn without_outer_zeros(ds: &[u8]) -> SignificantDigits<'_>
    ensures kept { result.digits.now ≡ stripped (trimmed ds.now) }
    ensures zeros { result.zeros ≡ length ds.now - length (trimmed ds.now) }
    ensures within { length result.digits.now + result.zeros ≤ length ds.now }
{
    let end = trimmed_len(ds);
    let start = zeros_in_front(&ds[..end]);
    SignificantDigits {
        digits: &ds[start..end],
        zeros: ds.len() - end,
    }
}

/// The decimal that plain digits are.
pub fn plain_decimal(negative: bool, ds: &[u8], power: i32) -> RealNumber
    requires room { length ds.now ≤ 64 }
    requires plain { IsPlain negative ds.now power }
    ensures { decimal_of result ≡ record { mantissa = signed negative (number ds.now); power = power } }
{
    let mut kept = Text::empty();
    put_all(&mut kept, ds);
    RealNumber {
        negative,
        digits: kept.characters,
        len: kept.len as u8,
        power,
    }
}

/// The digits times a power of ten.
pub fn decimal_from(negative: bool, ds: &[u8], power: i32) -> RealNumber
    requires digits { digits ds.now ≡ ds.now }
    requires room { length ds.now ≤ 64 }
    requires high { power ≤ℤ pos 2147483000 }
    ensures { decimal_of result ≡ decimal negative ds.now power }
{
    let kept = without_outer_zeros(ds);
    if kept.digits.len() == 0 {
        return plain_decimal(false, &[], 0);
    }
    plain_decimal(negative, kept.digits, power + kept.zeros as i32)
}

/// The power of ten of the last of `count` digits after the point.
fn last_power(exponent: i32, count: usize) -> i32
    requires low { negsuc 999 ≤ℤ exponent }
    requires high { exponent ≤ℤ pos 1000 }
    requires few { count ≤ 64 }
    ensures { result ≡ exponent -ℤ pos count }
{
    exponent - count as i32
}

/// The digits of both lists times a power of ten.
fn decimal_of_both(negative: bool, front: &[u8], fraction: &[u8], exponent: i32) -> RealNumber
    requires front { digits front.now ≡ front.now }
    requires fraction { digits fraction.now ≡ fraction.now }
    requires room { length front.now + length fraction.now ≤ 64 }
    requires low { negsuc 999 ≤ℤ exponent }
    requires high { exponent ≤ℤ pos 1000 }
    ensures { decimal_of result ≡ decimal negative (front.now ++ fraction.now) (exponent -ℤ pos (length fraction.now)) }
{
    let mut all = Text::empty();
    put_all(&mut all, front);
    put_all(&mut all, fraction);
    let power = last_power(exponent, fraction.len());
    decimal_from(negative, &all.characters[..all.len], power)
}

/// The value of a text without a sign.
#[tactic(auto, unfolding(crate::specs::Reals::Decimals::unsigned_real))]
fn unsigned_of(negative: bool, text: &[u8]) -> Option<RealNumber>
    requires { length text.now ≤ 64 }
    ensures { option_map decimal_of result ≡ unsigned_real negative text.now }
{
    let front = split_digits(text);
    let fraction = split_fraction(front.rest);
    if front.digits.len() + fraction.digits.len() == 0 {
        return None;
    }
    let exponent = exponent_of(fraction.rest)?;
    Some(decimal_of_both(negative, front.digits, fraction.digits, exponent))
}

/// The value of a text.
#[tactic(auto, unfolding(crate::specs::Reals::Decimals::real_of))]
pub fn real_of_text(text: &[u8]) -> Option<RealNumber>
    requires { length text.now ≤ 64 }
    ensures { option_map decimal_of result ≡ real_of text.now }
{
    let read = split_sign(text);
    unsigned_of(read.negative, read.rest)
}
