//! What the words of a row write. `Row` where a word doesn't write what is asked for.

use crate::failure::Failure;
use std::alloc::Global;
use std::str::FromStr;
use subsetter_base::Tag;

/// The value of a hexadecimal digit; none for another character.
fn digit(character: u8) -> Option<u8> {
    match character {
        b'0'..=b'9' => Some(character - b'0'),
        b'a'..=b'f' => Some(character - b'a' + 10),
        _ => None,
    }
}

/// The byte that two digits write.
fn byte_of(high: u8, low: u8) -> Option<u8> {
    Some(digit(high)? << 4 | digit(low)?)
}

/// The bytes of a word: none for `-`, else those that hexadecimal digits write, two digits each.
pub fn bytes(alloc: Global, word: &str) -> Result<Vec<u8>, Failure> {
    let mut bytes = Vec::new(alloc);
    if word == "-" {
        return Ok(bytes);
    }
    for pair in word.as_bytes().chunks(2) {
        let [high, low] = pair else {
            return Err(Failure::Row);
        };
        bytes.push(byte_of(*high, *low).ok_or(Failure::Row)?)?;
    }
    Ok(bytes)
}

/// A number.
pub fn number<T: FromStr>(word: &str) -> Result<T, Failure>
where
    T::Err: Drop,
{
    word.parse().map_err(|_| Failure::Row)
}

/// The parts of a list, none for `-`.
fn parts(alloc: Global, word: &str) -> Result<Vec<&str>, Failure> {
    if word == "-" {
        return Ok(Vec::new(alloc));
    }
    Ok(word.split(',').collect(alloc)?)
}

/// The numbers of a list, none for `-`.
pub fn numbers<T: FromStr + Drop>(alloc: Global, word: &str) -> Result<Vec<T>, Failure>
where
    T::Err: Drop,
{
    let mut numbers = Vec::new(alloc);
    for part in &parts(alloc, word)? {
        numbers.push(number(part)?)?;
    }
    Ok(numbers)
}

/// A setting `TAG=VALUE`, whose value is in 65536ths.
fn setting(word: &str) -> Result<(Tag, i32), Failure> {
    let (tag, value) = word.split_once('=').ok_or(Failure::Row)?;
    let tag = tag.parse().ok().ok_or(Failure::Row)?;
    Ok((tag, number(value)?))
}

/// The settings of a list, none for `-`.
pub fn settings(alloc: Global, word: &str) -> Result<Vec<(Tag, i32)>, Failure> {
    let mut settings = Vec::new(alloc);
    for part in &parts(alloc, word)? {
        settings.push(setting(part)?)?;
    }
    Ok(settings)
}
