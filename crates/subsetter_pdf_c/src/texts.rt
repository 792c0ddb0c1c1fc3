//! A text in UTF-8, in which each character is the text of a glyph.

ghost use Rattle.std.specs.Prelude.{◌≡◌, IfOk, IfErr, true};
ghost use Rattle.std.specs.Str.{encode_utf8_all};
ghost use Rattle.subsetter_base.specs.declared.error.Error.TheVariants.{OutOfMemory};
ghost use Rattle.subsetter_base.specs.Texts.{is_scalar};
ghost use Rattle.subsetter_pdf_c.specs.Entries.{are_scalars};
ghost use Rattle.subsetter_pdf_c.specs.Texts.{one_each};

use std::alloc::{AllocError, Global};
use subsetter_base::Error;

/// The number of a character.
fn number_of(character: char) -> u32
    ensures is { result ≡ character }
    ensures scalar { is_scalar result ≡ true }
{
    u32::from(character)
}

/// The characters of a text.
fn collected(alloc: Global, text: &str) -> Result<Vec<char>, AllocError>
    ensures { IfOk result (λ v. encode_utf8_all v.items ≡ text.now) }
{
    text.chars().collect(alloc)
}

/// Characters as numbers.
fn numbers_of(alloc: Global, characters: &[char]) -> Result<Vec<u32>, AllocError>
    ensures ok { IfOk result (λ v. v.items ≡ characters.now) }
    ensures scalars { IfOk result (λ v. are_scalars v.items ≡ true) }
{
    let mut list = Vec::with_capacity(alloc, characters.len())?;
    for character in characters {
        list.push(number_of(*character))?;
    }
    Ok(list)
}

/// The characters of a text, as numbers.
///
/// # Errors
///
/// `OutOfMemory` alone.
pub fn characters_in(alloc: Global, text: &str) -> Result<Vec<u32>, Error>
    ensures ok { IfOk result (λ v. encode_utf8_all v.items ≡ text.now) }
    ensures scalars { IfOk result (λ v. are_scalars v.items ≡ true) }
    ensures err { IfErr result (λ e. e ≡ OutOfMemory) }
{
    let characters = collected(alloc, text)?;
    Ok(numbers_of(alloc, &characters)?)
}

/// Where each of `count` texts ends, if each has one character.
///
/// # Errors
///
/// `OutOfMemory` alone.
pub fn ends_of(alloc: Global, count: usize) -> Result<Vec<usize>, Error>
    ensures ok { IfOk result (λ v. v.items ≡ one_each 0 count) }
    ensures err { IfErr result (λ e. e ≡ OutOfMemory) }
{
    let mut ends = Vec::with_capacity(alloc, count)?;
    for place in 0..count {
        ends.push(place + 1)?;
    }
    Ok(ends)
}
