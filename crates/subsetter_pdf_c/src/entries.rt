//! Glyphs with their texts, as C has them: 32-bit characters, and where the text of each glyph ends among them.

ghost use Rattle.std.specs.Prelude.{◌≡◌, ◌≤◌, IfOk, IfErr, length, map, true};
ghost use Rattle.subsetter_base.specs.declared.error.Error.TheVariants.{OutOfMemory};
ghost use Rattle.pdf_codes.specs.declared.shown.Shown.{Shown as SpecShown};
ghost use Rattle.subsetter_pdf_c.specs.Entries.{are_ascending, are_scalars, are_texts, text_between, texts_from};
ghost use Rattle.subsetter_base.specs.Texts.{is_scalar};
ghost use Rattle.pdf_codes.specs.Shown.{texts_of};

use pdf_codes::Shown;
use std::alloc::Global;
use subsetter_base::Error;

/// Whether a number is a character (a Unicode scalar value).
fn is_scalar(number: u32) -> bool
    ensures { result ≡ is_scalar number }
{
    number < 0xD800 || (0xE000 <= number && number < 0x11_0000)
}

/// Whether each number is a character.
pub fn are_scalars(text: &[u32]) -> bool
    ensures { result ≡ are_scalars text.now }
{
    for number in text {
        if !is_scalar(*number) {
            return false;
        }
    }
    true
}

/// Whether ends are in ascending order, and none is past the characters.
fn are_ascending(ends: &[usize], count: usize) -> bool
    ensures { result ≡ are_ascending 0 ends.now count }
{
    let mut last = 0;
    for end in ends {
        if *end < last {
            return false;
        }
        last = *end;
    }
    last <= count
}

/// Whether `count` glyphs have texts: each number is a character, there are as many ends, they are in ascending order, and none
/// is past the characters.
pub fn are_texts(count: usize, text: &[u32], ends: &[usize]) -> bool
    ensures { result ≡ are_texts count text.now ends.now }
{
    count == ends.len() && are_scalars(text) && are_ascending(ends, text.len())
}

/// The character of a number.
fn character_of(number: u32) -> char
    requires { is_scalar number ≡ true }
    ensures { result ≡ number }
{
    match char::from_u32(number) {
        Some(character) => character,
        None => '\0',
    }
}

/// The characters of a text.
///
/// # Errors
///
/// `OutOfMemory` alone.
#[tactic(auto, using(crate::proofs::Steps::scalar_at))]
pub fn characters_of(alloc: Global, text: &[u32]) -> Result<Vec<char>, Error>
    requires { are_scalars text.now ≡ true }
    ensures ok { IfOk result (λ v. v.items ≡ text.now) }
    ensures err { IfErr result (λ e. e ≡ OutOfMemory) }
{
    let mut characters = Vec::with_capacity(alloc, text.len())?;
    for number in text {
        characters.push(character_of(*number))?;
    }
    Ok(characters)
}

/// A glyph with its text.
fn entry_of<'a>(glyph: u16, characters: &'a [char], start: usize, end: usize) -> Shown<'a>
    requires order { start ≤ end }
    requires within { end ≤ length characters.now }
    ensures glyph { result.glyph ≡ glyph }
    ensures text { result.text.now ≡ text_between characters.now start end }
{
    Shown {
        glyph,
        text: &characters[start..end],
    }
}

/// The glyphs with their texts.
///
/// # Errors
///
/// `OutOfMemory` alone.
#[tactic(auto, using(crate::proofs::Steps::next_above, crate::proofs::Steps::next_within, crate::proofs::Steps::next_on, crate::proofs::Steps::text_here))]
pub fn shown_of<'a>(
    alloc: Global,
    glyphs: &[u16],
    characters: &'a [char],
    ends: &[usize],
) -> Result<Vec<Shown<'a>>, Error>
    requires count { length glyphs.now ≡ length ends.now }
    requires ascending { are_ascending 0 ends.now (length characters.now) ≡ true }
    ensures glyphs { IfOk result (λ shown. map (λ (s : SpecShown). s.glyph) shown.items ≡ glyphs.now) }
    ensures texts { IfOk result (λ shown. texts_of shown.items ≡ texts_from characters.now 0 ends.now) }
    ensures err { IfErr result (λ e. e ≡ OutOfMemory) }
{
    let mut shown = Vec::with_capacity(alloc, glyphs.len())?;
    let mut start = 0;
    for place in 0..ends.len() {
        let end = ends[place];
        shown.push(entry_of(glyphs[place], characters, start, end))?;
        start = end;
    }
    Ok(shown)
}
