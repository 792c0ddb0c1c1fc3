//! The glyphs of many characters.

ghost use Rattle.std.specs.Prelude.{◌≡◌, map, IfOk, Some, IsTrue};
ghost use Rattle.subsetter_base.specs.Bytes.{number};
ghost use Rattle.text_glyphs.specs.Choice.{character_glyph, coded_glyph};
ghost use Rattle.text_glyphs.specs.Formats.{glyph_by_code};
ghost use Rattle.text_glyphs.specs.Own.{code_or_zero, if_coded, with_codes};
ghost use Rattle.text_glyphs.specs.View.{chosen_view};

use crate::choice::CharacterTable;
use crate::encodings::{Encoding, code_of};
use crate::formats::glyph_by_code;
use cmap::Subtable;
use std::alloc::{AllocError, Global};
use subsetter_base::read::number_at;

/// Whether a table has a format.
fn has_format(table: &[u8], format: u16) -> bool
    ensures { IsTrue result → number table.now 0 2 ≡ Some format }
{
    match number_at(table, 0) {
        Some(found) => found == format,
        None => false,
    }
}

/// The glyph of each code, each sought from the table's start on.
fn one_by_one(alloc: Global, table: &[u8], codes: &[char]) -> Result<Vec<u16>, AllocError>
    ensures { IfOk result (λ v. v.items ≡ map (glyph_by_code table.now) codes.now) }
{
    let mut glyphs = Vec::with_capacity(alloc, codes.len())?;
    for code in codes {
        glyphs.push(glyph_by_code(table, *code))?;
    }
    Ok(glyphs)
}

/// The glyph of each code. Formats 4 and 12 are read through once, whatever the order of their ranges.
#[tactic(auto, using(crate::proofs::CodeSteps::all_by_segments, crate::proofs::CodeSteps::all_by_groups))]
fn glyphs_by_codes(alloc: Global, table: &[u8], codes: &[char]) -> Result<Vec<u16>, AllocError>
    ensures { IfOk result (λ v. v.items ≡ map (glyph_by_code table.now) codes.now) }
{
    if has_format(table, 4) {
        return cmap::glyphs_of(alloc, &Subtable::Segments(table), codes);
    }
    if has_format(table, 12) {
        return cmap::glyphs_of(alloc, &Subtable::Groups(table), codes);
    }
    one_by_one(alloc, table, codes)
}

/// The code of a character, 0 where it has none.
fn code_or_zero(encoding: Encoding, character: char) -> char
    ensures { result ≡ code_or_zero encoding character }
{
    code_of(encoding, character).unwrap_or('\0')
}

/// The code of each character, 0 where it has none.
fn codes_of(alloc: Global, encoding: Encoding, characters: &[char]) -> Result<Vec<char>, AllocError>
    ensures { IfOk result (λ v. v.items ≡ map (code_or_zero encoding) characters.now) }
{
    let mut codes = Vec::with_capacity(alloc, characters.len())?;
    for character in characters {
        codes.push(code_or_zero(encoding, *character))?;
    }
    Ok(codes)
}

/// A glyph, or 0 where the character has no code.
fn if_coded(encoding: Encoding, character: char, glyph: u16) -> u16
    ensures { result ≡ if_coded encoding character glyph }
{
    match code_of(encoding, character) {
        Some(_) => glyph,
        None => 0,
    }
}

/// The glyphs of characters, 0 where one has no code.
fn with_codes(
    alloc: Global,
    encoding: Encoding,
    characters: &[char],
    glyphs: &[u16],
) -> Result<Vec<u16>, AllocError>
    ensures { IfOk result (λ v. v.items ≡ with_codes encoding characters.now glyphs.now) }
{
    let mut found = Vec::with_capacity(alloc, characters.len())?;
    let mut rest = characters;
    let mut left = glyphs;
    while let [character, following @ ..] = rest {
        let [glyph, others @ ..] = left else {
            return Ok(found);
        };
        found.push(if_coded(encoding, *character, *glyph))?;
        rest = following;
        left = others;
    }
    Ok(found)
}

/// The glyph of each character, by a table in an encoding.
#[tactic(auto, using(crate::proofs::CodeSteps::all_coded))]
fn coded_glyphs(
    alloc: Global,
    encoding: Encoding,
    table: &[u8],
    characters: &[char],
) -> Result<Vec<u16>, AllocError>
    ensures { IfOk result (λ v. v.items ≡ map (coded_glyph encoding table.now) characters.now) }
{
    let codes = codes_of(alloc, encoding, characters)?;
    let glyphs = glyphs_by_codes(alloc, table, &codes)?;
    with_codes(alloc, encoding, characters, &glyphs)
}

/// The glyph of each character: 0 where the table doesn't have it.
///
/// # Errors
///
/// `AllocError` where a request for memory is refused.
pub fn glyphs_of(
    alloc: Global,
    table: &CharacterTable<'_>,
    characters: &[char],
) -> Result<Vec<u16>, AllocError>
    ensures { IfOk result (λ v. v.items ≡ map (character_glyph (chosen_view table.now)) characters.now) }
{
    match table {
        CharacterTable::Unicode(mapping) => cmap::glyphs_of(alloc, mapping, characters),
        CharacterTable::Other(encoding, bytes) => coded_glyphs(alloc, *encoding, bytes, characters),
    }
}
