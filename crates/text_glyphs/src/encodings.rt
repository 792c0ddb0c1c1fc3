//! How characters have codes in a table of `cmap`.

ghost use Rattle.std.specs.Prelude.{◌≡◌, ◌+◌, ◌==◌, ◌<◌, length, IfSome, position};
ghost use Rattle.text_glyphs.specs.Encodings.{code_of, is_of, roman_code, roman_place, symbol_code};

use crate::tables::MAC_ROMAN;

/// How characters have codes.
#[derive(Clone, Copy, PartialEq, Eq, Debug)]
pub enum Encoding {
    /// The characters are the codes (platform 0, or 3 with encoding 1 or 10).
    Unicode,
    /// U+F000 to U+F0FF, also for the characters below 256 (platform 3, encoding 0).
    Symbol,
    /// Mac OS Roman (platform 1, encoding 0).
    Roman,
}

/// The place of a character in a list.
fn place_in(list: &[u32], character: u32) -> Option<usize>
    ensures value { result ≡ position (λ x. x == character) list.now }
    ensures within { IfSome result (λ place. place < length list.now) }
{
    list.iter().position(|it| *it == character)
}

/// The place of a character in the table of Mac OS Roman.
fn roman_place(character: u32) -> Option<usize>
    ensures value { result ≡ roman_place character }
    ensures within { IfSome result (λ place. place < 128) }
{
    place_in(&MAC_ROMAN, character)
}

/// The code of a character in Mac OS Roman.
fn roman_code(character: char) -> Option<char>
    ensures { result ≡ roman_code character }
{
    let number = u32::from(character);
    if number < 128 {
        return Some(character);
    }
    let place = roman_place(number)?;
    Some(char::from(128 + place as u8))
}

/// The character of U+F000 to U+F0FF with this last byte.
fn private_use(byte: u8) -> char
    ensures { result ≡ 0xF000 + byte }
{
    match char::from_u32(0xF000 + u32::from(byte)) {
        Some(character) => character,
        None => '\0',
    }
}

/// The code of a character in a symbol table.
fn symbol_code(character: char) -> Option<char>
    ensures { result ≡ symbol_code character }
{
    let number = u32::from(character);
    if number < 256 {
        return Some(private_use(number as u8));
    }
    if 0xF000 <= number && number < 0xF100 {
        return Some(character);
    }
    None
}

/// The code of a character, if it has one.
pub(crate) fn code_of(encoding: Encoding, character: char) -> Option<char>
    ensures { result ≡ code_of encoding character }
{
    match encoding {
        Encoding::Unicode => Some(character),
        Encoding::Symbol => symbol_code(character),
        Encoding::Roman => roman_code(character),
    }
}

/// Whether a record's platformID and encodingID are those of an encoding.
pub(crate) fn is_of(encoding: Encoding, platform: u16, id: u16) -> bool
    ensures { result ≡ is_of encoding platform id }
{
    match encoding {
        Encoding::Unicode => platform == 0 || (platform == 3 && (id == 1 || id == 10)),
        Encoding::Symbol => platform == 3 && id == 0,
        Encoding::Roman => platform == 1 && id == 0,
    }
}
