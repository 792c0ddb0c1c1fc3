//! Characters and texts as a line of a message has them.

ghost use Rattle.std.specs.Prelude.{◌≡◌, map, IfOk, string_bytes};
ghost use Rattle.std.specs.Str.{chars, encode_utf8_all};
ghost use Rattle.plain_text.specs.Characters.{is_control, is_separator, is_direction, is_plain, plain, shown};

use std::alloc::{AllocError, Global};

/// Whether a number is that of a control character.
fn is_control(code: u32) -> bool
    ensures { result ≡ is_control code }
{
    code < 32 || (code >= 127 && code < 160)
}

/// Whether a number is that of a separator of lines or of paragraphs.
fn is_separator(code: u32) -> bool
    ensures { result ≡ is_separator code }
{
    code == 0x2028 || code == 0x2029
}

/// Whether a number is that of a character that sets the direction of those after it.
fn is_direction(code: u32) -> bool
    ensures { result ≡ is_direction code }
{
    (code == 0x061C || (code >= 0x200E && code <= 0x200F))
        || ((code >= 0x202A && code <= 0x202E) || (code >= 0x2066 && code <= 0x2069))
}

/// Whether a character may be in a line of a message: it is no control character, ends no line, and sets no direction.
pub(crate) fn is_plain(code: u32) -> bool
    ensures { result ≡ is_plain code }
{
    !(is_control(code) || (is_separator(code) || is_direction(code)))
}

/// A character as a line of a message has it: U+FFFD in place of one that may not be there.
pub fn plain(character: char) -> char
    ensures { result ≡ plain character }
{
    if is_plain(u32::from(character)) {
        return character;
    }
    '\u{FFFD}'
}

/// A text as a line of a message has it.
pub fn plain_text(alloc: Global, text: &str) -> Result<String, AllocError>
    ensures { IfOk result (λ made. string_bytes made ≡ encode_utf8_all (map plain (chars text.now))) }
{
    text.chars().map(plain).collect(alloc)
}

/// A byte as it is shown: a printable one of ASCII, and `?` for another.
pub fn shown(byte: u8) -> u8
    ensures { result ≡ shown byte }
{
    if byte >= 32 && byte < 127 { byte } else { b'?' }
}
