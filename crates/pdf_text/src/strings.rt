//! The strings of a text of PDF without comments (ISO 32000-1, 7.3.4).

ghost use Rattle.std.specs.Prelude.{◌≡◌, ◌≤◌, ◌<◌, ◌+◌, ◌^◌, ◌++◌, IfErr, IfOk, OnOk};
ghost use Rattle.subsetter_base.specs.declared.error.Error.TheVariants.{OutOfMemory};
ghost use Rattle.pdf_text.specs.Strings.{closed, depth_of, from_angle, from_literal, from_outside, is_last, next, start_at, strings_in, when_last};

use std::alloc::Global;
use subsetter_base::Error;

/// Where a string is in a text, in bytes: with what begins and ends it.
#[derive(Clone, Copy, PartialEq, Eq, Debug)]
#[repr(C)]
pub struct StringRange {
    pub start: usize,
    /// After its last byte.
    pub end: usize,
}

/// Where a byte of a text is.
#[derive(Clone, Copy)]
pub enum Place {
    /// In no string.
    Outside,
    /// After a `<` that is in no string.
    Angle,
    /// In a hexadecimal string.
    Hexadecimal,
    /// In a literal string, within this many parentheses of its own.
    Literal(usize),
    /// After a backslash there.
    Escaped(usize),
}

/// After a byte that is in no string.
fn from_outside(byte: u8) -> Place
    ensures { result ≡ from_outside byte }
{
    match byte {
        b'(' => Place::Literal(0),
        b'<' => Place::Angle,
        _ => Place::Outside,
    }
}

/// After a byte after a `<`.
fn from_angle(byte: u8) -> Place
    ensures { result ≡ from_angle byte }
{
    if byte == b'<' || byte == b'>' {
        Place::Outside
    } else {
        Place::Hexadecimal
    }
}

/// After a parenthesis that closes.
fn closed(depth: usize) -> Place
    ensures { result ≡ closed depth }
{
    if depth == 0 {
        Place::Outside
    } else {
        Place::Literal(depth - 1)
    }
}

/// After a byte of a literal string.
fn from_literal(depth: usize, byte: u8) -> Place
    requires { depth + 1 < 2 ^ 64 }
    ensures { result ≡ from_literal depth byte }
{
    match byte {
        b'\\' => Place::Escaped(depth),
        b'(' => Place::Literal(depth + 1),
        b')' => closed(depth),
        _ => Place::Literal(depth),
    }
}

/// After a byte.
fn next(place: Place, byte: u8) -> Place
    requires { depth_of place + 1 < 2 ^ 64 }
    ensures { result ≡ next place byte }
{
    match place {
        Place::Outside => from_outside(byte),
        Place::Angle => from_angle(byte),
        Place::Hexadecimal => {
            if byte == b'>' {
                Place::Outside
            } else {
                Place::Hexadecimal
            }
        }
        Place::Literal(depth) => from_literal(depth, byte),
        Place::Escaped(depth) => Place::Literal(depth),
    }
}

/// Whether a byte is the last of a string.
fn is_last(place: Place, byte: u8) -> bool
    ensures { result ≡ is_last place byte }
{
    match place {
        Place::Outside | Place::Escaped(_) => false,
        Place::Angle | Place::Hexadecimal => byte == b'>',
        Place::Literal(depth) => byte == b')' && depth == 0,
    }
}

/// Where the string begins that a byte is in.
fn start_at(place: Place, start: usize, at: usize) -> usize
    ensures { result ≡ start_at place start at }
{
    match place {
        Place::Outside => at,
        _ => start,
    }
}

/// Puts a string after others, if it ends.
fn push_when(
    strings: &mut Vec<StringRange>,
    ends: bool,
    start: usize,
    end: usize,
) -> Result<(), Error>
    ensures ok { OnOk result (strings.new.items ≡ strings.old.items ++ when_last ends start end) }
    ensures err { IfErr result (λ e. e ≡ OutOfMemory) }
{
    if ends {
        strings.push(StringRange { start, end })?;
    }
    Ok(())
}

/// The strings of a text, in order.
///
/// # Errors
///
/// `OutOfMemory` alone.
pub(crate) fn strings_of(alloc: Global, text: &[u8]) -> Result<Vec<StringRange>, Error>
    ensures ok { IfOk result (λ strings. strings.items ≡ strings_in text.now) }
    ensures err { IfErr result (λ e. e ≡ OutOfMemory) }
{
    let mut strings = Vec::new(alloc);
    let mut place = Place::Outside;
    let mut start = 0;
    for at in 0..text.len() {
        let byte = text[at];
        start = start_at(place, start, at);
        push_when(&mut strings, is_last(place, byte), start, at + 1)?;
        place = next(place, byte);
    }
    Ok(strings)
}
