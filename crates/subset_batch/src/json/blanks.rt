//! Bytes between the parts of a text in JSON.

ghost use Rattle.std.specs.Prelude.{◌≡◌, ◌≤◌, length, map};
ghost use Rattle.std.specs.Option.{option_map, option_copied};
ghost use Rattle.std.specs.List.{position_or_len};
ghost use Rattle.subset_batch.specs.Bytes.{skip_ws, is_structural, ends_word, word, past_word, following};
ghost use Rattle.subset_batch.specs.Reading.{byte_at, separator_in, separator_at};
ghost use Rattle.subset_batch.specs.View.{Gives};

use crate::fault::{Unread, Wanted, missing};
use subset_args::is_blank;

/// The bytes after the white space at the front.
pub fn skip_ws(bytes: &[u8]) -> &[u8]
    ensures { result.now ≡ skip_ws bytes.now }
{
    let mut rest = bytes;
    while let [b, following @ ..] = rest {
        if !is_blank(*b) {
            return rest;
        }
        rest = following;
    }
    rest
}

/// Whether a byte is a structural character.
fn is_structural(b: u8) -> bool
    ensures { result ≡ is_structural b }
{
    (b == b'[' || (b == b'{' || b == b']')) || (b == b'}' || (b == b':' || b == b','))
}

/// Whether a byte ends a literal name or a number.
fn ends_word(b: u8) -> bool
    ensures { result ≡ ends_word b }
{
    is_blank(b) || (is_structural(b) || b == b'"')
}

/// How many bytes the word at the front has.
fn word_len(bytes: &[u8]) -> usize
    ensures value { result ≡ position_or_len ends_word bytes.now }
    ensures within { result ≤ length bytes.now }
{
    let mut rest = bytes;
    while let [b, following @ ..] = rest {
        if ends_word(*b) {
            return bytes.len().saturating_sub(rest.len());
        }
        rest = following;
    }
    bytes.len()
}

/// The word at the front, and the bytes after it.
pub fn split_word(bytes: &[u8]) -> (&[u8], &[u8])
    ensures word { result.0.now ≡ word bytes.now }
    ensures rest { result.1.now ≡ past_word bytes.now }
{
    bytes.split_at(word_len(bytes))
}

/// The bytes after this one, if it is first.
pub fn following(byte: u8, bytes: &[u8]) -> Option<&[u8]>
    ensures { option_map (λ rest. rest.now) result ≡ following byte bytes.now }
{
    match bytes {
        [] => None,
        [b, rest @ ..] => { if *b == byte { Some(rest) } else { None } }
    }
}

/// The bytes after this one, which is expected.
pub fn byte_at(byte: u8, wanted: Wanted, bytes: &[u8]) -> Result<&[u8], Unread>
    ensures { Gives (λ rest. rest.now) result (byte_at byte wanted bytes.now) }
{
    match following(byte, bytes) {
        Some(rest) => Ok(rest),
        None => Err(missing(wanted, bytes)),
    }
}

/// Whether a comma is first, which a member follows, or the byte that closes.
fn separator_in(close: u8, wanted: Wanted, bytes: &[u8]) -> Result<(bool, &[u8]), Unread>
    ensures { Gives (λ x. (x.0, x.1.now)) result (separator_in close wanted bytes.now) }
{
    match bytes {
        [] => Err(missing(wanted, bytes)),
        [b, rest @ ..] => {
            if *b == b',' {
                Ok((true, skip_ws(rest)))
            } else if *b == close {
                Ok((false, rest))
            } else {
                Err(missing(wanted, bytes))
            }
        }
    }
}

/// Whether a comma is first after white space, which a member follows, or the byte that closes.
pub fn separator_at(close: u8, wanted: Wanted, bytes: &[u8]) -> Result<(bool, &[u8]), Unread>
    ensures { Gives (λ x. (x.0, x.1.now)) result (separator_at close wanted bytes.now) }
{
    separator_in(close, wanted, skip_ws(bytes))
}
