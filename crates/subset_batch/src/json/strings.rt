//! Strings.

ghost use Rattle.std.specs.Prelude.{◌≡◌, length, IfOk, Some, None, string_bytes, if◌then◌else◌};
ghost use Rattle.std.specs.Option.{option_map};
ghost use Rattle.std.specs.Str.{is_utf8};
ghost use Rattle.subset_batch.specs.Reading.{goes_on, char_step, many, chars_at, string_at};
ghost use Rattle.subset_batch.specs.declared.fault.Wanted.TheVariants.{Quote};
ghost use Rattle.subset_batch.specs.View.{Gives, character_view};

use crate::fault::{Unread, Wanted, missing};
use crate::json::blanks::following;
use crate::json::characters::{Character, char_at, push_character};
use std::alloc::{AllocError, Global};

/// Whether a string goes on, and the bytes after its quotation mark if it doesn't.
fn goes_on(bytes: &[u8]) -> (bool, &[u8])
    ensures more { result.0 ≡ (goes_on bytes.now).0 }
    ensures rest { result.1.now ≡ (goes_on bytes.now).1 }
{
    match following(b'"', bytes) {
        Some(rest) => (false, rest),
        None => (true, bytes),
    }
}

/// A character, and whether another follows.
#[tactic(auto, unfolding(crate::specs::Reading::char_step))]
fn char_step(bytes: &[u8]) -> Result<(Character, bool, &[u8]), Unread>
    ensures { Gives (λ x. (character_view x.0, x.1, x.2.now)) result (char_step bytes.now) }
{
    let (character, rest) = char_at(bytes)?;
    let (more, rest) = goes_on(rest);
    Ok((character, more, rest))
}

/// One or more characters, up to the quotation mark, `count` at most.
#[tactic(auto, using(crate::proofs::Loop::no_front, crate::proofs::Loop::more_follow, crate::proofs::Loop::none_follow, crate::proofs::Loop::refused, crate::proofs::Loop::all_steps))]
fn many_chars(alloc: Global, count: usize, bytes: &[u8]) -> Result<(Vec<u8>, &[u8]), Unread>
    ensures { Gives (λ x. (x.0.items, x.1.now)) result (many char_step Quote count bytes.now) }
{
    let mut text = Vec::new(alloc);
    let mut rest = bytes;
    for _ in 0..count {
        let (character, more, following) = char_step(rest)?;
        push_character(&mut text, character)?;
        if !more {
            return Ok((text, following));
        }
        rest = following;
    }
    Err(missing(Wanted::Quote, rest))
}

/// The characters after the first quotation mark.
fn chars_at(alloc: Global, bytes: &[u8]) -> Result<(Vec<u8>, &[u8]), Unread>
    ensures { Gives (λ x. (x.0.items, x.1.now)) result (chars_at bytes.now) }
{
    match following(b'"', bytes) {
        Some(rest) => Ok((Vec::new(alloc), rest)),
        None => many_chars(alloc, bytes.len(), bytes),
    }
}

/// The text of these bytes, if they are one in UTF-8.
#[tactic(auto, using(crate::proofs::Texts::text_is, crate::proofs::Texts::none_is))]
pub fn text_of(alloc: Global, bytes: &[u8]) -> Result<Option<String>, AllocError>
    ensures { IfOk result (λ t. option_map (λ t. string_bytes t) t ≡ (if is_utf8 bytes.now then Some bytes.now else None)) }
{
    match str::from_utf8(bytes) {
        Ok(text) => Ok(Some(String::from_str(alloc, text)?)),
        Err(_) => Ok(None),
    }
}

/// The string after its first quotation mark.
#[tactic(auto, unfolding(crate::specs::Reading::string_at))]
pub fn string_at(alloc: Global, bytes: &[u8]) -> Result<(String, &[u8]), Unread>
    ensures { Gives (λ x. (string_bytes x.0, x.1.now)) result (string_at bytes.now) }
{
    let (chars, rest) = chars_at(alloc, bytes)?;
    match text_of(alloc, &chars)? {
        Some(text) => Ok((text, rest)),
        None => Err(missing(Wanted::Utf8, bytes)),
    }
}
