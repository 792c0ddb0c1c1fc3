//! Values.

ghost use Rattle.std.specs.Prelude.{◌≡◌, ◌∷◌, [], length, map, string_bytes, Some, None, IfOk};
ghost use Rattle.std.specs.Option.{option_map};
ghost use Rattle.subset_batch.specs.Bytes.{word, past_word};
ghost use Rattle.subset_batch.specs.Reading.{many, number_at, item_at, item_step, items_in, literal, plain_at, value_at};
ghost use Rattle.subset_batch.specs.declared.fault.Wanted.TheVariants.{CommaOrBracket};
ghost use Rattle.subset_batch.specs.View.{Gives, value_view};

use crate::fault::{Unread, Wanted, missing};
use crate::json::blanks::{following, separator_at, skip_ws, split_word};
use crate::json::numbers::is_number;
use crate::json::strings::{string_at, text_of};
use std::alloc::Global;

/// What a value says.
#[derive(Drop)]
pub enum Value {
    /// `false` or `null`.
    Absent,
    /// `true`.
    Present,
    /// The text of a string, or a number as it is written.
    Text(String),
    /// The texts of an array.
    Texts(Vec<String>),
}

/// A number.
fn number_at(alloc: Global, wanted: Wanted, bytes: &[u8]) -> Result<(String, &[u8]), Unread>
    ensures { Gives (λ x. (string_bytes x.0, x.1.now)) result (number_at wanted bytes.now) }
{
    let (word, rest) = split_word(bytes);
    if !is_number(word) {
        return Err(missing(wanted, bytes));
    }
    match text_of(alloc, word)? {
        Some(text) => Ok((text, rest)),
        None => Err(missing(wanted, bytes)),
    }
}

/// A string or a number.
fn item_at(alloc: Global, wanted: Wanted, bytes: &[u8]) -> Result<(String, &[u8]), Unread>
    ensures { Gives (λ x. (string_bytes x.0, x.1.now)) result (item_at wanted bytes.now) }
{
    match following(b'"', bytes) {
        Some(rest) => string_at(alloc, rest),
        None => number_at(alloc, wanted, bytes),
    }
}

/// A member of an array, and whether another follows.
#[tactic(auto, unfolding(crate::specs::Reading::item_step))]
fn item_step(alloc: Global, bytes: &[u8]) -> Result<(String, bool, &[u8]), Unread>
    ensures { Gives (λ x. (string_bytes x.0 ∷ [], x.1, x.2.now)) result (item_step bytes.now) }
{
    let (item, rest) = item_at(alloc, Wanted::Item, bytes)?;
    let (more, rest) = separator_at(b']', Wanted::CommaOrBracket, rest)?;
    Ok((item, more, rest))
}

/// One or more members of an array, up to its bracket, `count` at most.
#[tactic(auto, using(crate::proofs::Loop::no_front, crate::proofs::Loop::more_follow, crate::proofs::Loop::none_follow, crate::proofs::Loop::refused, crate::proofs::Loop::all_steps))]
fn many_items(alloc: Global, count: usize, bytes: &[u8]) -> Result<(Vec<String>, &[u8]), Unread>
    ensures { Gives (λ x. (map (λ t. string_bytes t) x.0.items, x.1.now)) result (many item_step CommaOrBracket count bytes.now) }
{
    let mut items = Vec::new(alloc);
    let mut rest = bytes;
    for _ in 0..count {
        let (item, more, following) = item_step(alloc, rest)?;
        items.push(item)?;
        if !more {
            return Ok((items, following));
        }
        rest = following;
    }
    Err(missing(Wanted::CommaOrBracket, rest))
}

/// The members of an array, after its bracket.
fn items_in(alloc: Global, bytes: &[u8]) -> Result<(Vec<String>, &[u8]), Unread>
    ensures { Gives (λ x. (map (λ t. string_bytes t) x.0.items, x.1.now)) result (items_in bytes.now) }
{
    match following(b']', bytes) {
        Some(rest) => Ok((Vec::new(alloc), rest)),
        None => many_items(alloc, bytes.len(), bytes),
    }
}

/// The value of a literal name.
#[tactic(auto, unfolding(crate::specs::Reading::literal))]
fn literal(name: &[u8]) -> Option<Value>
    ensures { option_map value_view result ≡ literal name.now }
{
    if name == b"true".as_slice() {
        return Some(Value::Present);
    }
    if name == b"false".as_slice() {
        return Some(Value::Absent);
    }
    if name == b"null".as_slice() {
        return Some(Value::Absent);
    }
    None
}

/// A literal name, a string or a number.
fn plain_at(alloc: Global, bytes: &[u8]) -> Result<(Value, &[u8]), Unread>
    ensures { Gives (λ x. (value_view x.0, x.1.now)) result (plain_at bytes.now) }
{
    let (word, rest) = split_word(bytes);
    if let Some(value) = literal(word) {
        return Ok((value, rest));
    }
    let (item, rest) = item_at(alloc, Wanted::Value, bytes)?;
    Ok((Value::Text(item), rest))
}

/// A value.
#[tactic(auto, unfolding(crate::specs::Reading::value_at))]
pub fn value_at(alloc: Global, bytes: &[u8]) -> Result<(Value, &[u8]), Unread>
    ensures { Gives (λ x. (value_view x.0, x.1.now)) result (value_at bytes.now) }
{
    match following(b'[', bytes) {
        Some(rest) => {
            let (items, rest) = items_in(alloc, skip_ws(rest))?;
            Ok((Value::Texts(items), rest))
        }
        None => plain_at(alloc, bytes),
    }
}
