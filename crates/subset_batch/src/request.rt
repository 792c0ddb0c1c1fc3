//! The words of a request.

ghost use Rattle.std.specs.Prelude.{◌≡◌, ◌++◌, ◌∷◌, [], string_bytes, codes, OnOk, IfOk};
ghost use Rattle.subset_batch.specs.Words.{is_input, option_of, joined, value_words, input_words, words_of, input_of, option_words, last_words, request_words};
ghost use Rattle.subset_batch.specs.Reading.{request_in, request_of};
ghost use Rattle.subset_batch.specs.View.{Gives, value_view, member_view, members_view, words_view};

use crate::fault::Unread;
use crate::members::Member;
use crate::object::object_of;
use crate::values::Value;
use std::alloc::{AllocError, Global};

/// Whether a name is that of IN.
fn is_input(name: &str) -> bool
    ensures { result ≡ is_input name.now }
{
    name == "in"
}

/// The option of a name.
fn option_of(alloc: Global, name: &str) -> Result<String, AllocError>
    ensures { IfOk result (λ t. string_bytes t ≡ option_of name.now) }
{
    match name {
        "out" => String::from_str(alloc, "-o"),
        "index" => String::from_str(alloc, "--face-index"),
        _ => format!(in alloc; "--{name}"),
    }
}

/// Adds two texts.
#[tactic(auto, using(crate::proofs::Appends::both_texts))]
fn push_both(text: &mut String, first: &str, second: &str) -> Result<(), AllocError>
    ensures { OnOk result (string_bytes text.new ≡ string_bytes text.old ++ (first.now ++ second.now)) }
{
    text.push_str(first)?;
    text.push_str(second)?;
    Ok(())
}

/// Adds texts, each after a comma.
#[tactic(auto, using(crate::proofs::Appends::at_first, crate::proofs::Appends::after_part, crate::proofs::Appends::at_last))]
fn push_after(text: &mut String, texts: &[String]) -> Result<(), AllocError>
    ensures { OnOk result (string_bytes text.new ≡ string_bytes text.old ++ joined (codes ",") (words_view texts.now)) }
{
    let mut rest = texts;
    while let [t, following @ ..] = rest {
        push_both(text, ",", t.as_str())?;
        rest = following;
    }
    Ok(())
}

/// Texts with a comma between each two.
fn joined(alloc: Global, texts: &[String]) -> Result<String, AllocError>
    ensures { IfOk result (λ t. string_bytes t ≡ joined [] (words_view texts.now)) }
{
    match texts {
        [] => Ok(String::new(alloc)),
        [first, following @ ..] => {
            let mut text = String::from_str(alloc, first.as_str())?;
            push_after(&mut text, following)?;
            Ok(text)
        }
    }
}

/// Adds a word.
fn push_word(alloc: Global, words: &mut Vec<String>, word: &str) -> Result<(), AllocError>
    ensures { OnOk result (words_view words.new.items ≡ words_view words.old.items ++ word.now ∷ []) }
{
    words.push(String::from_str(alloc, word)?)?;
    Ok(())
}

/// Adds an option and its value.
#[tactic(auto, using(crate::proofs::Appends::two_words))]
fn push_value(
    alloc: Global,
    words: &mut Vec<String>,
    option: &str,
    value: &Value,
) -> Result<(), AllocError>
    ensures { OnOk result (words_view words.new.items ≡ words_view words.old.items ++ value_words option.now (value_view value.now)) }
{
    match value {
        Value::Absent => {}
        Value::Present => push_word(alloc, words, option)?,
        Value::Text(text) => {
            push_word(alloc, words, option)?;
            push_word(alloc, words, text.as_str())?;
        }
        Value::Texts(texts) => {
            push_word(alloc, words, option)?;
            push_word(alloc, words, joined(alloc, texts)?.as_str())?;
        }
    }
    Ok(())
}

/// Adds IN after `--`.
#[tactic(auto, using(crate::proofs::Appends::two_words))]
fn push_input(alloc: Global, words: &mut Vec<String>, value: &Value) -> Result<(), AllocError>
    ensures { OnOk result (words_view words.new.items ≡ words_view words.old.items ++ input_words (value_view value.now)) }
{
    if let Value::Text(text) = value {
        push_word(alloc, words, "--")?;
        push_word(alloc, words, text.as_str())?;
    }
    Ok(())
}

/// Adds the words of a member that isn't IN.
fn push_words(alloc: Global, words: &mut Vec<String>, member: &Member) -> Result<(), AllocError>
    ensures { OnOk result (words_view words.new.items ≡ words_view words.old.items ++ words_of (member_view member.now)) }
{
    if is_input(member.name.as_str()) {
        return Ok(());
    }
    let option = option_of(alloc, member.name.as_str())?;
    push_value(alloc, words, option.as_str(), &member.value)
}

/// Adds the words of a member that is IN.
fn push_last(alloc: Global, words: &mut Vec<String>, member: &Member) -> Result<(), AllocError>
    ensures { OnOk result (words_view words.new.items ≡ words_view words.old.items ++ input_of (member_view member.now)) }
{
    if is_input(member.name.as_str()) {
        return push_input(alloc, words, &member.value);
    }
    Ok(())
}

/// Adds the options of members.
#[tactic(auto, using(crate::proofs::Appends::at_first, crate::proofs::Appends::after_part, crate::proofs::Appends::at_last))]
fn push_options(
    alloc: Global,
    words: &mut Vec<String>,
    members: &[Member],
) -> Result<(), AllocError>
    ensures { OnOk result (words_view words.new.items ≡ words_view words.old.items ++ option_words (members_view members.now)) }
{
    let mut rest = members;
    while let [member, following @ ..] = rest {
        push_words(alloc, words, member)?;
        rest = following;
    }
    Ok(())
}

/// Adds IN of members.
#[tactic(auto, using(crate::proofs::Appends::at_first, crate::proofs::Appends::after_part, crate::proofs::Appends::at_last))]
fn push_inputs(alloc: Global, words: &mut Vec<String>, members: &[Member]) -> Result<(), AllocError>
    ensures { OnOk result (words_view words.new.items ≡ words_view words.old.items ++ last_words (members_view members.now)) }
{
    let mut rest = members;
    while let [member, following @ ..] = rest {
        push_last(alloc, words, member)?;
        rest = following;
    }
    Ok(())
}

/// The words of members.
fn words_of(alloc: Global, members: &[Member]) -> Result<Vec<String>, AllocError>
    ensures { IfOk result (λ v. words_view v.items ≡ request_words (members_view members.now)) }
{
    let mut words = Vec::new(alloc);
    push_options(alloc, &mut words, members)?;
    push_inputs(alloc, &mut words, members)?;
    Ok(words)
}

/// The words of a line, or what is wrong in it first, with the number of bytes that are left.
#[tactic(auto, unfolding(crate::specs::Reading::request_in))]
fn request_in(alloc: Global, line: &[u8]) -> Result<Vec<String>, Unread>
    ensures { Gives (λ v. words_view v.items) result (request_in line.now) }
{
    let members = object_of(alloc, line)?;
    Ok(words_of(alloc, &members)?)
}

/// What a line requests, as the words of a command line: options with their values, and after `--` IN.
///
/// A line is one object in JSON (RFC 8259), with white space around it. Its members have the names `in`, `out`, `index` and
/// those of the program's long options, each once. A value is a string, a number, which is taken as its text, or `true` for an
/// option without a value; `false` and `null` are as if the member weren't there. `gids`, `unicodes`, `at` and `limits` may
/// have an array of strings and numbers, which commas join.
///
/// `Unread::Fault` has what is wrong first, with the number of bytes before it.
pub fn read_request(alloc: Global, line: &[u8]) -> Result<Vec<String>, Unread>
    ensures { Gives (λ v. words_view v.items) result (request_of line.now) }
{
    match request_in(alloc, line) {
        Ok(words) => Ok(words),
        Err(Unread::OutOfMemory) => Err(Unread::OutOfMemory),
        Err(Unread::Fault(fault)) => Err(Unread::Fault(fault.from_start(line))),
    }
}
