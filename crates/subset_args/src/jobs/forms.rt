//! The arguments in one of two forms: `[OPTIONS] IN OUT INDEX [GID[,GID..]]`, else IN with options before and after it.

ghost use Rattle.std.specs.Prelude.{◌≡◌, None};
ghost use Rattle.std.specs.Option.{option_copied, option_map};
ghost use Rattle.std.specs.Result.{is_ok};
ghost use Rattle.subset_args.specs.Forms.{is_same, without_pdf, wrong_file, wrong_pdf, names_position, begins_with_digit, numbers, listed_after, plain_with, plain_at, plain, unless_after, joined_at, joined_batch, parsed, has_output, free, first_late, say_position, beside_input, wrong_at, second, before, alone, parsed_after, from_input, asked};
ghost use Rattle.subset_args.specs.Mistakes.{fault_view, read_view};
ghost use Rattle.subset_args.specs.View.{chosen_view, ended_by, given_view, parsed_view, asked_view, words_view};

use crate::mistakes::{Mistake, Wrong, mistake_in};
use crate::options::chosen::Chosen;
use crate::options::joined::{Given, is_batch, joined, says_position, wrong_after, wrong_place};
use crate::options::names::{Kind, kind_of};
use crate::words::u32_of;

/// What is requested, in either form.
#[derive(Clone, Copy)]
pub struct Asked<'a> {
    pub chosen: Chosen<'a>,
    pub input: &'a str,
    pub output: Option<&'a str>,
    pub index: u32,
    /// The list of glyphs that is an argument of its own.
    pub listed: Option<&'a str>,
}

/// Whether both are one file, by their names.
fn is_same(one: Option<&str>, other: Option<&str>) -> bool
    ensures { result ≡ is_same (option_copied one.entry) (option_copied other.entry) }
{
    match (one, other) {
        (Some(one), Some(other)) => one == other,
        _ => false,
    }
}

/// The option that says how a PDF is made, where none is requested.
fn without_pdf<'a>(chosen: &Chosen<'_>) -> Option<Mistake<'a>>
    ensures { option_map fault_view result ≡ without_pdf (chosen_view chosen.now) }
{
    if chosen.switches.vertical {
        return Some(mistake_in(Wrong::NoPdf, "--vertical"));
    }
    if chosen.coding.is_some() {
        return Some(mistake_in(Wrong::NoPdf, "--codes"));
    }
    if chosen.is_held {
        return Some(mistake_in(Wrong::NoPdf, "--rights"));
    }
    if chosen.switches.allow_blank {
        return Some(mistake_in(Wrong::NoPdf, "--allow-blank"));
    }
    None
}

/// What is wrong with the file of a PDF: it is OUT, too.
fn wrong_file<'a>(output: Option<&str>, file: &'a str) -> Option<Mistake<'a>>
    ensures { option_map fault_view result ≡ wrong_file (option_copied output.entry) file.now }
{
    if is_same(output, Some(file)) {
        return Some(mistake_in(Wrong::OutputTwice, file));
    }
    None
}

/// What is wrong with a PDF: it is OUT, too, or there is none, and an option says how it is made.
pub fn wrong_pdf<'a>(chosen: &Chosen<'a>, output: Option<&str>) -> Option<Mistake<'a>>
    ensures { option_map fault_view result ≡ wrong_pdf (chosen_view chosen.now) (option_copied output.entry) }
{
    match chosen.pdf {
        Some(file) => wrong_file(output, file),
        None => without_pdf(chosen),
    }
}

/// Whether an option says OUT or INDEX.
fn names_position(chosen: &Chosen<'_>) -> bool
    ensures { result ≡ names_position (chosen_view chosen.now) }
{
    chosen.output.is_some() || chosen.index.is_some()
}

/// Whether a text begins with a digit.
fn begins_with_digit(text: &str) -> bool
    ensures { result ≡ begins_with_digit text.now }
{
    match text.as_bytes() {
        [] => false,
        [first, ..] => first.is_ascii_digit(),
    }
}

/// A list of glyphs, which begins with a digit.
fn numbers(list: &str) -> Result<Option<&str>, Mistake<'_>>
    ensures { read_view (λ listed. option_copied listed) result ≡ numbers list.now }
{
    if !begins_with_digit(list) {
        return Err(mistake_in(Wrong::Glyph, list));
    }
    Ok(Some(list))
}

/// The list of glyphs after INDEX, which options may have in its place.
fn listed_after<'a>(are_given: bool, words: &'a [String]) -> Result<Option<&'a str>, Mistake<'a>>
    ensures { read_view (λ listed. option_copied listed) result ≡ listed_after are_given (words_view words.now) }
{
    match (are_given, words) {
        (false, []) => Err(mistake_in(Wrong::NoGlyphs, "")),
        (false, [list]) => numbers(list),
        (true, []) => Ok(None),
        (true, [word]) => Err(mistake_in(Wrong::BesideOption, word)),
        (_, [_, word, ..]) => Err(mistake_in(Wrong::Further, word)),
    }
}

/// IN, OUT and INDEX, and what is after them.
fn plain_with<'a>(
    chosen: Chosen<'a>,
    input: &'a str,
    output: &'a str,
    index: u32,
    words: &'a [String],
) -> Result<Asked<'a>, Mistake<'a>>
    ensures { read_view asked_view result ≡ plain_with (chosen_view chosen.entry) input.now output.now index (words_view words.now) }
{
    let listed = listed_after(chosen.sources.are_given(), words)?;
    if let Some(wrong) = wrong_pdf(&chosen, Some(output)) {
        return Err(wrong);
    }
    Ok(Asked {
        chosen,
        input,
        output: Some(output),
        index,
        listed,
    })
}

/// IN and OUT, and what is after them.
fn plain_at<'a>(
    chosen: Chosen<'a>,
    input: &'a str,
    output: &'a str,
    words: &'a [String],
) -> Result<Asked<'a>, Mistake<'a>>
    ensures { read_view asked_view result ≡ plain_at (chosen_view chosen.entry) input.now output.now (words_view words.now) }
{
    let [index, following @ ..] = words else {
        return Err(mistake_in(Wrong::NoIndex, ""));
    };
    match u32_of(index) {
        Some(number) => plain_with(chosen, input, output, number, following),
        None => Err(mistake_in(Wrong::Index, index)),
    }
}

/// The arguments from IN on, in the plain form.
#[tactic(auto, unfolding(crate::specs::Forms::plain))]
fn plain<'a>(chosen: Chosen<'a>, words: &'a [String]) -> Result<Asked<'a>, Mistake<'a>>
    ensures { read_view asked_view result ≡ plain (chosen_view chosen.entry) (words_view words.now) }
{
    match words {
        [] => Err(mistake_in(Wrong::NoInput, "")),
        [_] => Err(mistake_in(Wrong::NoOutput, "")),
        [input, output, following @ ..] => {
            if names_position(&chosen) {
                return Err(mistake_in(Wrong::BesideInput, output));
            }
            plain_at(chosen, input, output, following)
        }
    }
}

/// What ends the options before other arguments.
#[derive(Clone, Copy)]
pub enum Ending {
    /// The help is wanted.
    Help,
    /// The version is wanted.
    Version,
    /// The other arguments, and whether `--` is before them.
    Words(bool),
}

/// What the options before other arguments say.
#[derive(Clone, Copy)]
pub struct Parsed<'a> {
    pub chosen: Chosen<'a>,
    pub ending: Ending,
    /// The arguments after the options.
    pub words: &'a [String],
}

/// An option that is no option after IN.
fn unless_after<'a>(
    is_after: bool,
    word: &'a str,
    parsed: Parsed<'a>,
) -> Result<Parsed<'a>, Mistake<'a>>
    ensures { read_view parsed_view result ≡ unless_after is_after word.now (parsed_view parsed.entry) }
{
    if is_after {
        return Err(mistake_in(Wrong::Late, word));
    }
    Ok(parsed)
}

/// What the options say that end so.
fn parsed_by<'a>(chosen: Chosen<'a>, ending: Ending, words: &'a [String]) -> Parsed<'a>
    ensures { parsed_view result ≡ ended_by ending (chosen_view chosen.entry) (words_view words.now) }
{
    Parsed {
        chosen,
        ending,
        words,
    }
}

/// Whether the arguments from IN on are of the plain form.
fn is_plain(chosen: Chosen<'_>, words: &[String]) -> bool
    ensures { result ≡ is_ok (plain (chosen_view chosen.entry) (words_view words.now)) }
{
    match plain(chosen, words) {
        Ok(_) => true,
        Err(_) => false,
    }
}

/// A value in the same word, where the arguments from it on aren't of the plain form: then it is IN.
fn joined_at<'a>(
    chosen: Chosen<'_>,
    is_after: bool,
    word: &'a str,
    words: &[String],
) -> Option<Given<'a>>
    ensures { option_map given_view result ≡ joined_at (chosen_view chosen.entry) is_after word.now (words_view words.now) }
{
    if !is_after && is_plain(chosen, words) {
        return None;
    }
    joined(word)
}

/// The file of `--batch=FILE`, where the arguments from it on aren't of the plain form: then it is IN.
pub fn joined_batch<'a>(word: &'a str, words: &[String]) -> Option<&'a str>
    ensures { option_copied result ≡ joined_batch word.now (words_view words.now) }
{
    let (name, value) = word.split_once('=')?;
    if is_batch(name) && !is_plain(Chosen::NOTHING, words) {
        return Some(value);
    }
    None
}

/// What the options before IN, or after it, say, besides what is chosen already.
pub fn parse_options<'a>(
    chosen: Chosen<'a>,
    is_after: bool,
    words: &'a [String],
) -> Result<Parsed<'a>, Mistake<'a>>
    ensures { read_view parsed_view result ≡ parsed None (chosen_view chosen.entry) is_after (words_view words.now) }
{
    let [word, following @ ..] = words else {
        return Ok(parsed_by(chosen, Ending::Words(false), words));
    };
    match kind_of(word) {
        Kind::Switch(switch) => {
            parse_options(chosen.with_switch(switch, word)?, is_after, following)
        }
        Kind::Setting(setting) => {
            let [value, rest @ ..] = following else {
                return Err(mistake_in(Wrong::NoValue, word));
            };
            parse_options(chosen.with_setting(setting, word, value)?, is_after, rest)
        }
        Kind::Help => unless_after(is_after, word, parsed_by(chosen, Ending::Help, following)),
        Kind::Version => {
            unless_after(
                is_after,
                word,
                parsed_by(chosen, Ending::Version, following),
            )
        }
        Kind::End => Ok(parsed_by(chosen, Ending::Words(true), following)),
        Kind::Place => match joined_at(chosen, is_after, word, words) {
            Some(given) => {
                let more = chosen.with_setting(given.setting, given.word, given.value)?;
                parse_options(more, is_after, following)
            }
            None => Ok(parsed_by(chosen, Ending::Words(false), words)),
        },
    }
}

/// Whether an option says where the new font or a PDF goes.
fn has_output(chosen: &Chosen<'_>) -> bool
    ensures { result ≡ has_output (chosen_view chosen.now) }
{
    chosen.output.is_some() || chosen.pdf.is_some()
}

/// What is requested by IN with options before and after it.
fn free<'a>(chosen: Chosen<'a>, input: &'a str) -> Result<Asked<'a>, Mistake<'a>>
    ensures { read_view asked_view result ≡ free (chosen_view chosen.entry) input.now }
{
    if !has_output(&chosen) {
        return Err(mistake_in(Wrong::NoOutput, ""));
    }
    if !chosen.sources.are_given() {
        return Err(mistake_in(Wrong::NoSource, ""));
    }
    Ok(Asked {
        chosen,
        input,
        output: chosen.output,
        index: chosen.index.unwrap_or(0),
        listed: None,
    })
}

/// The first option after IN, or `--axes`, `--info` or `--batch` there.
fn first_late(words: &[String]) -> Option<Mistake<'_>>
    ensures { option_map fault_view result ≡ first_late (words_view words.now) }
{
    let mut rest = words;
    while let [word, following @ ..] = rest {
        if let Some(wrong) = wrong_after(word) {
            return Some(mistake_in(wrong, word));
        }
        rest = following;
    }
    None
}

/// Whether one of the arguments says OUT or INDEX.
fn say_position(words: &[String]) -> bool
    ensures { result ≡ say_position (words_view words.now) }
{
    let mut rest = words;
    while let [word, following @ ..] = rest {
        if says_position(word) {
            return true;
        }
        rest = following;
    }
    false
}

/// What is wrong where a second argument is beside IN, and the plain form is wrong so.
fn beside_input<'a>(
    wrong: Mistake<'a>,
    chosen: &Chosen<'_>,
    following: &'a [String],
    word: &'a str,
    words: &[String],
) -> Mistake<'a>
    ensures { fault_view result ≡ beside_input (fault_view wrong.entry) (chosen_view chosen.now) (words_view following.now) word.now (words_view words.now) }
{
    if names_position(chosen) || say_position(words) {
        return mistake_in(Wrong::BesideInput, word);
    }
    match first_late(following) {
        Some(late) => late,
        None => wrong,
    }
}

/// What is wrong with an argument in the place of IN or after it, by itself: nothing where it is after `--`.
fn wrong_at(is_ended: bool, word: &str) -> Option<Wrong>
    ensures { result ≡ wrong_at is_ended word.now }
{
    if is_ended { None } else { wrong_place(word) }
}

/// What is wrong with a second argument.
fn second<'a>(
    wrong: Mistake<'a>,
    chosen: &Chosen<'_>,
    is_ended: bool,
    following: &'a [String],
    word: &'a str,
    words: &[String],
) -> Mistake<'a>
    ensures { fault_view result ≡ second (fault_view wrong.entry) (chosen_view chosen.now) is_ended (words_view following.now) word.now (words_view words.now) }
{
    match wrong_at(is_ended, word) {
        Some(wrong) => mistake_in(wrong, word),
        None => beside_input(wrong, chosen, following, word, words),
    }
}

/// IN with all options, and the arguments after these.
fn before<'a>(
    wrong: Mistake<'a>,
    chosen: Chosen<'a>,
    is_ended: bool,
    input: &'a str,
    following: &'a [String],
    words: &'a [String],
) -> Result<Asked<'a>, Mistake<'a>>
    ensures { read_view asked_view result ≡ before (fault_view wrong.entry) (chosen_view chosen.entry) is_ended input.now (words_view following.now) (words_view words.now) }
{
    match words {
        [] => free(chosen, input),
        [word, others @ ..] => Err(second(wrong, &chosen, is_ended, following, word, others)),
    }
}

/// IN, alone beside the options after it.
fn alone<'a>(
    wrong: Mistake<'a>,
    input: &'a str,
    following: &'a [String],
    parsed: Parsed<'a>,
) -> Result<Asked<'a>, Mistake<'a>>
    ensures { read_view asked_view result ≡ alone (fault_view wrong.entry) input.now (words_view following.now) (parsed_view parsed.entry) }
{
    match parsed.ending {
        Ending::Help => Err(wrong),
        Ending::Version => Err(wrong),
        Ending::Words(is_ended) => {
            before(
                wrong,
                parsed.chosen,
                is_ended,
                input,
                following,
                parsed.words,
            )
        }
    }
}

/// The options after IN; there are none after `--`.
fn parse_after<'a>(
    chosen: Chosen<'a>,
    is_ended: bool,
    words: &'a [String],
) -> Result<Parsed<'a>, Mistake<'a>>
    ensures { read_view parsed_view result ≡ parsed_after (chosen_view chosen.entry) is_ended (words_view words.now) }
{
    if is_ended {
        return Ok(parsed_by(chosen, Ending::Words(true), words));
    }
    parse_options(chosen, true, words)
}

/// The arguments from IN on, where the plain form is wrong so.
fn from_input<'a>(
    wrong: Mistake<'a>,
    chosen: Chosen<'a>,
    is_ended: bool,
    words: &'a [String],
) -> Result<Asked<'a>, Mistake<'a>>
    ensures { read_view asked_view result ≡ from_input (fault_view wrong.entry) (chosen_view chosen.entry) is_ended (words_view words.now) }
{
    let [input, following @ ..] = words else {
        return Err(wrong);
    };
    if let Some(wrong) = wrong_at(is_ended, input) {
        return Err(mistake_in(wrong, input));
    }
    match parse_after(chosen, is_ended, following) {
        Ok(parsed) => alone(wrong, input, following, parsed),
        Err(other) => Err(other),
    }
}

/// The arguments from IN on.
#[tactic(auto, unfolding(crate::specs::Forms::asked))]
pub fn asked_by<'a>(
    chosen: Chosen<'a>,
    is_ended: bool,
    words: &'a [String],
) -> Result<Asked<'a>, Mistake<'a>>
    ensures { read_view asked_view result ≡ asked (chosen_view chosen.entry) is_ended (words_view words.now) }
{
    match plain(chosen, words) {
        Ok(found) => Ok(found),
        Err(wrong) => from_input(wrong, chosen, is_ended, words),
    }
}
