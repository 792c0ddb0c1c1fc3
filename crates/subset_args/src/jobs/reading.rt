//! What all arguments request, or what is wrong with them first.

ghost use Rattle.std.specs.Prelude.{◌≡◌, ◌∷◌, map, IfOk};
ghost use Rattle.std.specs.Option.{option_map};
ghost use Rattle.subset_args.specs.Mistakes.{fault_view, Gives};
ghost use Rattle.subset_args.specs.Request.{request_with, request_at, request_of, request_from, command_of, command_by_options, instead_of, no_index, shown_of, shown_by, batch_of, command_without, command, typed};
ghost use Rattle.subset_args.specs.declared.mistakes.Wrong.TheVariants.{AfterShown};
ghost use Rattle.subset_args.specs.View.{chosen_view, parsed_view, asked_view, requested_view, position_view, job_view, command_view, words_view};

use crate::jobs::command::{Command, Glyphs, Job, Position, Topic};
use crate::jobs::forms::{Asked, Ending, Parsed, asked_by, joined_batch, parse_options, wrong_pdf};
use crate::jobs::parts::{is_stream, owned, read_at, read_glyphs, read_pdf, wrong_stream};
use crate::mistakes::{Mistake, Unread, Wrong, mistake_in};
use crate::options::chosen::Chosen;
use crate::options::joined::{
    is_batch, is_option, looks_like_option, taken, topic_of, wrong_after,
};
use crate::options::names::kind_of;
use crate::words::u32_of;
use std::alloc::{AllocError, Global};

/// What is to be done with these glyphs at this position.
fn job_with(
    alloc: Global,
    asked: Asked<'_>,
    glyphs: Vec<Glyphs>,
    position: Option<Position>,
) -> Result<Job, AllocError>
    ensures { IfOk result (λ job. job_view job ≡ request_with (asked_view asked.entry) (map requested_view glyphs.items) (option_map position_view position)) }
{
    let chosen = asked.chosen;
    Ok(Job {
        input: String::from_str(alloc, asked.input)?,
        output: owned(alloc, asked.output)?,
        index: asked.index,
        most_input: chosen.most_input,
        glyphs,
        limits: chosen.limits,
        switches: chosen.switches,
        position,
        pdf: read_pdf(alloc, &chosen)?,
        by_option: asked.listed.is_none(),
    })
}

/// What is to be done with these glyphs, where no file is written twice.
fn job_at<'a>(alloc: Global, asked: Asked<'a>, glyphs: Vec<Glyphs>) -> Result<Job, Unread<'a>>
    ensures { Gives job_view result (request_at (asked_view asked.entry) (map requested_view glyphs.items)) }
{
    let position = read_at(alloc, asked.chosen.at)?;
    if let Some(wrong) = wrong_pdf(&asked.chosen, asked.output) {
        return Err(Unread::Mistake(wrong));
    }
    Ok(job_with(alloc, asked, glyphs, position)?)
}

/// What is to be done, where standard input isn't read twice.
#[tactic(auto, unfolding(crate::specs::Request::request_of))]
fn job_of<'a>(alloc: Global, asked: Asked<'a>) -> Result<Job, Unread<'a>>
    ensures { Gives job_view result (request_of (asked_view asked.entry)) }
{
    let sources = asked.chosen.sources.all(alloc)?;
    if let Some(wrong) = wrong_stream(is_stream(asked.input), &sources) {
        return Err(Unread::Mistake(wrong));
    }
    let glyphs = read_glyphs(alloc, asked.listed, &sources)?;
    job_at(alloc, asked, glyphs)
}

/// What the arguments from IN on request.
fn read_job<'a>(
    alloc: Global,
    chosen: Chosen<'a>,
    is_ended: bool,
    words: &'a [String],
) -> Result<Job, Unread<'a>>
    ensures { Gives job_view result (request_from (chosen_view chosen.entry) is_ended (words_view words.now)) }
{
    match asked_by(chosen, is_ended, words) {
        Ok(asked) => job_of(alloc, asked),
        Err(wrong) => Err(Unread::Mistake(wrong)),
    }
}

/// What the options and the arguments after them request.
fn read_parsed<'a>(alloc: Global, parsed: Parsed<'a>) -> Result<Command, Unread<'a>>
    ensures { Gives command_view result (command_of (parsed_view parsed.entry)) }
{
    match parsed.ending {
        Ending::Help => Ok(Command::Help),
        Ending::Version => Ok(Command::Version),
        Ending::Words(is_ended) => {
            let job = read_job(alloc, parsed.chosen, is_ended, parsed.words)?;
            Ok(Command::Subset(job))
        }
    }
}

/// What the arguments request that begin with options or IN.
#[tactic(auto, unfolding(crate::specs::Request::command_by_options))]
fn read_by_options<'a>(alloc: Global, words: &'a [String]) -> Result<Command, Unread<'a>>
    ensures { Gives command_view result (command_by_options (words_view words.now)) }
{
    match parse_options(Chosen::NOTHING, false, words) {
        Ok(parsed) => read_parsed(alloc, parsed),
        Err(wrong) => Err(Unread::Mistake(wrong)),
    }
}

/// What is wrong, unless it is that an option is in the place of IN.
#[tactic(auto, unfolding(crate::specs::Request::instead_of))]
fn instead_of<'a>(input: &'a str, wrong: Mistake<'a>) -> Mistake<'a>
    ensures { fault_view result ≡ instead_of input.now (fault_view wrong.entry) }
{
    if !looks_like_option(input) {
        return wrong;
    }
    if is_option(kind_of(input)) || topic_of(input).is_some() {
        mistake_in(Wrong::AfterShown, input)
    } else {
        mistake_in(Wrong::Unknown, input)
    }
}

/// What is wrong with an INDEX that is no number: it may be an option.
fn no_index(index: &str) -> Mistake<'_>
    ensures { fault_view result ≡ no_index index.now }
{
    if wrong_after(index).is_some() {
        mistake_in(Wrong::AfterShown, index)
    } else {
        mistake_in(Wrong::Index, index)
    }
}

/// What is wrong where an argument follows INDEX.
fn after_index<'a>(input: &'a str, word: &'a str) -> Mistake<'a>
    ensures { fault_view result ≡ instead_of input.now (record { wrong = AfterShown; word = word.now }) }
{
    instead_of(input, mistake_in(Wrong::AfterShown, word))
}

/// What the arguments `FONT [INDEX]` show. INDEX is 0 where it isn't given.
fn read_shown<'a>(topic: Topic, json: bool, words: &'a [String]) -> Result<Command, Unread<'a>>
    ensures { Gives command_view result (shown_of topic json (words_view words.now)) }
{
    match words {
        [] => Err(Unread::Mistake(mistake_in(Wrong::NoInput, ""))),
        [input] => Ok(Command::Show(topic, json, input.clone()?, 0)),
        [input, index] => match u32_of(index) {
            Some(number) => Ok(Command::Show(topic, json, input.clone()?, number)),
            None => Err(Unread::Mistake(instead_of(input, no_index(index)))),
        },
        [input, _, word, ..] => Err(Unread::Mistake(after_index(input, word))),
    }
}

/// What the arguments `[--json] FONT [INDEX]` show.
fn read_topic<'a>(topic: Topic, words: &'a [String]) -> Result<Command, Unread<'a>>
    ensures { Gives command_view result (shown_by topic (words_view words.now)) }
{
    let [word, following @ ..] = words else {
        return Err(Unread::Mistake(mistake_in(Wrong::NoInput, "")));
    };
    if word.as_str() == "--json" {
        read_shown(topic, true, following)
    } else {
        read_shown(topic, false, words)
    }
}

/// What FILE and the arguments after it request.
fn batch_of<'a>(alloc: Global, file: &str, words: &'a [String]) -> Result<Command, Unread<'a>>
    ensures { Gives command_view result (batch_of (file.now ∷ words_view words.now)) }
{
    match words {
        [] => Ok(Command::Batch(String::from_str(alloc, file)?)),
        [word, ..] => Err(Unread::Mistake(mistake_in(Wrong::AfterBatch, word))),
    }
}

/// What the arguments after `--batch` request: FILE.
fn read_batch<'a>(alloc: Global, words: &'a [String]) -> Result<Command, Unread<'a>>
    ensures { Gives command_view result (batch_of (words_view words.now)) }
{
    match words {
        [] => Err(Unread::Mistake(mistake_in(Wrong::NoBatchFile, ""))),
        [file, following @ ..] => batch_of(alloc, file, following),
    }
}

/// What the arguments after the program's name request: `--batch FILE` (or `--batch=FILE`), `--axes [--json] FONT [INDEX]` or `--info` in its place,
/// or `[OPTIONS] IN OUT INDEX GID[,GID..]`, where the last one is left out with an option that requests glyphs; or IN with options
/// before and after it, where one gives OUT or the file of a PDF. An option and its value may be one word, `--name=value`, but
/// where that is IN in the plain form.
///
/// The error is what is wrong first, read from left to right.
pub fn read_words<'a>(alloc: Global, words: &'a [String]) -> Result<Command, Unread<'a>>
    ensures { Gives command_view result (command (words_view words.now)) }
{
    let [word, following @ ..] = words else {
        return read_by_options(alloc, words);
    };
    if is_batch(word) {
        return read_batch(alloc, following);
    }
    if let Some(file) = joined_batch(word, words) {
        return batch_of(alloc, file, following);
    }
    match topic_of(word) {
        Some(topic) => read_topic(topic, following),
        None => read_by_options(alloc, words),
    }
}

/// The same, as a person types them: where they request nothing, and an option is the value of another, that is the error.
pub fn read_typed<'a>(alloc: Global, words: &'a [String]) -> Result<Command, Unread<'a>>
    ensures { Gives command_view result (typed (words_view words.now)) }
{
    match read_words(alloc, words) {
        Err(Unread::Mistake(found)) => match taken(words) {
            Some(other) => Err(Unread::Mistake(other)),
            None => Err(Unread::Mistake(found)),
        },
        other => other,
    }
}
