//! The showing of a face, and of a text of the program.

ghost use Rattle.std.specs.Prelude.{◌≢◌, ◌≤◌, IfErr};
ghost use Rattle.subset_task.specs.declared.refusals.failure.Failure.TheVariants.{Usage};

use crate::faces::info::carry_info;
use crate::run::job::{open_font, room_of};
use crate::run::reports::{report_refused, report_shown};
use std::alloc::Global;
use std::io;
use std::io::{BufWriter, Read, Write};
use std::rt::Files;
use subset_args::Topic;
use subset_task::faces::axes::carry_axes;
use subset_task::refusals::failure::Failure;
use subset_task::refusals::reason::{Noted, reason_of};
use subset_task::streams::MOST_INPUT;
use subsetter::Error;

/// Writes what is to be shown of a face between a reader and a writer, which gets a buffer.
fn show_buffered<R: Read, L: Write>(
    alloc: Global,
    topic: Topic,
    json: bool,
    index: u32,
    input: &mut R,
    room: usize,
    source: &mut Vec<u8>,
    lines: &mut L,
) -> Result<(), Failure>
    ensures { IfErr result (λ e. e ≢ Usage) }
{
    let Ok(mut lines) = BufWriter::new(alloc, lines) else {
        return Err(Failure::Error(Error::OutOfMemory));
    };
    match topic {
        Topic::Axes => carry_axes(alloc, index, json, input, room, source, &mut lines),
        Topic::Info => carry_info(alloc, index, json, input, room, source, &mut lines),
    }
}

/// Writes what is to be shown of a face on standard output. Why the system refused to read or to write is kept.
fn perform_shown<R: Files + Print + Input + AllocGlobal>(
    rt: &R,
    topic: Topic,
    json: bool,
    input: &str,
    index: u32,
    source: &mut Vec<u8>,
    reason: &mut Option<io::Error>,
) -> Result<(), Failure>
    ensures { IfErr result (λ e. e ≢ Usage) }
{
    let opened = open_font(rt, input, MOST_INPUT, reason)?;
    let room = room_of(&opened, MOST_INPUT, reason)?;
    let mut input = Noted::new(opened);
    let mut lines = Noted::new(io::writer(rt));
    let ended = show_buffered(
        rt.alloc(),
        topic,
        json,
        index,
        &mut input,
        room,
        source,
        &mut lines,
    );
    *reason = reason_of(&ended, input.reason(), None, None, lines.reason());
    ended
}

/// Shows something of a face, and returns the status.
pub fn run_shown<R: Files + Print + Eprint + Input + AllocGlobal>(
    rt: &R,
    topic: Topic,
    json: bool,
    input: &str,
    index: u32,
) -> u8
    ensures { result ≤ 3 }
{
    let mut font = Vec::new(rt.alloc());
    let mut reason = None;
    let ended = perform_shown(rt, topic, json, input, index, &mut font, &mut reason);
    report_shown(rt, &ended, topic, json, input, index, &font, reason)
}

/// Prints a text, and returns the status.
pub fn print_text<R: Print + Eprint>(rt: &R, text: &str) -> u8
    ensures { result ≤ 3 }
{
    match io::writer(rt).write_all(text.as_bytes()) {
        Ok(()) => 0,
        Err(error) => report_refused(rt, &Err(Failure::Output), None, Some(error)),
    }
}
