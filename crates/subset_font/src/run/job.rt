//! The making of a subset between files and streams.

ghost use Rattle.std.specs.Prelude.{◌≡◌, ◌≢◌, ◌≤◌, IfErr};
ghost use Rattle.subset_task.specs.declared.refusals.failure.Failure.TheVariants.{Read as CannotRead, Usage};

use crate::making::carried::carry_out;
use crate::run::reports::{report, report_made, report_unlisted};
use std::alloc::Global;
use std::fs::OpenFile;
use std::io;
use std::io::{BufWriter, ErrorKind, Read, Write};
use std::rt::Files;
use subset_args::Job;
use subset_task::refusals::failure::{Failure, given, pdf_file};
use subset_task::refusals::reason::{Noted, reason_of};
use subset_task::run::request::{each_requested, lists_of, plan_of};
use subset_task::streams::{
    MOST_INPUT, Source, Target, is_to_standard_output, lines_beside, open_source,
};
use subset_task::task::Plan;
use subsetter::Error;

/// Opens the font's file or stream, of at most `most` bytes. Why it can't be opened is kept.
pub fn open_font<R: Files + Input>(
    rt: &R,
    name: &str,
    most: u32,
    reason: &mut Option<io::Error>,
) -> Result<Source<R::File, R::Reader>, Failure>
    ensures { IfErr result (λ e. e ≡ CannotRead) }
{
    match open_source(rt, name, most) {
        Ok(source) => Ok(source),
        Err(error) => {
            *reason = Some(error);
            Err(Failure::Read)
        }
    }
}

/// Room for the bytes of a file and for one more, so that its end is seen without a growth. None is taken for a stream. Why
/// the size can't be had, or is too large, is kept.
pub fn room_of<F: OpenFile + Read + Drop, S: Read + Drop>(
    source: &Source<F, S>,
    most: u32,
    reason: &mut Option<io::Error>,
) -> Result<usize, Failure>
    ensures { IfErr result (λ e. e ≡ CannotRead) }
{
    let Source::File(file, _) = source else {
        return Ok(0);
    };
    match file.metadata() {
        Ok(about) if about.len() > u64::from(most) => {
            *reason = Some(io::Error::from(ErrorKind::FileTooLarge));
            Err(Failure::Read)
        }
        Ok(about) => Ok(usize::try_from(about.len()).unwrap_or(0).saturating_add(1)),
        Err(error) => {
            *reason = Some(error);
            Err(Failure::Read)
        }
    }
}

/// Does a plan between a reader and three writers, the last of them after a buffer.
fn carry_buffered<R: Read, P: Write, W: Write, L: Write>(
    alloc: Global,
    plan: &Plan<'_>,
    input: &mut R,
    room: usize,
    source: &mut Vec<u8>,
    page: &mut P,
    output: &mut W,
    lines: &mut L,
) -> Result<(), Failure>
    ensures { IfErr result (λ e. e ≢ Usage) }
{
    let Ok(mut lines) = BufWriter::new(alloc, lines) else {
        return Err(Failure::Error(Error::OutOfMemory));
    };
    carry_out(alloc, plan, input, room, source, page, output, &mut lines)
}

/// Does a plan on files and the standard streams. Each file is made by its first write; the lines go to standard error where the
/// font or a PDF goes to standard output. Why the system refused one is kept.
fn perform<R: Files + Print + Eprint + Input + AllocGlobal>(
    rt: &R,
    job: &Job,
    plan: &Plan<'_>,
    is_font_there: bool,
    source: &mut Vec<u8>,
    reason: &mut Option<io::Error>,
) -> Result<(), Failure>
    ensures { IfErr result (λ e. e ≢ Usage) }
{
    let most = job.most_input.unwrap_or(MOST_INPUT);
    let opened = open_font(rt, job.input.as_str(), most, reason)?;
    let room = room_of(&opened, most, reason)?;
    let mut input = Noted::new(opened);
    let mut page = Noted::new(Target::new(rt, pdf_file(job)));
    let mut output = Noted::new(Target::new(rt, given(&job.output)));
    let mut lines = Noted::new(lines_beside(rt, is_font_there));
    let ended = carry_buffered(
        rt.alloc(),
        plan,
        &mut input,
        room,
        source,
        &mut page,
        &mut output,
        &mut lines,
    );
    *reason = reason_of(
        &ended,
        input.reason(),
        page.reason(),
        output.reason(),
        lines.reason(),
    );
    ended
}

/// Makes a subset, and returns the status.
pub fn run_job<R: Files + Print + Eprint + Input + AllocGlobal>(rt: &R, job: &Job) -> u8
    ensures { result ≤ 3 }
{
    let mut text = Vec::new(rt.alloc());
    let mut reason = None;
    let lists = match lists_of(rt, &job.glyphs, &mut text, &mut reason) {
        Ok(lists) => lists,
        Err(failure) => return report_unlisted(rt, &Err(failure), job, &text, reason),
    };
    let pieces = match each_requested(rt.alloc(), &job.glyphs, &lists) {
        Ok(pieces) => pieces,
        Err(failure) => return report(rt, &Err(failure), None),
    };
    let plan = plan_of(job, &pieces);
    let mut font = Vec::new(rt.alloc());
    let is_font_there = is_to_standard_output(rt, given(&job.output))
        || is_to_standard_output(rt, pdf_file(job));
    let ended = perform(rt, job, &plan, is_font_there, &mut font, &mut reason);
    report_made(rt, &ended, job, &plan, is_font_there, &font, reason)
}
