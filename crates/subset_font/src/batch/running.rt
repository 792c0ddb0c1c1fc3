//! A run of a batch: the requests of one source after those of another, and the answers in the order of their lines.

ghost use Rattle.std.specs.Prelude.{◌≡◌, ◌≤◌, false, IfErr};
ghost use Rattle.std.specs.Result.{result_ok};
ghost use Rattle.subset_font.specs.Batch.Running.{status_of_batch};
ghost use Rattle.subset_task.specs.declared.refusals.failure.Failure.TheVariants.{Output};

use crate::batch::making::{answer_apart, read_source};
use crate::run::reports::report_refused;
use std::alloc::AllocError;
use std::io::{BufWriter, ErrorKind, Write};
use std::rt::Files;
use std::{fmt, io};
use subset_task::batch::answers::{has_failed, write_answer};
use subset_task::batch::requests::{
    Batch, Request, State, answer_at, due, due_of, next_of_source, requests_of, set_answer,
    set_written,
};
use subset_task::reading::read_whole;
use subset_task::refusals::failure::Failure;
use subset_task::refusals::reason::{Noted, unread};
use subset_task::streams::{MOST_INPUT, is_shown, open_source};
use subsetter::Error;

/// The status where a request failed, and that where FILE can't be used.
const ONE_FAILED: u8 = 1;

const UNUSABLE: u8 = 2;

/// Reports that FILE can't be used, and returns the status.
fn refuse_file<R: Eprint>(rt: &R, name: &str, reason: Option<io::Error>) -> u8
    ensures { result ≡ 2 }
{
    let _ = report_refused(rt, &Err(Failure::Read), Some(name), reason);
    UNUSABLE
}

/// The bytes of FILE, or the status where it can't be used.
pub fn read_lines<R: Files + Input + Eprint + AllocGlobal>(
    rt: &R,
    name: &str,
) -> Result<Vec<u8>, u8>
    ensures { IfErr result (λ status. status ≡ 2) }
{
    let mut file = match open_source(rt, name, MOST_INPUT) {
        Ok(file) => Noted::new(file),
        Err(error) => return Err(refuse_file(rt, name, Some(error))),
    };
    match read_whole(rt.alloc(), &mut file, 0) {
        Ok(text) => Ok(text),
        Err(_) => Err(refuse_file(rt, name, unread(file.reason()))),
    }
}

/// The requests that were made of FILE, or the status where memory for them was refused, which is reported.
pub fn batch_or_status<R: Eprint>(
    rt: &R,
    name: &str,
    made: Result<Batch, AllocError>,
) -> Result<Batch, u8>
    ensures batch { result_ok result ≡ result_ok made }
    ensures status { IfErr result (λ status. status ≡ 2) }
{
    match made {
        Ok(batch) => Ok(batch),
        Err(_) => {
            let reason = io::Error::from(ErrorKind::OutOfMemory);
            Err(refuse_file(rt, name, Some(reason)))
        }
    }
}

/// The requests of FILE, or the status where it can't be used.
fn read_batch<R: Files + Input + Eprint + AllocGlobal>(rt: &R, name: &str) -> Result<Batch, u8>
    ensures { IfErr result (λ status. status ≡ 2) }
{
    let text = read_lines(rt, name)?;
    batch_or_status(rt, name, requests_of(rt.alloc(), &text))
}

/// How many answers are written, as the line shows it.
#[derive(Drop)]
struct Progress {
    done: usize,
    all: usize,
}

impl fmt::Display for Progress {
    fn fmt<W: fmt::Write>(&self, f: &mut fmt::Formatter<W>) -> fmt::Result {
        write!(f, "\r{} of {}", self.done, self.all)
    }
}

/// Where the answers are written, and what is known of those that are.
#[derive(Drop)]
pub struct AnswerLines<W: Write + Drop> {
    lines: W,
    // The index of the first whose answer isn't written.
    next: usize,
    has_failed: bool,
    // Whether their number is shown.
    is_shown: bool,
}

impl<W: Write + Drop> AnswerLines<W> {
    /// None are written.
    pub fn new(lines: W, is_shown: bool) -> Self
        ensures next { result.next ≡ 0 }
        ensures has_failed { result.has_failed ≡ false }
    {
        AnswerLines {
            lines,
            next: 0,
            has_failed: false,
            is_shown,
        }
    }

    /// Whether a request failed whose answer is written.
    pub fn has_failed(&self) -> bool
        ensures { result ≡ self.now.has_failed }
    {
        self.has_failed
    }

    /// Writes the answer to a request, if there is one, and says so.
    fn write_next(&mut self, request: &Request, states: &mut [State]) -> Result<bool, Failure>
        ensures { IfErr result (λ e. e ≡ Output) }
    {
        let Some(answer) = answer_at(states, self.next) else {
            return Ok(false);
        };
        if write_answer(request.line, answer, &mut self.lines).is_err()
            || self.lines.flush().is_err()
        {
            return Err(Failure::Output);
        }
        self.has_failed = self.has_failed || has_failed(answer);
        set_written(states, self.next);
        self.next = self.next.saturating_add(1);
        Ok(true)
    }

    /// Writes the answers up to the first request that is to be done, and shows how many are written.
    pub fn write_ready<R: Eprint>(
        &mut self,
        rt: &R,
        requests: &[Request],
        states: &mut [State],
    ) -> Result<(), Failure>
        ensures { IfErr result (λ e. e ≡ Output) }
    {
        for request in requests.get(self.next..).unwrap_or(&[]) {
            if !self.write_next(request, states)? {
                break;
            }
        }
        if self.is_shown {
            let all = requests.len();
            let _ = rt.eprint(Progress {
                done: self.next,
                all,
            });
        }
        Ok(())
    }
}

/// Does the requests of the source of one, from its index on, by the index of each one's next.
fn answer_source<R: Files + Print + Eprint + Input + AllocGlobal, W: Write + Drop>(
    rt: &R,
    requests: &[Request],
    next: &[usize],
    states: &mut [State],
    first: usize,
    answers: &mut AnswerLines<W>,
) -> Result<(), Failure>
    ensures { IfErr result (λ e. e ≡ Output) }
{
    let Some(job) = due(requests, states, first) else {
        return Ok(());
    };
    let source = read_source(rt, job.input.as_str());
    let mut index = first;
    for _ in first..requests.len() {
        if let Some(other) = due_of(requests, states, index, job.input.as_str()) {
            set_answer(states, index, answer_apart(rt, &source, other));
            answers.write_ready(rt, requests, states)?;
        }
        index = match next.get(index) {
            Some(other) => *other,
            None => break,
        };
    }
    Ok(())
}

/// Does all requests, source by source, and writes the answers.
fn answer_all<R: Files + Print + Eprint + Input + AllocGlobal, W: Write + Drop>(
    rt: &R,
    requests: &[Request],
    next: &[usize],
    states: &mut [State],
    answers: &mut AnswerLines<W>,
) -> Result<(), Failure>
    ensures { IfErr result (λ e. e ≡ Output) }
{
    answers.write_ready(rt, requests, states)?;
    for first in 0..requests.len() {
        answer_source(rt, requests, next, states, first, answers)?;
    }
    Ok(())
}

/// The status of a batch that ended so. Why it ended early is reported.
pub fn status_of_batch<R: Eprint>(
    rt: &R,
    ended: &Result<(), Failure>,
    has_failed: bool,
    is_shown: bool,
) -> u8
    ensures status { result ≡ status_of_batch ended.now has_failed }
    ensures range { result ≤ 3 }
{
    if is_shown {
        let _ = rt.eprint("\n");
    }
    match ended {
        Ok(()) if has_failed => ONE_FAILED,
        _ => report_refused(rt, ended, None, None),
    }
}

/// Reports that memory ran out before the first request, and returns the status.
pub fn refuse_memory<R: Eprint>(rt: &R) -> u8
    ensures { result ≤ 3 }
{
    status_of_batch(rt, &Err(Failure::Error(Error::OutOfMemory)), false, false)
}

/// Carries out the requests of a batch, and returns the status.
fn run_requests<R: Files + Print + Eprint + Input + AllocGlobal>(rt: &R, batch: Batch) -> u8
    ensures { result ≤ 3 }
{
    let is_shown = is_shown(rt);
    let Ok(lines) = BufWriter::new(rt.alloc(), io::writer(rt)) else {
        return refuse_memory(rt);
    };
    let Batch {
        requests,
        mut states,
    } = batch;
    let Ok(next) = next_of_source(rt.alloc(), &requests) else {
        return refuse_memory(rt);
    };
    let mut answers = AnswerLines::new(lines, is_shown);
    let ended = answer_all(rt, &requests, &next, &mut states, &mut answers);
    status_of_batch(rt, &ended, answers.has_failed(), is_shown)
}

/// Carries out what the lines of FILE request, and returns the status: 0 where all is done, 1 where a request failed, 2 where FILE
/// can't be used, and 3 where an answer can't be written.
pub fn run_batch<R: Files + Print + Eprint + Input + AllocGlobal>(rt: &R, name: &str) -> u8
    ensures { result ≤ 3 }
{
    match read_batch(rt, name) {
        Ok(batch) => run_requests(rt, batch),
        Err(status) => status,
    }
}
