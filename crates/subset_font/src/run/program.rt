//! The run itself, and its status.

ghost use Rattle.std.specs.Prelude.{◌≡◌, ◌≤◌};
ghost use Rattle.std.specs.Process.{exit_status};

use crate::batch::running::run_batch;
use crate::help::{HELP, VERSION_LINE};
use crate::run::job::run_job;
use crate::run::reports::report;
use crate::run::showing::{print_text, run_shown};
use std::process::{ExitCode, Termination};
use std::rt::{Env, Files};
use subset_args::{Advice, Command, Mistake, Unread, read_typed};
use subset_task::refusals::failure::Failure;
use subset_task::run::request::read_arguments;
use subset_task::streams::hold_streams;
use subsetter::Error;

/// The end of a run, with its status. Only `run_by` makes one, and it can't be dropped, so that `main` ends with no other
/// status than the run's.
pub struct Ended {
    status: u8,
}

impl Termination for Ended {
    fn report<R: Eprint>(self, _rt: &R) -> ExitCode
        ensures { exit_status result ≡ self.status }
    {
        let Ended { status } = self;
        ExitCode::from(status)
    }
}

/// Reports a mistake in the arguments, and returns the status.
fn refuse<R: Eprint>(rt: &R, mistake: &Mistake<'_>) -> u8
    ensures { result ≤ 3 }
{
    let status = report(rt, &Err(Failure::Usage), None);
    let _ = eprintln!(rt; "{mistake}");
    let _ = eprintln!(rt; "{}", Advice(mistake));
    status
}

/// Runs the program with the arguments after its name, and returns the status.
fn run_words<R: Files + Print + Eprint + Input + AllocGlobal>(rt: &R, words: &[String]) -> u8
    ensures { result ≤ 3 }
{
    match read_typed(rt.alloc(), words) {
        Ok(Command::Help) => print_text(rt, HELP),
        Ok(Command::Version) => print_text(rt, VERSION_LINE),
        Ok(Command::Subset(job)) => run_job(rt, &job),
        Ok(Command::Batch(file)) => run_batch(rt, &file),
        Ok(Command::Show(topic, json, input, index)) => run_shown(rt, topic, json, &input, index),
        Err(Unread::Mistake(mistake)) => refuse(rt, &mistake),
        Err(Unread::OutOfMemory) => { report(rt, &Err(Failure::Error(Error::OutOfMemory)), None) }
    }
}

/// Reports that the arguments can't be read, and returns the status.
fn refuse_unread<R: Eprint>(rt: &R, failure: Failure) -> u8
    ensures { result ≤ 3 }
{
    let ended = Err(failure);
    let status = report(rt, &ended, None);
    if let Err(Failure::Usage) = &ended {
        let _ = eprintln!(rt; "an argument isn't UTF-8");
        let _ = eprintln!(rt; "expected: UTF-8, or - and a redirection for such a file");
    }
    status
}

/// Runs the program by the arguments after its name, or by why they can't be read.
pub fn run_by<R: Files + Print + Eprint + Input + AllocGlobal>(
    rt: &R,
    words: Result<Vec<String>, Failure>,
) -> Ended
    ensures { result.status ≤ 3 }
{
    let status = match words {
        Ok(words) => run_words(rt, &words),
        Err(failure) => refuse_unread(rt, failure),
    };
    Ended { status }
}

/// Runs the program, and returns its status: 0 where all is done, else the failure's.
pub fn run<R: Env + Files + Print + Eprint + Input + AllocGlobal>(rt: &R) -> Ended
    ensures { result.status ≤ 3 }
{
    let _held = hold_streams(rt);
    run_by(rt, read_arguments(rt))
}
