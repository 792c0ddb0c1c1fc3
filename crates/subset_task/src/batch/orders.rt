//! What a line of a batch requests.

ghost use Rattle.std.specs.Prelude.{◌≡◌, map, string_bytes, IfOk, IfErr, Some};
ghost use Rattle.std.specs.Option.{option_copied};
ghost use Rattle.subset_args.specs.Request.{lists_in_stream};
ghost use Rattle.subset_args.specs.View.{job_view, requested_view};
ghost use Rattle.subset_task.specs.Batch.Answers.{IsFailedBy};
ghost use Rattle.subset_task.specs.Batch.Orders.{is_given_stream, uses_streams, with_json, with_answer, order_by, order_of, IsNoOrder};

use crate::batch::answers::{Answer, failed};
use crate::refusals::failure::{Failure, given, list_file, pdf_file};
use std::alloc::Global;
use subset_args::{Command, Glyphs, Job, Mistake, Switches, Unread, is_stream, read_words};
use subset_batch::{Unread as UnreadLine, read_request};

/// The status of a line that is wrong, as of wrong arguments.
const WRONG: u8 = 2;

/// Why a line requests nothing whose words are wrong.
fn mistake_of(alloc: Global, mistake: &Mistake<'_>) -> Answer
    ensures { IsFailedBy 2 result }
{
    failed(WRONG, format!(in alloc; "{mistake}"))
}

/// Whether the name of a file, if it is given, means standard input or output.
fn is_given_stream(name: Option<&str>) -> bool
    ensures { result ≡ is_given_stream (option_copied name.entry) }
{
    match name {
        Some(name) => is_stream(name),
        None => false,
    }
}

/// Whether one of the files of glyphs is standard input.
#[tactic(auto, using(crate::proofs::BatchLaws::list_stream))]
fn lists_in_stream(glyphs: &[Glyphs]) -> bool
    ensures { result ≡ lists_in_stream (map requested_view glyphs.now) }
{
    let mut rest = glyphs;
    while let [one, following @ ..] = rest {
        if is_given_stream(list_file(one)) {
            return true;
        }
        rest = following;
    }
    false
}

/// Whether a request reads or writes a standard stream, by its name.
#[tactic(auto, using(crate::proofs::BatchLaws::pdf_stream), unfolding(crate::specs::Batch::Orders::uses_streams))]
fn uses_streams(job: &Job) -> bool
    ensures { result ≡ uses_streams (job_view job.now) }
{
    (is_stream(&job.input) || lists_in_stream(&job.glyphs))
        || (is_given_stream(given(&job.output)) || is_given_stream(pdf_file(job)))
}

/// Options without a value, and `--json` beside them.
fn with_json(switches: Switches) -> Switches
    ensures { result ≡ with_json switches }
{
    Switches {
        json: true,
        ..switches
    }
}

/// A request that uses no standard stream, as the answers are written to one. Its answer has the members of `--json`.
fn with_answer(alloc: Global, job: Job) -> Result<Job, Answer>
    ensures ok { IfOk result (λ made. with_answer (job_view job) ≡ Some (job_view made)) }
    ensures err { IfErr result (IsNoOrder (with_answer (job_view job))) }
{
    if uses_streams(&job) {
        let text = "- is no file of a request";
        return Err(failed(WRONG, String::from_str(alloc, text)));
    }
    let switches = with_json(job.switches);
    Ok(Job { switches, ..job })
}

/// What words request, or why they request nothing.
fn order_by(alloc: Global, words: &[String]) -> Result<Job, Answer>
    ensures ok { IfOk result (λ job. order_by (map (λ word. string_bytes word) words.now) ≡ Some (job_view job)) }
    ensures err { IfErr result (IsNoOrder (order_by (map (λ word. string_bytes word) words.now))) }
{
    match read_words(alloc, words) {
        Ok(Command::Subset(job)) => with_answer(alloc, job),
        Ok(Command::Help | Command::Version | Command::Batch(_) | Command::Show(_, _, _, _)) => {
            Err(failed(WRONG, format!(in alloc; "{}", Failure::Usage)))
        }
        Err(Unread::Mistake(mistake)) => Err(mistake_of(alloc, &mistake)),
        Err(Unread::OutOfMemory) => Err(Answer::NoMemory),
    }
}

/// What a line requests, or why it requests nothing.
#[tactic(auto, unfolding(crate::specs::Batch::Orders::order_of))]
pub fn order_of(alloc: Global, line: &[u8]) -> Result<Job, Answer>
    ensures ok { IfOk result (λ job. order_of line.now ≡ Some (job_view job)) }
    ensures err { IfErr result (IsNoOrder (order_of line.now)) }
{
    match read_request(alloc, line) {
        Ok(words) => order_by(alloc, &words),
        Err(UnreadLine::OutOfMemory) => Err(Answer::NoMemory),
        Err(UnreadLine::Fault(fault)) => Err(failed(WRONG, format!(in alloc; "{fault}"))),
    }
}
