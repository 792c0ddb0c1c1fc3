//! What a request of a batch makes of its source.

ghost use Rattle.std.specs.Prelude.{◌≡◌, ◌⊎◌, ◌≤◌, ◌^◌, Some, [], length, OnOk, IfOk, IfErr, IsErrOf, string_bytes};
ghost use Rattle.std.specs.Option.{option_copied};
ghost use Rattle.std.specs.Io.KnownBytes.{Appends};
ghost use Rattle.subset_font.specs.Making.Sheet.{page_of};
ghost use Rattle.subset_font.specs.Making.Carried.{IsBeforeWriting, IsFailureOf, WritesAll};
ghost use Rattle.subset_task.specs.Refusals.Failure.{status_of};
ghost use Rattle.subset_font.specs.Report.{report_of};
ghost use Rattle.subset_task.specs.Batch.Answers.{IsFailedBy, IsFailedWith, IsWithinMost};
ghost use Rattle.subset_font.specs.Batch.Making.{IsDone, IsUndone, named_text, message_of, IsAnswerTo};
ghost use Rattle.subset_task.specs.declared.refusals.failure.Failure.TheVariants.{Error as Refused, Read as CannotRead, Write as CannotWrite, WritePdf as CannotWritePdf, LongAnswer};
ghost use Rattle.subsetter_base.specs.declared.error.Error.TheVariants.{OutOfMemory};

use crate::making::outcome::{Outcome, make_planned};
use crate::output::{write_font, write_numbers, write_page};
use crate::run::job::{open_font, room_of};
use plain_text::characters::plain_text;
use std::alloc::{AllocError, Global};
use std::io::Write;
use std::rt::Files;
use subset_args::{Job, Plain};
use subset_task::batch::answers::{Answer, Object, failed};
use subset_task::reading::read_whole;
use subset_task::refusals::failure::{Failure, file_at, file_by, given, pdf_file};
use subset_task::run::request::{each_requested, lists_of, plan_of};
use subset_task::streams::{MOST_INPUT, Target, is_to_standard_output};
use subset_task::task::{Form, Plan};
use subsetter::Error;

/// The status of a request that would write among the answers, as of wrong arguments.
const AMONG_ANSWERS: u8 = 2;

/// The bytes of a source.
pub fn read_source<R: Files + Input + AllocGlobal>(rt: &R, name: &str) -> Result<Vec<u8>, Failure>
    ensures { IfErr result (λ e. e ≡ CannotRead) }
{
    let mut reason = None;
    let mut source = open_font(rt, name, MOST_INPUT, &mut reason)?;
    let room = room_of(&source, MOST_INPUT, &mut reason)?;
    read_whole(rt.alloc(), &mut source, room)
}

/// What is printed of what was made, if that has 64 MiB at most.
fn printed(alloc: Global, outcome: &Outcome<'_>, form: Form) -> Result<Vec<u8>, Failure>
    ensures ok { IfOk result (λ object. object.items ≡ report_of form outcome.now) }
    ensures within { IfOk result (λ object. length object.items ≤ 2 ^ 26) }
    ensures err { IfErr result (λ e. (e ≡ Refused OutOfMemory) ⊎ (e ≡ LongAnswer)) }
{
    let mut object = Object::new(alloc);
    match write_numbers(outcome, form, &mut object) {
        Ok(()) => Ok(object.into_text()),
        Err(_) if object.is_long() => Err(Failure::LongAnswer),
        Err(_) => Err(Failure::Error(Error::OutOfMemory)),
    }
}

/// Writes the PDF, if there is one, to one writer, and then the font to another.
fn write_files<P: Write, W: Write>(
    outcome: &Outcome<'_>,
    page: &mut P,
    output: &mut W,
) -> Result<(), Failure>
    ensures page { OnOk result (Appends (P.contents page.old) (P.contents page.new) (page_of outcome.now.sheet)) }
    ensures font { OnOk result (Appends (W.contents output.old) (W.contents output.new) outcome.now.made.font.items) }
    ensures no_font { IsErrOf result Failure.WritePdf → output.new ≡ output.old }
    ensures err { IfErr result (λ e. (e ≡ CannotWritePdf) ⊎ (e ≡ CannotWrite)) }
{
    write_page(&outcome.sheet, page)?;
    write_font(&outcome.made.font, output)
}

/// What is printed of what was made; before that is answered, writes the PDF of its glyphs to one writer, if there is one, and its
/// subset to another.
fn carry_made<P: Write, W: Write>(
    alloc: Global,
    outcome: &Outcome<'_>,
    form: Form,
    page: &mut P,
    output: &mut W,
) -> Result<Vec<u8>, Failure>
    ensures page { IfOk result (λ object. Appends (P.contents page.old) (P.contents page.new) (page_of outcome.now.sheet)) }
    ensures font { IfOk result (λ object. Appends (W.contents output.old) (W.contents output.new) outcome.now.made.font.items) }
    ensures object { IfOk result (λ object. object.items ≡ report_of form outcome.now) }
    ensures within { IfOk result (λ object. length object.items ≤ 2 ^ 26) }
    ensures page_kept { IfErr result (λ e. IsBeforeWriting e → page.new ≡ page.old) }
    ensures output_kept { IfErr result (λ e. IsBeforeWriting e → output.new ≡ output.old) }
    ensures no_font { IsErrOf result Failure.WritePdf → output.new ≡ output.old }
    ensures err { IfErr result (λ e. (e ≡ Refused OutOfMemory) ⊎ ((e ≡ LongAnswer) ⊎ ((e ≡ CannotWritePdf) ⊎ (e ≡ CannotWrite)))) }
{
    let object = printed(alloc, outcome, form)?;
    match write_files(outcome, page, output) {
        Ok(()) => Ok(object),
        Err(failure) => Err(failure),
    }
}

/// Makes what a plan requests of a font, and what is printed of it; then writes the PDF of its glyphs to one writer, if one is
/// requested, and its subset to another. What is answered and written is what `carry_out` prints and writes between a reader
/// of these bytes and three writers.
///
/// It fails as `carry_out` does, and by `LongAnswer`, before anything is written, where more than 64 MiB would be printed.
pub fn carry_answer<P: Write, W: Write>(
    alloc: Global,
    font: &[u8],
    plan: &Plan<'_>,
    page: &mut P,
    output: &mut W,
) -> Result<Vec<u8>, Failure>
    ensures ok { IfOk result (λ object. WritesAll plan.now (Some font.now) (P.contents page.old) (P.contents page.new) (W.contents output.old) (W.contents output.new) (Some []) (Some object.items)) }
    ensures within { IfOk result (λ object. length object.items ≤ 2 ^ 26) }
    // Both writers are as they were where the font is refused.
    ensures page_kept { IfErr result (λ e. IsBeforeWriting e → page.new ≡ page.old) }
    ensures output_kept { IfErr result (λ e. IsBeforeWriting e → output.new ≡ output.old) }
    // The font isn't written before the whole PDF.
    ensures no_font { IsErrOf result Failure.WritePdf → output.new ≡ output.old }
    // Why nothing is written.
    ensures err { IfErr result (λ e. IsFailureOf plan.now (Some font.now) e ⊎ ((e ≡ LongAnswer) ⊎ ((e ≡ CannotWritePdf) ⊎ (e ≡ CannotWrite)))) }
{
    match make_planned(alloc, font, plan) {
        Ok(outcome) => carry_made(alloc, &outcome, plan.task.form, page, output),
        Err(failure) => Err(failure),
    }
}

/// Does a request on the bytes of its source: what is printed of it, which isn't printed here.
fn perform<R: Files + Print + Input + AllocGlobal>(
    rt: &R,
    font: &[u8],
    job: &Job,
) -> Result<Vec<u8>, Failure>
    ensures ok { IfOk result (λ object. IsDone font.now job.now object.items) }
    ensures within { IfOk result (λ object. length object.items ≤ 2 ^ 26) }
    ensures err { IfErr result (IsUndone font.now job.now) }
{
    let mut text = Vec::new(rt.alloc());
    let mut reason = None;
    let lists = lists_of(rt, &job.glyphs, &mut text, &mut reason)?;
    let pieces = each_requested(rt.alloc(), &job.glyphs, &lists)?;
    let plan = plan_of(job, &pieces);
    let mut page = Target::new(rt, pdf_file(job));
    let mut output = Target::new(rt, given(&job.output));
    carry_answer(rt.alloc(), font, &plan, &mut page, &mut output)
}

/// A text with the name of a file as a line has it, if there is one.
fn named_text(alloc: Global, text: &str, name: Option<&str>) -> Result<String, AllocError>
    ensures { IfOk result (λ t. string_bytes t ≡ named_text text.now (option_copied name.entry)) }
{
    match name {
        Some(name) => {
            let name = plain_text(alloc, name)?;
            format!(in alloc; "{text} {name}")
        }
        None => String::from_str(alloc, text),
    }
}

/// Why a request failed, in words.
#[tactic(auto, using(crate::proofs::BatchLaws::message_is))]
fn text_of(alloc: Global, failure: &Failure, job: &Job) -> Result<String, AllocError>
    ensures { IfOk result (λ text. string_bytes text ≡ message_of failure.now job.now) }
{
    if let Failure::List(place) = failure {
        return named_text(alloc, "no list of glyphs in", file_at(&job.glyphs, *place));
    }
    let text = format!(in alloc; "{failure}")?;
    named_text(alloc, &text, file_by(failure, job))
}

/// The answer to a request that failed.
fn answer_failed(alloc: Global, failure: &Failure, job: &Job) -> Answer
    ensures { IsFailedWith (status_of failure.now) (message_of failure.now job.now) result }
{
    if let Failure::Error(Error::OutOfMemory) = failure {
        return Answer::NoMemory;
    }
    match text_of(alloc, failure, job) {
        Ok(text) => Answer::Failed(failure.status(), text),
        Err(_) => Answer::NoMemory,
    }
}

/// Carries out a request on the bytes of its source, or on why these can't be read, and returns the answer.
#[tactic(auto, using(crate::proofs::BatchLaws::failed_within))]
pub fn answer_of<R: Files + Print + Input + AllocGlobal>(
    rt: &R,
    source: &Result<Vec<u8>, Failure>,
    job: &Job,
) -> Answer
    ensures answer { IsAnswerTo source.now job.now result }
    ensures within { IsWithinMost result }
{
    let font = match source {
        Ok(font) => font,
        Err(failure) => return answer_failed(rt.alloc(), failure, job),
    };
    match perform(rt, font, job) {
        Ok(object) => Answer::Done(object),
        Err(failure) => answer_failed(rt.alloc(), &failure, job),
    }
}

/// The file of a request that is the one to which the answers go, if it writes that.
fn answers_file<'a, R: Files>(rt: &R, job: &'a Job) -> Option<&'a str> {
    let output = given(&job.output);
    if is_to_standard_output(rt, output) {
        return output;
    }
    let page = pdf_file(job);
    if is_to_standard_output(rt, page) {
        return page;
    }
    None
}

/// Carries out a request as `answer_of` does, but refuses one that would write to the file of the answers.
#[tactic(auto, using(crate::proofs::BatchLaws::refused_within))]
pub fn answer_apart<R: Files + Print + Input + AllocGlobal>(
    rt: &R,
    source: &Result<Vec<u8>, Failure>,
    job: &Job,
) -> Answer
    ensures answer { IsFailedBy 2 result ⊎ IsAnswerTo source.now job.now result }
    ensures within { IsWithinMost result }
{
    match answers_file(rt, job) {
        Some(name) => {
            let text = format!(in rt.alloc(); "the answers go to {}", Plain(name));
            failed(AMONG_ANSWERS, text)
        }
        None => answer_of(rt, source, job),
    }
}
