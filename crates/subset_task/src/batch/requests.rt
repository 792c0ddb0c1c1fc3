//! The requests of a batch, and the answers to them.

ghost use Rattle.std.specs.Prelude.{◌≡◌, ◌||◌, ℕ, List, Some, OnOk, IfOk, IfErr, is_some, slice_get, slice_set};
ghost use Rattle.std.specs.HashMap.{get_by_text};
ghost use Rattle.std.specs.Option.{option_copied};
ghost use Rattle.subset_batch.specs.Lines.{request_lines};
ghost use Rattle.subset_args.specs.View.{job_view};
ghost use Rattle.subset_batch.specs.View.{line_view};
ghost use Rattle.subset_task.specs.Batch.Answers.{IsFailedBy};
ghost use Rattle.subset_task.specs.Batch.Orders.{order_of, IsNoOrder};
ghost use Rattle.subset_task.specs.Batch.Requests.{list_numbers, numbers_by, numbers_if, left_after, is_of_name, writes, writes_if, is_written, is_written_if, is_named_before, AreNames, IsFirst, IsBegun, AddsLine, AreBegun, due, of_source, answer_in};

use crate::batch::answers::{Answer, failed};
use crate::batch::orders::order_of;
use crate::refusals::failure::{given, pdf_file};
use std::alloc::{AllocError, Global};
use std::collections::HashMap;
use subset_args::{Glyphs, Job, Plain};
use subset_batch::{Line, lines_of};

/// The status of a request whose OUT a line before has named, or whose list is too long, as of wrong arguments.
const NAMED_TWICE: u8 = 2;

const TOO_LONG: u8 = 2;

/// The most numbers that the lists of all requests may have.
pub const MOST_NUMBERS: usize = 2_000_000;

/// A request of a batch.
#[derive(Drop)]
pub struct Request {
    /// The number of its line, from 1.
    pub line: usize,
    /// What it requests, unless its line is wrong.
    pub job: Option<Job>,
}

/// How far a request is.
#[derive(Drop)]
pub enum State {
    /// It is to be done.
    Due,
    /// It is answered.
    Answered(Answer),
    /// Its answer is written.
    Written,
}

/// The requests of a batch in the order of their lines, and how far each is, at the same indexes.
#[derive(Drop)]
pub struct Batch {
    pub requests: Vec<Request>,
    pub states: Vec<State>,
}

/// Whether one of the requests writes a file of this name, by the names of all that they write.
fn is_written(before: &[Request], names: &HashMap<String, ()>, name: &str) -> bool
    requires { AreNames before.now names.now }
    ensures { result ≡ is_written before.now name.now }
{
    names.get(name).is_some()
}

/// This name, if one of the requests writes a file of it.
fn if_written<'a>(
    before: &[Request],
    names: &HashMap<String, ()>,
    name: Option<&'a str>,
) -> Option<&'a str>
    requires { AreNames before.now names.now }
    ensures { is_some result ≡ is_written_if before.now (option_copied name.entry) }
{
    match name {
        Some(name) if is_written(before, names, name) => Some(name),
        Some(_) => None,
        None => None,
    }
}

/// A file that a request writes, and one before does, too.
fn named_before<'a>(
    before: &[Request],
    names: &HashMap<String, ()>,
    job: &'a Job,
) -> Option<&'a str>
    requires { AreNames before.now names.now }
    ensures { is_some result ≡ is_named_before before.now job.now }
{
    match if_written(before, names, given(&job.output)) {
        Some(name) => Some(name),
        None => if_written(before, names, pdf_file(job)),
    }
}

/// How far a request is before anything is made: that it fails is known where it writes a file which one before writes, too.
fn first_state(alloc: Global, before: &[Request], names: &HashMap<String, ()>, job: &Job) -> State
    requires { AreNames before.now names.now }
    ensures { IsFirst (is_named_before before.now job.now) result }
{
    match named_before(before, names, job) {
        Some(name) => {
            let text = format!(in alloc; "a line before names {}, too", Plain(name));
            State::Answered(failed(NAMED_TWICE, text))
        }
        None => State::Due,
    }
}

/// How many numbers a list has.
fn list_numbers(glyphs: &Glyphs) -> usize
    ensures { result ≡ list_numbers glyphs.now }
{
    match glyphs {
        Glyphs::Listed(glyphs) => glyphs.len(),
        Glyphs::Characters(found) => found.len(),
        Glyphs::InFile(_, _) => 0,
        Glyphs::ByText(_) => 0,
        Glyphs::Every => 0,
    }
}

/// How many numbers lists have.
fn numbers_by(glyphs: &[Glyphs]) -> usize
    ensures { result ≡ numbers_by glyphs.now }
{
    match glyphs {
        [] => 0,
        [one, more @ ..] => list_numbers(one).saturating_add(numbers_by(more)),
    }
}

/// How many numbers the lists of a request have.
pub fn numbers_of(job: &Job) -> usize
    ensures { result ≡ numbers_by job.now.glyphs.items }
{
    numbers_by(&job.glyphs)
}

/// The answer to a request whose lists are too long.
fn too_long(alloc: Global) -> Answer
    ensures { IsFailedBy 2 result }
{
    let text = "the lists of all lines have more than 2000000 numbers";
    failed(TOO_LONG, String::from_str(alloc, text))
}

/// A request after others, and its state, where lists may have `left` more numbers.
#[tactic(auto, using(crate::proofs::BatchLaws::begun_too_long, crate::proofs::BatchLaws::begun_few))]
fn admit(
    alloc: Global,
    before: &[Request],
    names: &HashMap<String, ()>,
    left: usize,
    line: &[u8],
    job: Job,
) -> (Option<Job>, State)
    requires names { AreNames before.now names.now }
    requires left { left ≡ left_after before.now }
    requires job { order_of line.now ≡ Some (job_view job) }
    ensures { IsBegun before.now line.now result.0 result.1 }
{
    if numbers_of(&job) > left {
        return (None, State::Answered(too_long(alloc)));
    }
    let state = first_state(alloc, before, names, &job);
    (Some(job), state)
}

/// The request of a line after others by what the line requests, and its state, where lists may have `left` more numbers.
#[tactic(auto, using(crate::proofs::BatchLaws::begun_by_nothing))]
fn begin(
    alloc: Global,
    before: &[Request],
    names: &HashMap<String, ()>,
    left: usize,
    line: &[u8],
    order: Result<Job, Answer>,
) -> (Option<Job>, State)
    requires names { AreNames before.now names.now }
    requires left { left ≡ left_after before.now }
    requires order { IfOk order (λ job. order_of line.now ≡ Some (job_view job)) }
    requires no_order { IfErr order (IsNoOrder (order_of line.now)) }
    ensures { IsBegun before.now line.now result.0 result.1 }
{
    match order {
        Ok(job) => admit(alloc, before, names, left, line, job),
        Err(answer) => (None, State::Answered(answer)),
    }
}

/// Adds the name of a file that a request writes, if it is given.
fn add_name(
    alloc: Global,
    names: &mut HashMap<String, ()>,
    name: Option<&str>,
) -> Result<(), AllocError>
    ensures { OnOk result ((q : List ℕ) → is_some (get_by_text names.new q) ≡ (is_of_name q (option_copied name.entry) || is_some (get_by_text names.old q))) }
{
    if let Some(name) = name {
        let name = String::from_str(alloc, name)?;
        names.insert(name, ())?;
    }
    Ok(())
}

/// Adds the names of the files that a request writes.
fn add_names(alloc: Global, names: &mut HashMap<String, ()>, job: &Job) -> Result<(), AllocError>
    ensures { OnOk result ((q : List ℕ) → is_some (get_by_text names.new q) ≡ (writes job.now q || is_some (get_by_text names.old q))) }
{
    add_name(alloc, names, given(&job.output))?;
    add_name(alloc, names, pdf_file(job))
}

/// Adds the names of the files that a request writes, where it may be wrong.
fn add_names_if(
    alloc: Global,
    names: &mut HashMap<String, ()>,
    job: &Option<Job>,
) -> Result<(), AllocError>
    ensures { OnOk result ((q : List ℕ) → is_some (get_by_text names.new q) ≡ (writes_if job.now q || is_some (get_by_text names.old q))) }
{
    match job {
        Some(job) => add_names(alloc, names, job),
        None => Ok(()),
    }
}

/// How many numbers the list of a request has that may be wrong.
fn numbers_if(job: &Option<Job>) -> usize
    ensures { result ≡ numbers_if job.now }
{
    match job {
        Some(job) => numbers_of(job),
        None => 0,
    }
}

/// Adds the request of a line by what it requests, and the names of the files that it writes, and counts the numbers of its list.
#[tactic(auto, using(crate::proofs::BatchLaws::adds_line, crate::proofs::BatchLaws::named_last))]
pub fn push_order(
    alloc: Global,
    batch: &mut Batch,
    names: &mut HashMap<String, ()>,
    left: &mut usize,
    line: Line<'_>,
    order: Result<Job, Answer>,
) -> Result<(), AllocError>
    requires names { AreNames batch.old.requests.items names.old }
    requires left { left.old ≡ left_after batch.old.requests.items }
    requires order { IfOk order (λ job. order_of line.bytes.now ≡ Some (job_view job)) }
    requires no_order { IfErr order (IsNoOrder (order_of line.bytes.now)) }
    ensures line { OnOk result (AddsLine (line_view line.entry) batch.old batch.new) }
    ensures names { OnOk result (AreNames batch.new.requests.items names.new) }
    ensures left { OnOk result (left.new ≡ left_after batch.new.requests.items) }
{
    let (job, state) = begin(alloc, &batch.requests, names, *left, line.bytes, order);
    add_names_if(alloc, names, &job)?;
    *left = left.saturating_sub(numbers_if(&job));
    let line = line.number;
    batch.requests.push(Request { line, job })?;
    batch.states.push(state)?;
    Ok(())
}

/// The requests of a file: one for each line that isn't blank, and how far it is: it is to be done unless it is wrong, a line
/// before it writes its file, too, or its list and those before it have more than 2,000,000 numbers.
#[tactic(auto, using(crate::proofs::BatchLaws::so_far_first, crate::proofs::BatchLaws::so_far_last))]
pub fn requests_of(alloc: Global, file: &[u8]) -> Result<Batch, AllocError>
    ensures { IfOk result (λ b. AreBegun (request_lines file.now) b.requests.items b.states.items) }
{
    let mut batch = Batch {
        requests: Vec::new(alloc),
        states: Vec::new(alloc),
    };
    let mut names = HashMap::new(alloc);
    let mut left = MOST_NUMBERS;
    let lines = lines_of(alloc, file)?;
    let mut rest = lines.as_slice();
    while let [line, following @ ..] = rest {
        let order = order_of(alloc, line.bytes);
        push_order(alloc, &mut batch, &mut names, &mut left, *line, order)?;
        rest = following;
    }
    Ok(batch)
}

/// What the request of an index requests, if it is still to be done.
pub fn due<'a>(requests: &'a [Request], states: &[State], index: usize) -> Option<&'a Job>
    ensures { option_copied result ≡ due requests.now states.now index }
{
    match (requests.get(index), states.get(index)) {
        (Some(request), Some(State::Due)) => match &request.job {
            Some(job) => Some(job),
            None => None,
        },
        (Some(_), Some(State::Answered(_))) => None,
        (Some(_), Some(State::Written)) => None,
        (Some(_), None) => None,
        (None, _) => None,
    }
}

/// What the request of an index requests, if it is of this source and still to be done.
pub fn due_of<'a>(
    requests: &'a [Request],
    states: &[State],
    index: usize,
    input: &str,
) -> Option<&'a Job>
    ensures { option_copied result ≡ of_source input.now (due requests.now states.now index) }
{
    match due(requests, states, index) {
        Some(job) if job.input.as_str() == input => Some(job),
        Some(_) => None,
        None => None,
    }
}

/// For each request the index of the next one of its source; that of none, which is their number, where there is none.
///
/// It has no contract: it decides in which order requests are done, and each is done whatever its answer is.
pub fn next_of_source(alloc: Global, requests: &[Request]) -> Result<Vec<usize>, AllocError> {
    let mut next = Vec::with_capacity(alloc, requests.len())?;
    let mut last: HashMap<String, usize> = HashMap::new(alloc);
    for index in 0..requests.len() {
        next.push(requests.len())?;
        if let Some(job) = &requests[index].job {
            let before = last.insert(job.input.clone()?, index)?;
            if let Some(before) = before {
                set_next(&mut next, before, index);
            }
        }
    }
    Ok(next)
}

/// Sets the next one of an index.
fn set_next(next: &mut [usize], index: usize, other: usize)
    ensures { next.new ≡ slice_set next.old index other }
{
    if index < next.len() {
        next[index] = other;
    }
}

/// Sets how far the request of an index is.
fn set_state(states: &mut [State], index: usize, state: State)
    ensures { states.new ≡ slice_set states.old index state }
{
    if index < states.len() {
        states[index] = state;
    }
}

/// Sets the answer to the request of an index.
pub fn set_answer(states: &mut [State], index: usize, answer: Answer)
    ensures { states.new ≡ slice_set states.old index (State.Answered answer) }
{
    set_state(states, index, State::Answered(answer));
}

/// Takes the answer to the request of an index as written.
pub fn set_written(states: &mut [State], index: usize)
    ensures { states.new ≡ slice_set states.old index State.Written }
{
    set_state(states, index, State::Written);
}

/// The answer to the request of an index, if there is one that isn't written.
pub fn answer_at(states: &[State], index: usize) -> Option<&Answer>
    ensures { option_copied result ≡ answer_in (slice_get states.now index) }
{
    match states.get(index) {
        Some(State::Answered(answer)) => Some(answer),
        Some(State::Due) => None,
        Some(State::Written) => None,
        None => None,
    }
}
