//! What the arguments of a run request to be made.

ghost use Rattle.std.specs.Prelude.{◌≡◌, ◌⊎◌, [], ◌∷◌, ◌++◌, drop, map, IfErr, IfOk, OnOk, IsSome};
ghost use Rattle.std.specs.Vec.Iter.{into_iter_items};
ghost use Rattle.subset_task.specs.Chosen.{IsListFor, AreListsFor, IsUnlistedAt, IsUnlisted, kept_of, kept_by, kept_for, kept_by_each, IsTaskOf, IsPlanOf};
ghost use Rattle.subset_task.specs.Files.{list_name};
ghost use Rattle.subset_task.specs.declared.refusals.failure.Failure.TheVariants.{Error as Refused, Usage};
ghost use Rattle.subsetter_base.specs.declared.error.Error.TheVariants.{OutOfMemory};

use crate::reading::read_whole;
use crate::refusals::failure::Failure;
use crate::refusals::reason::{Noted, unread};
use crate::streams::{MOST_INPUT, open_source};
use crate::task::{
    Plan, RequestedGlyphs, Requests, Task, at_of, extras_of, form_of, instance_of, limits_of,
    pdf_of,
};
use std::alloc::{AllocError, Global};
use std::io::ErrorKind;
use std::rt::{Env, Files};
use std::{env, io};
use subset_args::{ArgsError, FileKind, GlyphList, Glyphs, Job, read_list};
use subsetter::{Error, Options};

/// The arguments after the program's name, which is the first.
fn after_name(alloc: Global, all: env::Args) -> Result<Vec<String>, Failure>
    ensures ok { IfOk result (λ words. words.items ≡ drop 1 (into_iter_items all)) }
    ensures err { IfErr result (λ e. e ≡ Refused OutOfMemory) }
{
    match all.skip(1).collect(alloc) {
        Ok(words) => Ok(words),
        Err(_) => Err(Failure::Error(Error::OutOfMemory)),
    }
}

/// The arguments after the program's name. One that isn't UTF-8 is a wrong argument.
pub fn read_arguments<R: Env + AllocGlobal>(rt: &R) -> Result<Vec<String>, Failure>
    ensures { IfErr result (λ e. (e ≡ Refused OutOfMemory) ⊎ (e ≡ Usage)) }
{
    match env::args(rt) {
        Ok(all) => after_name(rt.alloc(), all),
        Err(e) if e.kind() == ErrorKind::OutOfMemory => Err(Failure::Error(Error::OutOfMemory)),
        Err(_) => Err(Failure::Usage),
    }
}

/// What the file of a place requests. Its text is kept.
fn read_list_file<R: Files + Input + AllocGlobal>(
    rt: &R,
    place: usize,
    kind: FileKind,
    name: &str,
    text: &mut Vec<u8>,
    reason: &mut Option<io::Error>,
) -> Result<GlyphList, Failure>
    ensures { IfErr result (IsUnlistedAt place) }
{
    let mut file = match open_source(rt, name, MOST_INPUT) {
        Ok(file) => Noted::new(file),
        Err(error) => {
            *reason = Some(error);
            return Err(Failure::ReadList(place));
        }
    };
    match read_whole(rt.alloc(), &mut file, 0) {
        Ok(whole) => *text = whole,
        Err(_) => {
            *reason = unread(file.reason());
            return Err(Failure::ReadList(place));
        }
    }
    match read_list(rt.alloc(), kind, text) {
        Ok(list) => Ok(list),
        Err(ArgsError::Usage) => Err(Failure::List(place)),
        Err(ArgsError::OutOfMemory) => Err(Failure::Error(Error::OutOfMemory)),
    }
}

/// The list of glyphs, where a file has it. The file's text is kept.
fn list_of<R: Files + Input + AllocGlobal>(
    rt: &R,
    place: usize,
    glyphs: &Glyphs,
    text: &mut Vec<u8>,
    reason: &mut Option<io::Error>,
) -> Result<Option<GlyphList>, Failure>
    ensures ok { IfOk result (IsListFor glyphs.now) }
    ensures err { IfErr result (λ e. IsUnlistedAt place e × IsSome (list_name glyphs.now)) }
{
    match glyphs {
        Glyphs::InFile(kind, name) => {
            Ok(Some(read_list_file(rt, place, *kind, name, text, reason)?))
        }
        _ => Ok(None),
    }
}

/// Adds a list.
fn push_list(lists: &mut Vec<Option<GlyphList>>, list: Option<GlyphList>) -> Result<(), AllocError>
    ensures { OnOk result (lists.new.items ≡ lists.old.items ++ list ∷ []) }
{
    lists.push(list)?;
    Ok(())
}

/// The lists of glyphs, one for each request that a file has. The text of the last file that was read is kept.
#[tactic(auto, using(crate::proofs::Requesting::one_more_list, crate::proofs::Requesting::all_lists))]
pub fn lists_of<R: Files + Input + AllocGlobal>(
    rt: &R,
    glyphs: &[Glyphs],
    text: &mut Vec<u8>,
    reason: &mut Option<io::Error>,
) -> Result<Vec<Option<GlyphList>>, Failure>
    ensures ok { IfOk result (λ lists. AreListsFor glyphs.now lists.items) }
    ensures err { IfErr result (IsUnlisted glyphs.now) }
{
    let mut lists = Vec::new(rt.alloc());
    for place in 0..glyphs.len() {
        match list_of(rt, place, &glyphs[place], text, reason) {
            Ok(list) => push_list(&mut lists, list).map_err(no_memory)?,
            Err(failure) => return Err(failure),
        }
    }
    Ok(lists)
}

/// What is answered where a request for memory was refused.
fn no_memory(_error: AllocError) -> Failure
    ensures { result ≡ Refused OutOfMemory }
{
    Failure::Error(Error::OutOfMemory)
}

/// Which glyphs a file requests.
fn requested_by(list: &GlyphList) -> RequestedGlyphs<'_>
    ensures { kept_of result ≡ kept_by list.now }
{
    match list {
        GlyphList::Every => RequestedGlyphs::Every,
        GlyphList::These(given) => RequestedGlyphs::These(given),
        GlyphList::Characters(given) => RequestedGlyphs::ByCharacters(given),
        GlyphList::Text(text) => RequestedGlyphs::ByText(text),
    }
}

/// Which glyphs are kept by one request.
fn requested_of<'a>(glyphs: &'a Glyphs, list: &'a Option<GlyphList>) -> RequestedGlyphs<'a>
    ensures { kept_of result ≡ kept_for glyphs.now list.now }
{
    match (glyphs, list) {
        (Glyphs::Listed(given), _) => RequestedGlyphs::These(given),
        (Glyphs::ByText(text), _) => RequestedGlyphs::ByText(text),
        (Glyphs::Every, _) => RequestedGlyphs::Every,
        (Glyphs::Characters(given), _) => RequestedGlyphs::ByCharacters(given),
        (Glyphs::InFile(_, _), Some(list)) => requested_by(list),
        (Glyphs::InFile(_, _), None) => RequestedGlyphs::These(&[]),
    }
}

/// Adds a request.
fn push_requested<'a>(
    requested: &mut Vec<RequestedGlyphs<'a>>,
    one: RequestedGlyphs<'a>,
) -> Result<(), AllocError>
    ensures { OnOk result (requested.new.items ≡ requested.old.items ++ one.entry ∷ []) }
{
    requested.push(one)?;
    Ok(())
}

/// Which glyphs are kept, one request after another.
pub fn each_requested<'a>(
    alloc: Global,
    glyphs: &'a [Glyphs],
    lists: &'a [Option<GlyphList>],
) -> Result<Vec<RequestedGlyphs<'a>>, Failure>
    ensures ok { IfOk result (λ v. map kept_of v.items ≡ kept_by_each glyphs.now lists.now) }
    ensures err { IfErr result (λ e. e ≡ Refused OutOfMemory) }
{
    let mut requested = Vec::new(alloc);
    let mut rest = glyphs;
    let mut left = lists;
    while let [one, following @ ..] = rest {
        let [list, others @ ..] = left else {
            return Ok(requested);
        };
        push_requested(&mut requested, requested_of(one, list)).map_err(no_memory)?;
        rest = following;
        left = others;
    }
    Ok(requested)
}

/// What a job requests to be made of the font, by its requests of glyphs.
fn task_of<'a>(job: &'a Job, pieces: &'a [RequestedGlyphs<'a>]) -> Task<'a>
    ensures { IsTaskOf job.now (map kept_of pieces.now) result }
{
    Task {
        requested: Requests {
            pieces,
            is_strict: job.switches.strict,
        },
        index: job.index,
        options: Options {
            limits: limits_of(job.limits),
            extras: extras_of(job.switches),
        },
        widths: job.switches.widths,
        form: form_of(job.switches),
        at: at_of(&job.position),
    }
}

/// What a job requests at the coordinates of a named instance, if one is requested.
pub fn plan_of<'a>(job: &'a Job, pieces: &'a [RequestedGlyphs<'a>]) -> Plan<'a>
    ensures { IsPlanOf job.now (map kept_of pieces.now) result }
{
    Plan {
        task: task_of(job, pieces),
        instance: instance_of(&job.position),
        verbose: job.switches.verbose,
        pdf: pdf_of(&job.pdf),
        by_option: job.by_option,
    }
}
