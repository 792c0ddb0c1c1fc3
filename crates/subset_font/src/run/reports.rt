//! What a run reports on standard error.

ghost use Rattle.std.specs.Prelude.{◌≡◌};
ghost use Rattle.subset_task.specs.Refusals.Failure.{status_of_end};
ghost use Rattle.subset_font.specs.Report.{has_notes};

use crate::making::outcome::{other_face, takes_default, task_at};
use crate::refusals::hint::found::{find_axes_hint, find_hint, no_axes};
use crate::refusals::hint::text::Hint;
use crate::refusals::limit_hint::find_limit_hint;
use crate::refusals::second_look::{call_of, look_after};
use glyph_kinds::unseen_glyphs;
use std::alloc::{AllocError, Global};
use std::io;
use subset_args::{
    CODES_EXPECTED, FEW_EXPECTED, FileKind, Glyphs, Job, ORDER_EXPECTED, PARTS_EXPECTED, Shown,
    Topic, codes_descend, descends, find_wrong,
};
use subset_lines::note_lines;
use subset_task::faces::missing::first_missing;
use subset_task::faces::named::{face_settings, instance_names};
use subset_task::making::requested::{Picked, pick};
use subset_task::notes::{known_axes, notes_for};
use subset_task::refusals::failure::{Failure, Report, file_of, status_of_run};
use subset_task::task::{Form, Plan, Requests, Task};
use subsetter::{Error, Tag};

/// Why the text of a glyph is too long, and how a PDF has longer ones.
const LONG_TEXT: &str =
    "a glyph has a text of more than 256 UTF-16 units: give --text or --text-file alone, without --codes";

/// Prints why a run failed, if it did, and returns the status.
pub fn report<R: Eprint>(rt: &R, ended: &Result<(), Failure>, file: Option<&str>) -> u8
    ensures { result ≡ status_of_end ended.now }
{
    if let Err(failure) = ended {
        // A failure here could be reported to nobody, so the status alone shows it.
        let _ = eprintln!(rt; "{}", Report { failure, file });
    }
    status_of_run(ended)
}

/// Reports why the system refused to read or to write, where that is known.
fn report_reason<R: Eprint>(rt: &R, reason: Option<io::Error>) {
    if let Some(reason) = reason {
        let _ = eprintln!(rt; "{reason}");
    }
}

/// Says more of a font that is refused, where more can be seen.
fn report_hint<R: Eprint>(rt: &R, hint: Option<Hint>) {
    if let Some(hint) = hint {
        let _ = eprintln!(rt; "{hint}");
    }
}

/// Whether a part of a file's list is a range whose ends aren't in order.
fn is_descending(kind: FileKind, part: &str) -> bool {
    match kind {
        FileKind::Glyphs => descends(part),
        FileKind::Characters => codes_descend(part),
        FileKind::Text => false,
    }
}

/// Reports which part of a file's list is wrong, and what is expected.
fn report_part<R: Eprint>(rt: &R, kind: FileKind, part: &[u8]) {
    let part = str::from_utf8(part).unwrap_or("?");
    let is_descending = is_descending(kind, part);
    let part = Shown(part);
    let _ = match kind {
        FileKind::Glyphs if is_descending => {
            let _ = eprintln!(rt; "--gids-file: the range \"{part}\" descends");
            rt.eprintln(ORDER_EXPECTED)
        }
        FileKind::Characters if is_descending => {
            let _ = eprintln!(rt; "--unicodes-file: the range \"{part}\" descends");
            rt.eprintln(ORDER_EXPECTED)
        }
        FileKind::Glyphs => {
            let _ = eprintln!(rt; "--gids-file: \"{part}\" is not a glyph number");
            rt.eprintln(PARTS_EXPECTED)
        }
        FileKind::Characters => {
            let _ = eprintln!(rt; "--unicodes-file: \"{part}\" is not a character number");
            rt.eprintln(CODES_EXPECTED)
        }
        FileKind::Text => {
            let _ = eprintln!(rt; "--text-file: the text is not UTF-8");
            eprintln!(rt; "expected: a text in UTF-8")
        }
    };
}

/// Reports that a file's list has too many numbers.
fn report_many<R: Eprint>(rt: &R, kind: FileKind) {
    let option = match kind {
        FileKind::Glyphs => "--gids-file",
        FileKind::Characters => "--unicodes-file",
        FileKind::Text => "--text-file",
    };
    let _ = eprintln!(rt; "{option}: more than 2000000 numbers");
    let _ = rt.eprintln(FEW_EXPECTED);
}

/// Reports what is wrong in a file that lists glyphs, if that is why a run failed.
fn report_list<R: Eprint>(rt: &R, ended: &Result<(), Failure>, glyphs: &[Glyphs], text: &[u8]) {
    let Err(Failure::List(place)) = ended else {
        return;
    };
    if let Some(Glyphs::InFile(kind, _)) = glyphs.get(*place) {
        match find_wrong(*kind, text) {
            Some(part) => report_part(rt, *kind, part),
            None => report_many(rt, *kind),
        }
    }
}

/// Whether standard error has the notes already, in a JSON object.
fn has_notes(form: Form, is_font_there: bool) -> bool
    ensures { result ≡ has_notes form is_font_there }
{
    match form {
        Form::Json => is_font_there,
        Form::Lines => false,
        Form::Silence => false,
    }
}

/// The glyphs that are requested, whichever characters the face lacks.
fn picked_in(alloc: Global, font: &[u8], task: &Task<'_>) -> Result<Picked, Failure> {
    let asked = Requests {
        pieces: task.requested.pieces,
        is_strict: false,
    };
    pick(alloc, font, task.index, &asked)
}

/// The characters that a face lacks of those that are requested; none where no glyphs are found.
fn missing_in(alloc: Global, font: &[u8], task: &Task<'_>) -> Vec<char> {
    match picked_in(alloc, font, task) {
        Ok(picked) => picked.missing,
        Err(_) => Vec::new(alloc),
    }
}

/// Reports coordinates that the font doesn't have, with the axes that it has, characters without a glyph, and another face than
/// the only one. They are passed over where memory runs out.
fn report_notes<R: Eprint + AllocGlobal>(rt: &R, font: &[u8], plan: &Plan<'_>) {
    let Ok(axes) = known_axes(rt.alloc(), font, plan.task.index) else {
        return;
    };
    let Ok(notes) = notes_for(rt.alloc(), &axes, plan.task.at) else {
        return;
    };
    let missing = missing_in(rt.alloc(), font, &plan.task);
    let Ok(characters) = first_missing(rt.alloc(), &missing) else {
        return;
    };
    let index = other_face(plan.by_option, font, plan.task.index);
    if let Ok(text) = note_lines(rt.alloc(), &axes, &notes, &characters, index) {
        print_lines(rt, &text);
    }
}

/// Prints lines on standard error.
fn print_lines<R: Eprint>(rt: &R, text: &[u8]) {
    if let Ok(text) = str::from_utf8(text) {
        let _ = rt.eprint(text);
    }
}

/// Reports the names of the named instances, where the one that is requested isn't there. They are passed over where memory
/// runs out.
fn report_names<R: Eprint + AllocGlobal>(rt: &R, font: &[u8], index: u32) {
    if let Ok(text) = instance_names(rt.alloc(), font, index) {
        print_lines(rt, &text);
    }
}

/// The names of characters.
fn names_of(alloc: Global, characters: &[char]) -> Result<Vec<String>, AllocError> {
    let mut names = Vec::new(alloc);
    for character in characters {
        let code = u32::from(*character);
        names.push(format!(in alloc; "U+{code:04X}")?)?;
    }
    Ok(names)
}

/// The numbers of glyphs.
fn numbers_of(alloc: Global, glyphs: &[u16]) -> Result<Vec<String>, AllocError> {
    let mut names = Vec::new(alloc);
    for glyph in glyphs {
        names.push(format!(in alloc; "{glyph}")?)?;
    }
    Ok(names)
}

/// The line of names, equal ones side by side, after a text: each once.
fn lacking_text(alloc: Global, front: &str, names: &[String]) -> Result<String, AllocError> {
    let mut text = String::from_str(alloc, front)?;
    let mut last = "";
    for name in names {
        if last == name.as_str() {
            continue;
        }
        text.push_str(if last.is_empty() { "" } else { ", " })?;
        text.push_str(name)?;
        last = name.as_str();
    }
    Ok(text)
}

/// Reports the line of names after a text.
fn report_lacking<R: Eprint + AllocGlobal>(rt: &R, front: &str, names: &[String]) {
    if let Ok(text) = lacking_text(rt.alloc(), front, names) {
        let _ = eprintln!(rt; "{text}");
    }
}

/// Reports the characters without a glyph, where there may be none. They are passed over where memory runs out.
fn report_missing<R: Eprint + AllocGlobal>(rt: &R, font: &[u8], task: &Task<'_>) {
    let mut characters = missing_in(rt.alloc(), font, task);
    characters.sort_unstable();
    if let Ok(names) = names_of(rt.alloc(), &characters) {
        report_lacking(rt, "no glyph for ", &names);
    }
}

/// Reports the glyphs of which a PDF would show blanks, where it may show none. They are passed over where memory runs out.
fn report_blank<R: Eprint + AllocGlobal>(rt: &R, font: &[u8], task: &Task<'_>) {
    let Ok(picked) = picked_in(rt.alloc(), font, task) else {
        return;
    };
    let Ok(mut glyphs) = unseen_glyphs(rt.alloc(), font, task.index, &picked.glyphs) else {
        return;
    };
    glyphs.sort_unstable();
    if let Ok(names) = numbers_of(rt.alloc(), &glyphs) {
        report_lacking(rt, "no outline for ", &names);
    }
}

/// The coordinates of a plan; none, but given, where they are those of a named instance or the default.
fn at_given<'a>(font: &[u8], plan: &Plan<'a>) -> Option<&'a [(Tag, i32)]> {
    match plan.instance {
        Some(_) => Some(&[]),
        None if takes_default(font, plan) => Some(&[]),
        None => plan.task.at,
    }
}

/// The task of a plan as a hint sees it: with the widths, where they are printed, or a PDF has them.
fn task_for_hint<'a>(font: &[u8], plan: &Plan<'a>) -> Task<'a> {
    let task = plan.task;
    Task {
        requested: task.requested,
        index: task.index,
        options: task.options,
        widths: task.widths || plan.pdf.is_some(),
        form: task.form,
        at: at_given(font, plan),
    }
}

/// What a second look at the glyphs of a task shows of a font that is refused; nothing where memory runs out.
fn look_with(
    alloc: Global,
    failure: &Failure,
    font: &[u8],
    pdf: bool,
    task: &Task<'_>,
) -> Option<Hint> {
    let glyphs = match picked_in(alloc, font, task) {
        Ok(picked) => picked.glyphs,
        Err(_) => Vec::new(alloc),
    };
    let call = call_of(pdf, task.at.is_some(), task.widths);
    look_after(alloc, call, failure, font, task, &glyphs).unwrap_or(None)
}

/// What it shows at coordinates.
fn look_at(
    alloc: Global,
    failure: &Failure,
    font: &[u8],
    pdf: bool,
    task: &Task<'_>,
    at: &[(Tag, i32)],
) -> Option<Hint> {
    look_with(alloc, failure, font, pdf, &task_at(task, at))
}

/// What a second look shows, at the coordinates of the named instance if one is requested; that these can't be read, if so.
fn look_twice(alloc: Global, failure: &Failure, font: &[u8], plan: &Plan<'_>) -> Option<Hint> {
    let task = task_for_hint(font, plan);
    let pdf = plan.pdf.is_some();
    match plan.instance {
        Some(name) => match face_settings(alloc, font, task.index, name) {
            Ok(at) => look_at(alloc, failure, font, pdf, &task, &at),
            Err(_) => find_axes_hint(failure, font, task.index),
        },
        None => look_with(alloc, failure, font, pdf, &task),
    }
}

/// What a second look shows, where the font is why a run failed.
fn second_look(alloc: Global, failure: &Failure, font: &[u8], plan: &Plan<'_>) -> Option<Hint> {
    match failure {
        Failure::Error(Error::OutOfMemory) => None,
        Failure::Error(_) => look_twice(alloc, failure, font, plan),
        _ => None,
    }
}

/// Which of the limits is why no font is made, where they are given; that there are limits, where memory runs out.
fn limits_as_cause(alloc: Global, font: &[u8], plan: &Plan<'_>) -> Option<Hint> {
    find_limit_hint(alloc, font, plan).unwrap_or(Some(Hint::GivenLimits))
}

/// What more is known of a font that is refused: at once, by a second look, or by the limits, which go first where charstrings are why.
fn hint_for(alloc: Global, failure: &Failure, font: &[u8], plan: &Plan<'_>) -> Option<Hint> {
    let hint = find_hint(failure, font, &task_for_hint(font, plan));
    if hint.is_some() {
        return hint;
    }
    match failure {
        Failure::Error(Error::CFFError) => {
            let hint = limits_as_cause(alloc, font, plan);
            if hint.is_some() {
                return hint;
            }
            second_look(alloc, failure, font, plan)
        }
        Failure::Error(Error::OverflowError) => {
            let hint = second_look(alloc, failure, font, plan);
            if hint.is_some() {
                return hint;
            }
            limits_as_cause(alloc, font, plan)
        }
        _ => second_look(alloc, failure, font, plan),
    }
}

/// Reports more of a run that failed, as far as it can be seen in the font.
fn report_more<R: Eprint + AllocGlobal>(rt: &R, failure: &Failure, font: &[u8], plan: &Plan<'_>) {
    report_hint(rt, hint_for(rt.alloc(), failure, font, plan));
    match failure {
        Failure::NoInstance => report_names(rt, font, plan.task.index),
        Failure::MissingCharacters => report_missing(rt, font, &plan.task),
        Failure::BlankGlyphs => report_blank(rt, font, &plan.task),
        Failure::TextTooLong => {
            let _ = rt.eprintln(LONG_TEXT);
        }
        _ => {}
    }
}

/// Reports a run as `report` does, and why the system refused to read or to write, where that is known.
pub fn report_refused<R: Eprint>(
    rt: &R,
    ended: &Result<(), Failure>,
    file: Option<&str>,
    reason: Option<io::Error>,
) -> u8
    ensures { result ≡ status_of_end ended.now }
{
    let status = report(rt, ended, file);
    report_reason(rt, reason);
    status
}

/// Reports a run whose file of glyphs can't be used, and what is wrong in it.
pub fn report_unlisted<R: Eprint>(
    rt: &R,
    ended: &Result<(), Failure>,
    job: &Job,
    text: &[u8],
    reason: Option<io::Error>,
) -> u8
    ensures { result ≡ status_of_end ended.now }
{
    let status = report_refused(rt, ended, file_of(ended, job), reason);
    report_list(rt, ended, &job.glyphs, text);
    status
}

/// Reports a run that made a subset, with notes on it, or one that made none, with more of why.
pub fn report_made<R: Eprint + AllocGlobal>(
    rt: &R,
    ended: &Result<(), Failure>,
    job: &Job,
    plan: &Plan<'_>,
    is_font_there: bool,
    font: &[u8],
    reason: Option<io::Error>,
) -> u8
    ensures { result ≡ status_of_end ended.now }
{
    let status = report_refused(rt, ended, file_of(ended, job), reason);
    match ended {
        Ok(()) if has_notes(plan.task.form, is_font_there) => {}
        Ok(()) => report_notes(rt, font, plan),
        Err(failure) => report_more(rt, failure, font, plan),
    }
    status
}

/// The name of the file of a face, if it can't be read.
fn unread_file<'a>(ended: &Result<(), Failure>, input: &'a str) -> Option<&'a str> {
    match ended {
        Err(Failure::Read) => Some(input),
        _ => None,
    }
}

/// Reports that another face than the only one is shown as that one. It is passed over where memory runs out.
fn report_face<R: Eprint + AllocGlobal>(rt: &R, font: &[u8], index: u32) {
    if let Ok(text) = note_lines(rt.alloc(), &[], &[], &[], other_face(true, font, index)) {
        print_lines(rt, &text);
    }
}

/// Reports a run that showed something of a face, notes on it, and that it has no axes, or more of why nothing is shown.
pub fn report_shown<R: Eprint + AllocGlobal>(
    rt: &R,
    ended: &Result<(), Failure>,
    topic: Topic,
    json: bool,
    input: &str,
    index: u32,
    font: &[u8],
    reason: Option<io::Error>,
) -> u8
    ensures { result ≡ status_of_end ended.now }
{
    let status = report_refused(rt, ended, unread_file(ended, input), reason);
    if ended.is_ok() {
        report_face(rt, font, index);
    }
    match (ended, topic) {
        (Err(failure), _) => report_hint(rt, find_axes_hint(failure, font, index)),
        (Ok(()), Topic::Axes) if !json => report_hint(rt, no_axes(font, index)),
        (Ok(()), _) => {}
    }
    status
}
