//! Why a font is refused, by a second look at the glyphs that are picked: the tables are read, charstrings are run, and what varies is read.

ghost use Rattle.std.specs.Prelude.{◌≡◌, [], IfOk, unwrap_or};
ghost use Rattle.std.specs.Option.{option_copied};
ghost use Rattle.subset_font.specs.Making.Made.{face_of};
ghost use Rattle.subset_font.specs.Refusals.SecondLook.{call_of, known_after, seen_after, seen_again, uncounted};

use crate::refusals::hint::found::{find_hint, shown};
use crate::refusals::hint::text::Hint;
use font_reasons::{Asked, Call, Reason, explain, no_table};
use std::alloc::{AllocError, Global};
use subset_task::refusals::failure::Failure;
use subset_task::task::Task;
use subsetter::{Error, Tag};

/// Which call a task comes to: with a PDF, at coordinates, with widths.
pub fn call_of(pdf: bool, at: bool, widths: bool) -> Call
    ensures { result ≡ call_of pdf at widths }
{
    if pdf {
        return Call::PdfFont;
    }
    match (at, widths) {
        (true, true) => Call::EmbedAt,
        (true, false) => Call::SubsetAt,
        (false, true) => Call::Embed,
        (false, false) => Call::Subset,
    }
}

/// The coordinates of a task; none where there are none.
fn settings_of<'a>(task: &Task<'a>) -> &'a [(Tag, i32)]
    ensures { result.now ≡ unwrap_or (option_copied task.now.at) [] }
{
    match task.at {
        Some(at) => at,
        None => &[],
    }
}

/// That a face lacks the table that counts glyphs, where none are there.
fn uncounted(error: Error, font: &[u8], task: &Task<'_>, glyphs: &[u16]) -> Option<Reason>
    ensures { result ≡ uncounted error (face_of task.now font.now) glyphs.now }
{
    match (error, glyphs) {
        (Error::MalformedFont, []) => no_table(font, task.index, Tag::MAXP),
        _ => None,
    }
}

/// What the font shows of why a call on these glyphs at these coordinates is refused by an error, within the limits of the task.
#[tactic(auto, unfolding(crate::specs::Refusals::SecondLook::seen_again))]
fn look_again(
    alloc: Global,
    call: Call,
    error: Error,
    font: &[u8],
    task: &Task<'_>,
    settings: &[(Tag, i32)],
    glyphs: &[u16],
) -> Result<Option<Hint>, AllocError>
    ensures { IfOk result (λ hint. hint ≡ seen_again call error task.now settings.now glyphs.now font.now) }
{
    let asked = Asked {
        call,
        error,
        index: task.index,
        glyphs,
        coordinates: settings,
        extras: task.options.extras,
        limits: task.options.limits,
        most_bytes: None,
    };
    match explain(alloc, font, &asked) {
        Ok(found) => Ok(shown(found.or(uncounted(error, font, task, glyphs)))),
        Err(_) => Err(AllocError),
    }
}

/// What it shows after a failure.
pub fn look_after(
    alloc: Global,
    call: Call,
    failure: &Failure,
    font: &[u8],
    task: &Task<'_>,
    glyphs: &[u16],
) -> Result<Option<Hint>, AllocError>
    ensures { IfOk result (λ hint. hint ≡ seen_after call failure.now task.now glyphs.now font.now) }
{
    match failure {
        Failure::Error(error) => {
            let settings = settings_of(task);
            look_again(alloc, call, *error, font, task, settings, glyphs)
        }
        _ => Ok(None),
    }
}

/// What is known of a failure at once, or else what it shows.
pub fn all_known(
    alloc: Global,
    call: Call,
    failure: &Failure,
    font: &[u8],
    task: &Task<'_>,
    glyphs: &[u16],
) -> Result<Option<Hint>, AllocError>
    ensures { IfOk result (λ hint. hint ≡ known_after call failure.now task.now glyphs.now font.now) }
{
    let seen = look_after(alloc, call, failure, font, task, glyphs)?;
    Ok(find_hint(failure, font, task).or(seen))
}
