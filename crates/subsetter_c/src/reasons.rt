//! Why a call was refused, in words.

ghost use Rattle.std.specs.Prelude.{◌≡◌, ◌<◌, ◌≤◌, Err, MatchOption, IfOk, IfErr, string_bytes};
ghost use Rattle.subsetter_base.specs.declared.error.Error.TheVariants.{OutOfMemory};
ghost use Rattle.subsetter_c.specs.Answers.Handed.{IsHandedOver, IsNothingHanded};
ghost use Rattle.subsetter_c.specs.Answers.Status.{unknown_option};
ghost use Rattle.subsetter_c.specs.Options.{AreKnown, AreRequested};
ghost use Rattle.subsetter_c.specs.Reasons.{IsTextAnswered, call_named, error_of, explained_text, question, reason_by, reason_of, text_of};
ghost use Rattle.subsetter_c.specs.Settings.{settings_of};

use crate::answers::handing::hand_bytes;
use crate::answers::status::{NOT_PERMITTED, UNKNOWN_OPTION, status_of};
use crate::options::options_of;
use crate::settings::{Coordinate, settings_of};
use font_reasons::{Asked, Call, Reason, explain, find_prohibition};
use std::alloc::{AllocError, Global};
use subsetter::{Error, Options, Tag};

/// The call of a number; none of another.
fn call_of(number: u32) -> Option<Call>
    ensures { MatchOption result (7 ≤ number) (λ call. (number < 7) × (call ≡ call_named number)) }
{
    match number {
        0 => Some(Call::Subset),
        1 => Some(Call::SubsetAt),
        2 => Some(Call::Embed),
        3 => Some(Call::EmbedAt),
        4 => Some(Call::PdfFont),
        5 => Some(Call::GlyphsOf),
        6 => Some(Call::Advances),
        _ => None,
    }
}

/// The error of a status, if it is that of one, or of missing tables.
fn error_of(status: u32) -> Option<Error>
    ensures { result ≡ error_of status }
{
    match status {
        1 => Some(Error::UnknownKind),
        2 => Some(Error::MalformedFont),
        3 => Some(Error::Unimplemented),
        4 => Some(Error::SubsetError),
        5 => Some(Error::OverflowError),
        6 => Some(Error::CFFError),
        13 => Some(Error::MalformedFont),
        14 => Some(Error::UnknownKind),
        _ => None,
    }
}

/// Why a call is refused, if the font shows it.
#[tactic(auto, unfolding(crate::specs::Reasons::reason_of))]
fn reason_of(alloc: Global, font: &[u8], asked: &Asked<'_>) -> Result<Option<Reason>, Error>
    ensures ok { IfOk result (λ r. r ≡ reason_of asked.now font.now) }
    ensures err { IfErr result (λ e. e ≡ OutOfMemory) }
{
    explain(alloc, font, asked)
}

/// Why a call is refused with an error, if the font shows it.
#[tactic(auto, using(crate::proofs::Questions::answered))]
fn reason_with(
    alloc: Global,
    call: Call,
    error: Error,
    font: &[u8],
    index: u32,
    settings: &[(Tag, i32)],
    glyphs: &[u16],
    words: &[u32],
    options: &Options,
) -> Result<Option<Reason>, Error>
    requires { AreRequested words.now options.now }
    ensures ok { IfOk result (λ r. r ≡ reason_of (question call index settings.now glyphs.now words.now error) font.now) }
    ensures err { IfErr result (λ e. e ≡ OutOfMemory) }
{
    let asked = Asked {
        call,
        error,
        index,
        glyphs,
        coordinates: settings,
        extras: options.extras,
        limits: options.limits,
        most_bytes: options.limits.bytes(),
    };
    reason_of(alloc, font, &asked)
}

/// Why a call is refused with a status, if the font shows it.
#[tactic(auto, unfolding(crate::specs::Reasons::reason_by))]
fn reason_by(
    alloc: Global,
    call: Call,
    status: u32,
    font: &[u8],
    index: u32,
    settings: &[(Tag, i32)],
    glyphs: &[u16],
    words: &[u32],
    options: &Options,
) -> Result<Option<Reason>, Error>
    requires { AreRequested words.now options.now }
    ensures ok { IfOk result (λ r. r ≡ reason_by status (question call index settings.now glyphs.now words.now) index font.now) }
    ensures err { IfErr result (λ e. e ≡ OutOfMemory) }
{
    if status == NOT_PERMITTED {
        return Ok(find_prohibition(font, index));
    }
    match error_of(status) {
        Some(error) => reason_with(
            alloc, call, error, font, index, settings, glyphs, words, options,
        ),
        None => Ok(None),
    }
}

/// The text of a reason; an empty one of none.
fn text_of(alloc: Global, reason: Option<Reason>) -> Result<String, AllocError>
    ensures { IfOk result (λ text. string_bytes text ≡ text_of reason) }
{
    match reason {
        Some(reason) => format!(in alloc; "{reason}"),
        None => String::from_str(alloc, ""),
    }
}

/// The text of why a call is refused with a status.
fn text_by(
    alloc: Global,
    call: Call,
    status: u32,
    font: &[u8],
    index: u32,
    coordinates: &[Coordinate],
    glyphs: &[u16],
    words: &[u32],
    options: &Options,
) -> Result<String, Error>
    requires { AreRequested words.now options.now }
    ensures ok { IfOk result (λ text. string_bytes text ≡ explained_text call status font.now index (settings_of coordinates.now) glyphs.now words.now) }
    ensures err { IfErr result (λ e. e ≡ OutOfMemory) }
{
    let settings = settings_of(alloc, coordinates)?;
    let reason = reason_by(
        alloc, call, status, font, index, &settings, glyphs, words, options,
    )?;
    Ok(text_of(alloc, reason)?)
}

/// Hands a text over, or the error: the status.
fn hand_text(answer: Result<String, Error>, buffer: &mut [u8], told: &mut usize) -> u32
    ensures { IsHandedOver (IsTextAnswered answer) (λ e. answer ≡ Err e) buffer.old buffer.new told.new result }
{
    match answer {
        Ok(text) => hand_bytes(text.as_bytes(), buffer, told),
        Err(error) => {
            *told = 0;
            status_of(error)
        }
    }
}

/// Why a call is refused with a status, as the font shows it, in the caller's buffer: UTF-8 without a zero at its end, and nothing
/// where the font doesn't show it. The words are those of `subsetter_options`. Charstrings are run within their tokens and to their
/// depth, each at most once.
///
/// Status 0: the first bytes of `out` are the text, and `length` is their count. Status 8: `out` is too small and unchanged, and
/// `length` is the exact size. Status 7: memory ran out; status 10: the call or an option is unknown; `out` is unchanged, and
/// `length` is 0.
#[unsafe(no_mangle)]
pub extern "C" fn subsetter_explain_by_words(
    alloc: Global,
    call: u32,
    status: u32,
    font: &[u8],
    index: u32,
    coordinates: &[Coordinate],
    glyphs: &[u16],
    options: &[u32],
    out: &mut [u8],
    length: &mut usize,
) -> u32
    ensures unknown { 7 ≤ call → IsNothingHanded unknown_option out.old out.new length.new result }
    ensures unknown_options { ¬ (AreKnown options.now) → IsNothingHanded unknown_option out.old out.new length.new result }
    ensures text { call < 7 → AreKnown options.now → IsHandedOver (λ text. text ≡ explained_text (call_named call) status font.now index (settings_of coordinates.now) glyphs.now options.now) (λ e. e ≡ OutOfMemory) out.old out.new length.new result }
{
    match (call_of(call), options_of(options)) {
        (Some(call), Some(chosen)) => hand_text(
            text_by(
                alloc,
                call,
                status,
                font,
                index,
                coordinates,
                glyphs,
                options,
                &chosen,
            ),
            out,
            length,
        ),
        _ => {
            *length = 0;
            UNKNOWN_OPTION
        }
    }
}
