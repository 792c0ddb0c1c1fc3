//! Whether a subset of all glyphs of a face is made, and why not.

ghost use Rattle.std.specs.Prelude.{◌≡◌, ◌≤◌, [], ◌∷◌, IfOk, IfErr, OnOk, Some, None, codes, string_bytes};
ghost use Rattle.std.specs.Option.{option_map};
ghost use Rattle.subsetter_sfnt.specs.Extras.{all_extras};
ghost use Rattle.subset_font.specs.Faces.Accepted.{IsPlain, is_of_memory, IsCause, IsAccepted, IsRefusedWhole, IsAnswer};
ghost use Rattle.subset_font.specs.Refusals.Texts.{hint_text};
ghost use Rattle.subset_task.specs.declared.task.RequestedGlyphs.{RequestedGlyphs};

use crate::making::subset::make_of;
use crate::refusals::hint::text::Hint;
use crate::refusals::second_look::all_known;
use font_reasons::Call;
use std::alloc::{AllocError, Global};
use subset_task::making::requested::{count_glyphs, first_glyphs};
use subset_task::refusals::failure::Failure;
use subset_task::task::{Form, RequestedGlyphs, Requests, Task};
use subsetter::{Error, Extras, Limits, Options, Tag};
use subsetter_sfnt::directory::table;

/// The tokens that all glyphs of a face together may take: these, and more for each byte of the file. With the bytes
/// that the new font may have it is about a second, or what a large file takes to read.
const TOKENS: u64 = 24_000_000;

const TOKENS_OF_A_BYTE: u64 = 8;

const MOST_BYTES: u32 = 64 << 20;

/// The tokens that each glyph may take, where a file has this many glyphs and bytes: no more than by default.
fn tokens_for(glyphs: u16, bytes: usize) -> u32
    ensures { result ≤ 1000000 }
{
    let all = TOKENS.saturating_add((bytes as u64).saturating_mul(TOKENS_OF_A_BYTE));
    let each = all / u64::from(glyphs.max(1));
    u32::try_from(each)
        .unwrap_or(u32::MAX)
        .min(Limits::default().tokens())
}

/// The limits within which all glyphs of a face are tried.
fn limits_for(font: &[u8], index: u32) -> Limits
    ensures { result.tokens ≤ 1000000 }
{
    let tokens = tokens_for(count_glyphs(font, index).unwrap_or(u16::MAX), font.len());
    Limits::new(tokens, Limits::default().depth())
        .unwrap_or(Limits::default())
        .with_bytes(MOST_BYTES)
}

/// Whether the outlines of a face, each of which is at most the whole table, can pass the bytes that the new font may have.
fn is_long(font: &[u8], index: u32) -> bool {
    let glyphs = count_glyphs(font, index).unwrap_or(u16::MAX);
    match table(font, index, Tag::new(b"glyf")) {
        Some(glyf) => glyf.len() as u64 > u64::from(MOST_BYTES / 2) / u64::from(glyphs.max(1)),
        None => font.len() as u64 > u64::from(MOST_BYTES / 2),
    }
}

/// Whether a failure can come from the limits within which all glyphs are tried.
fn is_of_limits(font: &[u8], index: u32, failure: &Failure) -> bool {
    match failure {
        Failure::Error(Error::CFFError) => {
            limits_for(font, index).tokens() < Limits::default().tokens()
        }
        Failure::Error(Error::OverflowError) => is_long(font, index),
        _ => false,
    }
}

/// The task of a subset of all glyphs, or of these, within limits.
fn task_for<'a>(index: u32, limits: Limits, pieces: &'a [RequestedGlyphs<'a>]) -> Task<'a>
    ensures { (one : RequestedGlyphs) → pieces.now ≡ one ∷ [] → IsPlain index limits one result }
{
    Task {
        requested: Requests {
            pieces,
            is_strict: false,
        },
        index,
        options: Options {
            limits,
            extras: Extras::ALL,
        },
        widths: false,
        form: Form::Silence,
        at: None,
    }
}

/// Why a subset of all glyphs isn't made, and what is known of the cause.
#[derive(Drop)]
pub struct InfoParts {
    /// The error, none where it is made.
    pub refusal: Option<String>,
    /// What is known of its cause.
    pub reason: Option<String>,
}

/// The text of what is known of a cause.
fn text_of(alloc: Global, hint: Option<Hint>) -> Result<Option<String>, AllocError>
    ensures { IfOk result (λ text. option_map string_bytes text ≡ option_map hint_text hint) }
{
    match hint {
        Some(hint) => Ok(Some(format!(in alloc; "{hint}")?)),
        None => Ok(None),
    }
}

/// What is known of the cause of a refusal of all glyphs.
fn reason_of(
    alloc: Global,
    font: &[u8],
    index: u32,
    failure: &Failure,
) -> Result<Option<String>, AllocError>
    ensures { IfOk result (λ reason. IsCause (record { bytes = font.now; index = index; extras = all_extras }) failure.now (option_map string_bytes reason)) }
{
    let count = count_glyphs(font, index).unwrap_or(0);
    let glyphs = first_glyphs(alloc, count)?;
    let limits = limits_for(font, index);
    let pieces = [RequestedGlyphs::Every];
    let task = task_for(index, limits, &pieces);
    let hint = all_known(alloc, Call::Subset, failure, font, &task, &glyphs)?;
    text_of(alloc, hint)
}

/// Whether memory ran out.
pub fn is_of_memory(failure: &Failure) -> bool
    ensures { result ≡ is_of_memory failure.now }
{
    match failure {
        Failure::Error(error) => *error == Error::OutOfMemory,
        _ => false,
    }
}

/// What is shown where not all glyphs are tried.
fn parts_untried(alloc: Global) -> Result<InfoParts, AllocError>
    ensures { IfOk result (λ parts. (option_map string_bytes parts.refusal ≡ Some (codes "not all tried")) × (option_map string_bytes parts.reason ≡ None)) }
{
    Ok(InfoParts {
        refusal: Some(String::from_str(alloc, "not all tried")?),
        reason: None,
    })
}

/// What is shown of a refusal of all glyphs, if memory didn't run out.
fn parts_of(
    alloc: Global,
    font: &[u8],
    index: u32,
    failure: &Failure,
) -> Result<InfoParts, AllocError>
    requires { IsRefusedWhole (record { bytes = font.now; index = index; extras = all_extras }) failure.now }
    ensures { IfOk result (λ parts. IsAnswer (record { bytes = font.now; index = index; extras = all_extras }) (option_map string_bytes parts.refusal) (option_map string_bytes parts.reason)) }
{
    if is_of_memory(failure) {
        return Err(AllocError);
    }
    if is_of_limits(font, index, failure) {
        return parts_untried(alloc);
    }
    let refusal = format!(in alloc; "{failure}")?;
    let reason = reason_of(alloc, font, index, failure)?;
    Ok(InfoParts {
        refusal: Some(refusal),
        reason,
    })
}

/// Makes a subset of all glyphs within limits that a second is enough for, and drops it.
fn make_all(alloc: Global, font: &[u8], index: u32) -> Result<(), Failure>
    ensures ok { OnOk result (IsAccepted (record { bytes = font.now; index = index; extras = all_extras })) }
    ensures err { IfErr result (IsRefusedWhole (record { bytes = font.now; index = index; extras = all_extras })) }
{
    let limits = limits_for(font, index);
    let pieces = [RequestedGlyphs::Every];
    let task = task_for(index, limits, &pieces);
    match make_of(alloc, font, &task) {
        Ok(_made) => Ok(()),
        Err(failure) => Err(failure),
    }
}

/// Tries to make a subset of all glyphs.
pub fn try_all(alloc: Global, font: &[u8], index: u32) -> Result<InfoParts, AllocError>
    ensures { IfOk result (λ parts. IsAnswer (record { bytes = font.now; index = index; extras = all_extras }) (option_map string_bytes parts.refusal) (option_map string_bytes parts.reason)) }
{
    match make_all(alloc, font, index) {
        Ok(()) => Ok(InfoParts {
            refusal: None,
            reason: None,
        }),
        Err(failure) => parts_of(alloc, font, index, &failure),
    }
}
