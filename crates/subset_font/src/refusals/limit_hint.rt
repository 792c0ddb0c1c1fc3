//! That the limits of `--limits` are why no font is made: with twice these one is made. So this look takes no longer than twice
//! the limits let it.

ghost use Rattle.std.specs.Prelude.{◌≡◌, ◌≤◌, ◌^◌, IfOk, None};
ghost use Rattle.std.specs.Option.{option_map};
ghost use Rattle.subset_font.specs.Refusals.LimitHint.{within, twice, AreLonger, AreWider, IsSize, more_than, little, IsLongIf, IsLong, IsLittle, IsLimitHint, has_limits, IsLimitHintIf};

use crate::faces::accepted::is_of_memory;
use crate::making::outcome::make_planned;
use crate::refusals::hint::text::Hint;
use std::alloc::{AllocError, Global};
use subset_task::task::{Plan, Task};
use subsetter::{Limits, Options};

/// A plan within other limits.
fn within<'a>(plan: &Plan<'a>, limits: Limits) -> Plan<'a>
    ensures { result ≡ within limits plan.now }
{
    let task = plan.task;
    let options = Options {
        limits,
        ..task.options
    };
    Plan {
        task: Task { options, ..task },
        ..*plan
    }
}

/// How many bytes the font has that a plan makes within other limits; none where it makes none.
fn size_within(
    alloc: Global,
    font: &[u8],
    plan: &Plan<'_>,
    limits: Limits,
) -> Result<Option<usize>, AllocError>
    ensures { IfOk result (IsSize (within limits plan.now) font.now) }
{
    match make_planned(alloc, font, &within(plan, limits)) {
        Ok(outcome) => Ok(Some(outcome.made.font.len())),
        Err(failure) => {
            if is_of_memory(&failure) {
                return Err(AllocError);
            }
            Ok(None)
        }
    }
}

// ---- twice the limits

/// Twice a number, if that fits 32 bits, else the greatest one.
fn twice(number: u32) -> u32
    ensures { result ≡ twice (2 ^ 31) number }
{
    if number < 0x8000_0000 {
        2 * number
    } else {
        u32::MAX
    }
}

/// Twice a number, if that fits 8 bits, else the greatest one.
fn twice_deep(depth: u8) -> u8
    requires { 1 ≤ depth }
    ensures value { result ≡ twice (2 ^ 7) depth }
    ensures above { 1 ≤ result }
{
    if depth < 0x80 { 2 * depth } else { u8::MAX }
}

/// Limits with a bound on twice the bytes, if these have one.
fn with_twice_bytes(limits: Limits, bytes: Option<u32>) -> Limits
    ensures tokens { result.tokens ≡ limits.tokens }
    ensures depth { result.depth ≡ limits.depth }
    ensures bytes { limits.bytes ≡ None → result.bytes ≡ option_map (twice (2 ^ 31)) bytes }
{
    match bytes {
        Some(most) => limits.with_bytes(twice(most)),
        None => limits,
    }
}

/// Twice limits.
fn wider(limits: Limits) -> Limits
    ensures { AreWider limits result }
{
    let Some(wider) = Limits::new(twice(limits.tokens()), twice_deep(limits.depth())) else {
        return limits;
    };
    with_twice_bytes(wider, limits.bytes())
}

// ---- which of them is why

/// That a font has more bytes than these, if so.
fn more_than(most: u32, size: Option<usize>) -> Option<Hint>
    ensures { result ≡ more_than most size }
{
    let size = size?;
    if size > most as usize {
        return Some(Hint::MoreBytes(most));
    }
    None
}

/// That the new font has more bytes than these, if so: one is made that may have twice as many.
fn longer_than(
    alloc: Global,
    font: &[u8],
    plan: &Plan<'_>,
    most: u32,
) -> Result<Option<Hint>, AllocError>
    ensures { IfOk result (IsLong most plan.now font.now) }
{
    let limits = plan.task.options.limits;
    let size = size_within(alloc, font, plan, limits.with_bytes(twice(most)))?;
    Ok(more_than(most, size))
}

/// That the new font has more bytes than it may have, if so.
fn too_long(alloc: Global, font: &[u8], plan: &Plan<'_>) -> Result<Option<Hint>, AllocError>
    ensures { IfOk result (IsLongIf plan.now.task.options.limits.bytes plan.now font.now) }
{
    let limits = plan.task.options.limits;
    match limits.bytes() {
        Some(most) => longer_than(alloc, font, plan, most),
        None => Ok(None),
    }
}

/// That limits are too little, if a font is made within twice these.
fn little(limits: Limits, size: Option<usize>) -> Option<Hint>
    ensures { result ≡ little limits size }
{
    match size {
        Some(_) => Some(Hint::LittleLimits(limits.tokens(), limits.depth())),
        None => None,
    }
}

/// That the limits are too little, if so.
fn too_little(alloc: Global, font: &[u8], plan: &Plan<'_>) -> Result<Option<Hint>, AllocError>
    ensures { IfOk result (IsLittle plan.now font.now) }
{
    let limits = plan.task.options.limits;
    let size = size_within(alloc, font, plan, wider(limits))?;
    Ok(little(limits, size))
}

/// Which of the limits is why no font is made, if it wouldn't be too long; that there are limits, if twice these don't serve.
fn other_limit(alloc: Global, font: &[u8], plan: &Plan<'_>) -> Result<Hint, AllocError>
    requires { IsLongIf plan.now.task.options.limits.bytes plan.now font.now None }
    ensures { IfOk result (IsLimitHint plan.now font.now) }
{
    match too_little(alloc, font, plan) {
        Ok(Some(hint)) => Ok(hint),
        Ok(None) => Ok(Hint::GivenLimits),
        Err(_) => Err(AllocError),
    }
}

/// Which of the limits is why no font is made, if twice that one serves; else that there are limits.
fn limit_hint(alloc: Global, font: &[u8], plan: &Plan<'_>) -> Result<Hint, AllocError>
    ensures { IfOk result (IsLimitHint plan.now font.now) }
{
    match too_long(alloc, font, plan) {
        Ok(Some(hint)) => Ok(hint),
        Ok(None) => other_limit(alloc, font, plan),
        Err(_) => Err(AllocError),
    }
}

/// Whether other limits than the default ones are given.
fn has_limits(limits: Limits) -> bool
    ensures { result ≡ has_limits limits }
{
    let usual = Limits::default();
    limits.tokens() != usual.tokens()
        || (limits.depth() != usual.depth() || limits.bytes().is_some())
}

/// Which of the limits is why no font is made, where they are given.
pub fn find_limit_hint(
    alloc: Global,
    font: &[u8],
    plan: &Plan<'_>,
) -> Result<Option<Hint>, AllocError>
    ensures { IfOk result (IsLimitHintIf (has_limits plan.now.task.options.limits) plan.now font.now) }
{
    if has_limits(plan.task.options.limits) {
        return Ok(Some(limit_hint(alloc, font, plan)?));
    }
    Ok(None)
}
