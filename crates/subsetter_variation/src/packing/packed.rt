//! Packed point numbers and packed deltas (OpenType, "Tuple Variation Store").
//!
//! The reading is strict: a run that is longer than its count, data past the glyph's, and a point number that isn't above
//! the one before it, or not below the count of points, have no reading. A count of 0 point numbers means all points,
//! in one byte or in two (`80 00`), as in HarfBuzz and fontTools: OpenType says so of a first byte of 0 alone, and leaves the
//! other open, which FreeType reads as no points.

ghost use Rattle.std.specs.Prelude.{◌≡◌, ◌+◌, ◌-◌, ◌<◌, ◌≤◌, Some, None, MatchOption, IfOk, IfSome, length};
ghost use Rattle.std.specs.Option.{ok_or, option_copied, option_map};
ghost use Rattle.std.specs.List.{All};
ghost use Rattle.subsetter_base.specs.Gives.{Gives};
ghost use Rattle.subsetter_base.specs.declared.error.Error.TheVariants.{MalformedFont};
ghost use Rattle.subsetter_variation.specs.Packing.Packed.{word_in, runs, run_in, begun, following, ended, delta_in, next_delta, deltas_from, deltas, step_in, next_point, points_from, count_in, point_numbers};
ghost use Rattle.subsetter_base.specs.Bytes.{byte};

use std::alloc::Global;
use std::marker::Model;
use std::mem;
use subsetter_base::Error;

/// The flags of a run of deltas: all are 0, and it has no bytes.
pub(crate) const DELTAS_ARE_ZERO: u8 = 0x80;
/// Each has two bytes.
pub(crate) const DELTAS_ARE_WORDS: u8 = 0x40;
/// How many values are below these flags: one more than DELTA_RUN_COUNT_MASK.
pub(crate) const DELTA_RUN_COUNTS: u8 = 0x40;
/// The flag of a run of point numbers: each has two bytes.
const POINTS_ARE_WORDS: u8 = 0x80;
/// How many values are below this flag: one more than POINT_RUN_COUNT_MASK.
const POINT_RUN_COUNTS: u8 = 0x80;
/// The flag of a count of point numbers that has two bytes.
const COUNT_IS_WORD: u8 = 0x80;

/// A run that is being read.
#[derive(Drop)]
struct Run<'a> {
    /// How many numbers are left of it.
    left: u8,
    /// Its first byte.
    control: u8,
    /// The bytes from its next number on.
    bytes: &'a [u8],
}

impl<'a> Model for Run<'a> {
    ghost use Rattle.subsetter_variation.specs.Packing.Packed.{Run};

    ghost Value = { Run };

    ghost view = { λ r. record { left = r.left; control = r.control; bytes = r.bytes.now } };
}

/// The number of the first byte, and the bytes after it.
#[tactic(auto, unfolding(subsetter_base::specs::Bytes::byte))]
pub(crate) fn byte_in(bytes: &[u8]) -> Option<(u8, &[u8])>
    ensures { MatchOption result (byte bytes.now ≡ None) (λ r. byte bytes.now ≡ Some (r.0, r.1.now)) }
{
    match bytes {
        [b, rest @ ..] => Some((*b, rest)),
        [] => None,
    }
}

/// The number of the first two bytes, and the bytes after them.
pub(crate) fn word_in(bytes: &[u8]) -> Option<(u16, &[u8])>
    ensures { MatchOption result (word_in bytes.now ≡ None) (λ r. word_in bytes.now ≡ Some (r.0, r.1.now)) }
{
    match bytes {
        [high, low, rest @ ..] => Some((u16::from(*high) * 256 + u16::from(*low), rest)),
        _ => None,
    }
}

/// Before the first run.
fn runs(bytes: &[u8]) -> Run<'_>
    ensures { result ≡ runs bytes.now }
{
    Run {
        left: 0,
        control: 0,
        bytes,
    }
}

/// The run that begins with these bytes.
#[tactic(auto, unfolding(subsetter_base::specs::Bytes::byte))]
fn run_in(limit: u8, bytes: &[u8]) -> Option<Run<'_>>
    requires above { 0 < limit }
    requires most { limit ≤ 128 }
    ensures { result ≡ run_in limit bytes.now }
{
    let (control, rest) = byte_in(bytes)?;
    Some(Run {
        left: control % limit + 1,
        control,
        bytes: rest,
    })
}

/// The run that has a further number: this one, or the next.
fn begun<'a>(limit: u8, r: Run<'a>) -> Option<Run<'a>>
    requires above { 0 < limit }
    requires most { limit ≤ 128 }
    ensures { result ≡ begun limit r.entry }
{
    if r.left == 0 {
        run_in(limit, r.bytes)
    } else {
        Some(r)
    }
}

/// The run after one of its numbers.
fn following<'a>(r: Run<'a>, bytes: &'a [u8]) -> Run<'a>
    ensures { result ≡ following r.entry bytes.now }
{
    Run {
        left: r.left.saturating_sub(1),
        control: r.control,
        bytes,
    }
}

/// The next delta of a run.
fn delta_in<'a>(r: Run<'a>) -> Option<(i16, Run<'a>)>
    ensures { result ≡ delta_in r.entry }
{
    if r.control >= DELTAS_ARE_ZERO {
        let rest = r.bytes;
        Some((0, following(r, rest)))
    } else if r.control >= DELTAS_ARE_WORDS {
        let (word, rest) = word_in(r.bytes)?;
        Some((word.cast_signed(), following(r, rest)))
    } else {
        let (byte, rest) = byte_in(r.bytes)?;
        Some((i16::from(byte.cast_signed()), following(r, rest)))
    }
}

/// The next delta of this run or the next.
#[tactic(auto, unfolding(crate::specs::Packing::Packed::next_delta))]
fn next_delta<'a>(r: Run<'a>) -> Option<(i16, Run<'a>)>
    ensures { result ≡ next_delta r.entry }
{
    delta_in(begun(DELTA_RUN_COUNTS, r)?)
}

/// The next step of a run.
fn step_in<'a>(r: Run<'a>) -> Option<(u16, Run<'a>)>
    ensures { result ≡ step_in r.entry }
{
    if r.control >= POINTS_ARE_WORDS {
        let (word, rest) = word_in(r.bytes)?;
        Some((word, following(r, rest)))
    } else {
        let (byte, rest) = byte_in(r.bytes)?;
        Some((u16::from(byte), following(r, rest)))
    }
}

/// The next number: by a step from the one before, not under the least, and below the limit.
#[tactic(auto, unfolding(crate::specs::Packing::Packed::next_point))]
fn next_point<'a>(limit: u32, before: u32, least: u32, r: Run<'a>) -> Option<(u32, Run<'a>)>
    ensures value { result ≡ next_point limit before least r.entry }
    ensures below { MatchOption result (Unit {0}) (λ p. p.0 < limit) }
{
    let (step, rest) = step_in(begun(POINT_RUN_COUNTS, r)?)?;
    let number = u64::from(before) + u64::from(step);
    if number < u64::from(least) {
        return None;
    }
    if number >= u64::from(limit) {
        return None;
    }
    Some((number as u32, rest))
}

/// How many numbers are listed.
#[tactic(auto, unfolding(crate::specs::Packing::Packed::count_in, subsetter_base::specs::Bytes::byte))]
fn count_in(bytes: &[u8]) -> Option<(u16, &[u8])>
    ensures { MatchOption result (count_in bytes.now ≡ None) (λ r. count_in bytes.now ≡ Some (r.0, r.1.now)) }
{
    let (first, rest) = byte_in(bytes)?;
    if first < COUNT_IS_WORD {
        return Some((u16::from(first), rest));
    }
    let (low, rest) = byte_in(rest)?;
    Some((
        u16::from(first - COUNT_IS_WORD) * 256 + u16::from(low),
        rest,
    ))
}

/// The bytes after the last run.
fn ended<'a>(r: Run<'a>) -> Option<&'a [u8]>
    ensures { option_copied result ≡ ended r.entry }
{
    if r.left == 0 { Some(r.bytes) } else { None }
}

/// That many deltas, in the memory of a list that is spare, and the bytes after them. A cut list, or a run that is longer than it, is
/// `MalformedFont`.
#[tactic(auto, using(crate::proofs::PackingLaws::Runs::deltas_step, crate::proofs::PackingLaws::Runs::deltas_cut, crate::proofs::PackingLaws::Runs::deltas_end), unfolding(crate::specs::Packing::Packed::deltas))]
pub fn deltas(spare: Vec<i16>, n: usize, bytes: &[u8]) -> Result<(Vec<i16>, &[u8]), Error>
    ensures exact { Gives (λ r. (r.0.items, r.1.now)) result (ok_or (deltas n bytes.now) MalformedFont) }
    ensures count { IfOk result (λ r. length r.0.items ≡ n) }
{
    let mut list = spare;
    list.clear();
    list.reserve(n)?;
    let mut run = runs(bytes);
    for i in 0..n {
        let (delta, next) = next_delta(run).ok_or(Error::MalformedFont)?;
        list.push(delta)?;
        run = next;
    }
    let rest = ended(run).ok_or(Error::MalformedFont)?;
    Ok((list, rest))
}

/// `count` numbers, which ascend and are below the limit, in the memory of the spare list, and the bytes after them.
#[tactic(auto, using(crate::proofs::PackingLaws::Runs::points_step, crate::proofs::PackingLaws::Runs::points_cut, crate::proofs::PackingLaws::Runs::points_end))]
fn points_from(
    spare: Vec<u32>,
    limit: u32,
    count: u16,
    bytes: &[u8],
) -> Result<(Vec<u32>, &[u8]), Error>
    ensures exact { Gives (λ r. (r.0.items, r.1.now)) result (ok_or (points_from limit count 0 0 (runs bytes.now)) MalformedFont) }
    ensures below { IfOk result (λ r. All (λ x. x < limit) r.0.items) }
{
    let mut list = spare;
    list.clear();
    list.reserve(usize::from(count))?;
    let mut run = runs(bytes);
    let mut before = 0;
    let mut least = 0;
    for i in 0..count {
        let (number, next) = next_point(limit, before, least, run).ok_or(Error::MalformedFont)?;
        list.push(number)?;
        run = next;
        before = number;
        least = number + 1;
    }
    let rest = ended(run).ok_or(Error::MalformedFont)?;
    Ok((list, rest))
}

/// The points that deltas are given for, none for all, in the memory of a list that is spare, and the bytes after them. A cut list, a
/// run that is longer than it, or a number that is given twice or isn't below the limit is `MalformedFont`.
#[tactic(auto, unfolding(crate::specs::Packing::Packed::point_numbers))]
pub fn point_numbers<'a>(
    alloc: Global,
    spare: &mut Vec<u32>,
    limit: u32,
    bytes: &'a [u8],
) -> Result<(Option<Vec<u32>>, &'a [u8]), Error>
    ensures exact { Gives (λ r. (option_map (λ v. v.items) r.0, r.1.now)) result (ok_or (point_numbers limit bytes.now) MalformedFont) }
    ensures below { IfOk result (λ r. IfSome r.0 (λ v. All (λ x. x < limit) v.items)) }
{
    let (count, first) = count_in(bytes).ok_or(Error::MalformedFont)?;
    if count == 0 {
        return Ok((None, first));
    }
    let list = mem::replace(spare, Vec::new(alloc));
    let (numbers, rest) = points_from(list, limit, count, first)?;
    Ok((Some(numbers), rest))
}
