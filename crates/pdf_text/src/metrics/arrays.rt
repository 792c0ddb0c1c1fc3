//! W: the widths of CIDs (ISO 32000-1, 9.7.4.3).

ghost use Rattle.std.specs.Prelude.{ℕ, List, ◌≡◌, ◌<◌, ◌≤◌, ◌+◌, ◌^◌, ◌++◌, ◌∷◌, IfOk, IfErr, OnOk, map, length, decimal, codes, get_or, Some};
ghost use Rattle.std.specs.List.{join_with_byte};
ghost use Rattle.subsetter_base.specs.declared.error.Error.TheVariants.{OutOfMemory};
ghost use Rattle.pdf_text.specs.Metrics.Arrays.{each, same, six_equal, run, listed, opened, more, entries_from, lists_from, elements_of, has_room, entries, entry_text, array_text, value_in, AreRead, AreShort, AreFew};
ghost use Rattle.pdf_text.specs.View.{part_view, parts_view, maybe_view};

use std::alloc::Global;
use std::io::Write;
use subsetter_base::Error;
use subsetter_base::decimals::{write_decimal, write_decimals};

/// A part of W.
#[derive(Clone, Copy)]
pub enum Part<'a> {
    /// A CID, and the widths from it on.
    Each(usize, &'a [u32]),
    /// The first and the last CID that have a width.
    Same(usize, usize, u32),
}

// ---- which parts

/// Whether the first six widths are equal.
fn six_equal(widths: &[u32]) -> bool
    ensures { result ≡ six_equal widths.now }
{
    match widths {
        [a, b, c, d, e, f, ..] => *a == *b && *a == *c && *a == *d && *a == *e && *a == *f,
        _ => false,
    }
}

/// How many widths at the front are this one.
fn run(width: u32, widths: &[u32]) -> usize
    ensures value { result ≡ run width widths.now }
    ensures most { result ≤ length widths.now }
{
    let mut n = 0;
    for v in widths {
        if *v != width {
            return n;
        }
        n += 1;
    }
    n
}

/// How many widths at the front go on a list of at most `most`.
fn listed(most: usize, default: u32, widths: &[u32]) -> usize
    ensures value { result ≡ listed most default widths.now }
    ensures most { result ≤ length widths.now }
{
    let mut n = 0;
    let mut rest = widths;
    while let [w, following @ ..] = rest {
        if n == most || *w == default || six_equal(rest) {
            return n;
        }
        n += 1;
        rest = following;
    }
    n
}

/// What opens at a width, and how many of those after it are settled with it.
#[tactic(auto, using(crate::proofs::MetricsLaws::WidthLaws::Steps::front_more))]
fn opened<'a>(
    most: usize,
    first: usize,
    default: u32,
    width: u32,
    following: &[u32],
    widths: &'a [u32],
) -> (Option<Part<'a>>, usize)
    requires whole { widths.now ≡ width ∷ following.now }
    requires room { first + length widths.now < 2 ^ 64 }
    ensures part { maybe_view result.0 ≡ opened most first default width following.now }
    ensures more { result.1 ≡ more most default width following.now }
{
    if width == default {
        return (None, 0);
    }
    if six_equal(widths) {
        let n = run(width, following);
        return (Some(Part::Same(first, first + n, width)), n);
    }
    let n = listed(most, default, following);
    (Some(Part::Each(first, &widths[..n + 1])), n)
}

/// Puts a part after others, if there is one.
#[tactic(auto, using(crate::proofs::MetricsLaws::WidthLaws::Steps::one_more_part))]
fn push_part<'a>(parts: &mut Vec<Part<'a>>, part: Option<Part<'a>>) -> Result<(), Error>
    ensures ok { OnOk result (parts_view parts.new.items ≡ parts_view parts.old.items ++ maybe_view part.entry) }
    ensures err { IfErr result (λ e. e ≡ OutOfMemory) }
{
    if let Some(part) = part {
        parts.push(part)?;
    }
    Ok(())
}

/// Goes past a width, and puts after the parts what opens there, if it isn't settled; how many of the next are settled.
#[tactic(auto, using(crate::proofs::MetricsLaws::WidthLaws::Steps::past_settled, crate::proofs::MetricsLaws::WidthLaws::Steps::past_opened))]
fn step<'a>(
    parts: &mut Vec<Part<'a>>,
    most: usize,
    settled: usize,
    first: usize,
    default: u32,
    width: u32,
    following: &[u32],
    widths: &'a [u32],
) -> Result<usize, Error>
    requires whole { widths.now ≡ width ∷ following.now }
    requires room { first + length widths.now < 2 ^ 64 }
    ensures ok { IfOk result (λ n. parts_view parts.new.items ++ entries_from most (first + 1) default n following.now ≡ parts_view parts.old.items ++ entries_from most first default settled widths.now) }
    ensures err { IfErr result (λ e. e ≡ OutOfMemory) }
{
    if settled > 0 {
        return Ok(settled - 1);
    }
    let (part, more) = opened(most, first, default, width, following, widths);
    push_part(parts, part)?;
    Ok(more)
}

/// The parts of an array for widths from CID 0 on. After its first width a list has at most `most` more.
#[tactic(auto, using(crate::proofs::MetricsLaws::WidthLaws::Steps::headed, crate::proofs::MetricsLaws::WidthLaws::Steps::all_past))]
pub fn parts_of(
    alloc: Global,
    most: usize,
    widths: &[u32],
    default: u32,
) -> Result<Vec<Part<'_>>, Error>
    ensures ok { IfOk result (λ parts. parts_view parts.items ≡ entries_from most 0 default 0 widths.now) }
    ensures err { IfErr result (λ e. e ≡ OutOfMemory) }
{
    let mut parts = Vec::new(alloc);
    let mut settled = 0;
    let mut first = 0;
    let mut rest = widths;
    while let [width, following @ ..] = rest {
        settled = step(
            &mut parts, most, settled, first, default, *width, following, rest,
        )?;
        first += 1;
        rest = following;
    }
    Ok(parts)
}

/// How many elements a part adds to the outer array: a CID and a list, or two CIDs and `numbers` numbers.
fn elements_of(part: Part<'_>, numbers: usize) -> usize
    requires { numbers ≤ 3 }
    ensures { result ≡ elements_of numbers (part_view part.entry) }
{
    match part {
        Part::Each(..) => 2,
        Part::Same(..) => 2 + numbers,
    }
}

/// Whether an array of PDF/A-1, of at most 8,191 elements, has room for parts.
#[tactic(auto, using(crate::proofs::MetricsLaws::WidthLaws::Lists::room_left, crate::proofs::MetricsLaws::WidthLaws::Lists::no_room_left, crate::proofs::MetricsLaws::WidthLaws::Lists::room_for_all))]
pub fn has_room(numbers: usize, parts: &[Part<'_>]) -> bool
    requires { numbers ≤ 3 }
    ensures { result ≡ has_room numbers (parts_view parts.now) }
{
    let mut left = 8191;
    for part in parts {
        let more = elements_of(*part, numbers);
        if left < more {
            return false;
        }
        left -= more;
    }
    true
}

/// Lists of all widths from CID 0 on, each of at most `most`.
#[tactic(auto, using(crate::proofs::MetricsLaws::WidthLaws::Lists::no_widths))]
pub fn lists_of(alloc: Global, most: usize, widths: &[u32]) -> Result<Vec<Part<'_>>, Error>
    requires { 0 < most }
    ensures ok { IfOk result (λ parts. parts_view parts.items ≡ lists_from most (length widths.now) 0 widths.now) }
    ensures err { IfErr result (λ e. e ≡ OutOfMemory) }
{
    let mut parts = Vec::new(alloc);
    let mut first = 0;
    while first < widths.len() {
        let following = first + most.min(widths.len() - first);
        push_part(
            &mut parts,
            Some(Part::Each(first, &widths[first..following])),
        )?;
        first = following;
    }
    Ok(parts)
}

/// The parts of W: lists of all widths where the shorter parts are too many.
fn fitting_parts(alloc: Global, widths: &[u32], default: u32) -> Result<Vec<Part<'_>>, Error>
    ensures ok { IfOk result (λ parts. parts_view parts.items ≡ entries widths.now default) }
    ensures err { IfErr result (λ e. e ≡ OutOfMemory) }
{
    let parts = parts_of(alloc, 8189, widths, default)?;
    if has_room(1, &parts) {
        return Ok(parts);
    }
    lists_of(alloc, 8189, widths)
}

// ---- their text

/// Writes a CID in decimal.
pub fn write_cid(text: &mut Vec<u8>, cid: usize) -> Result<(), Error>
    ensures ok { OnOk result (text.new.items ≡ text.old.items ++ decimal cid) }
    ensures err { IfErr result (λ e. e ≡ OutOfMemory) }
{
    write!(text, "{cid}").map_err(|_| Error::OutOfMemory)
}

/// Writes `first [width ..]`.
#[tactic(auto, using(crate::proofs::Written::four_written))]
fn write_each(text: &mut Vec<u8>, first: usize, widths: &[u32]) -> Result<(), Error>
    ensures ok { OnOk result (text.new.items ≡ text.old.items ++ entry_text (each first widths.now)) }
    ensures err { IfErr result (λ e. e ≡ OutOfMemory) }
{
    write_cid(text, first)?;
    text.extend_from_slice(b" [")?;
    write_decimals(text, widths)?;
    text.extend_from_slice(b"]")?;
    Ok(())
}

/// Writes `first last width`.
#[tactic(auto, using(crate::proofs::Written::five_written))]
fn write_same(text: &mut Vec<u8>, first: usize, last: usize, width: u32) -> Result<(), Error>
    ensures ok { OnOk result (text.new.items ≡ text.old.items ++ entry_text (same first last width)) }
    ensures err { IfErr result (λ e. e ≡ OutOfMemory) }
{
    write_cid(text, first)?;
    text.extend_from_slice(b" ")?;
    write_cid(text, last)?;
    text.extend_from_slice(b" ")?;
    write_decimal(text, width)
}

/// Writes a part of W.
fn write_part(text: &mut Vec<u8>, part: Part<'_>) -> Result<(), Error>
    ensures ok { OnOk result (text.new.items ≡ text.old.items ++ entry_text (part_view part.entry)) }
    ensures err { IfErr result (λ e. e ≡ OutOfMemory) }
{
    match part {
        Part::Each(first, widths) => write_each(text, first, widths),
        Part::Same(first, last, width) => write_same(text, first, last, width),
    }
}

/// Writes parts of W with one space between each two.
fn write_parts(text: &mut Vec<u8>, parts: &[Part<'_>]) -> Result<(), Error>
    ensures ok { OnOk result (text.new.items ≡ text.old.items ++ join_with_byte 32 (map entry_text (parts_view parts.now))) }
    ensures err { IfErr result (λ e. e ≡ OutOfMemory) }
{
    let [first, rest @ ..] = parts else {
        return Ok(());
    };
    write_part(text, *first)?;
    for part in rest {
        text.push(b' ')?;
        write_part(text, *part)?;
    }
    Ok(())
}

/// The text of the parts.
#[tactic(auto, using(crate::proofs::Written::three_after_nothing))]
fn array_of(alloc: Global, widths: &[u32], default: u32) -> Result<Vec<u8>, Error>
    ensures ok { IfOk result (λ text. text.items ≡ array_text (entries widths.now default)) }
    ensures err { IfErr result (λ e. e ≡ OutOfMemory) }
{
    let parts = fitting_parts(alloc, widths, default)?;
    let mut text = Vec::new(alloc);
    text.extend_from_slice(b"[")?;
    write_parts(&mut text, &parts)?;
    text.extend_from_slice(b"]")?;
    Ok(text)
}

/// The value of W for the widths of the CIDs from 0 on, of which it leaves out those that are the default one (DW). Where it would have
/// more than 8,191 elements, it has lists of all widths.
///
/// # Errors
///
/// `OutOfMemory` alone.
pub fn write_widths(alloc: Global, widths: &[u32], default: u32) -> Result<Vec<u8>, Error>
    ensures ok { IfOk result (λ text. text.items ≡ array_text (entries widths.now default)) }
    ensures read { IfOk result (λ text. (k : ℕ) → k < length widths.now → value_in text.items default k ≡ Some (get_or widths.now k default)) }
    ensures err { IfErr result (λ e. e ≡ OutOfMemory) }
{
    array_of(alloc, widths, default)
}

/// What a reader of W finds for each CID is its width, and neither it nor a list in it is long.
pub fn widths_are_read()
    ensures read { AreRead }
    ensures few { AreFew }
    ensures short { (ws : List ℕ) (d : ℕ) → AreShort (entries ws d) }
{}
