//! The glyphs that a file lists.

ghost use Rattle.std.specs.Prelude.{◌≡◌, ◌⊎◌, ◌≤◌, ◌++◌, ◌+◌, ◌-◌, ◌==◌, not, ℕ, map, filter, IfOk, IfErr, IfSome, OnOk, IsTrue, Some, None};
ghost use Rattle.std.specs.Option.{option_map};
ghost use Rattle.std.specs.List.{slice_split};
ghost use Rattle.std.specs.Str.{IsUtf8};
ghost use Rattle.subset_args.specs.Listing.Lists.{counting, is_blank, as_comma, is_star, in_order, ends_of_range, ends_in, is_less, descends, between, part_glyphs, parts_glyphs, parts, argument_list, glyphs_in_file, few};
ghost use Rattle.subset_args.specs.Listing.ListView.{ends_view, list_view};
ghost use Rattle.subset_args.specs.declared.jobs.command.ArgsError.TheVariants.{Usage, OutOfMemory};

use crate::jobs::command::ArgsError;
use crate::listing::few::are_few;
use crate::words::{parts_of, u16_of};
use std::alloc::{AllocError, Global};

/// What a file or an argument requests.
#[derive(Drop)]
pub enum GlyphList {
    /// Every glyph of the face.
    Every,
    /// The glyphs of these old numbers, in this order.
    These(Vec<u16>),
    /// The glyphs of these characters, in this order.
    Characters(Vec<char>),
    /// The glyphs of the characters of this text.
    Text(String),
}

/// What a file has by which glyphs are requested.
#[derive(Clone, Copy)]
pub enum FileKind {
    /// A list of glyphs.
    Glyphs,
    /// A list of characters, by their numbers in Unicode.
    Characters,
    /// A text.
    Text,
}

/// The ends of a range of glyphs.
#[derive(Clone, Copy)]
pub struct Ends {
    pub first: u16,
    pub last: u16,
}

/// Whether a byte is a blank, a tab or a line end.
pub fn is_blank(b: u8) -> bool
    ensures { result ≡ is_blank b }
{
    b == b' ' || (b == b'\t' || (b == b'\n' || b == b'\r'))
}

/// A comma for each of these.
fn as_comma(b: u8) -> u8
    ensures { result ≡ as_comma b }
{
    if is_blank(b) { b',' } else { b }
}

/// The text with commas for its blanks and line ends.
pub fn with_commas(alloc: Global, text: &[u8]) -> Result<Vec<u8>, AllocError>
    ensures { IfOk result (λ v. v.items ≡ map as_comma text.now) }
{
    text.iter().map(|b| as_comma(*b)).collect(alloc)
}

/// The text without its blanks and line ends.
fn without_blanks(alloc: Global, text: &[u8]) -> Result<Vec<u8>, AllocError>
    ensures { IfOk result (λ v. v.items ≡ filter (λ b. not (is_blank b)) text.now) }
{
    text.iter()
        .copied()
        .filter(|b| !is_blank(*b))
        .collect(alloc)
}

/// Whether a text is `*`, but for blanks and line ends.
fn is_star(alloc: Global, text: &[u8]) -> Result<bool, AllocError>
    ensures { IfOk result (λ b. b ≡ is_star text.now) }
{
    let kept = without_blanks(alloc, text)?;
    Ok(kept.as_slice() == b"*".as_slice())
}

/// The ends, if they are in order.
fn in_order(first: u16, last: u16) -> Option<Ends>
    ensures { option_map ends_view result ≡ in_order first last }
{
    if first <= last {
        return Some(Ends { first, last });
    }
    None
}

/// The ends of a range or of one number.
pub fn ends_in(part: &str) -> Option<Ends>
    ensures { option_map ends_view result ≡ ends_in part.now }
{
    match part.split_once('-') {
        Some((first, last)) => {
            let first = u16_of(first)?;
            in_order(first, u16_of(last)?)
        }
        None => {
            let glyph = u16_of(part)?;
            Some(Ends {
                first: glyph,
                last: glyph,
            })
        }
    }
}

/// Whether of two numbers the one is less.
pub fn is_less(one: Option<u32>, other: Option<u32>) -> bool
    ensures { result ≡ is_less one other }
{
    match (one, other) {
        (Some(one), Some(other)) => one < other,
        (Some(_), None) => false,
        (None, _) => false,
    }
}

/// A number of 16 bits in 32.
fn wide(number: Option<u16>) -> Option<u32>
    ensures { result ≡ number }
{
    match number {
        Some(number) => Some(u32::from(number)),
        None => None,
    }
}

/// Whether a part of a list is a range whose ends are numbers, and not in order.
pub fn descends(part: &str) -> bool
    ensures { result ≡ descends part.now }
{
    match part.split_once('-') {
        Some((first, last)) => is_less(wide(u16_of(last)), wide(u16_of(first))),
        None => false,
    }
}

/// Adds the glyphs of a range.
#[tactic(auto, using(crate::proofs::Counting::counting_step, crate::proofs::Counting::counting_end))]
fn push_range(glyphs: &mut Vec<u16>, first: u16, last: u16) -> Result<(), AllocError>
    requires { first ≤ last }
    ensures { OnOk result (glyphs.new.items ≡ glyphs.old.items ++ counting first (last + 1 - first)) }
{
    for number in u32::from(first)..u32::from(last) + 1 {
        glyphs.push(number as u16)?;
    }
    Ok(())
}

/// Adds the glyphs that a part lists.
fn push_part(glyphs: &mut Vec<u16>, part: &str) -> Result<(), ArgsError>
    ensures ok { OnOk result (option_map (λ more. glyphs.old.items ++ more) (part_glyphs part.now) ≡ Some glyphs.new.items) }
    ensures err { IfErr result (λ e. (e ≡ OutOfMemory) ⊎ ((e ≡ Usage) × (part_glyphs part.now ≡ None))) }
{
    if part.is_empty() {
        return Ok(());
    }
    let ends = ends_in(part).ok_or(ArgsError::Usage)?;
    push_range(glyphs, ends.first, ends.last)?;
    Ok(())
}

/// The glyphs that parts list.
fn glyphs_in(alloc: Global, parts: &[&str]) -> Result<Vec<u16>, ArgsError>
    ensures ok { IfOk result (λ v. parts_glyphs (map (λ part. part.now) parts.now) ≡ Some v.items) }
    ensures err { IfErr result (λ e. (e ≡ OutOfMemory) ⊎ ((e ≡ Usage) × (parts_glyphs (map (λ part. part.now) parts.now) ≡ None))) }
{
    let mut glyphs = Vec::new(alloc);
    for part in parts {
        push_part(&mut glyphs, part)?;
    }
    Ok(glyphs)
}

/// The glyphs that parts list, if they are few enough.
fn few_glyphs(alloc: Global, parts: &[&str]) -> Result<Vec<u16>, ArgsError>
    ensures ok { IfOk result (λ v. few ends_in parts_glyphs (map (λ part. part.now) parts.now) ≡ Some v.items) }
    ensures err { IfErr result (λ e. (e ≡ OutOfMemory) ⊎ ((e ≡ Usage) × (few ends_in parts_glyphs (map (λ part. part.now) parts.now) ≡ None))) }
{
    if !are_few(FileKind::Glyphs, parts) {
        return Err(ArgsError::Usage);
    }
    glyphs_in(alloc, parts)
}

/// The glyphs that numbers and ranges list.
fn read_numbers(alloc: Global, text: &[u8]) -> Result<Vec<u16>, ArgsError>
    ensures ok { IfOk result (λ v. few ends_in parts_glyphs (parts text.now) ≡ Some v.items) }
    ensures err { IfErr result (λ e. (e ≡ OutOfMemory) ⊎ ((e ≡ Usage) × (¬ (IsUtf8 (map as_comma text.now)) ⊎ (few ends_in parts_glyphs (parts text.now) ≡ None)))) }
{
    let divided = with_commas(alloc, text)?;
    let Ok(divided) = str::from_utf8(divided.as_slice()) else {
        return Err(ArgsError::Usage);
    };
    let parts = parts_of(alloc, divided)?;
    few_glyphs(alloc, &parts)
}

/// The glyphs that numbers and ranges with commas list.
fn read_parts(alloc: Global, text: &str) -> Result<Vec<u16>, ArgsError>
    ensures ok { IfOk result (λ v. few ends_in parts_glyphs (slice_split (λ b. b == 44) text.now) ≡ Some v.items) }
    ensures err { IfErr result (λ e. (e ≡ OutOfMemory) ⊎ ((e ≡ Usage) × (few ends_in parts_glyphs (slice_split (λ b. b == 44) text.now) ≡ None))) }
{
    let parts = parts_of(alloc, text)?;
    few_glyphs(alloc, &parts)
}

/// The glyphs that an argument lists: numbers and ranges as `3,5,10-20`, or `*` for every glyph of the face.
///
/// `Usage` where it lists no glyphs so, or more than 2,000,000.
pub fn read_argument(alloc: Global, text: &str) -> Result<GlyphList, ArgsError>
    ensures ok { IfOk result (λ list. argument_list text.now ≡ Some (list_view list)) }
    ensures err { IfErr result (λ e. (e ≡ OutOfMemory) ⊎ ((e ≡ Usage) × (argument_list text.now ≡ None))) }
{
    if text == "*" {
        return Ok(GlyphList::Every);
    }
    Ok(GlyphList::These(read_parts(alloc, text)?))
}

/// Whether a part of a list is no number and no range.
pub fn is_wrong_part(part: &[u8]) -> bool
    ensures { IsTrue result → ¬ (IsUtf8 part.now) ⊎ (ends_in part.now ≡ None) }
{
    match str::from_utf8(part) {
        Ok(part) => !part.is_empty() && ends_in(part).is_none(),
        Err(_) => true,
    }
}

/// The first part of the text of a file that is no number and no range, for which `glyphs_in_file` returns `Usage`.
pub fn find_wrong_part(text: &[u8]) -> Option<&[u8]>
    ensures { IfSome result (λ part. ¬ (IsUtf8 part.now) ⊎ (ends_in part.now ≡ None)) }
{
    for part in text.split(|b| is_blank(*b) || *b == b',') {
        if is_wrong_part(part) {
            return Some(part);
        }
    }
    None
}

/// The glyphs that the text of a file lists: numbers and ranges as `36-38`, divided by commas, blanks or line ends, or `*`
/// for every glyph of the face.
///
/// `Usage` where it lists no glyphs so, or more than 2,000,000.
pub fn glyphs_in_file(alloc: Global, text: &[u8]) -> Result<GlyphList, ArgsError>
    ensures ok { IfOk result (λ list. glyphs_in_file text.now ≡ Some (list_view list)) }
    ensures err { IfErr result (λ e. (e ≡ OutOfMemory) ⊎ ((e ≡ Usage) × (¬ (IsUtf8 (map as_comma text.now)) ⊎ (glyphs_in_file text.now ≡ None)))) }
{
    if is_star(alloc, text)? {
        return Ok(GlyphList::Every);
    }
    Ok(GlyphList::These(read_numbers(alloc, text)?))
}
