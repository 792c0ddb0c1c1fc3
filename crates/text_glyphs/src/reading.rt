//! A text read without shaping.

ghost use Rattle.std.specs.Prelude.{◌≡◌, ◌<◌, ◌≤◌, ◌+◌, ◌^◌, ◌++◌, length, map, IfOk, OnOk};
ghost use Rattle.subsetter_base.specs.Bytes.{first_number};
ghost use Rattle.text_glyphs.specs.Choice.{character_glyph};
ghost use Rattle.text_glyphs.specs.Reading.{at_front, entries_from, entries_of, entry_at, glyphs_in, if_sequence, ignorables_in, is_entry, listed, missing_at, missing_from, missing_in, next_begun, sequence_before};
ghost use Rattle.text_glyphs.specs.Own.{with_sequences};
ghost use Rattle.text_glyphs.specs.View.{source_view};

use crate::characters::glyphs_of;
use crate::kinds::{is_control, is_ignorable, is_selector};
use crate::sequences::sequence_glyph;
use crate::source::TextSource;
use std::alloc::{AllocError, Global};

/// A glyph, and the characters of the text that are its text: from one place up to before another. C has it as it is.
#[derive(Clone, Copy, PartialEq, Eq, Debug)]
#[repr(C)]
pub struct Entry {
    /// The number of the glyph in the font.
    pub glyph: u16,
    /// The place of its first character.
    pub start: usize,
    /// The place after its last character.
    pub end: usize,
}

/// What a text is without shaping.
#[derive(Drop)]
pub struct ReadText {
    /// The glyphs, in order, each with a part of the text.
    pub entries: Vec<Entry>,
    /// The places of the characters that the font lacks, in order: controls, which have no entry, and characters whose entry
    /// has glyph 0.
    pub missing: Vec<usize>,
}

/// Where the text of the next entry begins.
#[derive(Clone, Copy)]
pub(crate) struct Begun {
    /// Whether it begins after another entry.
    pub(crate) follows: bool,
    /// The place.
    pub(crate) from: usize,
}

// ---- the glyph of each character

/// The glyph of a character and the one after it, if the font has another for the two.
fn if_sequence(source: &TextSource<'_>, character: char, next: char) -> Option<u16>
    ensures { result ≡ if_sequence (source_view source.now) character next }
{
    let table = source.sequences?;
    if is_selector(next) {
        sequence_glyph(table, character, next)
    } else {
        None
    }
}

/// The first character.
fn first_of(text: &[char]) -> Option<char>
    ensures { result ≡ first_number text.now }
{
    match text {
        [] => None,
        [character, ..] => Some(*character),
    }
}

/// The glyph of the sequence of a character before the rest of a text, if the font has another than the character's.
fn sequence_before(source: &TextSource<'_>, character: char, rest: &[char]) -> Option<u16>
    ensures { result ≡ sequence_before (source_view source.now) character rest.now }
{
    let next = first_of(rest)?;
    if_sequence(source, character, next)
}

/// The glyph of each character of a text: that of its sequence, or its own.
fn with_sequences(
    alloc: Global,
    source: &TextSource<'_>,
    text: &[char],
    own: &[u16],
) -> Result<Vec<u16>, AllocError>
    ensures { IfOk result (λ v. v.items ≡ with_sequences (source_view source.now) text.now own.now) }
{
    let mut glyphs = Vec::with_capacity(alloc, text.len())?;
    let mut rest = text;
    let mut left = own;
    while let [character, following @ ..] = rest {
        let [glyph, others @ ..] = left else {
            return Ok(glyphs);
        };
        glyphs.push(sequence_before(source, *character, following).unwrap_or(*glyph))?;
        rest = following;
        left = others;
    }
    Ok(glyphs)
}

/// The glyph of each of these characters, whose own glyphs have to be found.
#[tactic(auto, using(crate::proofs::ReadSteps::own_glyphs))]
fn glyphs_in(alloc: Global, source: &TextSource<'_>, text: &[char]) -> Result<Vec<u16>, AllocError>
    ensures { IfOk result (λ v. v.items ≡ glyphs_in (source_view source.now) text.now) }
{
    let own = glyphs_of(alloc, &source.table, text)?;
    with_sequences(alloc, source, text, &own)
}

// ---- entries

/// How many default ignorables a text begins with.
fn ignorables_in(text: &[char]) -> usize
    ensures value { result ≡ ignorables_in text.now }
    ensures within { result ≤ length text.now }
{
    let mut n = 0;
    for character in text {
        if !is_ignorable(*character) {
            return n;
        }
        n += 1;
    }
    n
}

/// Whether a character has an entry: it is no control and no default ignorable.
pub fn is_entry(character: char) -> bool
    ensures { result ≡ is_entry character }
{
    !(is_control(character) || is_ignorable(character))
}

/// The entry of a character, if it has one.
fn entry_at(begun: Begun, place: usize, character: char, rest: &[char], glyph: u16) -> Option<Entry>
    requires { place + 1 + length rest.now < 2 ^ 64 }
    ensures { result ≡ entry_at begun place character rest.now glyph }
{
    if !is_entry(character) {
        return None;
    }
    Some(Entry {
        glyph,
        start: begun.from,
        end: place + 1 + ignorables_in(rest),
    })
}

/// Where the text of the next entry begins, after a character at a place.
fn next_begun(begun: Begun, place: usize, character: char) -> Begun
    requires { place + 1 < 2 ^ 64 }
    ensures { result ≡ next_begun begun place character }
{
    if is_ignorable(character) && !begun.follows {
        return begun;
    }
    Begun {
        follows: !is_control(character),
        from: place + 1,
    }
}

/// Lists an entry, if there is one.
fn push_entry(entries: &mut Vec<Entry>, entry: Option<Entry>) -> Result<(), AllocError>
    ensures { OnOk result (entries.new.items ≡ entries.old.items ++ listed entry) }
{
    if let Some(entry) = entry {
        entries.push(entry)?;
    }
    Ok(())
}

/// The entries of a text, by the glyph of each character.
#[tactic(auto, using(crate::proofs::ReadSteps::entries_on))]
fn entries_by(alloc: Global, text: &[char], glyphs: &[u16]) -> Result<Vec<Entry>, AllocError>
    ensures { IfOk result (λ v. v.items ≡ entries_from at_front 0 text.now glyphs.now) }
{
    let mut entries = Vec::with_capacity(alloc, text.len())?;
    let mut begun = Begun {
        follows: false,
        from: 0,
    };
    let mut place = 0;
    let mut rest = text;
    let mut left = glyphs;
    while let [character, following @ ..] = rest {
        let [glyph, others @ ..] = left else {
            return Ok(entries);
        };
        push_entry(
            &mut entries,
            entry_at(begun, place, *character, following, *glyph),
        )?;
        begun = next_begun(begun, place, *character);
        place += 1;
        rest = following;
        left = others;
    }
    Ok(entries)
}

// ---- what is missing

/// The place of a character, if the font lacks it.
fn missing_at(place: usize, character: char, glyph: u16) -> Option<usize>
    ensures { result ≡ missing_at place character glyph }
{
    if is_control(character) || (is_entry(character) && glyph == 0) {
        return Some(place);
    }
    None
}

/// Lists a place, if there is one.
fn push_place(places: &mut Vec<usize>, place: Option<usize>) -> Result<(), AllocError>
    ensures { OnOk result (places.new.items ≡ places.old.items ++ listed place) }
{
    if let Some(place) = place {
        places.push(place)?;
    }
    Ok(())
}

/// The places of what the font lacks, by the glyph of each character.
#[tactic(auto, using(crate::proofs::ReadSteps::missing_on))]
fn missing_by(alloc: Global, text: &[char], glyphs: &[u16]) -> Result<Vec<usize>, AllocError>
    ensures { IfOk result (λ v. v.items ≡ missing_from 0 text.now glyphs.now) }
{
    let mut places = Vec::new(alloc);
    let mut place = 0;
    let mut rest = text;
    let mut left = glyphs;
    while let [character, following @ ..] = rest {
        let [glyph, others @ ..] = left else {
            return Ok(places);
        };
        push_place(&mut places, missing_at(place, *character, *glyph))?;
        place += 1;
        rest = following;
        left = others;
    }
    Ok(places)
}

/// A text read without shaping: the glyph of each character by the font, with the character as its text, and what the font lacks.
///
/// A character and a variation selector have the glyph of their sequence, if the font has another than the character's. Default
/// ignorables (joiners, selectors, marks of direction) have no entry: each is text of the entry before it, or of the one after it
/// where none is before. Controls have no entry, and are among the missing; the text begins anew after each.
///
/// # Errors
///
/// `AllocError` where a request for memory is refused.
pub fn read_text(
    alloc: Global,
    source: &TextSource<'_>,
    text: &[char],
) -> Result<ReadText, AllocError>
    ensures entries { IfOk result (λ r. r.entries.items ≡ entries_of (source_view source.now) text.now) }
    ensures missing { IfOk result (λ r. r.missing.items ≡ missing_in (source_view source.now) text.now) }
{
    let glyphs = glyphs_in(alloc, source, text)?;
    let entries = entries_by(alloc, text, &glyphs)?;
    let missing = missing_by(alloc, text, &glyphs)?;
    Ok(ReadText { entries, missing })
}
