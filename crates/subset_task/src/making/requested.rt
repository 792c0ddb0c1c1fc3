//! Which glyphs are kept of the font that was read.

ghost use Rattle.std.specs.Prelude.{◌≡◌, ◌⊎◌, [], map, filter, length, slice_index, IfOk, IfErr, OnOk, Some, None, Ok, Err};
ghost use Rattle.std.specs.Option.{option_map};
ghost use Rattle.std.specs.Str.{chars};
ghost use Rattle.text_glyphs.specs.Faces.{face_source};
ghost use Rattle.text_glyphs.specs.Reading.{is_entry};
ghost use Rattle.text_glyphs.specs.View.{source_view};
ghost use Rattle.subset_args.specs.Listing.Lists.{counting};
ghost use Rattle.subsetter_sfnt.specs.Extras.{all_extras};
ghost use Rattle.subset_task.specs.Making.Picked.{picked_view, nothing, both, part, texts_of, lacking, bare, of_text, of_characters};
ghost use Rattle.subset_task.specs.Making.Requested.{unless_no_font, face_glyphs, picked_of, picked_each, unless_missing, picked_for};
ghost use Rattle.subset_task.specs.declared.refusals.failure.Failure.TheVariants.{Error as Refused};
ghost use Rattle.subsetter_base.specs.declared.error.Error.TheVariants.{OutOfMemory};

use crate::refusals::failure::Failure;
use crate::task::{RequestedGlyphs, Requests};
use std::alloc::{AllocError, Global};
use subsetter::{Error, Tag};
use subsetter_sfnt::directory::{kind_at, table};
use subsetter_sfnt::fields::maxp::num_glyphs;
use text_glyphs::{Entry, TextSource, find_source, glyphs_of, is_entry, read_text};

/// The glyphs to keep, one after another, and the characters that request them.
#[derive(Drop)]
pub struct Picked {
    /// The old numbers.
    pub glyphs: Vec<u16>,
    /// The character of each, if it is requested by one.
    pub characters: Vec<Option<char>>,
    /// The texts of all, one after another.
    pub text: Vec<char>,
    /// How many characters of that each has.
    pub lengths: Vec<usize>,
    /// The characters that the face lacks, in order.
    pub missing: Vec<char>,
}

impl Picked {
    /// No glyphs.
    fn new(alloc: Global) -> Picked
        ensures { picked_view result ≡ nothing }
    {
        Picked {
            glyphs: Vec::new(alloc),
            characters: Vec::new(alloc),
            text: Vec::new(alloc),
            lengths: Vec::new(alloc),
            missing: Vec::new(alloc),
        }
    }

    /// Adds glyphs.
    fn append(&mut self, more: &Picked) -> Result<(), AllocError>
        ensures { OnOk result (picked_view self.new ≡ both (picked_view self.old) (picked_view more.now)) }
    {
        self.glyphs.extend_from_slice(&more.glyphs)?;
        self.characters.extend_from_slice(&more.characters)?;
        self.text.extend_from_slice(&more.text)?;
        self.lengths.extend_from_slice(&more.lengths)?;
        self.missing.extend_from_slice(&more.missing)?;
        Ok(())
    }
}

// ---- by number

/// The glyphs 0 to `count` - 1.
pub fn first_glyphs(alloc: Global, count: u16) -> Result<Vec<u16>, AllocError>
    ensures { IfOk result (λ v. v.items ≡ counting 0 count) }
{
    let mut glyphs = Vec::new(alloc);
    for glyph in 0..count {
        glyphs.push(glyph)?;
    }
    Ok(glyphs)
}

/// No character for each glyph.
fn no_characters(alloc: Global, glyphs: &[u16]) -> Result<Vec<Option<char>>, AllocError>
    ensures { IfOk result (λ v. v.items ≡ map (λ glyph. None) glyphs.now) }
{
    glyphs.iter().map(|_| None).collect(alloc)
}

/// No text for each glyph.
fn no_lengths(alloc: Global, glyphs: &[u16]) -> Result<Vec<usize>, AllocError>
    ensures { IfOk result (λ v. v.items ≡ map (λ glyph. 0) glyphs.now) }
{
    glyphs.iter().map(|_| 0).collect(alloc)
}

/// Glyphs that are requested by number.
fn bare(alloc: Global, glyphs: Vec<u16>) -> Result<Picked, AllocError>
    ensures { IfOk result (λ p. picked_view p ≡ bare glyphs.items) }
{
    let characters = no_characters(alloc, &glyphs)?;
    let lengths = no_lengths(alloc, &glyphs)?;
    Ok(Picked {
        glyphs,
        characters,
        text: Vec::new(alloc),
        lengths,
        missing: Vec::new(alloc),
    })
}

// ---- by a text

/// The characters of a text.
fn characters_of(alloc: Global, text: &str) -> Result<Vec<char>, AllocError>
    ensures { IfOk result (λ v. v.items ≡ chars text.now) }
{
    text.chars().collect(alloc)
}

/// The text of an entry.
fn part(text: &[char], entry: Entry) -> &[char]
    ensures { result.now ≡ part text.now entry }
{
    if entry.start <= entry.end && entry.end <= text.len() {
        &text[entry.start..entry.end]
    } else {
        &[]
    }
}

/// The texts of entries, one after another.
fn texts_of(alloc: Global, text: &[char], entries: &[Entry]) -> Result<Vec<char>, AllocError>
    ensures { IfOk result (λ v. v.items ≡ texts_of text.now entries.now) }
{
    let mut texts = Vec::with_capacity(alloc, text.len())?;
    let mut rest = entries;
    while let [entry, following @ ..] = rest {
        texts.extend_from_slice(part(text, *entry))?;
        rest = following;
    }
    Ok(texts)
}

/// How many characters each of these has.
fn lengths_of(alloc: Global, text: &[char], entries: &[Entry]) -> Result<Vec<usize>, AllocError>
    ensures { IfOk result (λ v. v.items ≡ map (λ entry. length (part text.now entry)) entries.now) }
{
    entries
        .iter()
        .map(|entry| part(text, *entry).len())
        .collect(alloc)
}

/// The glyphs of entries.
fn glyphs_in(alloc: Global, entries: &[Entry]) -> Result<Vec<u16>, AllocError>
    ensures { IfOk result (λ v. v.items ≡ map (λ entry. entry.glyph) entries.now) }
{
    entries.iter().map(|entry| entry.glyph).collect(alloc)
}

/// The character of each entry of a text.
fn entry_characters(alloc: Global, text: &[char]) -> Result<Vec<Option<char>>, AllocError>
    ensures { IfOk result (λ v. v.items ≡ map (λ c. Some c) (filter is_entry text.now)) }
{
    text.iter()
        .copied()
        .filter(|c| is_entry(*c))
        .map(|c| Some(c))
        .collect(alloc)
}

/// The character at a place of a text.
fn character_at(text: &[char], place: usize) -> char
    ensures { result ≡ slice_index text.now place }
{
    if place < text.len() {
        text[place]
    } else {
        '\0'
    }
}

/// The characters at places of a text.
fn characters_at(alloc: Global, text: &[char], places: &[usize]) -> Result<Vec<char>, AllocError>
    ensures { IfOk result (λ v. v.items ≡ map (slice_index text.now) places.now) }
{
    places
        .iter()
        .map(|place| character_at(text, *place))
        .collect(alloc)
}

/// The glyphs of a text.
#[tactic(auto, unfolding(crate::specs::Making::Picked::of_text))]
fn of_text(alloc: Global, source: &TextSource<'_>, text: &[char]) -> Result<Picked, AllocError>
    ensures { IfOk result (λ p. picked_view p ≡ of_text (source_view source.now) text.now) }
{
    let read = read_text(alloc, source, text)?;
    let glyphs = glyphs_in(alloc, &read.entries)?;
    let characters = entry_characters(alloc, text)?;
    let texts = texts_of(alloc, text, &read.entries)?;
    let lengths = lengths_of(alloc, text, &read.entries)?;
    let missing = characters_at(alloc, text, &read.missing)?;
    Ok(Picked {
        glyphs,
        characters,
        text: texts,
        lengths,
        missing,
    })
}

// ---- by characters

/// The characters whose glyph is 0.
fn lacking(alloc: Global, characters: &[char], glyphs: &[u16]) -> Result<Vec<char>, AllocError>
    ensures { IfOk result (λ v. v.items ≡ lacking characters.now glyphs.now) }
{
    let mut found = Vec::new(alloc);
    let mut rest = characters;
    let mut left = glyphs;
    while let [character, following @ ..] = rest {
        let [glyph, others @ ..] = left else {
            return Ok(found);
        };
        if *glyph == 0 {
            found.push(*character)?;
        }
        rest = following;
        left = others;
    }
    Ok(found)
}

/// Each character.
fn each_character(alloc: Global, characters: &[char]) -> Result<Vec<Option<char>>, AllocError>
    ensures { IfOk result (λ v. v.items ≡ map (λ c. Some c) characters.now) }
{
    characters.iter().map(|c| Some(*c)).collect(alloc)
}

/// A text of one character for each.
fn each_length(alloc: Global, characters: &[char]) -> Result<Vec<usize>, AllocError>
    ensures { IfOk result (λ v. v.items ≡ map (λ c. 1) characters.now) }
{
    characters.iter().map(|_| 1).collect(alloc)
}

/// The glyphs of characters, each by itself.
fn of_characters(
    alloc: Global,
    source: &TextSource<'_>,
    given: &[char],
) -> Result<Picked, AllocError>
    ensures { IfOk result (λ p. picked_view p ≡ of_characters (source_view source.now) given.now) }
{
    let glyphs = glyphs_of(alloc, &source.table, given)?;
    let missing = lacking(alloc, given, &glyphs)?;
    let characters = each_character(alloc, given)?;
    let lengths = each_length(alloc, given)?;
    let text = Vec::from_slice(alloc, given)?;
    Ok(Picked {
        glyphs,
        characters,
        text,
        lengths,
        missing,
    })
}

// ---- of a face

/// The tables of a face's `cmap` by which a text is read.
fn face_source(file: &[u8], index: u32) -> Option<TextSource<'_>>
    ensures { option_map source_view result ≡ face_source (record { bytes = file.now; index = index; extras = all_extras }) }
{
    let cmap = table(file, index, Tag::new(b"cmap"))?;
    find_source(cmap)
}

/// Why a table isn't found: the file is no font, or else this.
fn unless_no_font(font: &[u8], failure: Failure) -> Failure
    ensures { result ≡ unless_no_font font.now failure }
{
    match kind_at(font, 0) {
        Some(_) => failure,
        None => Failure::Error(Error::UnknownKind),
    }
}

/// What is answered where a request for memory was refused.
fn no_memory(_error: AllocError) -> Failure
    ensures { result ≡ Refused OutOfMemory }
{
    Failure::Error(Error::OutOfMemory)
}

/// The glyphs that are listed.
fn pick_these(alloc: Global, given: &[u16]) -> Result<Picked, Failure>
    ensures ok { IfOk result (λ p. picked_view p ≡ bare given.now) }
    ensures err { IfErr result (λ e. e ≡ Refused OutOfMemory) }
{
    let glyphs = Vec::from_slice(alloc, given).map_err(no_memory)?;
    bare(alloc, glyphs).map_err(no_memory)
}

/// numGlyphs of a face's `maxp`.
pub fn count_glyphs(font: &[u8], index: u32) -> Option<u16>
    ensures { result ≡ face_glyphs (record { bytes = font.now; index = index; extras = all_extras }) }
{
    let maxp = table(font, index, Tag::MAXP)?;
    num_glyphs(maxp)
}

/// Every glyph of the face.
fn pick_all(alloc: Global, font: &[u8], index: u32) -> Result<Picked, Failure>
    ensures ok { IfOk result (λ p. picked_of (record { bytes = font.now; index = index; extras = all_extras }) RequestedGlyphs.Every ≡ Ok (picked_view p)) }
    ensures err { IfErr result (λ e. (e ≡ Refused OutOfMemory) ⊎ (picked_of (record { bytes = font.now; index = index; extras = all_extras }) RequestedGlyphs.Every ≡ Err e)) }
{
    let Some(count) = count_glyphs(font, index) else {
        return Err(unless_no_font(font, Failure::Error(Error::MalformedFont)));
    };
    let glyphs = first_glyphs(alloc, count).map_err(no_memory)?;
    bare(alloc, glyphs).map_err(no_memory)
}

/// The glyphs of a text's characters.
fn pick_by_text(alloc: Global, font: &[u8], index: u32, text: &str) -> Result<Picked, Failure>
    ensures ok { IfOk result (λ p. picked_of (record { bytes = font.now; index = index; extras = all_extras }) (RequestedGlyphs.ByText text.entry) ≡ Ok (picked_view p)) }
    ensures err { IfErr result (λ e. (e ≡ Refused OutOfMemory) ⊎ (picked_of (record { bytes = font.now; index = index; extras = all_extras }) (RequestedGlyphs.ByText text.entry) ≡ Err e)) }
{
    let Some(source) = face_source(font, index) else {
        return Err(unless_no_font(font, Failure::NoMapping));
    };
    let characters = characters_of(alloc, text).map_err(no_memory)?;
    of_text(alloc, &source, &characters).map_err(no_memory)
}

/// The glyphs of characters.
fn pick_by_characters(
    alloc: Global,
    font: &[u8],
    index: u32,
    given: &[char],
) -> Result<Picked, Failure>
    ensures ok { IfOk result (λ p. picked_of (record { bytes = font.now; index = index; extras = all_extras }) (RequestedGlyphs.ByCharacters given.entry) ≡ Ok (picked_view p)) }
    ensures err { IfErr result (λ e. (e ≡ Refused OutOfMemory) ⊎ (picked_of (record { bytes = font.now; index = index; extras = all_extras }) (RequestedGlyphs.ByCharacters given.entry) ≡ Err e)) }
{
    let Some(source) = face_source(font, index) else {
        return Err(unless_no_font(font, Failure::NoMapping));
    };
    of_characters(alloc, &source, given).map_err(no_memory)
}

/// The glyphs of one request.
fn pick_one(
    alloc: Global,
    font: &[u8],
    index: u32,
    asked: &RequestedGlyphs<'_>,
) -> Result<Picked, Failure>
    ensures ok { IfOk result (λ p. picked_of (record { bytes = font.now; index = index; extras = all_extras }) asked.now ≡ Ok (picked_view p)) }
    ensures err { IfErr result (λ e. (e ≡ Refused OutOfMemory) ⊎ (picked_of (record { bytes = font.now; index = index; extras = all_extras }) asked.now ≡ Err e)) }
{
    match asked {
        RequestedGlyphs::These(given) => pick_these(alloc, given),
        RequestedGlyphs::Every => pick_all(alloc, font, index),
        RequestedGlyphs::ByText(text) => pick_by_text(alloc, font, index, text),
        RequestedGlyphs::ByCharacters(given) => pick_by_characters(alloc, font, index, given),
    }
}

/// Adds glyphs.
fn push_picked(picked: &mut Picked, more: &Picked) -> Result<(), Failure>
    ensures ok { OnOk result (picked_view picked.new ≡ both (picked_view picked.old) (picked_view more.now)) }
    ensures err { IfErr result (λ e. e ≡ Refused OutOfMemory) }
{
    match picked.append(more) {
        Ok(()) => Ok(()),
        Err(_) => Err(Failure::Error(Error::OutOfMemory)),
    }
}

/// The glyphs of requests, one after another.
#[tactic(auto, using(crate::proofs::Requesting::after_nothing, crate::proofs::Requesting::after_one, crate::proofs::Requesting::failed_at))]
fn pick_each(
    alloc: Global,
    font: &[u8],
    index: u32,
    asked: &[RequestedGlyphs<'_>],
) -> Result<Picked, Failure>
    ensures ok { IfOk result (λ p. picked_each (record { bytes = font.now; index = index; extras = all_extras }) asked.now ≡ Ok (picked_view p)) }
    ensures err { IfErr result (λ e. (e ≡ Refused OutOfMemory) ⊎ (picked_each (record { bytes = font.now; index = index; extras = all_extras }) asked.now ≡ Err e)) }
{
    let mut picked = Picked::new(alloc);
    let mut rest = asked;
    while let [one, following @ ..] = rest {
        let more = pick_one(alloc, font, index, one)?;
        push_picked(&mut picked, &more)?;
        rest = following;
    }
    Ok(picked)
}

/// The glyphs, unless the face lacks a character and none may be lacking.
fn unless_missing(is_strict: bool, picked: Picked) -> Result<Picked, Failure>
    ensures ok { IfOk result (λ p. unless_missing is_strict (picked_view picked) ≡ Ok (picked_view p)) }
    ensures err { IfErr result (λ e. unless_missing is_strict (picked_view picked) ≡ Err e) }
{
    if is_strict && picked.missing.len() > 0 {
        return Err(Failure::MissingCharacters);
    }
    Ok(picked)
}

/// The glyphs to keep of a font.
///
/// `NoMapping` where a text or characters are given and the face has no `cmap` of a kind that is read; `MissingCharacters` where
/// it lacks one of them and none may be lacking; `Error` where every glyph is requested and the face has no count of them, where
/// the file is no font by its first bytes, or where memory ran out.
pub fn pick(alloc: Global, font: &[u8], index: u32, asked: &Requests<'_>) -> Result<Picked, Failure>
    ensures ok { IfOk result (λ p. picked_for (record { bytes = font.now; index = index; extras = all_extras }) asked.now ≡ Ok (picked_view p)) }
    ensures err { IfErr result (λ e. (e ≡ Refused OutOfMemory) ⊎ (picked_for (record { bytes = font.now; index = index; extras = all_extras }) asked.now ≡ Err e)) }
{
    match pick_each(alloc, font, index, asked.pieces) {
        Ok(picked) => match unless_missing(asked.is_strict, picked) {
            Ok(picked) => Ok(picked),
            Err(failure) => Err(failure),
        },
        Err(failure) => Err(failure),
    }
}
