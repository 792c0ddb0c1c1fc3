//! What the words of `subsetter_pdf_options` choose.

ghost use Rattle.std.specs.Prelude.{◌≡◌, ◌<◌, ◌≤◌, ◌==◌, MatchOption, length};
ghost use Rattle.subsetter_c.specs.Options.{AreKnown, word};
ghost use Rattle.subsetter_c.specs.Documents.PdfOptions.{AreFontOptionsChosen, AreFontWordsKnown, AreFurtherKnown, AreLetters, IsFurtherChosen, IsTagChosen, IsTagKnown, IsTagOf, bounds_chosen, codes_chosen, direction_chosen, program_chosen, rights_chosen};

use crate::options::{options_of, word};
use pdf_font::{Bounds, Codes, Direction, FontOptions, ProgramChoice, Rights, SubsetTag};
use subsetter::Options;

/// Whether a word is 1; none for one above.
fn flag_of(number: u32) -> Option<bool>
    ensures { MatchOption result (2 ≤ number) (λ b. (number < 2) × (b ≡ (number == 1))) }
{
    match number {
        0 => Some(false),
        1 => Some(true),
        _ => None,
    }
}

/// What the font program of a CFF font is.
fn program_of(number: u32) -> Option<ProgramChoice>
    ensures { MatchOption result (2 ≤ number) (λ choice. (number < 2) × (choice ≡ program_chosen number)) }
{
    match number {
        0 => Some(ProgramChoice::Smallest),
        1 => Some(ProgramChoice::OpenType),
        _ => None,
    }
}

/// How glyphs get codes.
pub fn codes_of(number: u32) -> Option<Codes>
    ensures { MatchOption result (3 ≤ number) (λ choice. (number < 3) × (choice ≡ codes_chosen number)) }
{
    match number {
        0 => Some(Codes::Consecutive),
        1 => Some(Codes::Source),
        2 => Some(Codes::EachText),
        _ => None,
    }
}

/// How text runs.
fn direction_of(number: u32) -> Option<Direction>
    ensures { MatchOption result (2 ≤ number) (λ choice. (number < 2) × (choice ≡ direction_chosen number)) }
{
    match number {
        0 => Some(Direction::Horizontal),
        1 => Some(Direction::Vertical),
        _ => None,
    }
}

/// Which glyphs FontBBox holds.
fn bounds_of(number: u32) -> Option<Bounds>
    ensures { MatchOption result (2 ≤ number) (λ choice. (number < 2) × (choice ≡ bounds_chosen number)) }
{
    match number {
        0 => Some(Bounds::Font),
        1 => Some(Bounds::Kept),
        _ => None,
    }
}

/// Whose permission counts.
fn rights_of(number: u32) -> Option<Rights>
    ensures { MatchOption result (2 ≤ number) (λ choice. (number < 2) × (choice ≡ rights_chosen number)) }
{
    match number {
        0 => Some(Rights::AsSaid),
        1 => Some(Rights::Held),
        _ => None,
    }
}

/// The tag of two words with three capitals each, the first in the higher bits.
fn letters_of(front: u32, back: u32) -> Option<SubsetTag>
    ensures { MatchOption result (¬ (AreLetters front back)) (λ tag. IsTagOf front back tag) }
{
    if front >= 16_777_216 || back >= 16_777_216 {
        return None;
    }
    let front = front.to_be_bytes();
    let back = back.to_be_bytes();
    SubsetTag::new(&[front[1], front[2], front[3], back[1], back[2], back[3]])
}

/// The tag that two words choose, if they choose one.
fn tag_of(front: u32, back: u32) -> Option<Option<SubsetTag>>
    ensures { MatchOption result (¬ (IsTagKnown front back)) (λ tag. IsTagKnown front back × IsTagChosen front back tag) }
{
    if front == 0 && back == 0 {
        return Some(None);
    }
    Some(Some(letters_of(front, back)?))
}

/// The options that the words after those of `subsetter_options` choose beside these.
fn with_words(options: Options, words: &[u32]) -> Option<FontOptions>
    ensures { MatchOption result (¬ (AreFurtherKnown words.now)) (λ chosen. AreFurtherKnown words.now × IsFurtherChosen options words.now chosen) }
{
    flag_of(word(words, 13))?;
    Some(FontOptions {
        limits: options.limits,
        hinting: options.extras.hinting,
        program: program_of(word(words, 5))?,
        codes: codes_of(word(words, 6))?,
        direction: direction_of(word(words, 7))?,
        bounds: bounds_of(word(words, 8))?,
        cid_set: flag_of(word(words, 9))?,
        tag: tag_of(word(words, 11), word(words, 12))?,
        rights: rights_of(word(words, 10))?,
    })
}

/// The first words as those of `subsetter_options`.
fn own_words(words: &[u32]) -> [u32; 5]
    ensures size { word result 0 ≡ 20 }
    ensures count { length result ≡ 5 }
    ensures tokens { word result 1 ≡ word words.now 1 }
    ensures depth { word result 2 ≡ word words.now 2 }
    ensures drop { word result 3 ≡ word words.now 3 }
    ensures bytes { word result 4 ≡ word words.now 4 }
{
    [
        20,
        word(words, 1),
        word(words, 2),
        word(words, 3),
        word(words, 4),
    ]
}

/// The options that words choose; none where the library doesn't know them.
pub fn font_options_of(words: &[u32]) -> Option<FontOptions>
    ensures { MatchOption result (¬ (AreFontWordsKnown words.now)) (λ options. AreFontWordsKnown words.now × AreFontOptionsChosen words.now options) }
{
    let count = words.len();
    if count > 14 || word(words, 0) as usize != 4 * count {
        return None;
    }
    let own = own_words(words);
    let options = options_of(&own)?;
    with_words(options, words)
}
