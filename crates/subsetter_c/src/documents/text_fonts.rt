//! A text before its first run, and the font of one, handed to C.

ghost use Rattle.std.specs.Prelude.{◌≡◌, ◌≢◌, ◌⊎◌, ◌&&◌, Ok, Err, IfOk, IfErr, true, false};
ghost use Rattle.subsetter_base.specs.Gives.{Gives};
ghost use Rattle.subsetter_base.specs.declared.error.Error.TheVariants.{OutOfMemory};
ghost use Rattle.subsetter_sfnt.specs.Extras.{all_extras};
ghost use Rattle.subsetter_sfnt.specs.FontAt.{font_at};
ghost use Rattle.pdf_font.specs.declared.error.FontError.TheVariants.{Subset};
ghost use Rattle.own_choice.specs.Choosing.{chosen_seen, own_choice};
ghost use Rattle.text_metrics.specs.Metrics.{metrics_seen};
ghost use Rattle.subsetter_c.specs.Answers.Status.{unknown_option};
ghost use Rattle.subsetter_c.specs.Documents.PdfFonts.{bytes_of};
ghost use Rattle.subsetter_c.specs.Documents.PdfOptions.{AreFontWordsKnown, direction_chosen};
ghost use Rattle.subsetter_c.specs.Documents.Runs.{is_text, text_size};
ghost use Rattle.subsetter_c.specs.Documents.TextFonts.{HasNoTextFont, IsNoText, IsTextFontHandedBy, IsTextFontMade, IsTextFontOf, IsTextHanded, IsTextMade, chosen_by, count_of, directed, is_horizontal, kept_seen, makes_own, metrics_by, plain_by, vertical_number, without_own};
ghost use Rattle.subsetter_c.specs.Documents.Whole.{IsNoWholeMade, own_size};
ghost use Rattle.subsetter_c.specs.Settings.{settings_of};

use crate::answers::kept::{kept_bytes, kept_coordinates, kept_flags, kept_metrics, kept_shorts};
use crate::answers::status::{DONE, UNKNOWN_OPTION, status_of};
use crate::documents::pdf_fonts::{number_of, refusal_status};
use crate::documents::pdf_options::font_options_of;
use crate::documents::runs::{TEXT_SIZE, TextMade, is_text};
use crate::documents::text_kept::TextKept;
use crate::documents::whole::{FontMade, SIZE, further_of, no_whole, whole_laid_out};
use crate::options::word;
use crate::settings::{Coordinate, settings_of};
use own_choice::{OwnChoice, own_choice};
use pdf_font::{Direction, FontError, FontOptions};
use pdf_text_font::{TextFont, text_font};
use std::alloc::Global;
use subsetter::{Error, Tag};
use subsetter_text_c::{RunError, own_of, pairs_of};
use text_metrics::{TextMetrics, column_metrics, text_metrics};

// ---- a text

/// Whether text runs from top to bottom, as C has it.
fn vertical_number(direction: Direction) -> u32
    ensures { result ≡ vertical_number direction }
{
    match direction {
        Direction::Horizontal => 0,
        Direction::Vertical => 1,
    }
}

/// What runs of text need of a font, in the direction of the options.
fn metrics_for(
    alloc: Global,
    font: &[u8],
    index: u32,
    settings: &[(Tag, i32)],
    options: &FontOptions,
) -> Result<TextMetrics, Error>
    ensures { Gives metrics_seen result (metrics_by options.now.direction options.now.limits (font_at font.now index all_extras) settings.now) }
{
    match options.direction {
        Direction::Horizontal => text_metrics(alloc, font, index, settings, &options.limits),
        Direction::Vertical => column_metrics(alloc, font, index, settings, &options.limits),
    }
}

/// What is kept of metrics and coordinates, where runs make no own glyphs.
fn kept_of(
    alloc: Global,
    found: &TextMetrics,
    coordinates: &[Coordinate],
) -> Result<TextKept, Error>
    ensures seen { IfOk result (λ k. kept_seen k ≡ without_own (metrics_seen found.now)) }
    ensures coordinates { IfOk result (λ k. k.coordinates.items ≡ coordinates.now) }
    ensures err { IfErr result (λ e. e ≡ OutOfMemory) }
{
    let seen = found.font();
    let coordinates = Vec::from_slice(alloc, coordinates)?;
    let metrics = Vec::from_slice(alloc, seen.metrics)?;
    let inked = Vec::from_slice(alloc, seen.inked)?;
    Ok(TextKept {
        units: seen.units,
        coordinates,
        metrics,
        inked,
        advances: Vec::new(alloc),
        partable: Vec::new(alloc),
        most_parts: 0,
        is_still: false,
    })
}

/// What is kept where they do.
fn kept_with(
    alloc: Global,
    found: &OwnChoice,
    coordinates: &[Coordinate],
) -> Result<TextKept, Error>
    ensures seen { IfOk result (λ k. kept_seen k ≡ chosen_seen found.now) }
    ensures coordinates { IfOk result (λ k. k.coordinates.items ≡ coordinates.now) }
    ensures err { IfErr result (λ e. e ≡ OutOfMemory) }
{
    let seen = found.font();
    let choice = found.choice();
    let coordinates = Vec::from_slice(alloc, coordinates)?;
    let metrics = Vec::from_slice(alloc, seen.metrics)?;
    let inked = Vec::from_slice(alloc, seen.inked)?;
    let advances = Vec::from_slice(alloc, choice.advances)?;
    let partable = Vec::from_slice(alloc, choice.can_be_part)?;
    Ok(TextKept {
        units: seen.units,
        coordinates,
        metrics,
        inked,
        advances,
        partable,
        most_parts: choice.most_parts,
        is_still: choice.is_still,
    })
}

/// What a text of a font keeps, whose runs make no own glyphs.
#[tactic(auto, using(crate::proofs::DocumentsLaws::Runs::fails_plain))]
fn kept_plain(
    alloc: Global,
    font: &[u8],
    index: u32,
    settings: &[(Tag, i32)],
    coordinates: &[Coordinate],
    options: &FontOptions,
) -> Result<TextKept, Error>
    ensures seen { Gives kept_seen result (plain_by options.now.direction options.now.limits (font_at font.now index all_extras) settings.now) }
    ensures coordinates { IfOk result (λ k. k.coordinates.items ≡ coordinates.now) }
{
    let found = metrics_for(alloc, font, index, settings, options)?;
    kept_of(alloc, &found, coordinates)
}

/// What a text of a font keeps, whose runs make own glyphs.
fn kept_choice(
    alloc: Global,
    font: &[u8],
    index: u32,
    settings: &[(Tag, i32)],
    coordinates: &[Coordinate],
    options: &FontOptions,
) -> Result<TextKept, Error>
    ensures seen { Gives kept_seen result (own_choice (font_at font.now index all_extras) settings.now options.now.limits.tokens) }
    ensures coordinates { IfOk result (λ k. k.coordinates.items ≡ coordinates.now) }
{
    let found = own_choice(alloc, font, index, settings, &options.limits)?;
    kept_with(alloc, &found, coordinates)
}

/// What a text of a font keeps, whose runs make own glyphs or not.
fn kept_at(
    alloc: Global,
    font: &[u8],
    index: u32,
    settings: &[(Tag, i32)],
    coordinates: &[Coordinate],
    options: &FontOptions,
    makes: bool,
) -> Result<TextKept, Error>
    ensures seen { Gives kept_seen result (chosen_by makes options.now.direction options.now.limits (font_at font.now index all_extras) settings.now) }
    ensures coordinates { IfOk result (λ k. k.coordinates.items ≡ coordinates.now) }
{
    if makes {
        kept_choice(alloc, font, index, settings, coordinates, options)
    } else {
        kept_plain(alloc, font, index, settings, coordinates, options)
    }
}

/// Whether text isn't vertical.
fn is_horizontal(direction: Direction) -> bool
    ensures { result ≡ is_horizontal direction }
{
    match direction {
        Direction::Horizontal => true,
        Direction::Vertical => false,
    }
}

/// Whether the words of the options leave own glyphs to be made.
fn makes_own(words: &[u32]) -> bool
    ensures { result ≡ makes_own words.now }
{
    word(words, 13) == 0
}

/// What a text of a font keeps.
fn kept_for(
    alloc: Global,
    font: &[u8],
    index: u32,
    coordinates: &[Coordinate],
    options: &FontOptions,
    makes: bool,
) -> Result<TextKept, Error>
    ensures seen { Gives kept_seen result (chosen_by makes options.now.direction options.now.limits (font_at font.now index all_extras) (settings_of coordinates.now)) }
    ensures coordinates { IfOk result (λ k. k.coordinates.items ≡ coordinates.now) }
{
    let settings = settings_of(alloc, coordinates)?;
    kept_at(alloc, font, index, &settings, coordinates, options, makes)
}

/// Whether runs of a text make own glyphs.
fn are_made(words: &[u32], direction: Direction) -> bool
    ensures { result ≡ (makes_own words.now && is_horizontal direction) }
{
    makes_own(words) && is_horizontal(direction)
}

/// What a text of a font keeps, whose runs make own glyphs where the words of the options leave them to be made.
fn kept_by(
    alloc: Global,
    font: &[u8],
    index: u32,
    coordinates: &[Coordinate],
    options: &FontOptions,
    words: &[u32],
) -> Result<TextKept, Error>
    ensures seen { Gives kept_seen result (chosen_by (makes_own words.now && is_horizontal options.now.direction) options.now.direction options.now.limits (font_at font.now index all_extras) (settings_of coordinates.now)) }
    ensures coordinates { IfOk result (λ k. k.coordinates.items ≡ coordinates.now) }
{
    let makes = are_made(words, options.direction);
    kept_for(alloc, font, index, coordinates, options, makes)
}

/// No text.
fn no_text() -> TextMade
    ensures { IsNoText result }
{
    TextMade {
        size: TEXT_SIZE,
        units_per_em: 0,
        font: &[],
        coordinates: &[],
        metrics: &[],
        inked: &[],
        pairs: &[],
        index: 0,
        is_vertical: 0,
        advances: &[],
        partable: &[],
        own: &[],
        parts: &[],
        most_parts: 0,
        is_still: 0,
    }
}

/// Hands a text over, or the error: the status.
fn hand_text(
    answer: Result<TextKept, Error>,
    font: &'static [u8],
    index: u32,
    direction: Direction,
    made: &mut TextMade,
) -> u32
    ensures { IsTextHanded (λ k. answer ≡ Ok k) (λ e. answer ≡ Err e) font.now index direction made.new result }
{
    match answer {
        Ok(kept) => {
            let TextKept {
                units,
                coordinates,
                metrics,
                inked,
                advances,
                partable,
                most_parts,
                is_still,
            } = kept;
            *made = TextMade {
                size: TEXT_SIZE,
                units_per_em: u32::from(units),
                font,
                coordinates: kept_coordinates(coordinates),
                metrics: kept_metrics(metrics),
                inked: kept_flags(inked),
                pairs: &[],
                index,
                is_vertical: vertical_number(direction),
                advances: kept_shorts(advances),
                partable: kept_flags(partable),
                own: &[],
                parts: &[],
                most_parts: u32::from(most_parts),
                is_still: number_of(is_still),
            };
            DONE
        }
        Err(error) => {
            *made = no_text();
            status_of(error)
        }
    }
}

/// A text of a font at coordinates, before its first run; the words are those of `subsetter_pdf_options`, of which the tokens, the
/// direction and the own glyphs count.
///
/// Status 0: `made` is the text, which borrows the font. Another status: its lists are empty, and its numbers are 0, but for the
/// size. Status 10: an option is unknown, or the size of `made` is; with such a size it is unchanged. Status 1 to 7: an error.
#[unsafe(no_mangle)]
pub extern "C" fn subsetter_new_text_by_words(
    alloc: Global,
    font: &'static [u8],
    index: u32,
    coordinates: &[Coordinate],
    options: &[u32],
    made: &mut TextMade,
) -> u32
    ensures sized { made.old.size ≢ text_size → (made.new ≡ made.old) × (result ≡ unknown_option) }
    ensures unknown { made.old.size ≡ text_size → ¬ (AreFontWordsKnown options.now) → IsNoText made.new × (result ≡ unknown_option) }
    ensures made { made.old.size ≡ text_size → AreFontWordsKnown options.now → IsTextMade font.now index coordinates.now options.now made.new result }
{
    if made.size != TEXT_SIZE {
        return UNKNOWN_OPTION;
    }
    match font_options_of(options) {
        Some(chosen) => {
            let answer = kept_by(alloc, font, index, coordinates, &chosen, options);
            hand_text(answer, font, index, chosen.direction, made)
        }
        None => {
            *made = no_text();
            UNKNOWN_OPTION
        }
    }
}

// ---- the font of a text

/// The direction of a text.
fn text_direction(text: &TextMade) -> Direction
    ensures { result ≡ direction_chosen text.now.is_vertical }
{
    if text.is_vertical == 0 {
        Direction::Horizontal
    } else {
        Direction::Vertical
    }
}

/// The options, with the direction of a text.
fn directed(text: &TextMade, options: FontOptions) -> FontOptions
    ensures { result ≡ directed text.now options }
{
    FontOptions {
        direction: text_direction(text),
        ..options
    }
}

/// How many glyphs are the font's; without own ones glyphs have 16 bits.
fn count_of(text: &TextMade) -> usize
    ensures { result ≡ count_of text.now }
{
    if text.own.len() == 0 {
        65536
    } else {
        text.metrics.len()
    }
}

/// What a PDF has of the font of a text.
fn font_for(alloc: Global, text: &TextMade, options: &FontOptions) -> Result<TextFont, FontError>
    ensures ok { IfOk result (IsTextFontOf text.now options.now) }
    ensures err { IfErr result (HasNoTextFont text.now options.now) }
{
    let settings = match settings_of(alloc, text.coordinates) {
        Ok(settings) => settings,
        Err(error) => return Err(FontError::Subset(error)),
    };
    let pairs = match pairs_of(alloc, text.pairs) {
        Ok(pairs) => pairs,
        Err(RunError::OutOfMemory) => return Err(FontError::Subset(Error::OutOfMemory)),
        Err(_) => return Err(FontError::Subset(Error::OverflowError)),
    };
    let own = match own_of(alloc, text.own, text.parts) {
        Ok(own) => own,
        Err(RunError::InvalidText) => return Err(FontError::TextTooLong),
        Err(_) => return Err(FontError::Subset(Error::OutOfMemory)),
    };
    text_font(
        alloc,
        text.font,
        text.index,
        &settings,
        &pairs,
        count_of(text),
        &own,
        options,
    )
}

/// The bytes of a map, if there is one.
fn kept_map(map: Option<Vec<u8>>) -> &'static [u8]
    ensures { result.now ≡ bytes_of map }
{
    match map {
        None => &[],
        Some(map) => kept_bytes(map),
    }
}

/// Hands the font of a text over, or the error: the status.
fn hand_font(alloc: Global, answer: Result<TextFont, FontError>, made: &mut FontMade) -> u32
    ensures { IsTextFontHandedBy (λ t. answer ≡ Ok t) (λ e. (answer ≡ Err e) ⊎ (e ≡ Subset OutOfMemory)) made.new result }
{
    let found = match answer {
        Ok(found) => found,
        Err(error) => {
            *made = no_whole();
            return refusal_status(error);
        }
    };
    let TextFont {
        font,
        cid_to_gid_map,
    } = found;
    match further_of(alloc, &font, &[], &[], &[]) {
        Ok(further) => {
            *made = whole_laid_out(font, further, kept_map(cid_to_gid_map));
            DONE
        }
        Err(error) => {
            *made = no_whole();
            status_of(error)
        }
    }
}

/// All that a PDF has of the font of a text, in memory of the library; the words are those of `subsetter_pdf_options`.
///
/// Status 0: `made` is the font, of no entries. Another status: its lists are empty, and its numbers are 0, but for the size.
/// Status 10: there is no text, an option is unknown, or the size of `made` is; with such a size it is unchanged. Status 11: the
/// font isn't permitted. Status 12: own glyphs of the text aren't such. Status 1 to 7: an error.
#[unsafe(no_mangle)]
pub extern "C" fn subsetter_make_text_font_by_words(
    alloc: Global,
    text: &TextMade,
    options: &[u32],
    made: &mut FontMade,
) -> u32
    ensures sized { made.old.size ≢ own_size → (made.new ≡ made.old) × (result ≡ unknown_option) }
    ensures none { made.old.size ≡ own_size → is_text text.now ≡ false → IsNoWholeMade unknown_option made.new result }
    ensures unknown { made.old.size ≡ own_size → ¬ (AreFontWordsKnown options.now) → IsNoWholeMade unknown_option made.new result }
    ensures made { made.old.size ≡ own_size → is_text text.now ≡ true → AreFontWordsKnown options.now → IsTextFontMade text.now options.now made.new result }
{
    if made.size != SIZE {
        return UNKNOWN_OPTION;
    }
    if !is_text(text) {
        *made = no_whole();
        return UNKNOWN_OPTION;
    }
    match font_options_of(options) {
        Some(options) => {
            let options = directed(text, options);
            hand_font(alloc, font_for(alloc, text, &options), made)
        }
        None => {
            *made = no_whole();
            UNKNOWN_OPTION
        }
    }
}
