//! Runs of text, handed to C (`subsetter_text` in `bindings/c/subsetter.h`).

ghost use Rattle.std.specs.Prelude.{◌≡◌, ◌&&◌, [], Ok, Err, MatchOption, true, false};
ghost use Rattle.subsetter_c.specs.Answers.Status.{unknown_option};
ghost use Rattle.subsetter_c.specs.Documents.PdfObjects.{IsNothing};
ghost use Rattle.subsetter_c.specs.Documents.Runs.{AreUnits, IsChoiceOf, IsFontOf, IsNoneLeft, IsNoRunMade, IsRunHanded, IsRunShownIn, IsRunUnshownIn, IsTextShownIn, IsTextUnshownIn, is_direction, is_known, is_text, is_width, run_direction, run_order, run_status};

use crate::answers::kept::{kept_bytes, kept_own, kept_pairs, kept_places};
use crate::answers::status::{DONE, INVALID_TEXT, OUT_OF_MEMORY, OVERFULL, UNKNOWN_OPTION};
use crate::documents::pdf_files::{ObjectsMade, nothing};
use crate::settings::Coordinate;
use pdf_figures::Choice;
use pdf_operators::{Font, GlyphMetrics, Order};
use pdf_runs::Direction;
use std::alloc::Global;
use subsetter_text_c::{
    Kept, RunError, Shaped, ShownRun, TextItem, TextOwn, TextPair, TextPart, Units, show_items,
    show_shaped,
};

/// A text, whose lists the caller gives back by `subsetter_free_text`, but for the font, which is the caller's.
#[derive(Drop)]
#[repr(C)]
pub struct TextMade {
    /// The size of the struct in bytes, by which the caller says which it has.
    pub size: u32,
    /// 0: there is no text.
    pub units_per_em: u32,
    pub font: &'static [u8],
    pub coordinates: &'static [Coordinate],
    /// The metrics of each glyph.
    pub metrics: &'static [GlyphMetrics],
    /// Whether a glyph has ink.
    pub inked: &'static [bool],
    /// What each code from 1 on draws and says.
    pub pairs: &'static [TextPair],
    pub index: u32,
    /// Not 0: text runs from top to bottom.
    pub is_vertical: u32,
    /// The advance of each glyph, in units of the font.
    pub advances: &'static [u16],
    /// Whether a glyph can be a part of an own glyph.
    pub partable: &'static [bool],
    /// The own glyphs, whose numbers are after those of the font's glyphs.
    pub own: &'static [TextOwn],
    /// Their parts, one after the other.
    pub parts: &'static [TextPart],
    /// How many parts an own glyph can have; 0: runs make none.
    pub most_parts: u32,
    /// Not 0: an own glyph is a glyph at the origin, with another advance.
    pub is_still: u32,
}

/// The one size that is known, where a pointer has 8 bytes.
pub const TEXT_SIZE: u32 = 168;

/// Lists that a text has no more, which are to be given back.
#[derive(Drop)]
#[repr(C)]
pub struct PairsLeft {
    pub pairs: &'static [TextPair],
    pub own: &'static [TextOwn],
    pub parts: &'static [TextPart],
}

// ---- what is requested

/// Whether there is a text.
pub fn is_text(text: &TextMade) -> bool
    ensures { result ≡ is_text text.now }
{
    text.size == TEXT_SIZE
        && (text.units_per_em > 0 && (text.units_per_em < 65_536 && text.most_parts < 65_536))
}

/// Whether a direction is one of a text, which is vertical or not.
fn is_direction(vertical: u32, direction: u32) -> bool
    ensures { result ≡ is_direction vertical direction }
{
    if vertical == 0 {
        direction < 2
    } else {
        direction == 2
    }
}

/// Whether there is a text, the direction is one of it, and the order is known.
fn is_known(text: &TextMade, direction: u32, order: u32) -> bool
    ensures { result ≡ is_known text.now direction order }
{
    is_text(text) && (is_direction(text.is_vertical, direction) && order < 2)
}

/// What a run needs of the font.
fn font_of(text: &TextMade) -> Font<'static>
    requires { is_text text.now ≡ true }
    ensures { IsFontOf text.now result }
{
    Font {
        units: text.units_per_em as u16,
        metrics: text.metrics,
        inked: text.inked,
    }
}

/// Which own glyphs a run can make.
fn choice_of(text: &TextMade) -> Choice<'static>
    requires { is_text text.now ≡ true }
    ensures { IsChoiceOf text.now result }
{
    Choice {
        units: text.units_per_em as u16,
        advances: text.advances,
        inked: text.inked,
        can_be_part: text.partable,
        most_parts: text.most_parts as u16,
        is_still: text.is_still != 0,
    }
}

/// No lists.
fn none_left() -> PairsLeft
    ensures { IsNoneLeft result }
{
    PairsLeft {
        pairs: &[],
        own: &[],
        parts: &[],
    }
}

/// The direction of a number.
fn direction_of(number: u32) -> Direction
    ensures { result ≡ run_direction number }
{
    match number {
        0 => Direction::LeftToRight,
        1 => Direction::RightToLeft,
        _ => Direction::TopToBottom,
    }
}

/// The order of a number.
fn order_of(number: u32) -> Order
    ensures { result ≡ run_order number }
{
    if number == 0 {
        Order::Visual
    } else {
        Order::Logical
    }
}

/// The units of a text, of three lists the one with this width.
fn units_of<'a>(width: u32, utf8: &'a [u8], utf16: &'a [u16], utf32: &'a [u32]) -> Option<Units<'a>>
    ensures { MatchOption result (is_width width ≡ false) (λ units. (is_width width ≡ true) × AreUnits width utf8.now utf16.now utf32.now units) }
{
    match width {
        8 => Some(Units::Utf8(utf8)),
        16 => Some(Units::Utf16(utf16)),
        32 => Some(Units::Utf32(utf32)),
        _ => None,
    }
}

// ---- handing over

/// The number of a refusal.
fn run_status(error: RunError) -> u32
    ensures { result ≡ run_status error }
{
    match error {
        RunError::InvalidText => INVALID_TEXT,
        RunError::Overfull => OVERFULL,
        RunError::OutOfMemory => OUT_OF_MEMORY,
    }
}

/// Hands nothing over, as an option is unknown: the status.
fn refuse(made: &mut ObjectsMade, left: &mut PairsLeft) -> u32
    ensures nothing { IsNothing made.new }
    ensures left { IsNoneLeft left.new }
    ensures status { result ≡ unknown_option }
{
    *made = nothing();
    *left = none_left();
    UNKNOWN_OPTION
}

/// Hands a run over, or the error: the status.
fn hand_run(
    answer: Result<ShownRun, RunError>,
    text: &mut TextMade,
    made: &mut ObjectsMade,
    left: &mut PairsLeft,
) -> u32
    ensures { IsRunHanded (λ s. answer ≡ Ok s) (λ e. answer ≡ Err e) text.old text.new made.new left.new result }
{
    match answer {
        Ok(shown) => {
            let ShownRun {
                operators,
                pairs,
                own,
                parts,
            } = shown;
            *left = PairsLeft {
                pairs: text.pairs,
                own: text.own,
                parts: text.parts,
            };
            text.pairs = kept_pairs(pairs);
            text.own = kept_own(own);
            text.parts = kept_places(parts);
            *made = ObjectsMade {
                bytes: kept_bytes(operators),
                offsets: &[],
            };
            DONE
        }
        Err(error) => {
            *made = nothing();
            *left = none_left();
            run_status(error)
        }
    }
}

// ---- the calls

/// The operators of a run of items in memory of the library, and the text with the codes of the run: `subsetter_show_run`, which
/// gives `left` back.
///
/// Status 0: `made` is the operators, without offsets, and `left` the lists that the text has no more. Another status: both are empty, and
/// the text is as it was. Status 10: there is no text, the direction is none of it, or the order is another; status 7, 12 (also
/// where own glyphs aren't such) or 15: an error.
#[unsafe(no_mangle)]
pub extern "C" fn text_show_run(
    alloc: Global,
    text: &mut TextMade,
    items: &[TextItem],
    characters: &[u32],
    direction: u32,
    order: u32,
    size: u32,
    made: &mut ObjectsMade,
    left: &mut PairsLeft,
) -> u32
    ensures unknown { is_known text.old direction order ≡ false → IsNoRunMade unknown_option text.old text.new made.new left.new result }
    ensures made { is_known text.old direction order ≡ true → IsRunHanded (IsRunShownIn text.old items.now characters.now direction order size) (IsRunUnshownIn text.old items.now characters.now direction order) text.old text.new made.new left.new result }
{
    if !is_known(text, direction, order) {
        return refuse(made, left);
    }
    let (font, choice) = (font_of(text), choice_of(text));
    let kept = Kept {
        pairs: text.pairs,
        own: text.own,
        parts: text.parts,
    };
    let (direction, order) = (direction_of(direction), order_of(order));
    let answer = show_items(
        alloc, font, &choice, kept, items, characters, direction, order, size,
    );
    hand_run(answer, text, made, left)
}

/// The operators of a run of glyphs with cluster numbers: `subsetter_show_shaped`. Of the three lists the one of this width is the text.
///
/// Status 10 also for another width than 8, 16 and 32.
#[unsafe(no_mangle)]
pub extern "C" fn text_show_shaped(
    alloc: Global,
    text: &mut TextMade,
    glyphs: &[Shaped],
    utf8: &[u8],
    utf16: &[u16],
    utf32: &[u32],
    width: u32,
    direction: u32,
    order: u32,
    size: u32,
    made: &mut ObjectsMade,
    left: &mut PairsLeft,
) -> u32
    ensures unknown { (is_known text.old direction order && is_width width) ≡ false → IsNoRunMade unknown_option text.old text.new made.new left.new result }
    ensures made { (is_known text.old direction order && is_width width) ≡ true → IsRunHanded (IsTextShownIn text.old width utf8.now utf16.now utf32.now glyphs.now direction order size) (IsTextUnshownIn text.old width utf8.now utf16.now utf32.now glyphs.now direction order) text.old text.new made.new left.new result }
{
    if !is_known(text, direction, order) {
        return refuse(made, left);
    }
    let units = match units_of(width, utf8, utf16, utf32) {
        Some(units) => units,
        None => return refuse(made, left),
    };
    let (font, choice) = (font_of(text), choice_of(text));
    let kept = Kept {
        pairs: text.pairs,
        own: text.own,
        parts: text.parts,
    };
    let (direction, order) = (direction_of(direction), order_of(order));
    let answer = show_shaped(
        alloc, font, &choice, kept, glyphs, units, direction, order, size,
    );
    hand_run(answer, text, made, left)
}
