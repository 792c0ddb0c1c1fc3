//! The calls for PDF.

ghost use Rattle.std.specs.Prelude.{◌≡◌, ◌⊎◌, ◌<◌, [], length, false, true};
ghost use Rattle.subsetter_sfnt.specs.Extras.{all_extras};
ghost use Rattle.subsetter_sfnt.specs.FontAt.{font_at};
ghost use Rattle.pdf_font.specs.PdfFont.{IsPdfFont, font_of};
ghost use Rattle.subsetter_pdf_c.specs.Entries.{are_scalars, are_texts, texts_from, uses_in};
ghost use Rattle.subsetter_c.specs.Answers.Handed.{IsNothingHanded};
ghost use Rattle.subsetter_c.specs.Documents.PdfFonts.{IsFontMade, IsFontRefused, IsHandedBy, IsNoFontMade};
ghost use Rattle.subsetter_c.specs.Documents.PdfGlyphs.{AreGlyphsHanded};
ghost use Rattle.subsetter_c.specs.Documents.PdfObjects.{AreObjectsWritten, IsNoneWritten, IsSheetWritten, layout_of};
ghost use Rattle.subsetter_c.specs.Documents.PdfOptions.{AreFontWordsKnown};
ghost use Rattle.subsetter_c.specs.Settings.{settings_of};
ghost use Rattle.subsetter_c.specs.Answers.Status.{invalid_text, unknown_option};

use crate::answers::status::{INVALID_TEXT, UNKNOWN_OPTION, status_of};
use crate::characters::{hand_glyphs_by, source_for};
use crate::documents::pdf_files::{ObjectsMade, hand_file, hand_objects, nothing};
use crate::documents::pdf_fonts::{font_for, hand_font, no_font};
use crate::documents::pdf_options::font_options_of;
use crate::settings::Coordinate;
use pdf_font::FontOptions;
use pdf_sheet::Layout;
use std::alloc::Global;
use subsetter_pdf_c::{PdfMade, are_scalars, are_texts, sheet_of, write_objects};

/// The glyph of each character of a text, by the font's `cmap`, in the caller's buffer: 0 where the font has none.
///
/// Status 0: the first numbers of `glyphs` are the glyphs, the rest of it is unchanged, and `length` is their count. Status 8:
/// `glyphs` is too small and unchanged, and `length` is the exact count. Status 12: a number is no character; status 13: the font
/// has no table by which characters have glyphs; status 1, 2 or 7: an error; nothing is written, and `length` is 0.
#[unsafe(no_mangle)]
pub extern "C" fn subsetter_glyphs_of(
    alloc: Global,
    font: &[u8],
    index: u32,
    text: &[u32],
    glyphs: &mut [u16],
    length: &mut usize,
) -> u32
    ensures { ((are_scalars text.now ≡ false) × IsNothingHanded invalid_text glyphs.old glyphs.new length.new result) ⊎ ((are_scalars text.now ≡ true) × AreGlyphsHanded (font_at font.now index all_extras) text.now glyphs.old glyphs.new length.new result) }
{
    if !are_scalars(text) {
        *length = 0;
        return INVALID_TEXT;
    }
    match source_for(font, index) {
        Ok(source) => hand_glyphs_by(alloc, source, text, glyphs, length),
        Err(error) => {
            *length = 0;
            status_of(error)
        }
    }
}

/// Makes a font with these options: the status.
fn make_font(
    alloc: Global,
    font: &[u8],
    index: u32,
    coordinates: &[Coordinate],
    glyphs: &[u16],
    text: &[u32],
    ends: &[usize],
    options: &FontOptions,
    made: &mut PdfMade,
) -> u32
    ensures no_texts { are_texts (length glyphs.now) text.now ends.now ≡ false → IsNoFontMade invalid_text made.new result }
    ensures made { are_texts (length glyphs.now) text.now ends.now ≡ true → IsHandedBy (IsPdfFont (font_of font.now index options.now) (settings_of coordinates.now) options.now (uses_in glyphs.now text.now ends.now)) (IsFontRefused (font_of font.now index options.now) (settings_of coordinates.now) options.now (uses_in glyphs.now text.now ends.now)) made.new result }
{
    if !are_texts(glyphs.len(), text, ends) {
        *made = no_font();
        return INVALID_TEXT;
    }
    let answer = font_for(alloc, font, index, coordinates, glyphs, text, ends, options);
    hand_font(answer, made)
}

/// All that a PDF has of a font for glyphs with their texts, in memory of the library; the words are those of
/// `subsetter_pdf_options`.
///
/// Status 0: `made` is the font. Another status: its lists are empty, and its numbers are 0. Status 10: an option is unknown.
/// Status 12: a text isn't one, or is too long. Status 11: the font isn't permitted. Status 1 to 7: an error.
#[unsafe(no_mangle)]
pub extern "C" fn subsetter_make_pdf_font_by_words(
    alloc: Global,
    font: &[u8],
    index: u32,
    coordinates: &[Coordinate],
    glyphs: &[u16],
    text: &[u32],
    ends: &[usize],
    options: &[u32],
    made: &mut PdfMade,
) -> u32
    ensures unknown { ¬ (AreFontWordsKnown options.now) → IsNoFontMade unknown_option made.new result }
    ensures no_texts { AreFontWordsKnown options.now → are_texts (length glyphs.now) text.now ends.now ≡ false → IsNoFontMade invalid_text made.new result }
    ensures made { AreFontWordsKnown options.now → are_texts (length glyphs.now) text.now ends.now ≡ true → IsFontMade font.now index (settings_of coordinates.now) (uses_in glyphs.now text.now ends.now) options.now made.new result }
{
    match font_options_of(options) {
        Some(options) => make_font(
            alloc,
            font,
            index,
            coordinates,
            glyphs,
            text,
            ends,
            &options,
            made,
        ),
        None => {
            *made = no_font();
            UNKNOWN_OPTION
        }
    }
}

/// The objects of a font without CIDToGIDMap as a stream, with numbers from `first` on, and where each begins, in memory of the
/// library.
///
/// Status 0: `made` is the objects. Status 5 or 7: an error, and `made` is empty.
#[unsafe(no_mangle)]
pub extern "C" fn subsetter_make_pdf_objects(
    alloc: Global,
    font: &PdfMade,
    first: u32,
    made: &mut ObjectsMade,
) -> u32
    ensures { AreObjectsWritten font.now [] first made.new result }
{
    hand_objects(write_objects(alloc, font, &[], first), made)
}

/// The layout of a number.
fn layout_of(layout: u32) -> Layout
    ensures { result ≡ layout_of layout }
{
    if layout == 0 {
        return Layout::Line;
    }
    Layout::Grid
}

/// A whole PDF file that shows glyphs with their texts, in memory of the library: those that the font was made of, in a line
/// (0) or in a grid (1).
///
/// Status 0: `made` is the file, without offsets. Another status: it is empty. Status 10: the layout is another. Status 12: a
/// text isn't one. Status 5 or 7: an error.
#[unsafe(no_mangle)]
pub extern "C" fn subsetter_make_pdf_sheet(
    alloc: Global,
    font: &PdfMade,
    glyphs: &[u16],
    text: &[u32],
    ends: &[usize],
    layout: u32,
    made: &mut ObjectsMade,
) -> u32
    ensures unknown { 1 < layout → IsNoneWritten unknown_option made.new result }
    ensures no_texts { layout < 2 → are_texts (length glyphs.now) text.now ends.now ≡ false → IsNoneWritten invalid_text made.new result }
    ensures made { layout < 2 → are_texts (length glyphs.now) text.now ends.now ≡ true → IsSheetWritten font.now (texts_from text.now 0 ends.now) (layout_of layout) made.new result }
{
    if layout > 1 {
        *made = nothing();
        return UNKNOWN_OPTION;
    }
    if !are_texts(glyphs.len(), text, ends) {
        *made = nothing();
        return INVALID_TEXT;
    }
    let chosen = layout_of(layout);
    hand_file(sheet_of(alloc, font, glyphs, text, ends, chosen), made)
}
