//! A font with what is new of it, handed to C (`subsetter_font` in `bindings/c/subsetter.h`).

ghost use Rattle.std.specs.Prelude.{◌≡◌, ◌≢◌, ◌⊎◌, [], map, length, Ok, Err, IfOk, IfErr, false, true};
ghost use Rattle.subsetter_base.specs.declared.error.Error.TheVariants.{OutOfMemory};
ghost use Rattle.pdf_font.specs.PdfFont.{IsPdfFont, font_of};
ghost use Rattle.pdf_font.specs.declared.error.FontError.TheVariants.{Subset};
ghost use Rattle.pdf_font.specs.declared.font.PdfFont.{PdfFont as SpecPdfFont};
ghost use Rattle.subsetter_pdf_c.specs.Entries.{are_texts, uses_in};
ghost use Rattle.subsetter_c.specs.Documents.PdfFonts.{IsFontRefused};
ghost use Rattle.subsetter_c.specs.Documents.PdfOptions.{AreFontWordsKnown};
ghost use Rattle.subsetter_c.specs.Documents.Whole.{IsNoWholeMade, IsWholeEmpty, IsWholeHandedBy, IsWholeLaidOut, IsWholeMade, own_size, tag_number};
ghost use Rattle.subsetter_c.specs.Answers.Status.{invalid_text, unknown_option};
ghost use Rattle.subsetter_c.specs.Settings.{settings_of};

use crate::answers::kept::{kept_shorts, kept_sizes, kept_words};
use crate::answers::status::{DONE, INVALID_TEXT, UNKNOWN_OPTION, status_of};
use crate::documents::pdf_fonts::{font_for, laid_out, no_font, refusal_status};
use crate::documents::pdf_options::font_options_of;
use crate::settings::Coordinate;
use pdf_font::{FontError, FontOptions, PdfFont};
use std::alloc::{AllocError, Global};
use subsetter::{Error, Tag};
use subsetter_pdf_c::{PdfMade, are_texts};

/// A font with what is new of it, and what it was made of, which the caller reads, and gives back by `subsetter_free_font`.
#[derive(Drop)]
#[repr(C)]
pub struct FontMade {
    /// The size of the struct in bytes, by which the caller says which it has.
    pub size: u32,
    pub units_per_em: u32,
    pub pdf: PdfMade,
    /// The width of each CID, in the font's units.
    pub exact_widths: &'static [u16],
    /// The axes that the font doesn't have, each as a number, the first letter in the highest bits.
    pub unknown_axes: &'static [u32],
    pub glyphs: &'static [u16],
    /// The characters of all glyphs.
    pub text: &'static [u32],
    /// Where those of each glyph end.
    pub ends: &'static [usize],
    /// The bytes of CIDToGIDMap; empty where it is no stream.
    pub cid_to_gid_map: &'static [u8],
}

/// The one size that is known, where a pointer has 8 bytes.
pub const SIZE: u32 = 368;

/// No font.
pub fn no_whole() -> FontMade
    ensures { IsWholeEmpty result }
{
    FontMade {
        size: SIZE,
        units_per_em: 0,
        pdf: no_font(),
        exact_widths: &[],
        unknown_axes: &[],
        glyphs: &[],
        text: &[],
        ends: &[],
        cid_to_gid_map: &[],
    }
}

/// A tag as a number.
fn tag_number(tag: Tag) -> u32
    ensures { result ≡ tag_number tag }
{
    u32::from_be_bytes(*tag.get())
}

/// Tags as numbers.
fn tag_numbers(alloc: Global, tags: &[Tag]) -> Result<Vec<u32>, AllocError>
    ensures { IfOk result (λ v. v.items ≡ map tag_number tags.now) }
{
    let mut list = Vec::with_capacity(alloc, tags.len())?;
    for tag in tags {
        list.push(tag_number(*tag))?;
    }
    Ok(list)
}

/// The lists of a font beside those for a PDF, and of what it was made of.
#[derive(Drop)]
pub struct Further {
    exact_widths: Vec<u16>,
    unknown_axes: Vec<u32>,
    glyphs: Vec<u16>,
    text: Vec<u32>,
    ends: Vec<usize>,
}

/// Copies of these lists.
pub fn further_of(
    alloc: Global,
    font: &PdfFont,
    glyphs: &[u16],
    text: &[u32],
    ends: &[usize],
) -> Result<Further, Error>
    ensures widths { IfOk result (λ further. further.exact_widths.items ≡ font.now.exact_widths.items) }
    ensures axes { IfOk result (λ further. further.unknown_axes.items ≡ map tag_number font.now.unknown_axes.items) }
    ensures glyphs { IfOk result (λ further. further.glyphs.items ≡ glyphs.now) }
    ensures text { IfOk result (λ further. further.text.items ≡ text.now) }
    ensures ends { IfOk result (λ further. further.ends.items ≡ ends.now) }
    ensures err { IfErr result (λ e. e ≡ OutOfMemory) }
{
    let exact_widths = Vec::from_slice(alloc, &font.exact_widths)?;
    let unknown_axes = tag_numbers(alloc, &font.unknown_axes)?;
    let glyphs = Vec::from_slice(alloc, glyphs)?;
    let text = Vec::from_slice(alloc, text)?;
    let ends = Vec::from_slice(alloc, ends)?;
    Ok(Further {
        exact_widths,
        unknown_axes,
        glyphs,
        text,
        ends,
    })
}

/// A font with these bytes of CIDToGIDMap that stays until the caller gives it back.
pub fn whole_laid_out(font: PdfFont, further: Further, cid_to_gid_map: &'static [u8]) -> FontMade
    requires widths { further.exact_widths.items ≡ font.exact_widths.items }
    requires axes { further.unknown_axes.items ≡ map tag_number font.unknown_axes.items }
    ensures { IsWholeLaidOut font further.glyphs.items further.text.items further.ends.items cid_to_gid_map.now result }
{
    let units_per_em = u32::from(font.units_per_em);
    FontMade {
        size: SIZE,
        units_per_em,
        pdf: laid_out(font),
        exact_widths: kept_shorts(further.exact_widths),
        unknown_axes: kept_words(further.unknown_axes),
        glyphs: kept_shorts(further.glyphs),
        text: kept_words(further.text),
        ends: kept_sizes(further.ends),
        cid_to_gid_map,
    }
}

/// Hands a font over, or the error: the status.
fn hand_whole(
    alloc: Global,
    answer: Result<PdfFont, FontError>,
    glyphs: &[u16],
    text: &[u32],
    ends: &[usize],
    made: &mut FontMade,
) -> u32
    ensures { IsWholeHandedBy (λ f. answer ≡ Ok f) (λ e. (answer ≡ Err e) ⊎ ((f : SpecPdfFont) × (answer ≡ Ok f) × (e ≡ Subset OutOfMemory))) glyphs.now text.now ends.now made.new result }
{
    let font = match answer {
        Ok(font) => font,
        Err(error) => {
            *made = no_whole();
            return refusal_status(error);
        }
    };
    match further_of(alloc, &font, glyphs, text, ends) {
        Ok(further) => {
            *made = whole_laid_out(font, further, &[]);
            DONE
        }
        Err(error) => {
            *made = no_whole();
            status_of(error)
        }
    }
}

/// Makes a font with these options: the status.
pub fn make_whole(
    alloc: Global,
    font: &[u8],
    index: u32,
    coordinates: &[Coordinate],
    glyphs: &[u16],
    text: &[u32],
    ends: &[usize],
    options: &FontOptions,
    made: &mut FontMade,
) -> u32
    ensures no_texts { are_texts (length glyphs.now) text.now ends.now ≡ false → IsNoWholeMade invalid_text made.new result }
    ensures made { are_texts (length glyphs.now) text.now ends.now ≡ true → IsWholeHandedBy (IsPdfFont (font_of font.now index options.now) (settings_of coordinates.now) options.now (uses_in glyphs.now text.now ends.now)) (IsFontRefused (font_of font.now index options.now) (settings_of coordinates.now) options.now (uses_in glyphs.now text.now ends.now)) glyphs.now text.now ends.now made.new result }
{
    if !are_texts(glyphs.len(), text, ends) {
        *made = no_whole();
        return INVALID_TEXT;
    }
    let answer = font_for(alloc, font, index, coordinates, glyphs, text, ends, options);
    hand_whole(alloc, answer, glyphs, text, ends, made)
}

/// Makes a font with the options of these words: the status.
fn make_by_words(
    alloc: Global,
    font: &[u8],
    index: u32,
    coordinates: &[Coordinate],
    glyphs: &[u16],
    text: &[u32],
    ends: &[usize],
    options: &[u32],
    made: &mut FontMade,
) -> u32
    ensures unknown { ¬ (AreFontWordsKnown options.now) → IsNoWholeMade unknown_option made.new result }
    ensures no_texts { AreFontWordsKnown options.now → are_texts (length glyphs.now) text.now ends.now ≡ false → IsNoWholeMade invalid_text made.new result }
    ensures made { AreFontWordsKnown options.now → are_texts (length glyphs.now) text.now ends.now ≡ true → IsWholeMade font.now index (settings_of coordinates.now) glyphs.now text.now ends.now options.now made.new result }
{
    match font_options_of(options) {
        Some(options) => make_whole(
            alloc,
            font,
            index,
            coordinates,
            glyphs,
            text,
            ends,
            &options,
            made,
        ),
        None => {
            *made = no_whole();
            UNKNOWN_OPTION
        }
    }
}

/// All that a PDF has of a font for glyphs with their texts, with what it was made of, in memory of the library; the words are
/// those of `subsetter_pdf_options`.
///
/// Status 0: `made` is the font. Another status: its lists are empty, and its numbers are 0, but for the size. Status 10: an
/// option is unknown, or the size of `made` is; with such a size it is unchanged. Status 12: a text isn't one, or is too long.
/// Status 11: the font isn't permitted. Status 1 to 7: an error.
#[unsafe(no_mangle)]
pub extern "C" fn subsetter_make_font_by_words(
    alloc: Global,
    font: &[u8],
    index: u32,
    coordinates: &[Coordinate],
    glyphs: &[u16],
    text: &[u32],
    ends: &[usize],
    options: &[u32],
    made: &mut FontMade,
) -> u32
    ensures sized { made.old.size ≢ own_size → (made.new ≡ made.old) × (result ≡ unknown_option) }
    ensures unknown { made.old.size ≡ own_size → ¬ (AreFontWordsKnown options.now) → IsNoWholeMade unknown_option made.new result }
    ensures no_texts { made.old.size ≡ own_size → AreFontWordsKnown options.now → are_texts (length glyphs.now) text.now ends.now ≡ false → IsNoWholeMade invalid_text made.new result }
    ensures made { made.old.size ≡ own_size → AreFontWordsKnown options.now → are_texts (length glyphs.now) text.now ends.now ≡ true → IsWholeMade font.now index (settings_of coordinates.now) glyphs.now text.now ends.now options.now made.new result }
{
    if made.size != SIZE {
        return UNKNOWN_OPTION;
    }
    make_by_words(
        alloc,
        font,
        index,
        coordinates,
        glyphs,
        text,
        ends,
        options,
        made,
    )
}
