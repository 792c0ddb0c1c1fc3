//! A font of a text in UTF-8, handed to C.

ghost use Rattle.std.specs.Prelude.{◌≡◌, ◌≢◌, IfOk, IfErr, Some, length, map, true};
ghost use Rattle.std.specs.Option.{option_map};
ghost use Rattle.std.specs.Str.{IsUtf8, encode_utf8_all};
ghost use Rattle.subsetter_base.specs.declared.error.Error.{Error as SpecError};
ghost use Rattle.subsetter_base.specs.declared.error.Error.TheVariants.{OutOfMemory};
ghost use Rattle.subsetter_sfnt.specs.Extras.{all_extras};
ghost use Rattle.subsetter_sfnt.specs.FontAt.{font_at};
ghost use Rattle.text_glyphs.specs.Choice.{character_glyph};
ghost use Rattle.text_glyphs.specs.Faces.{face_source};
ghost use Rattle.text_glyphs.specs.View.{source_view};
ghost use Rattle.subsetter_pdf_c.specs.Entries.{are_scalars};
ghost use Rattle.subsetter_pdf_c.specs.Texts.{one_each};
ghost use Rattle.subsetter_c.specs.Documents.PdfGlyphs.{IsUnread};
ghost use Rattle.subsetter_c.specs.Documents.PdfOptions.{AreFontWordsKnown};
ghost use Rattle.subsetter_c.specs.Documents.Texts.{IsTextHandedBy, IsTextMade};
ghost use Rattle.subsetter_c.specs.Documents.Whole.{IsNoWholeMade, own_size};
ghost use Rattle.subsetter_c.specs.Answers.Status.{invalid_text, unknown_option};
ghost use Rattle.subsetter_c.specs.Settings.{settings_of};

use crate::answers::status::{INVALID_TEXT, NO_CMAP, UNKNOWN_OPTION, status_of};
use crate::characters::{glyphs_by, source_for};
use crate::documents::pdf_options::font_options_of;
use crate::documents::whole::{FontMade, SIZE, make_whole, no_whole};
use crate::settings::Coordinate;
use pdf_font::FontOptions;
use std::alloc::Global;
use subsetter::Error;
use subsetter_pdf_c::{characters_in, ends_of};
use text_glyphs::TextSource;

/// The glyphs of a text, and the text as C has it.
#[derive(Drop)]
struct LookedUp {
    glyphs: Vec<u16>,
    text: Vec<u32>,
    ends: Vec<usize>,
}

/// The glyph of each character of a text.
fn looked_up(alloc: Global, source: &TextSource<'_>, text: &str) -> Result<LookedUp, Error>
    ensures text { IfOk result (λ l. encode_utf8_all l.text.items ≡ text.now) }
    ensures glyphs { IfOk result (λ l. l.glyphs.items ≡ map (character_glyph (source_view source.now).table) l.text.items) }
    ensures ends { IfOk result (λ l. l.ends.items ≡ one_each 0 (length l.text.items)) }
    ensures scalars { IfOk result (λ l. are_scalars l.text.items ≡ true) }
    ensures err { IfErr result (λ e. e ≡ OutOfMemory) }
{
    let text = characters_in(alloc, text)?;
    let glyphs = glyphs_by(alloc, source, &text)?;
    let ends = ends_of(alloc, text.len())?;
    Ok(LookedUp { glyphs, text, ends })
}

/// Makes a font of a text, whose characters have glyphs by these tables, with these options: the status.
fn make_by(
    alloc: Global,
    font: &[u8],
    index: u32,
    coordinates: &[Coordinate],
    source: &TextSource<'_>,
    text: &str,
    options: &FontOptions,
    made: &mut FontMade,
) -> u32
    requires found { face_source (font_at font.now index all_extras) ≡ Some (source_view source.now) }
    requires opens { (e : SpecError) → ¬ (IsUnread (font_at font.now index all_extras) e) }
    ensures { IsTextHandedBy font.now index (settings_of coordinates.now) text.now options.now made.new result }
{
    match looked_up(alloc, source, text) {
        Ok(found) => make_whole(
            alloc,
            font,
            index,
            coordinates,
            &found.glyphs,
            &found.text,
            &found.ends,
            options,
            made,
        ),
        Err(error) => {
            *made = no_whole();
            status_of(error)
        }
    }
}

/// Makes a font of a text, if there are tables by which characters have glyphs: the status.
fn make_if_mapped(
    alloc: Global,
    font: &[u8],
    index: u32,
    coordinates: &[Coordinate],
    source: Option<TextSource<'_>>,
    text: &str,
    options: &FontOptions,
    made: &mut FontMade,
) -> u32
    requires found { face_source (font_at font.now index all_extras) ≡ option_map source_view source }
    requires opens { (e : SpecError) → ¬ (IsUnread (font_at font.now index all_extras) e) }
    ensures { IsTextHandedBy font.now index (settings_of coordinates.now) text.now options.now made.new result }
{
    match source {
        Some(source) => make_by(
            alloc,
            font,
            index,
            coordinates,
            &source,
            text,
            options,
            made,
        ),
        None => {
            *made = no_whole();
            NO_CMAP
        }
    }
}

/// Makes a font of a text with these options: the status.
fn make_of_text(
    alloc: Global,
    font: &[u8],
    index: u32,
    coordinates: &[Coordinate],
    text: &str,
    options: &FontOptions,
    made: &mut FontMade,
) -> u32
    ensures { IsTextHandedBy font.now index (settings_of coordinates.now) text.now options.now made.new result }
{
    match source_for(font, index) {
        Ok(source) => make_if_mapped(alloc, font, index, coordinates, source, text, options, made),
        Err(error) => {
            *made = no_whole();
            status_of(error)
        }
    }
}

/// Makes a font of bytes that may be a text: the status.
fn make_of_bytes(
    alloc: Global,
    font: &[u8],
    index: u32,
    coordinates: &[Coordinate],
    text: &[u8],
    options: &FontOptions,
    made: &mut FontMade,
) -> u32
    ensures no_text { ¬ (IsUtf8 text.now) → IsNoWholeMade invalid_text made.new result }
    ensures made { IsUtf8 text.now → IsTextHandedBy font.now index (settings_of coordinates.now) text.now options.now made.new result }
{
    match str::from_utf8(text) {
        Ok(text) => make_of_text(alloc, font, index, coordinates, text, options, made),
        Err(_) => {
            *made = no_whole();
            INVALID_TEXT
        }
    }
}

/// As `subsetter_make_font_by_words`, of a text in UTF-8: each character has the glyph that `cmap` gives it.
///
/// Statuses are those of that call and of `subsetter_glyphs_of`; 12 also where the text isn't UTF-8.
#[unsafe(no_mangle)]
pub extern "C" fn subsetter_make_pdf_font_of_utf8_by_words(
    alloc: Global,
    font: &[u8],
    index: u32,
    coordinates: &[Coordinate],
    text: &[u8],
    options: &[u32],
    made: &mut FontMade,
) -> u32
    ensures sized { made.old.size ≢ own_size → (made.new ≡ made.old) × (result ≡ unknown_option) }
    ensures unknown { made.old.size ≡ own_size → ¬ (AreFontWordsKnown options.now) → IsNoWholeMade unknown_option made.new result }
    ensures no_text { made.old.size ≡ own_size → AreFontWordsKnown options.now → ¬ (IsUtf8 text.now) → IsNoWholeMade invalid_text made.new result }
    ensures made { made.old.size ≡ own_size → AreFontWordsKnown options.now → IsUtf8 text.now → IsTextMade font.now index (settings_of coordinates.now) text.now options.now made.new result }
{
    if made.size != SIZE {
        return UNKNOWN_OPTION;
    }
    match font_options_of(options) {
        Some(options) => make_of_bytes(alloc, font, index, coordinates, text, &options, made),
        None => {
            *made = no_whole();
            UNKNOWN_OPTION
        }
    }
}
