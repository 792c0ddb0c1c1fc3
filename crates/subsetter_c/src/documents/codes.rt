//! The call for codes, which needs no font.

ghost use Rattle.std.specs.Prelude.{◌≡◌, ◌⊎◌, ◌<◌, ◌≤◌, MatchOption, IfOk, IfErr, length, false, true};
ghost use Rattle.subsetter_base.specs.declared.error.Error.TheVariants.{OutOfMemory, OverflowError};
ghost use Rattle.pdf_codes.specs.Codes.{AreCodes, IsOverfull};
ghost use Rattle.subsetter_pdf_c.specs.Entries.{AreTexts, are_texts, uses_in};
ghost use Rattle.subsetter_c.specs.Answers.Handed.{IsHandedOver, IsNothingHanded};
ghost use Rattle.subsetter_c.specs.Answers.Status.{invalid_text, unknown_option};
ghost use Rattle.subsetter_c.specs.Documents.Codes.{IsCodesRefusal};
ghost use Rattle.subsetter_c.specs.Documents.PdfOptions.{codes_chosen};

use crate::answers::handing::hand_glyphs;
use crate::answers::status::{INVALID_TEXT, UNKNOWN_OPTION};
use crate::documents::pdf_options::codes_of as codes_by;
use pdf_codes::{Codes, codes_of};
use std::alloc::Global;
use subsetter::Error;
use subsetter_pdf_c::{are_texts, characters_of, shown_of};

/// The codes of glyphs with their texts.
fn codes_for(
    alloc: Global,
    glyphs: &[u16],
    text: &[u32],
    ends: &[usize],
    kind: Codes,
) -> Result<Vec<u16>, Error>
    requires { AreTexts (length glyphs.now) text.now ends.now }
    ensures ok { IfOk result (λ codes. AreCodes kind (uses_in glyphs.now text.now ends.now) codes.items) }
    ensures err { IfErr result (λ e. IsCodesRefusal kind (uses_in glyphs.now text.now ends.now) e) }
{
    let characters = characters_of(alloc, text)?;
    let shown = shown_of(alloc, glyphs, &characters, ends)?;
    codes_of(alloc, &shown, kind)
}

/// The codes of glyphs with their texts in the caller's buffer: the status.
fn hand_codes(
    alloc: Global,
    glyphs: &[u16],
    text: &[u32],
    ends: &[usize],
    kind: Codes,
    codes: &mut [u16],
    told: &mut usize,
) -> u32
    ensures no_texts { are_texts (length glyphs.now) text.now ends.now ≡ false → IsNothingHanded invalid_text codes.old codes.new told.new result }
    ensures codes { are_texts (length glyphs.now) text.now ends.now ≡ true → IsHandedOver (AreCodes kind (uses_in glyphs.now text.now ends.now)) (IsCodesRefusal kind (uses_in glyphs.now text.now ends.now)) codes.old codes.new told.new result }
{
    if !are_texts(glyphs.len(), text, ends) {
        *told = 0;
        return INVALID_TEXT;
    }
    hand_glyphs(codes_for(alloc, glyphs, text, ends, kind), codes, told)
}

/// The code of each glyph with its text, in the caller's buffer, as `subsetter_make_font_by_words` gives it.
///
/// Status 0: the first numbers of `codes` are the codes, the rest of it is unchanged, and `length` is their count. Status 8:
/// `codes` is too small and unchanged, and `length` is the exact count. Status 10: the kind is another; status 12: a text isn't
/// one; status 5 or 7: an error; nothing is written, and `length` is 0.
#[unsafe(no_mangle)]
pub extern "C" fn subsetter_codes_of(
    alloc: Global,
    glyphs: &[u16],
    text: &[u32],
    ends: &[usize],
    kind: u32,
    codes: &mut [u16],
    told: &mut usize,
) -> u32
    ensures unknown { 3 ≤ kind → IsNothingHanded unknown_option codes.old codes.new told.new result }
    ensures no_texts { kind < 3 → are_texts (length glyphs.now) text.now ends.now ≡ false → IsNothingHanded invalid_text codes.old codes.new told.new result }
    ensures codes { kind < 3 → are_texts (length glyphs.now) text.now ends.now ≡ true → IsHandedOver (AreCodes (codes_chosen kind) (uses_in glyphs.now text.now ends.now)) (IsCodesRefusal (codes_chosen kind) (uses_in glyphs.now text.now ends.now)) codes.old codes.new told.new result }
{
    match codes_by(kind) {
        Some(kind) => hand_codes(alloc, glyphs, text, ends, kind, codes, told),
        None => {
            *told = 0;
            UNKNOWN_OPTION
        }
    }
}
