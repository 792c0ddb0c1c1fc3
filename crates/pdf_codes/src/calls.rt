//! The calls: the codes of glyphs in use, with their texts, and the CMap that leads from codes to CIDs.

ghost use Rattle.std.specs.Prelude.{◌≡◌, ◌⊎◌, ℕ, List, length, map, IfOk, IfErr, OnOk, Some};
ghost use Rattle.subsetter_base.specs.declared.error.Error.TheVariants.{OutOfMemory, OverflowError};
ghost use Rattle.pdf_text.specs.Cmaps.Cmap.{cmap_text};
ghost use Rattle.pdf_codes.specs.declared.codes.Codes.{Codes};
ghost use Rattle.pdf_codes.specs.Codes.{AreCids, AreCodes, IsOverfull, Used, coded, used_of};
ghost use Rattle.pdf_codes.specs.Cmaps.Leading.{AreLed, name_of, own_cmap, own_name, pairs_with, text_of};
ghost use Rattle.pdf_codes.specs.Shown.{uses_of};
ghost use Rattle.pdf_codes.specs.Cmaps.Texts.{is_line_found, lines_of_codes, said_by, text_in};

use crate::cmaps::leading::{are_cids, pairs_with, write_leading};
use crate::cmaps::texts::texts_for;
use crate::codes::{Codes, codes_for, lines_of};
use crate::shown::{Shown, entries_of, units_of_all};
use pdf_text::NamedCmap;
use std::alloc::Global;
use subsetter_base::Error;

/// The codes of glyphs in use, and their texts.
#[derive(Drop)]
pub struct ShownCodes {
    /// The code of each entry, which strings hold.
    pub codes: Vec<u16>,
    /// Whether readers find the text of an entry by its code; else ActualText says it (ISO 32000-1, 14.9.4).
    pub is_said: Vec<bool>,
    /// The ToUnicode CMap.
    pub to_unicode: Vec<u8>,
}

/// The code of each entry, in order: it needs no font, so pages can be written first.
///
/// # Errors
///
/// - `OverflowError`: more than 65,535 glyphs (`Codes::Consecutive`) or pairs of a glyph and a text (`Codes::EachText`),
///   glyph 0 among them.
/// - `OutOfMemory`: a request for memory was refused.
pub fn codes_of(alloc: Global, shown: &[Shown<'_>], choice: Codes) -> Result<Vec<u16>, Error>
    ensures ok { IfOk result (λ codes. AreCodes choice (uses_of shown.now) codes.items) }
    ensures len { IfOk result (λ codes. length codes.items ≡ length shown.now) }
    ensures room { OnOk result (IsOverfull choice (uses_of shown.now) → ⊥) }
    ensures err { IfErr result (λ e. (e ≡ OutOfMemory) ⊎ ((e ≡ OverflowError) × IsOverfull choice (uses_of shown.now))) }
{
    let units = units_of_all(alloc, shown)?;
    let entries = entries_of(alloc, shown, &units)?;
    codes_for(alloc, &entries, choice)
}

/// The code of each entry, in order, the ToUnicode CMap, in which a code has the first text of its entries that isn't
/// empty, else U+2060, and of each entry whether readers find its text there. Glyph 0 has no text, and code 0 no line.
///
/// # Errors
///
/// As of `codes_of`. A text of more than 256 units is no error here: see `has_long_text`.
pub fn codes_and_texts(
    alloc: Global,
    shown: &[Shown<'_>],
    choice: Codes,
) -> Result<ShownCodes, Error>
    ensures codes { IfOk result (λ c. AreCodes choice (uses_of shown.now) c.codes.items) }
    ensures len { IfOk result (λ c. length c.codes.items ≡ length shown.now) }
    ensures cmap { IfOk result (λ c. c.to_unicode.items ≡ cmap_text (lines_of_codes (coded (uses_of shown.now) c.codes.items))) }
    // The CMap is read: each code has what it says.
    ensures texts { IfOk result (λ c. (k : ℕ) → text_in c.to_unicode.items k ≡ Some (said_by (coded (uses_of shown.now) c.codes.items) k)) }
    ensures said { IfOk result (λ c. c.is_said.items ≡ map (is_line_found (coded (uses_of shown.now) c.codes.items)) (coded (uses_of shown.now) c.codes.items)) }
    ensures room { OnOk result (IsOverfull choice (uses_of shown.now) → ⊥) }
    ensures err { IfErr result (λ e. (e ≡ OutOfMemory) ⊎ ((e ≡ OverflowError) × IsOverfull choice (uses_of shown.now))) }
{
    let units = units_of_all(alloc, shown)?;
    let entries = entries_of(alloc, shown, &units)?;
    let codes = codes_for(alloc, &entries, choice)?;
    let lines = lines_of(alloc, &entries, &codes)?;
    let made = texts_for(alloc, &lines)?;
    Ok(ShownCodes {
        codes,
        is_said: made.is_said,
        to_unicode: made.to_unicode,
    })
}

/// The CMap that leads from the code of each entry to its CID, of horizontal or of vertical writing; none where each code
/// is its CID. Of several CIDs of one code the first counts.
///
/// # Errors
///
/// `OutOfMemory` alone.
pub fn encoding_of(
    alloc: Global,
    vertical: bool,
    codes: &[u16],
    cids: &[u16],
) -> Result<Option<NamedCmap>, Error>
    ensures text { IfOk result (λ e. text_of e ≡ own_cmap vertical (pairs_with codes.now cids.now)) }
    ensures name { IfOk result (λ e. name_of e ≡ own_name vertical (pairs_with codes.now cids.now)) }
    // Of codes and CIDs of the same glyphs in use, the CMap is read: each code leads to the CID of its entry.
    ensures leads { (choice : Codes) (us : List Used) → AreCodes choice us codes.now → AreCids us cids.now → IfOk result (λ e. AreLed (text_of e) codes.now cids.now) }
    ensures err { IfErr result (λ e. e ≡ OutOfMemory) }
{
    let pairs = pairs_with(alloc, codes, cids)?;
    if are_cids(&pairs) {
        return Ok(None);
    }
    Ok(Some(write_leading(alloc, vertical, &pairs)?))
}
