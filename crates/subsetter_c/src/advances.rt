//! Advances of glyphs, handed to C.

ghost use Rattle.std.specs.Prelude.{◌≡◌, Ok, Err};
ghost use Rattle.subsetter_base.specs.Gives.{Fails, Gives};
ghost use Rattle.subsetter_sfnt.specs.Extras.{all_extras};
ghost use Rattle.subsetter_sfnt.specs.FontAt.{font_at};
ghost use Rattle.font_advances.specs.Advances.{advances_of, advances_seen};
ghost use Rattle.font_advances.specs.declared.call.GlyphAdvances.{GlyphAdvances as SpecAdvances};
ghost use Rattle.subsetter_c.specs.Advances.{AreAdvancesHanded, AreAdvancesOf, buffers};
ghost use Rattle.subsetter_c.specs.Answers.Status.{unknown_option};
ghost use Rattle.subsetter_c.specs.Options.{AreKnown, requested_tokens};
ghost use Rattle.subsetter_c.specs.Settings.{settings_of};

use crate::answers::handing::begin_with;
use crate::answers::status::{DONE, TOO_SMALL, UNKNOWN_OPTION, status_of};
use crate::options::options_of;
use crate::settings::{Coordinate, settings_of};
use font_advances::{GlyphAdvances, advances};
use std::alloc::Global;
use subsetter::{Error, Limits};

/// Advances of glyphs.
fn advances_for(
    alloc: Global,
    font: &[u8],
    index: u32,
    coordinates: &[Coordinate],
    glyphs: &[u16],
    limits: &Limits,
) -> Result<GlyphAdvances, Error>
    ensures { Gives advances_seen result (advances_of (font_at font.now index all_extras) (settings_of coordinates.now) limits.now.tokens glyphs.now) }
{
    let settings = settings_of(alloc, coordinates)?;
    advances(alloc, font, index, glyphs, &settings, limits)
}

/// unitsPerEm.
fn units_of(found: &GlyphAdvances) -> u32
    ensures { result ≡ found.now.units_per_em }
{
    u32::from(found.units_per_em)
}

/// Hands advances over, or the error: the status.
fn hand_advances(
    answer: Result<GlyphAdvances, Error>,
    widths: &mut [u16],
    heights: &mut [u16],
    units_per_em: &mut u32,
) -> u32
    ensures { AreAdvancesHanded (λ a. (g : SpecAdvances) × (answer ≡ Ok g) × (a ≡ advances_seen g)) (λ e. answer ≡ Err e) (buffers widths.old heights.old units_per_em.old) (buffers widths.new heights.new units_per_em.new) result }
{
    let found = match answer {
        Ok(found) => found,
        Err(error) => return status_of(error),
    };
    if found.widths.len() > widths.len() || found.heights.len() > heights.len() {
        return TOO_SMALL;
    }
    begin_with(widths, &found.widths);
    begin_with(heights, &found.heights);
    *units_per_em = units_of(&found);
    DONE
}

/// The advances of glyphs at coordinates, in the font's units, in buffers of the caller; the words are those of
/// `subsetter_options`, of which the tokens count alone.
///
/// Status 0: the first numbers of `widths` and `heights` are the advances, the rest of them is unchanged, and `units_per_em` is
/// that of the font. Else all are unchanged. Status 8: one of the two is too small; status 10: an option is unknown; status 1 to
/// 7: an error.
#[unsafe(no_mangle)]
pub extern "C" fn subsetter_advances_by_words(
    alloc: Global,
    font: &[u8],
    index: u32,
    coordinates: &[Coordinate],
    glyphs: &[u16],
    options: &[u32],
    widths: &mut [u16],
    heights: &mut [u16],
    units_per_em: &mut u32,
) -> u32
    ensures unknown { ¬ (AreKnown options.now) → (buffers widths.new heights.new units_per_em.new ≡ buffers widths.old heights.old units_per_em.old) × (result ≡ unknown_option) }
    ensures handed { AreKnown options.now → AreAdvancesOf (advances_of (font_at font.now index all_extras) (settings_of coordinates.now) (requested_tokens options.now) glyphs.now) (buffers widths.old heights.old units_per_em.old) (buffers widths.new heights.new units_per_em.new) result }
{
    match options_of(options) {
        Some(options) => hand_advances(
            advances_for(alloc, font, index, coordinates, glyphs, &options.limits),
            widths,
            heights,
            units_per_em,
        ),
        None => UNKNOWN_OPTION,
    }
}
