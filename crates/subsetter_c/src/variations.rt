//! The calls at coordinates on the axes of a variable font.

ghost use Rattle.std.specs.Prelude.{◌⊎◌, IfOk, IfErr};
ghost use Rattle.subsetter_c.specs.Answers.Embedding.{AreNoneHanded};
ghost use Rattle.subsetter_c.specs.Answers.Handed.{IsNothingHanded};
ghost use Rattle.subsetter_c.specs.Answers.Made.{lists_in, IsNothingMade};
ghost use Rattle.subsetter_c.specs.Options.{AreKnown, requested_bytes, requested_tokens, requested_depth, requested_extras};
ghost use Rattle.subsetter_c.specs.Settings.{settings_of, IsSoundSubsetAt, IsRefusalAt, IsSubsetHandedAt, IsSubsetMadeAt, IsSoundEmbeddingAt, IsEmbeddingRefusalAt, IsEmbeddingHandedAt, IsEmbeddingMadeAt};
ghost use Rattle.subsetter_c.specs.Answers.Status.{unknown_option};

use crate::answers::handing::{Sizes, hand_answer, hand_embedded};
use crate::answers::making::{self, Made};
use crate::answers::status;
use crate::options::options_of;
use crate::settings::{Coordinate, settings_for};
use cid_embed::Embedded;
use cid_embed_at::{embed_with_variations_and_options, mapper_at};
use std::alloc::Global;
use subsetter::{Error, Options};
use subsetter_variable::subset_with_variations_and_options;

/// A subset for glyph 0 and the given glyphs at coordinates.
fn subset_for(
    alloc: Global,
    font: &[u8],
    index: u32,
    coordinates: &[Coordinate],
    glyphs: &[u16],
    options: &Options,
) -> Result<Vec<u8>, Error>
    ensures ok { IfOk result (λ v. IsSoundSubsetAt options.now.limits.bytes options.now.limits.tokens options.now.limits.depth (record { bytes = font.now; index = index; extras = options.now.extras }) (settings_of coordinates.now) glyphs.now v.items) }
    ensures err { IfErr result (λ e. IsRefusalAt options.now.limits.bytes options.now.limits.tokens options.now.limits.depth (record { bytes = font.now; index = index; extras = options.now.extras }) (settings_of coordinates.now) glyphs.now e) }
{
    let settings = settings_for(alloc, font, index, coordinates, options.extras)?;
    let mapper = mapper_at(alloc, font, index, glyphs, options.extras)?;
    subset_with_variations_and_options(alloc, font, index, &settings, &mapper, options)
}

/// A subset with CIDs and widths at coordinates.
fn embedded_for(
    alloc: Global,
    font: &[u8],
    index: u32,
    coordinates: &[Coordinate],
    glyphs: &[u16],
    options: &Options,
) -> Result<Embedded, Error>
    ensures ok { IfOk result (λ e. IsSoundEmbeddingAt options.now.limits.bytes options.now.limits.tokens options.now.limits.depth (record { bytes = font.now; index = index; extras = options.now.extras }) (settings_of coordinates.now) glyphs.now e) }
    ensures err { IfErr result (λ why. IsEmbeddingRefusalAt options.now.limits.bytes options.now.limits.tokens options.now.limits.depth (record { bytes = font.now; index = index; extras = options.now.extras }) (settings_of coordinates.now) glyphs.now why) }
{
    let settings = settings_for(alloc, font, index, coordinates, options.extras)?;
    embed_with_variations_and_options(alloc, font, index, &settings, glyphs, options)
}

/// As `subsetter_subset_by_words`, with the glyphs as they are at coordinates.
///
/// A font that is at its default there, as one without axes does, is subset as it is, with its hints; else its instance
/// is. Of a font with outlines in `CFF2`, and neither `glyf` nor `CFF `, the font with outlines in `CFF ` that is made of them is, at
/// the default too.
#[unsafe(no_mangle)]
pub extern "C" fn subsetter_subset_at_by_words(
    alloc: Global,
    font: &[u8],
    index: u32,
    coordinates: &[Coordinate],
    glyphs: &[u16],
    options: &[u32],
    out: &mut [u8],
    length: &mut usize,
) -> u32
    ensures { ((¬ (AreKnown options.now)) × IsNothingHanded unknown_option out.old out.new length.new result) ⊎ (AreKnown options.now × IsSubsetHandedAt (requested_bytes options.now) (requested_tokens options.now) (requested_depth options.now) (record { bytes = font.now; index = index; extras = requested_extras options.now }) (settings_of coordinates.now) glyphs.now out.old out.new length.new result) }
{
    match options_of(options) {
        Some(options) => hand_answer(
            subset_for(alloc, font, index, coordinates, glyphs, &options),
            out,
            length,
        ),
        None => {
            *length = 0;
            status::UNKNOWN_OPTION
        }
    }
}

/// As `subsetter_subset_at_by_words`, in memory of the library.
///
/// Status 0: `made` has the subset alone. Another status: `made` is empty.
#[unsafe(no_mangle)]
pub extern "C" fn subsetter_make_subset_at_by_words(
    alloc: Global,
    font: &[u8],
    index: u32,
    coordinates: &[Coordinate],
    glyphs: &[u16],
    options: &[u32],
    made: &mut Made,
) -> u32
    ensures { ((¬ (AreKnown options.now)) × IsNothingMade unknown_option (lists_in made.new) result) ⊎ (AreKnown options.now × IsSubsetMadeAt (requested_bytes options.now) (requested_tokens options.now) (requested_depth options.now) (record { bytes = font.now; index = index; extras = requested_extras options.now }) (settings_of coordinates.now) glyphs.now (lists_in made.new) result) }
{
    match options_of(options) {
        Some(options) => making::make_subset(
            subset_for(alloc, font, index, coordinates, glyphs, &options),
            made,
        ),
        None => {
            *made = making::nothing();
            status::UNKNOWN_OPTION
        }
    }
}

/// As `subsetter_embed_by_words`, with the glyphs and the widths as they are at coordinates.
///
/// A font that is at its default there is embedded as it is; else its instance is. Of a font with outlines in `CFF2`, and neither
/// `glyf` nor `CFF `, the font with outlines in `CFF ` that is made of them is, at the default too.
#[unsafe(no_mangle)]
pub extern "C" fn subsetter_embed_at_by_words(
    alloc: Global,
    font: &[u8],
    index: u32,
    coordinates: &[Coordinate],
    glyphs: &[u16],
    options: &[u32],
    out: &mut [u8],
    cids: &mut [u16],
    widths: &mut [u32],
    sizes: &mut Sizes,
) -> u32
    ensures { ((¬ (AreKnown options.now)) × AreNoneHanded unknown_option (record { font = out.old; cids = cids.old; widths = widths.old }) (record { font = out.new; cids = cids.new; widths = widths.new }) sizes.new result) ⊎ (AreKnown options.now × IsEmbeddingHandedAt (requested_bytes options.now) (requested_tokens options.now) (requested_depth options.now) (record { bytes = font.now; index = index; extras = requested_extras options.now }) (settings_of coordinates.now) glyphs.now (record { font = out.old; cids = cids.old; widths = widths.old }) (record { font = out.new; cids = cids.new; widths = widths.new }) sizes.new result) }
{
    match options_of(options) {
        Some(options) => {
            let answer = embedded_for(alloc, font, index, coordinates, glyphs, &options);
            hand_embedded(answer, out, cids, widths, sizes)
        }
        None => {
            *sizes = Sizes::NONE;
            status::UNKNOWN_OPTION
        }
    }
}

/// As `subsetter_embed_at_by_words`, in memory of the library.
///
/// Status 0: `made` has the subset, the CIDs and the widths. Another status: `made` is empty.
#[unsafe(no_mangle)]
pub extern "C" fn subsetter_make_embedded_at_by_words(
    alloc: Global,
    font: &[u8],
    index: u32,
    coordinates: &[Coordinate],
    glyphs: &[u16],
    options: &[u32],
    made: &mut Made,
) -> u32
    ensures { ((¬ (AreKnown options.now)) × IsNothingMade unknown_option (lists_in made.new) result) ⊎ (AreKnown options.now × IsEmbeddingMadeAt (requested_bytes options.now) (requested_tokens options.now) (requested_depth options.now) (record { bytes = font.now; index = index; extras = requested_extras options.now }) (settings_of coordinates.now) glyphs.now (lists_in made.new) result) }
{
    match options_of(options) {
        Some(options) => {
            let answer = embedded_for(alloc, font, index, coordinates, glyphs, &options);
            making::make_embedded(answer, made)
        }
        None => {
            *made = making::nothing();
            status::UNKNOWN_OPTION
        }
    }
}
