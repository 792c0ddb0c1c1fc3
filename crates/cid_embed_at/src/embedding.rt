//! Embedding a font at user coordinates.

ghost use Rattle.std.specs.Prelude.{◌≡◌, ◌≢◌, ◌⊎◌, None, IfOk, IfErr, Err};
ghost use Rattle.subsetter_base.specs.declared.error.Error.{Error as SpecError};
ghost use Rattle.subsetter_base.specs.declared.error.Error.TheVariants.{OutOfMemory, OverflowError};
ghost use Rattle.subsetter_base.specs.Indexes.{HasAllAboveZero};
ghost use Rattle.subsetter_sfnt.specs.Extras.{all_extras};
ghost use Rattle.subsetter_sfnt.specs.FontAt.{font_at};
ghost use Rattle.subsetter.specs.Limits.{token_limit, depth_limit};
ghost use Rattle.cid_embed.specs.Embed.{numbering};
ghost use Rattle.subsetter_variable.specs.Afresh.{HasGlyphsDrawn};
ghost use Rattle.subsetter_variable.specs.Blended.{HasGlyphsBlended};
ghost use Rattle.subsetter_variable.specs.DefaultLocation.{IsAtDefault, IsCff2Font};
ghost use Rattle.subsetter_variable.specs.Subset.{HasOpeningFaultAt};
ghost use Rattle.cid_embed_at.specs.Embed.{IsEmbedPromisedAt};

use cid_embed::{Embedded, embed_with_options, mapper_for};
use std::alloc::Global;
use subsetter::{Error, Extras, GlyphRemapper, Limits, Options, Tag};
use subsetter_variable::{is_cff2_font, static_font};

/// The mapper of glyph 0 and the given glyphs of a font, as `mapper_for` of `cid_embed` makes it, where outlines of `CFF2` are taken.
///
/// # Errors
///
/// - `OverflowError`: all glyphs above 0 are given, which leaves no number for glyph 0.
/// - `OutOfMemory`: a request for memory was refused. A font that can't be opened gives the error of `check_opening`, unless its
///   outlines are those of `CFF2`.
pub fn mapper_at(
    alloc: Global,
    data: &[u8],
    index: u32,
    glyphs: &[u16],
    extras: Extras,
) -> Result<GlyphRemapper, Error>
    ensures ok { IfOk result (λ mapper. mapper ≡ numbering glyphs.now) }
    ensures err { IfErr result (λ why. (why ≡ OutOfMemory) ⊎ (((why ≡ OverflowError) × HasAllAboveZero glyphs.now) ⊎ HasOpeningFaultAt (font_at «data».now index extras) why)) }
    // Where a fault is found before memory is taken, the error isn't `OutOfMemory`.
    ensures before_memory { (e : SpecError) → HasOpeningFaultAt (font_at «data».now index extras) e → result ≢ Err OutOfMemory }
{
    if is_cff2_font(data, index) {
        return GlyphRemapper::new_from_glyphs(alloc, glyphs);
    }
    mapper_for(alloc, data, index, glyphs, extras)
}

/// The subset of a font for the requested glyphs as they are at user coordinates, with the CID of each of them and the width that
/// each CID has there.
///
/// A font that is at its default there is embedded as it is, as by `embed`, and else its instance is. Of a font with outlines in
/// `CFF2` alone the font with outlines in `CFF ` is embedded that `cff_instance` makes of it, at its default too. The coordinates are
/// as for `subset_with_variations`.
///
/// # Errors
///
/// - Those of `embed`, for the font as it is or for its instance.
/// - Those of `subset_with_variations` of a font's location and of its instance.
pub fn embed_with_variations(
    alloc: Global,
    data: &[u8],
    index: u32,
    coordinates: &[(Tag, i32)],
    glyphs: &[u16],
) -> Result<Embedded, Error>
    // What is returned is an embedding of the font as it is, at its default, or else of an instance of it, or of the font with outlines in
    // `CFF ` that is made of outlines in CFF2. What is refused has a fault of that name.
    ensures promise { IsEmbedPromisedAt None token_limit depth_limit (font_at «data».now index all_extras) coordinates.now glyphs.now result }
    // Elsewhere than at its default the new font has glyph 0 and the asked glyphs and no other, each exactly as it is drawn at
    // these coordinates, read afresh.
    ensures drawn { IfOk result (λ e. ¬ (IsAtDefault (font_at «data».now index all_extras) coordinates.now) → HasGlyphsDrawn (font_at «data».now index all_extras) coordinates.now (numbering glyphs.now) e.font.items) }
    // Of outlines in CFF2 alone the new font has glyph 0 and the requested glyphs and no other, each with the outline that these have at the
    // coordinates, each coordinate and each edge of a stem rounded once, read afresh.
    ensures drawn_cff { IfOk result (λ e. IsCff2Font (font_at «data».now index all_extras) → HasGlyphsBlended (font_at «data».now index all_extras) coordinates.now (numbering glyphs.now) e.font.items) }
{
    let options = Options::keeping_all(Limits::default());
    embed_with_variations_and_options(alloc, data, index, coordinates, glyphs, &options)
}

/// As `embed_with_variations`, with the limits and the extras of `embed_with_options`. In an instance each glyph may take
/// `limits.tokens()` steps.
///
/// # Errors
///
/// Those of `embed_with_variations`, with the chosen limits in place of the default ones, but for what is stated of a table that
/// isn't requested.
pub fn embed_with_variations_and_options(
    alloc: Global,
    data: &[u8],
    index: u32,
    coordinates: &[(Tag, i32)],
    glyphs: &[u16],
    options: &Options,
) -> Result<Embedded, Error>
    // What is returned is an embedding of the font as it is, at its default, or else of an instance of it, or of the font with outlines in
    // `CFF ` that is made of outlines in CFF2. What is refused has a fault of that name.
    ensures promise { IsEmbedPromisedAt options.now.limits.bytes options.now.limits.tokens options.now.limits.depth (font_at «data».now index options.now.extras) coordinates.now glyphs.now result }
    // Elsewhere than at its default the new font has glyph 0 and the asked glyphs and no other, each exactly as it is drawn at
    // these coordinates, read afresh.
    ensures drawn { IfOk result (λ e. ¬ (IsAtDefault (font_at «data».now index all_extras) coordinates.now) → HasGlyphsDrawn (font_at «data».now index all_extras) coordinates.now (numbering glyphs.now) e.font.items) }
    // Of outlines in CFF2 alone the new font has glyph 0 and the requested glyphs and no other, each with the outline that these have at the
    // coordinates, each coordinate and each edge of a stem rounded once, read afresh.
    ensures drawn_cff { IfOk result (λ e. IsCff2Font (font_at «data».now index all_extras) → HasGlyphsBlended (font_at «data».now index all_extras) coordinates.now (numbering glyphs.now) e.font.items) }
{
    let mapper = mapper_at(alloc, data, index, glyphs, options.extras)?;
    let made = static_font(alloc, data, index, coordinates, &mapper, &options.limits)?;
    match made {
        None => embed_with_options(alloc, data, index, glyphs, options),
        Some(file) => embed_with_options(alloc, &file, 0, glyphs, options),
    }
}
