//! Subsetting a font at user coordinates.

ghost use Rattle.std.specs.Prelude.{IfOk, IfErr, OnOk, None};
ghost use Rattle.std.specs.Bool.{OnFalse};
ghost use Rattle.subsetter_base.specs.declared.error.Error.{Error as SpecError};
ghost use Rattle.subsetter.specs.Glyf.BareOutlines.Instructions.{HasNoInstructions};
ghost use Rattle.subsetter.specs.Limits.{token_limit, depth_limit};
ghost use Rattle.subsetter_sfnt.specs.Extras.{all_extras};
ghost use Rattle.subsetter_sfnt.specs.FontAt.{font_at};
ghost use Rattle.subsetter_sfnt.specs.Read.{as_font};
ghost use Rattle.subsetter_variable.specs.Afresh.{HasGlyphsDrawn};
ghost use Rattle.subsetter_variable.specs.Blended.{HasGlyphsBlended};
ghost use Rattle.subsetter_variable.specs.DefaultLocation.{IsAtDefault, IsCff2Font};
ghost use Rattle.subsetter_variable.specs.Promise.{IsPromisedAt};
ghost use Rattle.subsetter_variable.specs.Subset.{HasOpeningFaultAt};

use crate::default_location::{is_cff2_font, static_font};
use std::alloc::Global;
use subsetter::{
    Error, Extras, GlyphRemapper, Limits, Options, Tag, check_opening, subset_with_options,
};

/// Whether a font can be opened, as `check_opening` says, where outlines of `CFF2` are taken too.
///
/// # Errors
///
/// Those of `check_opening`, but for the one of `CFF2`.
pub fn check_opening_at(data: &[u8], index: u32, extras: Extras) -> Result<(), Error>
    // A font that can be opened has no such fault.
    ensures ok { OnOk result ((e : SpecError) → ¬ (HasOpeningFaultAt (font_at «data».now index extras) e)) }
    // What can't be opened has a fault of that name.
    ensures err { IfErr result (λ e. HasOpeningFaultAt (font_at «data».now index extras) e) }
{
    if is_cff2_font(data, index) {
        return Ok(());
    }
    check_opening(data, index, extras)
}

/// A font with exactly the mapper's glyphs, in order, as a font has them at user coordinates, and each further glyph that these
/// reach through components.
///
/// A font without outlines in `glyf` and `CFF2`, without `fvar`, or all of whose normalized coordinates are 0 is subset as it is,
/// with its hints. Else the static font is subset that `instance` makes of it: each glyph is a simple outline without
/// instructions, which leads to no other, with the advance and the bearing that it has there.
///
/// A font with outlines in `CFF2`, and neither `glyf` nor `CFF `, is subset at its default too, as `cff_instance` makes it: the new
/// font has outlines in a CID-keyed `CFF `, each charstring with its blends resolved and without subroutines, and each coordinate and
/// each edge of a stem rounded once.
///
/// `data`, `index` and the mapper are as for `subset`. A coordinate is the tag of an axis and a value in 65536ths; where a tag
/// comes twice the last value counts, a value past the end of its axis is that end, and an axis without a value stays at its
/// default. A tag that the font doesn't have is passed over.
///
/// # Errors
///
/// Each names what is in the source (`HasFaultAt`); a font without a fault is refused only when out of memory.
///
/// - Those of `subset`, for a font that is subset as it is.
/// - `MalformedFont`: there is `glyf` or `CFF2`, and `fvar` or `avar` is cut.
/// - `Unimplemented`: there is `glyf` or `CFF2`, and `fvar` or `avar` has a major version other than 1.
/// - For a font that isn't at its default, those of `instance`, where each glyph may take 1,000,000 steps, and those of
///   `subset` for the static font.
/// - For a font with outlines in `CFF2` alone, those of `cff_instance`, within 1,000,000 tokens and depth 64, and those of
///   `subset` for the static font.
/// - `OutOfMemory`: a request for memory was refused. None is made for a font that `check_opening` refuses, unless its outlines
///   are those of `CFF2`.
pub fn subset_with_variations(
    alloc: Global,
    data: &[u8],
    index: u32,
    coordinates: &[(Tag, i32)],
    mapper: &GlyphRemapper,
) -> Result<Vec<u8>, Error>
    // What is returned is a subset of the font as it is, at its default, or else of an instance of it; of a font with outlines in CFF2
    // alone it is one of the font with outlines in `CFF ` that is made of it. What is refused has a fault of that name.
    ensures promise { IsPromisedAt (λ v. v.items) None token_limit depth_limit (font_at «data».now index all_extras) coordinates.now mapper.now result }
    // Elsewhere than at its default the new font has the mapper's glyphs and no other, in order, each exactly as it is drawn at
    // these coordinates, read afresh.
    ensures drawn { IfOk result (λ out. ¬ (IsAtDefault (font_at «data».now index all_extras) coordinates.now) → HasGlyphsDrawn (font_at «data».now index all_extras) coordinates.now mapper.now out.items) }
    // Of outlines in CFF2 alone the new font has the mapper's glyphs and no other, in order, each with the outline that these have at
    // the coordinates, each coordinate and each edge of a stem rounded once, read afresh.
    ensures drawn_cff { IfOk result (λ out. IsCff2Font (font_at «data».now index all_extras) → HasGlyphsBlended (font_at «data».now index all_extras) coordinates.now mapper.now out.items) }
{
    let limits = Limits::default();
    subset_with_variations_and_limits(alloc, data, index, coordinates, mapper, &limits)
}

/// As `subset_with_variations`, within other limits than 1,000,000 tokens and depth 64, and where the new font may have a
/// bound on its bytes.
///
/// # Errors
///
/// Those of `subset_with_variations`, with the chosen limits in place of the default ones, as in `subset_with_limits`. In an
/// instance each glyph may take `limits.tokens()` steps. The bound on bytes is that of the new font, not of the static one.
pub fn subset_with_variations_and_limits(
    alloc: Global,
    data: &[u8],
    index: u32,
    coordinates: &[(Tag, i32)],
    mapper: &GlyphRemapper,
    limits: &Limits,
) -> Result<Vec<u8>, Error>
    // What is returned is a subset of the font as it is, at its default, or else of an instance of it; of a font with outlines in CFF2
    // alone it is one of the font with outlines in `CFF ` that is made of it. What is refused has a fault of that name.
    ensures promise { IsPromisedAt (λ v. v.items) limits.now.bytes limits.now.tokens limits.now.depth (font_at «data».now index all_extras) coordinates.now mapper.now result }
    // Elsewhere than at its default the new font has the mapper's glyphs and no other, in order, each exactly as it is drawn at
    // these coordinates, read afresh.
    ensures drawn { IfOk result (λ out. ¬ (IsAtDefault (font_at «data».now index all_extras) coordinates.now) → HasGlyphsDrawn (font_at «data».now index all_extras) coordinates.now mapper.now out.items) }
    // Of outlines in CFF2 alone the new font has the mapper's glyphs and no other, in order, each with the outline that these have at
    // the coordinates, each coordinate and each edge of a stem rounded once, read afresh.
    ensures drawn_cff { IfOk result (λ out. IsCff2Font (font_at «data».now index all_extras) → HasGlyphsBlended (font_at «data».now index all_extras) coordinates.now mapper.now out.items) }
{
    let options = Options::keeping_all(*limits);
    subset_with_variations_and_options(alloc, data, index, coordinates, mapper, &options)
}

/// As `subset_with_variations_and_limits`, where the new font has only those of its extras that are requested, as in
/// `subset_with_options`. An instance has no hinting, whatever is requested.
///
/// # Errors
///
/// Those of `subset_with_variations_and_limits`, but for what is stated of a table that isn't requested.
pub fn subset_with_variations_and_options(
    alloc: Global,
    data: &[u8],
    index: u32,
    coordinates: &[(Tag, i32)],
    mapper: &GlyphRemapper,
    options: &Options,
) -> Result<Vec<u8>, Error>
    // What is returned is a subset of the font as it is, at its default, or else of an instance of it; of a font with outlines in CFF2
    // alone it is one of the font with outlines in `CFF ` that is made of it. What is refused has a fault of that name.
    ensures promise { IsPromisedAt (λ v. v.items) options.now.limits.bytes options.now.limits.tokens options.now.limits.depth (font_at «data».now index options.now.extras) coordinates.now mapper.now result }
    // Elsewhere than at its default the new font has the mapper's glyphs and no other, in order, each exactly as it is drawn at
    // these coordinates, read afresh.
    ensures drawn { IfOk result (λ out. ¬ (IsAtDefault (font_at «data».now index all_extras) coordinates.now) → HasGlyphsDrawn (font_at «data».now index all_extras) coordinates.now mapper.now out.items) }
    // Of outlines in CFF2 alone the new font has the mapper's glyphs and no other, in order, each with the outline that these have at
    // the coordinates, each coordinate and each edge of a stem rounded once, read afresh.
    ensures drawn_cff { IfOk result (λ out. IsCff2Font (font_at «data».now index all_extras) → HasGlyphsBlended (font_at «data».now index all_extras) coordinates.now mapper.now out.items) }
    // Without hinting the new font has no instructions, read afresh.
    ensures bare { IfOk result (λ out. OnFalse options.now.extras.hinting (HasNoInstructions (as_font out.items))) }
{
    let made = static_font(alloc, data, index, coordinates, mapper, &options.limits)?;
    match made {
        None => subset_with_options(alloc, data, index, mapper, options),
        Some(file) => subset_with_options(alloc, &file, 0, mapper, options),
    }
}
