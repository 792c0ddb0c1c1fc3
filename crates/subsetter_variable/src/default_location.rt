//! Where a font is on its axes, and the static font that it is there.

ghost use Rattle.std.specs.Prelude.{◌≡◌, ◌↔◌, ◌⊎◌, All, IfOk, IfErr, IsTrue, MatchOption, IfSome, None, Ok, codes, pos, true};
ghost use Rattle.subsetter_base.specs.declared.error.Error.{Error as SpecError};
ghost use Rattle.subsetter_base.specs.declared.error.Error.TheVariants.{OutOfMemory};
ghost use Rattle.subsetter_sfnt.specs.Extras.{all_extras};
ghost use Rattle.subsetter_sfnt.specs.FontAt.{font_at};
ghost use Rattle.subsetter_sfnt.specs.Read.{stored};
ghost use Rattle.subsetter_cff_instance.specs.CffInstance.{IsCffInstance};
ghost use Rattle.subsetter_cff_instance.specs.Fault.{HasCffInstanceFault};
ghost use Rattle.subsetter_instance.specs.Fault.{HasInstanceFault};
ghost use Rattle.subsetter_instance.specs.Instance.{IsInstance};
ghost use Rattle.subsetter_variable.specs.DefaultLocation.{IsAtDefault, HasNoLocation, IsCff2Font, is_cff2_alone, IsStaticFile, HasStaticFault};

use std::alloc::Global;
use subsetter::{Error, Extras, GlyphRemapper, Limits, Tag};
use subsetter_cff_instance::cff_instance;
use subsetter_instance::instance;
use subsetter_instance::source::normalized_coordinates;
use subsetter_sfnt::parse::parse;

/// Whether each coordinate, in 16384ths, is 0.
fn are_zero(at: &[i32]) -> bool
    ensures { IsTrue result ↔ All (λ v. v ≡ pos 0) at.now }
{
    at.iter().all(|v| *v == 0)
}

/// Whether user coordinates, each a tag and a value in 65536ths, are a font's default: it has no outlines in
/// `glyf`, or each of its normalized coordinates is 0. A file that can't be opened has no outlines.
///
/// # Errors
///
/// - `MalformedFont`: `fvar` or `avar` is cut.
/// - `Unimplemented`: `fvar` or `avar` has a major version other than 1.
/// - `OutOfMemory`: a request for memory was refused. None is made for a font without outlines in `glyf`.
fn is_at_default(
    alloc: Global,
    data: &[u8],
    index: u32,
    coordinates: &[(Tag, i32)],
) -> Result<bool, Error>
    ensures ok { IfOk result (λ yes. IsTrue yes ↔ IsAtDefault (font_at «data».now index all_extras) coordinates.now) }
    ensures err { IfErr result (λ e. (e ≡ OutOfMemory) ⊎ HasNoLocation (font_at «data».now index all_extras) e) }
    ensures without_memory { stored (font_at «data».now index all_extras) (codes "glyf") ≡ None → result ≡ Ok true }
{
    let Ok(face) = parse(data, index, Extras::ALL) else {
        return Ok(true);
    };
    if face.stored(Tag::GLYF).is_none() {
        return Ok(true);
    }
    let at = normalized_coordinates(alloc, &face, coordinates)?;
    Ok(are_zero(&at))
}

/// Whether outlines are those of `CFF2` alone, by what was found.
fn is_cff2_alone(has_glyf: bool, has_cff: bool, has_cff2: bool) -> bool
    ensures { result ≡ is_cff2_alone has_glyf has_cff has_cff2 }
{
    !has_glyf && (!has_cff && has_cff2)
}

/// Whether the outlines of a font are those of `CFF2` alone: it has neither `glyf` nor `CFF `. A file that can't be opened has none.
pub fn is_cff2_font(data: &[u8], index: u32) -> bool
    ensures { IsTrue result ↔ IsCff2Font (font_at «data».now index all_extras) }
{
    let Ok(face) = parse(data, index, Extras::ALL) else {
        return false;
    };
    let has_glyf = face.stored(Tag::GLYF).is_some();
    let has_cff = face.stored(Tag::CFF).is_some();
    let has_cff2 = face.stored(Tag::CFF2).is_some();
    is_cff2_alone(has_glyf, has_cff, has_cff2)
}

/// The instance of a font that isn't at its default; None where it is.
fn moved_instance(
    alloc: Global,
    data: &[u8],
    index: u32,
    coordinates: &[(Tag, i32)],
    mapper: &GlyphRemapper,
    steps: u32,
) -> Result<Option<Vec<u8>>, Error>
    // There is none at the font's default, and elsewhere it is an instance of the font, read afresh from its bytes.
    ensures ok { IfOk result (λ made. MatchOption made (IsAtDefault (font_at «data».now index all_extras) coordinates.now) (λ file. ¬ (IsAtDefault (font_at «data».now index all_extras) coordinates.now) × IsInstance (font_at «data».now index all_extras) coordinates.now mapper.now file.items)) }
    // And then there is no fault.
    ensures clean { IfOk result (λ made. IfSome made (λ _. (e : SpecError) → ¬ (HasInstanceFault (font_at «data».now index all_extras) coordinates.now mapper.now steps e))) }
    // What is refused isn't at its default, and has a fault of that name.
    ensures err { IfErr result (λ e. (e ≡ OutOfMemory) ⊎ (¬ (IsAtDefault (font_at «data».now index all_extras) coordinates.now) × HasInstanceFault (font_at «data».now index all_extras) coordinates.now mapper.now steps e)) }
    // Without outlines in `glyf` no memory is taken.
    ensures without_memory { stored (font_at «data».now index all_extras) (codes "glyf") ≡ None → result ≡ Ok None }
{
    let at_default = is_at_default(alloc, data, index, coordinates)?;
    if at_default {
        return Ok(None);
    }
    let file = instance(alloc, data, index, coordinates, mapper, steps)?;
    Ok(Some(file))
}

/// The font with outlines in `CFF ` that is made of outlines in `CFF2`, whose charstrings have no bound on bytes.
fn static_cff(
    alloc: Global,
    data: &[u8],
    index: u32,
    coordinates: &[(Tag, i32)],
    mapper: &GlyphRemapper,
    limits: &Limits,
) -> Result<Vec<u8>, Error>
    ensures ok { IfOk result (λ file. IsCffInstance (font_at «data».now index all_extras) coordinates.now mapper.now file.items) }
    ensures clean { IfOk result (λ _. (e : SpecError) → ¬ (HasCffInstanceFault (font_at «data».now index all_extras) coordinates.now mapper.now limits.now.tokens limits.now.depth e)) }
    ensures err { IfErr result (λ e. (e ≡ OutOfMemory) ⊎ HasCffInstanceFault (font_at «data».now index all_extras) coordinates.now mapper.now limits.now.tokens limits.now.depth e) }
{
    // What `depth` says of the limits, that it isn't 0, makes them limits again.
    let unbounded = Limits::new(limits.tokens(), limits.depth()).unwrap();
    cff_instance(alloc, data, index, coordinates, mapper, unbounded)
}

/// The static font that a font is at user coordinates: None where it is at its default, and is to be taken as it is, with
/// its hints. Else it is a file with one font, of index 0, in which the mapper's glyphs have their old numbers.
///
/// - Of outlines in `glyf` it is what `instance` returns, where each glyph may take as many steps as `limits` has tokens.
/// - Of outlines in `CFF2`, without `glyf` and `CFF `, it is what `cff_instance` returns, at the font's default too, where each
///   charstring may run within the tokens and the depth of `limits`.
/// - The bytes of `limits` bound neither.
///
/// # Errors
///
/// - `MalformedFont`: there is `glyf` or `CFF2`, and `fvar` or `avar` is cut.
/// - `Unimplemented`: there is `glyf` or `CFF2`, and `fvar` or `avar` has a major version other than 1.
/// - Those of `instance`, for a font that isn't at its default, and those of `cff_instance`.
/// - `OutOfMemory`: a request for memory was refused. None is made for a font without outlines in `glyf` and `CFF2`.
pub fn static_font(
    alloc: Global,
    data: &[u8],
    index: u32,
    coordinates: &[(Tag, i32)],
    mapper: &GlyphRemapper,
    limits: &Limits,
) -> Result<Option<Vec<u8>>, Error>
    // There is none at the default of a font without outlines in CFF2 alone; else it is an instance, or a font with outlines in `CFF `
    // that is made of those of CFF2, read afresh from its bytes.
    ensures ok { IfOk result (λ made. MatchOption made (IsAtDefault (font_at «data».now index all_extras) coordinates.now × ¬ (IsCff2Font (font_at «data».now index all_extras))) (λ file. IsStaticFile (font_at «data».now index all_extras) coordinates.now mapper.now file.items)) }
    // And then there is no fault.
    ensures clean { IfOk result (λ _. (e : SpecError) → ¬ (HasStaticFault (font_at «data».now index all_extras) coordinates.now mapper.now limits.now.tokens limits.now.depth e)) }
    // What is refused isn't at its default, or its outlines are those of CFF2, and it has a fault of that name.
    ensures err { IfErr result (λ e. (e ≡ OutOfMemory) ⊎ HasStaticFault (font_at «data».now index all_extras) coordinates.now mapper.now limits.now.tokens limits.now.depth e) }
    // Without outlines in `glyf` and CFF2 no memory is taken.
    ensures without_memory { stored (font_at «data».now index all_extras) (codes "glyf") ≡ None → ¬ (IsCff2Font (font_at «data».now index all_extras)) → result ≡ Ok None }
{
    if is_cff2_font(data, index) {
        let file = static_cff(alloc, data, index, coordinates, mapper, limits)?;
        return Ok(Some(file));
    }
    let steps = limits.tokens();
    moved_instance(alloc, data, index, coordinates, mapper, steps)
}
