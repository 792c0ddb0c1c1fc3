//! Subsetting a font that is itself a subset, and embedding an embedded one again, with some of their glyphs.

ghost use Rattle.std.specs.Prelude.{◌≡◌, ◌≤◌, ◌⊎◌, ℕ, List, length, Contains, IfOk, IfErr, None};
ghost use Rattle.subsetter_base.specs.Bytes.{IsBytes};
ghost use Rattle.subsetter_base.specs.declared.error.Error.TheVariants.{MalformedFont, OutOfMemory};
ghost use Rattle.subsetter.specs.Promise.{IsPromised};
ghost use Rattle.subsetter.specs.Limits.{token_limit, depth_limit};
ghost use Rattle.subsetter_sfnt.specs.Read.{as_font};
ghost use Rattle.cid_embed.specs.Again.{IsTrueTypeOrCidKeyed};
ghost use Rattle.cid_embed.specs.Shrink.{OfEachSource, IsShrunk, IsGivenBack, HasNoFaultForAll, HasFaultForUnknown};
ghost use Rattle.subsetter_cff.specs.Write.Again.{AreAll};
ghost use Rattle.cid_embed.specs.Embed.{numbering, HasEmbedFault, IsEmbedPromised};
ghost use Rattle.cid_embed.specs.Width.{HasWidthFault};

use crate::embedding::{Embedded, embed};
use std::alloc::Global;
use subsetter::{Error, GlyphRemapper, subset};

/// The subset of a font that may itself be a subset, with the mapper's glyphs: what `subset` returns for its one font.
///
/// Where the given font is a subset of some font within the default limits, the mapper names the glyphs by their
/// numbers in the given font, and the result is that subset of the first font too. Where these are all glyphs in
/// order, a TrueType or CID-keyed font is given back byte for byte, and it is refused for want of memory alone. A
/// subset is TrueType or CID-keyed, whatever its source was.
///
/// # Errors
///
/// Those of `subset`. A glyph that the given subset doesn't have is `MalformedFont`.
pub fn shrink_font(alloc: Global, font: &[u8], mapper: &GlyphRemapper) -> Result<Vec<u8>, Error>
    // It returns what `subset` does.
    ensures promise { IsPromised (λ v. v.items) None token_limit depth_limit (as_font font.now) mapper.now result }
    // The new font is a subset of each font of which the given one is a subset.
    ensures ok { IfOk result (λ out. IsShrunk font.now mapper.now out.items) }
    // All glyphs in order give the font back.
    ensures given_back { IfOk result (λ out. IsGivenBack font.now mapper.now out.items) }
    // A subset has no fault for all its glyphs in order, so that it is refused for want of memory alone.
    ensures sound { HasNoFaultForAll font.now mapper.now }
    ensures only_memory { IfErr result (λ e. OfEachSource font.now (λ source first. AreAll (length first) mapper.now → IsTrueTypeOrCidKeyed source → e ≡ OutOfMemory)) }
    // A glyph that the font doesn't have is a fault.
    ensures unknown { HasFaultForUnknown font.now mapper.now }
{
    // What `num_gids` says of the mapper, that glyph 0 comes first, is a premise of the proof.
    let _count = mapper.num_gids();
    subset(alloc, font, 0, mapper)
}

/// The font of an embedded font, whose members are bytes: a premise of the proof of `shrink`.
fn font_of(e: &Embedded) -> &[u8]
    ensures font { result.now ≡ e.now.font.items }
    ensures bytes { IsBytes result.now }
{
    as_bytes(&e.font)
}

/// The bytes of the font.
fn as_bytes(font: &[u8]) -> &[u8]
    ensures same { result.now ≡ font.now }
    ensures bytes { IsBytes font.now }
{
    font
}

/// What a PDF writer needs of an embedded font for some of its CIDs: what `embed` returns for its font.
///
/// `cids` are glyph numbers of the embedded font, and the new CIDs those of the new font. Where the embedded font is a
/// subset of some font within the default limits, as one from `embed` is, the new one is a subset of that font too, with
/// the glyphs of the CIDs.
///
/// # Errors
///
/// Those of `embed`. A CID that the embedded font doesn't have is `MalformedFont`. With all CIDs in order a TrueType or
/// CID-keyed font is refused for want of memory or of widths alone.
pub fn shrink(alloc: Global, e: &Embedded, cids: &[u16]) -> Result<Embedded, Error>
    // It returns what `embed` does.
    ensures promise { IsEmbedPromised None token_limit depth_limit (as_font e.now.font.items) cids.now result }
    // The new font is a subset of each font of which the given one is a subset.
    ensures shrunk { IfOk result (λ s. IsShrunk e.now.font.items (numbering cids.now) s.font.items) }
    // All CIDs in order give the font back.
    ensures given_back { IfOk result (λ s. IsGivenBack e.now.font.items (numbering cids.now) s.font.items) }
    // A subset has no fault for all CIDs in order, so that they are refused for want of memory or of widths alone.
    ensures sound { HasNoFaultForAll e.now.font.items (numbering cids.now) }
    ensures only_widths { IfErr result (λ why. OfEachSource e.now.font.items (λ source first. AreAll (length first) (numbering cids.now) → IsTrueTypeOrCidKeyed source → (why ≡ OutOfMemory) ⊎ HasWidthFault (as_font e.now.font.items) why)) }
    // A CID that the font doesn't have is a fault.
    ensures unknown { OfEachSource e.now.font.items (λ source first. (cid : ℕ) (order : List ℕ) → Contains cids.now cid → length first ≤ cid → HasEmbedFault token_limit depth_limit (as_font e.now.font.items) cids.now order MalformedFont) }
{
    embed(alloc, font_of(e), 0, cids)
}
