//! The subset of a font with the CIDs and the widths of its glyphs.

ghost use Rattle.subsetter_sfnt.specs.FontAt.{font_at};
ghost use Rattle.std.specs.Prelude.{◌≡◌, ◌≢◌, ◌⊎◌, map, All, IfOk, IfErr, OnOk, IsSome, None, Some, Err};
ghost use Rattle.subsetter_base.specs.Indexes.{index_of, HasAllAboveZero};
ghost use Rattle.subsetter_base.specs.declared.error.Error.{Error as SpecError};
ghost use Rattle.subsetter_base.specs.declared.error.Error.TheVariants.{OutOfMemory};
ghost use Rattle.subsetter_sfnt.specs.Extras.{all_extras};
ghost use Rattle.subsetter_sfnt.specs.Fault.{HasOpeningFault};
ghost use Rattle.subsetter_sfnt.specs.Opening.{IsOpened, font_opened};
ghost use Rattle.subsetter.specs.Limits.{token_limit, depth_limit};
ghost use Rattle.cid_embed.specs.Embed.{numbering, HasMapperFault, IsEmbedPromised};

use crate::widths::read_widths;
use std::alloc::Global;
use subsetter::{Error, Extras, GlyphRemapper, Limits, Options, check_opening, subset_opened};
use subsetter_sfnt::opening::{Opened, open};

/// What a PDF writer needs of a font for the glyphs that it requests.
#[derive(Debug, Drop)]
pub struct Embedded {
    /// The font program: the subset of the font.
    pub font: Vec<u8>,
    /// The CID of each requested glyph, in the order requested.
    pub cids: Vec<u16>,
    /// The width of each CID, from 0 on, in thousandths of the em.
    pub widths: Vec<u32>,
}

/// The new numbers of the glyphs, which the mapper knows.
fn cids(alloc: Global, mapper: &GlyphRemapper, glyphs: &[u16]) -> Result<Vec<u16>, Error>
    requires { All (λ glyph. IsSome (index_of mapper.now glyph)) glyphs.now }
    ensures ok { IfOk result (λ cids. map Some cids.items ≡ map (index_of mapper.now) glyphs.now) }
    ensures err { IfErr result (λ e. e ≡ OutOfMemory) }
{
    let mut cids = Vec::with_capacity(alloc, glyphs.len())?;
    for glyph in glyphs {
        cids.push(mapper.get(*glyph).unwrap())?;
    }
    Ok(cids)
}

/// The mapper of glyph 0 and the given glyphs of a font: glyph 0, then the given ones in order, each once.
///
/// # Errors
///
/// - `OverflowError`: all glyphs above 0 are given, which leaves no number for glyph 0.
/// - `OutOfMemory`: a request for memory was refused. A font that can't be opened gives the error of `check_opening`.
pub fn mapper_for(
    alloc: Global,
    data: &[u8],
    index: u32,
    glyphs: &[u16],
    extras: Extras,
) -> Result<GlyphRemapper, Error>
    ensures ok { IfOk result (λ mapper. mapper ≡ numbering glyphs.now) }
    ensures room { OnOk result (HasAllAboveZero glyphs.now → ⊥) }
    ensures err { IfErr result (λ why. (why ≡ OutOfMemory) ⊎ HasMapperFault (font_at «data».now index extras) glyphs.now why) }
    // Where a fault is found before memory is taken, the error isn't `OutOfMemory`.
    ensures before_memory { (e : SpecError) → HasOpeningFault (font_at «data».now index extras) e → result ≢ Err OutOfMemory }
{
    match GlyphRemapper::new_from_glyphs(alloc, glyphs) {
        Ok(mapper) => Ok(mapper),
        Err(Error::OverflowError) => Err(Error::OverflowError),
        Err(error) => {
            check_opening(data, index, extras)?;
            Err(error)
        }
    }
}

/// The subset of a font for the requested glyphs, with the CID of each of them and the width of each CID.
///
/// The font has glyph 0, then the requested glyphs in order, each once, and then each further glyph that these reach through
/// components, once; the CID of a glyph is its number there. The widths are those of glyph 0 and the requested glyphs.
/// `data` and `index` are as for `subset`.
///
/// # Errors
///
/// - `OverflowError`: all glyphs above 0 are requested, which leaves no number for glyph 0.
/// - Those of `subset`.
/// - `MalformedFont`: there is no `hmtx` or no `head`, or unitsPerEm is 0.
/// - `OutOfMemory`: a request for memory was refused; never for a font that `check_opening` refuses.
///
/// Unless memory runs out they are looked for in this order.
pub fn embed(alloc: Global, data: &[u8], index: u32, glyphs: &[u16]) -> Result<Embedded, Error>
    // What is returned is the subset with CIDs and widths, what is refused has a fault of that name.
    ensures promise { IsEmbedPromised None token_limit depth_limit (font_at «data».now index all_extras) glyphs.now result }
{
    embed_with_limits(alloc, data, index, glyphs, &Limits::default())
}

/// As `embed`, where the charstring of a glyph may run for other limits than 1,000,000 tokens and depth 64, and where the
/// font may have a bound on its bytes.
///
/// # Errors
///
/// Those of `embed`, with the chosen limits in place of the default ones.
pub fn embed_with_limits(
    alloc: Global,
    data: &[u8],
    index: u32,
    glyphs: &[u16],
    limits: &Limits,
) -> Result<Embedded, Error>
    // What is returned is the subset with CIDs and widths, what is refused has a fault of that name, or every answer passes the bound on bytes.
    ensures promise { IsEmbedPromised limits.now.bytes limits.now.tokens limits.now.depth (font_at «data».now index all_extras) glyphs.now result }
{
    let options = Options {
        limits: *limits,
        extras: Extras::ALL,
    };
    embed_with_options(alloc, data, index, glyphs, &options)
}

/// As `embed_with_limits`, where the new font has only those of its extras that are requested. The CIDs and the widths
/// are the same for all of these.
///
/// # Errors
///
/// Those of `embed_with_limits`, but for what is stated of a table that isn't requested.
pub fn embed_with_options(
    alloc: Global,
    data: &[u8],
    index: u32,
    glyphs: &[u16],
    options: &Options,
) -> Result<Embedded, Error>
    // What is returned is the subset with CIDs and widths, what is refused has a fault of that name, or every answer passes the bound on bytes.
    ensures promise { IsEmbedPromised options.now.limits.bytes options.now.limits.tokens options.now.limits.depth (font_at «data».now index options.now.extras) glyphs.now result }
{
    let mapper = mapper_for(alloc, data, index, glyphs, options.extras)?;
    embed_numbered(alloc, data, index, &mapper, glyphs, options)
}

/// As `embed_with_options`, where the mapper of the glyphs is made.
///
/// # Errors
///
/// Those of `embed_with_options`, but for the first.
pub fn embed_numbered(
    alloc: Global,
    data: &[u8],
    index: u32,
    mapper: &GlyphRemapper,
    glyphs: &[u16],
    options: &Options,
) -> Result<Embedded, Error>
    requires numbers { mapper.now ≡ numbering glyphs.now }
    requires room { ¬ (HasAllAboveZero glyphs.now) }
    // What is returned is the subset with CIDs and widths, what is refused has a fault of that name, or every answer passes the bound on bytes.
    ensures promise { IsEmbedPromised options.now.limits.bytes options.now.limits.tokens options.now.limits.depth (font_at «data».now index options.now.extras) glyphs.now result }
{
    let opened = open(data, index, options.extras)?;
    embed_opened(alloc, &opened, mapper, glyphs, &options.limits)
}

/// As `embed_numbered`, of a font that is opened.
///
/// # Errors
///
/// Those of `embed_numbered`.
pub fn embed_opened(
    alloc: Global,
    opened: &Opened<'_>,
    mapper: &GlyphRemapper,
    glyphs: &[u16],
    limits: &Limits,
) -> Result<Embedded, Error>
    requires opened { IsOpened opened.now }
    requires numbers { mapper.now ≡ numbering glyphs.now }
    requires room { ¬ (HasAllAboveZero glyphs.now) }
    // What is returned is the subset with CIDs and widths, what is refused has a fault of that name, or every answer passes the bound on bytes.
    ensures promise { IsEmbedPromised limits.now.bytes limits.now.tokens limits.now.depth (font_opened opened.now) glyphs.now result }
{
    let font = subset_opened(alloc, opened, mapper, limits)?;
    let widths = read_widths(alloc, &font, mapper.num_gids())?;
    let cids = cids(alloc, mapper, glyphs)?;
    Ok(Embedded { font, cids, widths })
}
