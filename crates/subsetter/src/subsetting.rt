//! Subsetting a font.

ghost use Rattle.std.specs.Prelude.{◌≡◌, false, length, IfOk, IfErr, OnOk, None};
ghost use Rattle.std.specs.Bool.{OnFalse};
ghost use Rattle.subsetter_base.specs.declared.error.Error.{Error as SpecError};
ghost use Rattle.subsetter_base.specs.Within.{GivesWithin, is_past};
ghost use Rattle.subsetter.specs.Cff.Plain.{cff_file};
ghost use Rattle.subsetter_sfnt.specs.Read.{as_font};
ghost use Rattle.subsetter_sfnt.specs.Extras.{all_extras};
ghost use Rattle.subsetter_sfnt.specs.FontAt.{font_at, tables_of};
ghost use Rattle.subsetter_sfnt.specs.Opening.{IsOpened, font_opened};
ghost use Rattle.subsetter.specs.Glyf.BareOutlines.Instructions.{HasNoInstructions};
ghost use Rattle.subsetter.specs.Truetype.Answered.{IsAnswered, IsRefused};
ghost use Rattle.subsetter_sfnt.specs.Fault.{HasOpeningFault};
ghost use Rattle.subsetter.specs.Limits.{token_limit, depth_limit};
ghost use Rattle.subsetter.specs.Promise.{IsPromised};

use crate::cff::{self, CffTables};
use crate::choice::Options;
use crate::glyf::{self, GlyfTables, GlyphClosure};
use crate::truetype::{self, TrueTypeTables};
use std::alloc::Global;
use subsetter_base::{Error, GlyphRemapper, Tag};
use subsetter_sfnt::extras::Extras;
use subsetter_sfnt::face::Face;
use subsetter_sfnt::flavor::FontFlavor;
use subsetter_sfnt::laying::construct::finish;
use subsetter_sfnt::laying::tables::in_order;
use subsetter_sfnt::opening::{Opened, Outlines, open};
use subsetter_type2::limits::Limits;

/// A subset of a TrueType font. Where `bytes` is given, it has at most that many.
fn subset_truetype(
    alloc: Global,
    face: &Face<'_>,
    bytes: Option<u32>,
    mapper: &GlyphRemapper,
) -> Result<Vec<u8>, Error>
    ensures ok { IfOk result (λ v. IsAnswered face.now.extras.hinting (tables_of face.now) mapper.now v.items) }
    ensures within { IfOk result (λ v. is_past bytes (length v.items) ≡ false) }
    ensures err { IfErr result (λ e. IsRefused face.now.extras.hinting (tables_of face.now) bytes mapper.now e) }
{
    let table = GlyfTables::new(face)?;
    let reached = glyf::closure(alloc, &table, mapper, bytes.unwrap_or(u32::MAX))?;
    let GlyphClosure { order, outlines } = reached;
    // What `num_gids` says of the order, that it has fewer than 65536 glyphs, is a premise of the proof.
    let _count = order.num_gids();
    let made = TrueTypeTables::build(alloc, face, &table, outlines, &order)?;
    // Its memory is free before room for the output is taken.
    drop(order);
    let list = in_order(alloc, truetype::font_tables(face, &made))?;
    finish(alloc, FontFlavor::TrueType, &list, bytes)
}

/// A subset of a font with a CFF table.
#[tactic(auto, unfolding(crate::specs::Cff::Plain::cff_file))]
fn subset_cff(
    alloc: Global,
    face: &Face<'_>,
    limits: Limits,
    mapper: &GlyphRemapper,
) -> Result<Vec<u8>, Error>
    ensures gives { GivesWithin (λ v. v.items) limits.bytes length result (cff_file (tables_of face.now) limits.tokens limits.depth mapper.now) }
    ensures within { IfOk result (λ v. is_past limits.bytes (length v.items) ≡ false) }
{
    let source = face.table(Tag::CFF).ok_or(Error::MalformedFont)?;
    let made = CffTables::build(alloc, face, source, limits, mapper)?;
    let list = in_order(alloc, cff::font_tables(&made))?;
    finish(alloc, FontFlavor::Cff, &list, limits.bytes())
}

/// A font that holds the glyphs of the mapper under their new numbers, then each further glyph that these reach through components, once.
///
/// `data` is a font file or a collection, of which `index` names a face (it is ignored for a single font).
/// The new font has no `cmap`: use it as a CID font, with the new number of a glyph as its CID.
///
/// # Errors
///
/// Each names what is in the source (`HasFault`); a font without a fault is refused only when out of memory.
/// Where it has several faults, any of their names may come. The *reached* glyphs are the mapper's and the components of
/// these at any depth; a charstring reaches no other glyph. What is stated of `CFF ` counts where there is no
/// `glyf`, and what is stated of `loca` where there is one.
///
/// - `UnknownKind`: the file doesn't begin with a known kind of font, or has none of `glyf`, `CFF ` and `CFF2`.
/// - `MalformedFont`:
///   - the collection has no entry for `index`, or at its offset there is no header of a single font;
///   - the header or a record of the directory is cut;
///   - there is `glyf`, but `loca` or `head` is missing; or `head` has fewer than 52 bytes;
///   - a reached glyph has no range in `loca`, its range isn't inside `glyf`, or it has one byte or is a composite that is
///     cut;
///   - `CFF ` has fewer than 3 bytes, its Name INDEX, Top DICT INDEX, String INDEX or Global Subr INDEX can't be read, or
///     there is no top dict;
///   - an entry of the top dict or of a font dict, the last of its operator or an earlier one, has other operands than its
///     operator demands;
///   - the charstrings are missing, are none, or their INDEX can't be read;
///   - a CID-keyed font has no FDArray or FDSelect that can be read, or a font dict with a private dict that isn't inside
///     `CFF ` or whose local subroutines can't be read;
///   - a glyph of the mapper has no charstring, or in a CID-keyed font no font dict;
///   - `hmtx` is there, but `hhea` is missing or has fewer than 36 bytes, or the last advance or the metric of a reached
///     glyph isn't inside `hmtx`;
///   - `maxp` has fewer than 6 bytes;
///   - `name` has fewer than 2 bytes, or has version 0 and its header or a record is cut or its storage begins past its
///     end;
///   - `post` has fewer than 4 bytes, or has version 2 and its header or its indexes are cut or it has no index for a
///     reached glyph.
/// - `CFFError`: the major version of `CFF ` isn't 1, or the charstring of a glyph of the mapper can't be run. Then it has
///   an unknown operator; a number, an operator or a mask that is cut; a 49th operand; a call without an operand, with a
///   fraction, or of a subroutine that isn't there or can't be read; more than 65535 stems; a call from depth 64, its own
///   charstring being at depth 1; or more than 1000000 tokens (a number, or an operator with its mask).
/// - `Unimplemented`: the outlines are those of `CFF2`, or the charstring of a glyph of the mapper comes to `endchar` with
///   four operands or more, which put two glyphs together as an accented character.
/// - `SubsetError`:
///   - in a `name` of version 0 the string of a kept record isn't inside the storage, more than 5460 records are kept, or
///     a kept string would begin past 65535 in the new storage;
///   - Copyright, Notice or FontName of the top dict, or FontName of a font dict that a glyph of the mapper has, is a
///     string that isn't in the String INDEX or can't be read.
/// - `OverflowError`:
///   - all 65536 glyph numbers are reached;
///   - `hmtx` is there and `hhea` counts no metrics;
///   - in a `post` of version 2 more than 65278 reached glyphs have names of the font's own;
///   - the new `glyf`, a table's offset or its length would pass 4294967295 bytes;
///   - the glyphs of the mapper have 256 font dicts;
///   - a real in a matrix, in FontBBox or in a private dict that is written has a text of more than 64 characters;
///   - in the new `CFF ` the data of an INDEX would have more than 4294967294 bytes, or an offset or the length of a
///     private dict would pass 2147483647.
/// - `OutOfMemory`: a request for memory was refused. None is made before the kind, the collection, the directory and the
///   kind of outlines are found sound.
///
/// A refusal changes nothing.
pub fn subset(
    alloc: Global,
    data: &[u8],
    index: u32,
    mapper: &GlyphRemapper,
) -> Result<Vec<u8>, Error>
    // What is returned is the subset, what is refused has a fault of that name.
    ensures promise { IsPromised (λ v. v.items) None token_limit depth_limit (font_at «data».now index all_extras) mapper.now result }
{
    subset_with_limits(alloc, data, index, mapper, &Limits::default())
}

/// As `subset`, where the charstring of a glyph may run for other limits than 1,000,000 tokens and depth 64, and where the
/// new font may have a bound on its bytes.
///
/// The outlines of `glyf` know no tokens and no depth, but the bound holds for every font.
///
/// # Errors
///
/// Those of `subset`, with the chosen limits in place of the default ones: `CFFError` where the charstring of a glyph of
/// the mapper comes to a call from the depth `limits.depth()`, its own charstring being at depth 1, or to a token past
/// `limits.tokens()`. `OverflowError` also where the new font would have more than `limits.bytes()` bytes: the reached
/// composites and the charstrings are counted while they are read, all else before a byte of the font is written.
pub fn subset_with_limits(
    alloc: Global,
    data: &[u8],
    index: u32,
    mapper: &GlyphRemapper,
    limits: &Limits,
) -> Result<Vec<u8>, Error>
    // What is returned is the subset, what is refused has a fault of that name, or every answer passes the bound on bytes.
    ensures promise { IsPromised (λ v. v.items) limits.now.bytes limits.now.tokens limits.now.depth (font_at «data».now index all_extras) mapper.now result }
{
    let options = Options::keeping_all(*limits);
    subset_with_options(alloc, data, index, mapper, &options)
}

/// As `subset_with_limits`, where the new font has only those of its extras that are requested.
///
/// - Without `hinting` it has no `cvt `, `fpgm` and `prep`, and no outline in `glyf` has instructions. An outline whose
///   instructions are cut stays as it is. `maxp` bounds no instructions, and the hints of charstrings stay. A font whose
///   instructions draw, as some old fonts for Chinese do, comes to wrong shapes without them.
/// - Without `names` it has no `name`.
/// - Without `glyph_names` its `post` has version 3.0, which names no glyph.
///
/// # Errors
///
/// Those of `subset_with_limits`, but for what is stated of a table that isn't requested: of `name` without `names`, and of
/// what is after the header of 32 bytes in `post` without `glyph_names`.
pub fn subset_with_options(
    alloc: Global,
    data: &[u8],
    index: u32,
    mapper: &GlyphRemapper,
    options: &Options,
) -> Result<Vec<u8>, Error>
    // What is returned is the subset, what is refused has a fault of that name, or every answer passes the bound on bytes.
    ensures promise { IsPromised (λ v. v.items) options.now.limits.bytes options.now.limits.tokens options.now.limits.depth (font_at «data».now index options.now.extras) mapper.now result }
    // Without hinting the new font has no instructions, read afresh.
    ensures bare { IfOk result (λ out. OnFalse options.now.extras.hinting (HasNoInstructions (as_font out.items))) }
{
    let opened = open(data, index, options.extras)?;
    subset_opened(alloc, &opened, mapper, &options.limits)
}

/// As `subset_with_options`, of a font that is opened.
///
/// # Errors
///
/// Those of `subset_with_options`.
pub fn subset_opened(
    alloc: Global,
    opened: &Opened<'_>,
    mapper: &GlyphRemapper,
    limits: &Limits,
) -> Result<Vec<u8>, Error>
    requires { IsOpened opened.now }
    // What is returned is the subset, what is refused has a fault of that name, or every answer passes the bound on bytes.
    ensures promise { IsPromised (λ v. v.items) limits.now.bytes limits.now.tokens limits.now.depth (font_opened opened.now) mapper.now result }
    // Without hinting the new font has no instructions, read afresh.
    ensures bare { IfOk result (λ out. OnFalse opened.now.face.extras.hinting (HasNoInstructions (as_font out.items))) }
{
    // What `num_gids` says of the mapper, that glyph 0 comes first, is a premise of the proof.
    let _count = mapper.num_gids();
    // So is what `depth` says of the limits, that a glyph's own charstring is within them.
    let _depth = limits.depth();
    match opened.outlines {
        Outlines::TrueType => subset_truetype(alloc, &opened.face, limits.bytes(), mapper),
        Outlines::Cff => subset_cff(alloc, &opened.face, *limits, mapper),
        Outlines::Cff2 => Err(Error::Unimplemented),
    }
}

/// Whether a font can be opened: the file, its directory and the kind of its outlines. `subset` looks at these first, and takes no
/// memory for it.
///
/// # Errors
///
/// - Those of `open`.
/// - `Unimplemented`: the outlines are those of `CFF2`.
pub fn check_opening(data: &[u8], index: u32, extras: Extras) -> Result<(), Error>
    // A font that can be opened has no such fault.
    ensures ok { OnOk result ((e : SpecError) → ¬ (HasOpeningFault (font_at «data».now index extras) e)) }
    // What can't be opened has a fault of that name.
    ensures err { IfErr result (λ e. HasOpeningFault (font_at «data».now index extras) e) }
{
    match open(data, index, extras)?.outlines {
        Outlines::Cff2 => Err(Error::Unimplemented),
        Outlines::TrueType => Ok(()),
        Outlines::Cff => Ok(()),
    }
}
