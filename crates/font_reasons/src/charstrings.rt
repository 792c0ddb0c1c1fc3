//! What is wrong with a table `CFF ` or `CFF2`, or with the charstring of one of its glyphs.

ghost use Rattle.std.specs.Prelude.{◌≡◌, None, Some, IfOk, IfErr, map, slice_get};
ghost use Rattle.std.specs.Option.{option_copied, option_map};
ghost use Rattle.subsetter_base.specs.Gives.{Gives};
ghost use Rattle.subsetter_base.specs.declared.error.Error.TheVariants.{OutOfMemory};
ghost use Rattle.subsetter_sfnt.specs.Extras.{all_extras};
ghost use Rattle.subsetter_type2.specs.Flat.{flat_form};
ghost use Rattle.subsetter_cff.specs.Read.Cff.{char_string};
ghost use Rattle.subsetter_cff.specs.Read.FdArray.Private.{private_of};
ghost use Rattle.subsetter_cff.specs.Read.FdArray.PrivateView.{private_view};
ghost use Rattle.subsetter_cff.specs.Read.Opened.{opened};
ghost use Rattle.subsetter_cff.specs.Read.Source.{cff_of, IsSource};
ghost use Rattle.subsetter_cff.specs.Read.GlyphTrace.{library};
ghost use Rattle.subsetter_cff.specs.Write.Glyphs.KeptView.{kept_view};
ghost use Rattle.subsetter_cff.specs.Write.Laying.TableBy.{table_bytes};
ghost use Rattle.subsetter_cff.specs.Write.Plain.{cff_subset, kept_glyph, source_number};
ghost use Rattle.subsetter_blend.specs.Resolved.{resolved};
ghost use Rattle.subsetter_cff2.specs.Cff2View.{cff2_of};
ghost use Rattle.subsetter_cff2.specs.Cff2.{cff2_parts};
ghost use Rattle.subsetter_cff2.specs.Made2View.{dict_view};
ghost use Rattle.font_reasons.specs.Charstrings.{cff_tag, cff2_tag, cff_reason, first_refusal, glyph_reason, opened_reason, table_reason, made_by, made_reason, new_cff_reason, open2, dict_of, setting, run2, other_cff2, opened2_reason, cff2_reason};
ghost use Rattle.font_reasons.specs.View.{opened2_of};

use crate::reason::Reason;
use pdf_cff::unless_memory;
use std::alloc::Global;
use subsetter_base::read::Reader;
use subsetter_base::{Error, GlyphRemapper, Tag};
use subsetter_blend::resolving::resolve;
use subsetter_blend::runs::machine::Subroutines;
use subsetter_cff::CffPieces;
use subsetter_cff::read::source::{SIDMetadata, Table};
use subsetter_cff::write::glyphs::kept_glyphs::{Kept, source_number};
use subsetter_cff2::made::{PlacedDict, place_dicts};
use subsetter_cff2::selection::search::FontDictSelect;
use subsetter_cff2::table::{Table2, open};
use subsetter_cff2::variation::{FontVariation, optional_store_at};
use subsetter_cff2::variation_store::VariationStore;
use subsetter_sfnt::directory::table;
use subsetter_type2::charstring::Decompiler;
use subsetter_type2::limits::Limits;
use subsetter_type2::subroutines::SubroutineHandler;

/// A charstring without its subroutines, of any size.
#[tactic(auto, using(crate::proofs::Unbounded::unbounded))]
fn flattened<'a>(
    alloc: Global,
    global: SubroutineHandler<'a>,
    local: SubroutineHandler<'a>,
    limits: Limits,
    charstring: &'a [u8],
) -> Result<Vec<u8>, Error>
    requires { limits.bytes ≡ None }
    ensures { Gives (λ v. v.items) result (flat_form (record { global = global.entry; local = local.entry }) limits.tokens limits.depth charstring.now) }
{
    Decompiler::with_limits(global, local, limits).flatten(alloc, charstring)
}

/// The private dict of a glyph, by the number of its font dict.
fn private_by<'a>(table: &Table<'a>, glyph: u16, number: u8) -> Option<SIDMetadata<'a>>
    requires source { IsSource table.now }
    requires number { source_number (cff_of table.now) glyph ≡ Some number }
    ensures { option_map private_view result ≡ private_of (cff_of table.now) glyph }
{
    match &table.cid {
        None => Some(table.private),
        Some(parts) => {
            let font_dict = parts.font_dicts.get(number as usize)?;
            Some(font_dict.private)
        }
    }
}

/// The charstring of a glyph.
fn charstring_of<'a>(table: &Table<'a>, glyph: u16) -> Option<&'a [u8]>
    requires { IsSource table.now }
    ensures { option_copied result ≡ char_string (cff_of table.now) glyph }
{
    table.char_strings.get(u32::from(glyph))
}

/// A glyph that is kept, within limits on a run.
#[tactic(auto, unfolding(subsetter_cff::specs::Write::Plain::kept_glyph))]
fn kept_glyph<'a>(
    alloc: Global,
    table: &Table<'a>,
    limits: Limits,
    glyph: u16,
) -> Result<Kept, Error>
    requires source { IsSource table.now }
    requires bound { limits.bytes ≡ None }
    ensures { Gives kept_view result (kept_glyph (cff_of table.now) limits.tokens limits.depth glyph) }
{
    let number = source_number(table, glyph).ok_or(Error::MalformedFont)?;
    let private = private_by(table, glyph, number).ok_or(Error::MalformedFont)?;
    let charstring = charstring_of(table, glyph).ok_or(Error::MalformedFont)?;
    let global = SubroutineHandler::new(table.front.subroutines);
    let local = SubroutineHandler::new(private.subroutines);
    let bytes = flattened(alloc, global, local, limits, charstring)?;
    Ok(Kept { number, bytes })
}

/// What the error of a glyph says of it.
fn glyph_reason(tag: Tag, glyph: u16, error: Error) -> Option<Reason>
    ensures { result ≡ glyph_reason tag glyph error }
{
    match error {
        Error::MalformedFont => Some(Reason::NoCharstring(tag, glyph)),
        Error::CFFError => Some(Reason::WrongCharstring(tag, glyph)),
        Error::Unimplemented => Some(Reason::Composed(glyph)),
        _ => None,
    }
}

/// What is wrong with the first glyph of a mapper that isn't kept within limits on a run. Each is run once, and none after that one.
fn first_refusal(
    alloc: Global,
    table: &Table<'_>,
    limits: Limits,
    mapper: &GlyphRemapper,
) -> Result<Option<Reason>, Error>
    requires source { IsSource table.now }
    requires bound { limits.bytes ≡ None }
    ensures ok { IfOk result (λ r. r ≡ first_refusal cff_tag (kept_glyph (cff_of table.now) limits.tokens limits.depth) mapper.now) }
    ensures err { IfErr result (λ e. e ≡ OutOfMemory) }
{
    for glyph in mapper.remapped_gids() {
        match kept_glyph(alloc, table, limits, glyph) {
            Ok(_kept) => {}
            Err(error) => {
                unless_memory(error)?;
                return Ok(glyph_reason(Tag::CFF, glyph, error));
            }
        }
    }
    Ok(None)
}

/// What the error of a table that isn't opened says of it.
fn table_reason(error: Error) -> Option<Reason>
    ensures { result ≡ table_reason error }
{
    match error {
        Error::CFFError => Some(Reason::OtherVersion(Tag::CFF)),
        Error::MalformedFont => Some(Reason::Unread(Tag::CFF)),
        _ => None,
    }
}

/// What is wrong with a `CFF ` table, or with a glyph of it.
fn opened_reason(
    alloc: Global,
    cff: &[u8],
    limits: &Limits,
    mapper: &GlyphRemapper,
) -> Result<Option<Reason>, Error>
    ensures ok { IfOk result (λ r. r ≡ opened_reason limits.now.tokens limits.now.depth mapper.now (opened cff.now)) }
    ensures err { IfErr result (λ e. e ≡ OutOfMemory) }
{
    let Some(own) = Limits::new(limits.tokens(), limits.depth()) else {
        return Ok(None);
    };
    match Table::parse(alloc, cff) {
        Ok(table) => first_refusal(alloc, &table, own, mapper),
        Err(error) => {
            unless_memory(error)?;
            Ok(table_reason(error))
        }
    }
}

/// What is wrong with the `CFF ` table of a face without `glyf`, or with one of these glyphs of it.
///
/// # Errors
///
/// `OutOfMemory` alone.
pub fn cff_reason(
    alloc: Global,
    font: &[u8],
    index: u32,
    limits: &Limits,
    mapper: &GlyphRemapper,
) -> Result<Option<Reason>, Error>
    ensures ok { IfOk result (λ r. r ≡ cff_reason (record { bytes = font.now; index = index; extras = all_extras }) limits.now.tokens limits.now.depth mapper.now) }
    ensures err { IfErr result (λ e. e ≡ OutOfMemory) }
{
    match (table(font, index, Tag::GLYF), table(font, index, Tag::CFF)) {
        (None, Some(cff)) => opened_reason(alloc, cff, limits, mapper),
        _ => Ok(None),
    }
}

/// The `CFF ` table of a subset, of any size.
#[tactic(auto, using(crate::proofs::Unbounded::unbounded))]
fn new_cff(
    alloc: Global,
    cff: &[u8],
    limits: Limits,
    mapper: &GlyphRemapper,
) -> Result<CffPieces, Error>
    requires { limits.bytes ≡ None }
    ensures { Gives table_bytes result (cff_subset cff.now limits.tokens limits.depth mapper.now) }
{
    subsetter_cff::subset(alloc, cff, mapper, limits)
}

/// What the error of a new table says of its source, where it is the error that came.
fn made_by(error: Error, found: Error) -> Option<Reason>
    ensures { result ≡ made_by error found }
{
    match (error, found) {
        (Error::SubsetError, Error::SubsetError) => Some(Reason::LostString),
        (Error::OverflowError, Error::OverflowError) => Some(Reason::LargeCff),
        _ => None,
    }
}

/// Why the new table of a `CFF ` table isn't made, where that is the error that came.
fn made_reason(
    alloc: Global,
    error: Error,
    cff: &[u8],
    limits: &Limits,
    mapper: &GlyphRemapper,
) -> Result<Option<Reason>, Error>
    ensures ok { IfOk result (λ r. r ≡ made_reason error (cff_subset cff.now limits.now.tokens limits.now.depth mapper.now)) }
    ensures err { IfErr result (λ e. e ≡ OutOfMemory) }
{
    let Some(own) = Limits::new(limits.tokens(), limits.depth()) else {
        return Ok(None);
    };
    match new_cff(alloc, cff, own, mapper) {
        Ok(_made) => Ok(None),
        Err(found) => {
            unless_memory(found)?;
            Ok(made_by(error, found))
        }
    }
}

/// Why the new table of the `CFF ` table of a face without `glyf` isn't made, where that is the error that came.
///
/// # Errors
///
/// `OutOfMemory` alone.
pub fn new_cff_reason(
    alloc: Global,
    error: Error,
    font: &[u8],
    index: u32,
    limits: &Limits,
    mapper: &GlyphRemapper,
) -> Result<Option<Reason>, Error>
    ensures ok { IfOk result (λ r. r ≡ new_cff_reason error (record { bytes = font.now; index = index; extras = all_extras }) limits.now.tokens limits.now.depth mapper.now) }
    ensures err { IfErr result (λ e. e ≡ OutOfMemory) }
{
    match (table(font, index, Tag::GLYF), table(font, index, Tag::CFF)) {
        (None, Some(cff)) => made_reason(alloc, error, cff, limits, mapper),
        _ => Ok(None),
    }
}

/// A `CFF2` table that is opened, what varies in it, and the font dicts of its glyphs.
#[derive(Drop)]
pub struct Opened2<'a> {
    table: Table2<'a>,
    variation: FontVariation<'a>,
}

/// The item variation store of a table. It is found anew, as what varies takes it.
fn find_store(bytes: &[u8], axes: usize) -> Option<Option<VariationStore<'_>>>
    ensures { result ≡ option_map (λ cff. cff.store) (cff2_parts bytes.now axes) }
{
    let table = open(bytes, axes)?;
    Some(table.store)
}

/// A table that is opened at a location.
#[tactic(auto, unfolding(crate::specs::Charstrings::open2))]
fn open2<'a>(alloc: Global, bytes: &'a [u8], at: &[i32]) -> Result<Opened2<'a>, Error>
    ensures { Gives opened2_of result (open2 bytes.now at.now) }
{
    let table = open(bytes, at.len()).ok_or(Error::MalformedFont)?;
    let store = find_store(bytes, at.len()).ok_or(Error::MalformedFont)?;
    let variation = optional_store_at(alloc, store, at)?;
    Ok(Opened2 {
        table,
        variation: FontVariation { variation },
    })
}

/// The first of some dicts.
fn first_dict(dicts: Vec<PlacedDict<'_>>) -> Option<PlacedDict<'_>>
    ensures { option_map dict_view result ≡ slice_get (map dict_view dicts.entry.items) 0 }
{
    dicts.into_iter().next()
}

/// The private dict of a glyph.
#[tactic(auto, unfolding(crate::specs::Charstrings::dict_of))]
fn dict_of<'a>(
    alloc: Global,
    opened: &Opened2<'a>,
    select: &FontDictSelect<'_>,
    glyph: u16,
) -> Result<PlacedDict<'a>, Error>
    requires { select.now ≡ record { bytes = opened.now.table.bytes.now; select = opened.now.table.select } }
    ensures { Gives dict_view result (dict_of (opened2_of opened.now) glyph) }
{
    let number = select.font_dict_number(glyph).ok_or(Error::MalformedFont)?;
    let dicts = place_dicts(alloc, &opened.table, &opened.variation.variation, &[number])?;
    first_dict(dicts).ok_or(Error::MalformedFont)
}

/// A glyph's charstring, run within limits.
#[tactic(auto, unfolding(crate::specs::Charstrings::run2))]
fn run2(
    alloc: Global,
    opened: &Opened2<'_>,
    select: &FontDictSelect<'_>,
    limits: &Limits,
    glyph: u16,
) -> Result<Vec<u8>, Error>
    requires { select.now ≡ record { bytes = opened.now.table.bytes.now; select = opened.now.table.select } }
    ensures { Gives (λ v. v.items) result (run2 (opened2_of opened.now) limits.now.tokens limits.now.depth glyph) }
{
    let dict = dict_of(alloc, opened, select, glyph)?;
    let charstring = opened
        .table
        .char_strings
        .get(u32::from(glyph))
        .ok_or(Error::MalformedFont)?;
    let subroutines = Subroutines {
        global: SubroutineHandler::new(opened.table.subroutines),
        local: SubroutineHandler::new(dict.subroutines),
    };
    resolve(
        alloc,
        &subroutines,
        &opened.variation,
        limits,
        dict.data_index,
        0,
        charstring,
    )
}

/// What is wrong with the first glyph of a mapper that can't be run.
fn first_refusal2(
    alloc: Global,
    opened: &Opened2<'_>,
    limits: &Limits,
    mapper: &GlyphRemapper,
) -> Result<Option<Reason>, Error>
    ensures ok { IfOk result (λ r. r ≡ first_refusal cff2_tag (run2 (opened2_of opened.now) limits.now.tokens limits.now.depth) mapper.now) }
    ensures err { IfErr result (λ e. e ≡ OutOfMemory) }
{
    let select = FontDictSelect::new(opened.table.bytes, opened.table.select);
    for glyph in mapper.remapped_gids() {
        match run2(alloc, opened, &select, limits, glyph) {
            Ok(_charstring) => {}
            Err(error) => {
                unless_memory(error)?;
                return Ok(glyph_reason(Tag::CFF2, glyph, error));
            }
        }
    }
    Ok(None)
}

/// Whether a `CFF2` table is of another major version than 2.
pub fn other_cff2(bytes: &[u8]) -> Option<Reason>
    ensures { result ≡ other_cff2 bytes.now }
{
    match Reader::new_at(bytes, 0).read::<u8>()? {
        2 => None,
        version => Some(Reason::Cff2Version(version)),
    }
}

/// What is wrong with a `CFF2` table at a location, or with one of these glyphs of it.
///
/// # Errors
///
/// `OutOfMemory` alone.
pub fn cff2_reason(
    alloc: Global,
    bytes: &[u8],
    at: &[i32],
    limits: &Limits,
    mapper: &GlyphRemapper,
) -> Result<Option<Reason>, Error>
    ensures ok { IfOk result (λ r. r ≡ cff2_reason at.now limits.now.tokens limits.now.depth mapper.now bytes.now) }
    ensures err { IfErr result (λ e. e ≡ OutOfMemory) }
{
    match open2(alloc, bytes, at) {
        Ok(opened) => first_refusal2(alloc, &opened, limits, mapper),
        Err(error) => {
            unless_memory(error)?;
            Ok(other_cff2(bytes).or(Some(Reason::Unread(Tag::CFF2))))
        }
    }
}
