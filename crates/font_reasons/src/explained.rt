//! Why a call is refused, by its error.

ghost use Rattle.std.specs.Prelude.{◌≡◌, map, IfOk, IfErr};
ghost use Rattle.std.specs.List.{range_with_len};
ghost use Rattle.subsetter_base.specs.declared.error.Error.TheVariants.{OutOfMemory};
ghost use Rattle.subsetter_sfnt.specs.Extras.{all_extras};
ghost use Rattle.font_reasons.specs.Calls.{face_in};
ghost use Rattle.font_reasons.specs.Explained.{all_of, explained, explained_of, is_of_charstrings, is_of_table, is_overflow, lacks, lost_for, no_indexes, malformed, no_maxp, no_units, no_widths, not_kept, not_kept_by, not_read, numbered, of_all, of_any, of_charstrings, of_components, of_either, of_numbered, of_outlines, of_table, only_cff2, seen_last, short_names, shown, shown_last, tight_limits, unnumbered, wrong_advances, wrong_for, wrong_names};

use crate::asked::{Asked, Call, keeps_glyph_names, keeps_names, takes_outlines};
use crate::characters::no_mapping;
use crate::charstrings::{cff_reason, new_cff_reason, other_cff2};
use crate::names::lost_name;
use crate::outlines::tree_reason;
use crate::parts::{count_glyphs, no_metric, no_pairs, no_table, wrong_metrics};
use crate::reason::Reason;
use crate::short::{no_index, short_header, short_name, short_post};
use crate::source::{no_font_or_glyph, reason_of_unknown, wrong_source};
use crate::varying::varied_reason;
use pdf_cff::unless_memory;
use std::alloc::{AllocError, Global};
use subsetter_base::{Error, GlyphRemapper, Tag};
use subsetter_sfnt::directory::table;
use subsetter_sfnt::extras::Extras;
use subsetter_sfnt::fields::head::units_per_em;
use subsetter_type2::limits::Limits;

/// Whether unitsPerEm of a face is 0.
fn no_units(font: &[u8], index: u32) -> Option<Reason>
    ensures { result ≡ no_units (record { bytes = font.now; index = index; extras = all_extras }) }
{
    let head = table(font, index, Tag::HEAD)?;
    if units_per_em(head)? == 0 {
        return Some(Reason::NoUnits);
    }
    None
}

/// Whether a face lacks what widths are made of.
fn no_widths(font: &[u8], index: u32) -> Option<Reason>
    ensures { result ≡ no_widths (record { bytes = font.now; index = index; extras = all_extras }) }
{
    no_table(font, index, Tag::HMTX).or(no_table(font, index, Tag::HEAD).or(no_units(font, index)))
}

/// Whether a face with outlines in `glyf` has no `maxp`.
fn no_maxp(font: &[u8], index: u32) -> Option<Reason>
    ensures { result ≡ no_maxp (record { bytes = font.now; index = index; extras = all_extras }) }
{
    match table(font, index, Tag::GLYF) {
        Some(_) => no_table(font, index, Tag::MAXP),
        None => None,
    }
}

/// Whether a face lacks what this call needs and others don't.
#[tactic(auto, unfolding(crate::specs::Explained::lacks))]
fn lacks(call: Call, font: &[u8], index: u32) -> Option<Reason>
    ensures { result ≡ lacks call (record { bytes = font.now; index = index; extras = all_extras }) }
{
    match call {
        Call::Subset | Call::SubsetAt => None,
        Call::GlyphsOf => no_mapping(font, index),
        Call::PdfFont => no_widths(font, index).or(no_maxp(font, index)),
        Call::Embed | Call::EmbedAt | Call::Advances => no_widths(font, index),
    }
}

/// Whether the outlines of a face are those of `CFF2` alone.
fn only_cff2(font: &[u8], index: u32) -> Option<Reason>
    ensures { result ≡ only_cff2 (record { bytes = font.now; index = index; extras = all_extras }) }
{
    let outlines = (
        table(font, index, Tag::GLYF),
        table(font, index, Tag::CFF),
        table(font, index, Tag::CFF2),
    );
    match outlines {
        (None, None, Some(cff2)) => other_cff2(cff2).or(Some(Reason::OnlyCff2)),
        _ => None,
    }
}

/// What isn't read of a face.
fn not_read(call: Call, font: &[u8], index: u32) -> Option<Reason>
    ensures { result ≡ not_read call (record { bytes = font.now; index = index; extras = all_extras }) }
{
    match call {
        Call::Subset | Call::Embed => only_cff2(font, index),
        _ => None,
    }
}

/// What is wrong with the tables that are read for advances.
#[tactic(auto, unfolding(crate::specs::Explained::wrong_advances))]
fn wrong_advances(font: &[u8], index: u32) -> Option<Reason>
    ensures { result ≡ wrong_advances (record { bytes = font.now; index = index; extras = all_extras }) }
{
    short_header(font, index).or(wrong_metrics(font, index))
}

/// What is wrong with the tables that a call reads.
#[tactic(auto, unfolding(crate::specs::Explained::wrong_for))]
fn wrong_for(call: Call, font: &[u8], index: u32) -> Option<Reason>
    ensures { result ≡ wrong_for call (record { bytes = font.now; index = index; extras = all_extras }) }
{
    match call {
        Call::GlyphsOf => None,
        Call::Advances => wrong_advances(font, index),
        Call::Subset | Call::SubsetAt | Call::Embed | Call::EmbedAt | Call::PdfFont => {
            wrong_source(font, index)
        }
    }
}

/// Why a face is malformed, but for glyphs that are there.
fn malformed(call: Call, font: &[u8], index: u32, glyphs: &[u16]) -> Option<Reason>
    ensures { result ≡ malformed call (record { bytes = font.now; index = index; extras = all_extras }) glyphs.now }
{
    let lacking = lacks(call, font, index).or(wrong_for(call, font, index));
    no_font_or_glyph(font, index, glyphs).or(lacking)
}

/// Whether a name can't be kept.
fn lost_for(call: Call, extras: Extras, font: &[u8], index: u32) -> Option<Reason>
    ensures { result ≡ lost_for call extras (record { bytes = font.now; index = index; extras = all_extras }) }
{
    if keeps_names(call, extras) {
        return lost_name(font, index);
    }
    None
}

/// What the tables show, but for glyphs that are there.
#[tactic(auto, unfolding(crate::specs::Explained::shown))]
fn shown(asked: &Asked<'_>, font: &[u8]) -> Option<Reason>
    ensures { result ≡ shown asked.now.call asked.now.error asked.now.extras (face_in asked.now font.now) asked.now.glyphs }
{
    let (call, index) = (asked.call, asked.index);
    match asked.error {
        Error::UnknownKind => reason_of_unknown(font, index),
        Error::MalformedFont => malformed(call, font, index, asked.glyphs),
        Error::Unimplemented => not_read(call, font, index),
        Error::SubsetError => lost_for(call, asked.extras, font, index),
        Error::OverflowError => no_pairs(font, index),
        _ => None,
    }
}

/// Whether charstrings can be why of an error.
fn is_of_charstrings(error: Error) -> bool
    ensures { result ≡ is_of_charstrings error }
{
    match error {
        Error::MalformedFont | Error::Unimplemented | Error::CFFError => true,
        _ => false,
    }
}

/// What charstrings show.
fn of_charstrings(
    alloc: Global,
    error: Error,
    font: &[u8],
    index: u32,
    limits: &Limits,
    mapper: &GlyphRemapper,
) -> Result<Option<Reason>, Error>
    ensures ok { IfOk result (λ r. r ≡ of_charstrings error (record { bytes = font.now; index = index; extras = all_extras }) limits.now.tokens limits.now.depth mapper.now) }
    ensures err { IfErr result (λ e. e ≡ OutOfMemory) }
{
    if is_of_charstrings(error) {
        return cff_reason(alloc, font, index, limits, mapper);
    }
    Ok(None)
}

/// What components show, at any level down to a depth.
fn of_components(
    alloc: Global,
    error: Error,
    font: &[u8],
    index: u32,
    limits: &Limits,
    mapper: &GlyphRemapper,
) -> Result<Option<Reason>, Error>
    ensures ok { IfOk result (λ r. r ≡ of_components error (record { bytes = font.now; index = index; extras = all_extras }) limits.now.tokens limits.now.depth mapper.now) }
    ensures err { IfErr result (λ e. e ≡ OutOfMemory) }
{
    match error {
        Error::MalformedFont => {
            tree_reason(alloc, font, index, limits.tokens(), limits.depth(), mapper)
        }
        _ => Ok(None),
    }
}

/// What charstrings show, or components.
fn of_either(
    alloc: Global,
    error: Error,
    font: &[u8],
    index: u32,
    limits: &Limits,
    mapper: &GlyphRemapper,
) -> Result<Option<Reason>, Error>
    ensures ok { IfOk result (λ r. r ≡ of_either error (record { bytes = font.now; index = index; extras = all_extras }) limits.now.tokens limits.now.depth mapper.now) }
    ensures err { IfErr result (λ e. e ≡ OutOfMemory) }
{
    match of_charstrings(alloc, error, font, index, limits, mapper)? {
        Some(reason) => Ok(Some(reason)),
        None => of_components(alloc, error, font, index, limits, mapper),
    }
}

/// Whether a new `CFF ` table can be why of an error: within a bound on bytes an overflow is one of it.
fn is_of_table(error: Error, bound: Option<u32>) -> bool
    ensures { result ≡ is_of_table error bound }
{
    match (error, bound) {
        (Error::SubsetError, _) => true,
        (Error::OverflowError, None) => true,
        _ => false,
    }
}

/// What a new `CFF ` table shows.
fn of_table(
    alloc: Global,
    error: Error,
    font: &[u8],
    index: u32,
    limits: &Limits,
    mapper: &GlyphRemapper,
) -> Result<Option<Reason>, Error>
    ensures ok { IfOk result (λ r. r ≡ of_table error limits.now.bytes (record { bytes = font.now; index = index; extras = all_extras }) limits.now.tokens limits.now.depth mapper.now) }
    ensures err { IfErr result (λ e. e ≡ OutOfMemory) }
{
    if is_of_table(error, limits.bytes()) {
        return new_cff_reason(alloc, error, font, index, limits, mapper);
    }
    Ok(None)
}

/// What charstrings, components or a new table show.
fn of_any(
    alloc: Global,
    error: Error,
    font: &[u8],
    index: u32,
    limits: &Limits,
    mapper: &GlyphRemapper,
) -> Result<Option<Reason>, Error>
    ensures ok { IfOk result (λ r. r ≡ of_any error limits.now.bytes (record { bytes = font.now; index = index; extras = all_extras }) limits.now.tokens limits.now.depth mapper.now) }
    ensures err { IfErr result (λ e. e ≡ OutOfMemory) }
{
    match of_either(alloc, error, font, index, limits, mapper)? {
        Some(reason) => Ok(Some(reason)),
        None => of_table(alloc, error, font, index, limits, mapper),
    }
}

/// What the outlines of these glyphs show, where a call takes them.
fn of_outlines(
    alloc: Global,
    asked: &Asked<'_>,
    font: &[u8],
    mapper: &GlyphRemapper,
) -> Result<Option<Reason>, Error>
    ensures ok { IfOk result (λ r. r ≡ of_outlines asked.now (face_in asked.now font.now) mapper.now) }
    ensures err { IfErr result (λ e. e ≡ OutOfMemory) }
{
    if takes_outlines(asked.call) {
        return of_any(alloc, asked.error, font, asked.index, &asked.limits, mapper);
    }
    Ok(None)
}

/// Glyph 0 and the given glyphs, each once, if these are no more than 65,535.
#[tactic(auto, using(crate::proofs::Numbering::none_left, crate::proofs::Numbering::some_left))]
fn numbered(alloc: Global, glyphs: &[u16]) -> Result<Option<GlyphRemapper>, Error>
    ensures ok { IfOk result (λ r. r ≡ numbered glyphs.now) }
    ensures err { IfErr result (λ e. e ≡ OutOfMemory) }
{
    match GlyphRemapper::new_from_glyphs(alloc, glyphs) {
        Ok(mapper) => {
            // There are never more than 65535.
            let _count = mapper.num_gids();
            Ok(Some(mapper))
        }
        Err(error) => {
            unless_memory(error)?;
            Ok(None)
        }
    }
}

/// Whether an error is that of a number that is too large.
fn is_overflow(error: Error) -> bool
    ensures { result ≡ is_overflow error }
{
    match error {
        Error::OverflowError => true,
        _ => false,
    }
}

/// Why a call on more glyphs is refused.
fn unnumbered(call: Call, error: Error) -> Option<Reason>
    ensures { result ≡ unnumbered call error }
{
    if takes_outlines(call) && is_overflow(error) {
        return Some(Reason::AllGlyphs);
    }
    None
}

/// What outlines show, and then what varies.
fn of_numbered(
    alloc: Global,
    asked: &Asked<'_>,
    font: &[u8],
    mapper: &Option<GlyphRemapper>,
) -> Result<Option<Reason>, Error>
    ensures ok { IfOk result (λ r. r ≡ of_numbered asked.now (face_in asked.now font.now) mapper.now) }
    ensures err { IfErr result (λ e. e ≡ OutOfMemory) }
{
    let Some(mapper) = mapper else {
        return Ok(unnumbered(asked.call, asked.error));
    };
    match of_outlines(alloc, asked, font, mapper)? {
        Some(reason) => Ok(Some(reason)),
        None => varied_reason(alloc, asked, font, mapper),
    }
}

/// What is wrong with names that a call keeps.
fn short_names(call: Call, extras: Extras, font: &[u8], index: u32) -> Option<Reason>
    ensures { result ≡ short_names call extras (record { bytes = font.now; index = index; extras = all_extras }) }
{
    if keeps_names(call, extras) {
        return short_name(font, index);
    }
    None
}

/// The first of these glyphs that has no index of a name, where a call keeps the names of glyphs.
fn no_indexes(call: Call, extras: Extras, font: &[u8], index: u32, glyphs: &[u16]) -> Option<Reason>
    ensures { result ≡ no_indexes call extras (record { bytes = font.now; index = index; extras = all_extras }) glyphs.now }
{
    if keeps_glyph_names(call, extras) {
        return no_index(font, index, glyphs);
    }
    None
}

/// What is wrong with these, or with the names of glyphs.
fn wrong_names(call: Call, extras: Extras, font: &[u8], index: u32) -> Option<Reason>
    ensures { result ≡ wrong_names call extras (record { bytes = font.now; index = index; extras = all_extras }) }
{
    let glyph_names = short_post(keeps_glyph_names(call, extras), font, index);
    glyph_names.or(short_names(call, extras, font, index))
}

/// What is wrong with what a call keeps besides outlines: the metrics of each glyph, and names.
#[tactic(auto, unfolding(crate::specs::Explained::not_kept))]
fn not_kept(call: Call, extras: Extras, font: &[u8], index: u32, glyphs: &[u16]) -> Option<Reason>
    ensures { result ≡ not_kept call extras (record { bytes = font.now; index = index; extras = all_extras }) glyphs.now }
{
    let names = wrong_names(call, extras, font, index);
    let all = names.or(no_indexes(call, extras, font, index, glyphs));
    no_metric(font, index, glyphs).or(all)
}

/// What is wrong with what a call keeps, or reads, besides outlines.
#[tactic(auto, unfolding(crate::specs::Explained::not_kept_by))]
fn not_kept_by(
    call: Call,
    extras: Extras,
    font: &[u8],
    index: u32,
    glyphs: &[u16],
) -> Option<Reason>
    ensures { result ≡ not_kept_by call extras (record { bytes = font.now; index = index; extras = all_extras }) glyphs.now }
{
    match call {
        Call::GlyphsOf => None,
        Call::Advances => no_metric(font, index, glyphs).or(no_table(font, index, Tag::MAXP)),
        Call::Subset | Call::SubsetAt | Call::Embed | Call::EmbedAt | Call::PdfFont => {
            not_kept(call, extras, font, index, glyphs)
        }
    }
}

/// That limits may be too low, where bytes have a bound.
fn tight_limits(call: Call, tokens: u32, bytes: Option<u32>) -> Option<Reason>
    ensures { result ≡ tight_limits call tokens bytes }
{
    if !takes_outlines(call) {
        return None;
    }
    let most = bytes?;
    Some(Reason::TightLimits(most, tokens))
}

/// What is looked at last, by the error.
fn shown_last(asked: &Asked<'_>, font: &[u8]) -> Option<Reason>
    ensures { result ≡ shown_last asked.now.error asked.now (face_in asked.now font.now) }
{
    match asked.error {
        Error::MalformedFont => {
            not_kept_by(asked.call, asked.extras, font, asked.index, asked.glyphs)
        }
        Error::OverflowError => tight_limits(asked.call, asked.limits.tokens(), asked.most_bytes),
        _ => None,
    }
}

/// What glyphs show, or what is kept besides them.
fn seen_last(alloc: Global, asked: &Asked<'_>, font: &[u8]) -> Result<Option<Reason>, Error>
    ensures ok { IfOk result (λ r. r ≡ seen_last asked.now (face_in asked.now font.now)) }
    ensures err { IfErr result (λ e. e ≡ OutOfMemory) }
{
    let mapper = numbered(alloc, asked.glyphs)?;
    let found = of_numbered(alloc, asked, font, &mapper)?;
    Ok(found.or(shown_last(asked, font)))
}

/// Why a call on given glyphs is refused, if the font shows it.
fn explained_of(alloc: Global, font: &[u8], asked: &Asked<'_>) -> Result<Option<Reason>, Error>
    ensures ok { IfOk result (λ r. r ≡ explained_of asked.now font.now) }
    ensures err { IfErr result (λ e. e ≡ OutOfMemory) }
{
    match shown(asked, font) {
        Some(reason) => Ok(Some(reason)),
        None => seen_last(alloc, asked, font),
    }
}

/// The glyphs 0 to `count` - 1.
fn first_glyphs(alloc: Global, count: u16) -> Result<Vec<u16>, AllocError>
    ensures { IfOk result (λ v. v.items ≡ map (λ g. g) (range_with_len 0 count)) }
{
    (0..count).map(|glyph| glyph).collect(alloc)
}

/// All glyphs of a face, by their count.
fn all_of(alloc: Global, count: Option<u16>) -> Result<Vec<u16>, AllocError>
    ensures { IfOk result (λ v. v.items ≡ all_of count) }
{
    match count {
        Some(count) => first_glyphs(alloc, count),
        None => Ok(Vec::new(alloc)),
    }
}

/// Why a call on all glyphs is refused, if the font shows it.
fn explained_of_all(alloc: Global, font: &[u8], asked: &Asked<'_>) -> Result<Option<Reason>, Error>
    ensures ok { IfOk result (λ r. r ≡ explained_of (of_all asked.now (face_in asked.now font.now)) font.now) }
    ensures err { IfErr result (λ e. e ≡ OutOfMemory) }
{
    let glyphs = all_of(alloc, count_glyphs(font, asked.index))?;
    let all = Asked {
        call: asked.call,
        error: asked.error,
        index: asked.index,
        glyphs: &glyphs,
        coordinates: asked.coordinates,
        extras: asked.extras,
        limits: asked.limits,
        most_bytes: asked.most_bytes,
    };
    explained_of(alloc, font, &all)
}

/// Why a call is refused, if the font shows it. A charstring is run within the limits of the call, at most once, and none after the
/// first that can't be; components of `glyf` are followed down to their depth, in as many steps as they have tokens.
///
/// Advances of no glyphs are those of all, as text takes them. What is read at coordinates alone has a part in it where a static font is made there: not at the default of outlines in `glyf`.
///
/// There is none where memory ran out, or a number in the new font is too large and its bytes have no bound.
///
/// # Errors
///
/// `OutOfMemory` alone.
pub fn explain(alloc: Global, font: &[u8], asked: &Asked<'_>) -> Result<Option<Reason>, Error>
    ensures ok { IfOk result (λ r. r ≡ explained asked.now font.now) }
    ensures err { IfErr result (λ e. e ≡ OutOfMemory) }
{
    match (asked.call, asked.glyphs) {
        (Call::Advances, []) => explained_of_all(alloc, font, asked),
        _ => explained_of(alloc, font, asked),
    }
}
