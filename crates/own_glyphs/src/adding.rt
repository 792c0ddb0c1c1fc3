//! Adding glyphs.

ghost use Rattle.std.specs.Prelude.{◌≡◌, ◌≤◌, ◌<◌, ◌+◌, ◌^◌, ◌++◌, Some, None, length, IfOk, IfErr, OnOk};
ghost use Rattle.std.specs.Int.{w16, cast_unsigned};
ghost use Rattle.std.specs.Option.{option_copied};
ghost use Rattle.subsetter_base.specs.Gives.{Gives};
ghost use Rattle.subsetter_base.specs.declared.error.Error.TheVariants.{OutOfMemory, OverflowError};
ghost use Rattle.subsetter_sfnt.specs.Fields.Hmtx.{hmtx_bytes};
ghost use Rattle.subsetter_sfnt.specs.Fields.Loca.{loca_bytes};
ghost use Rattle.subsetter_sfnt.specs.Laying.Rows.{present, rows};
ghost use Rattle.subsetter_sfnt.specs.Laying.Written.{kind_word};
ghost use Rattle.subsetter_sfnt.specs.Plain.{file_of};
ghost use Rattle.subsetter_sfnt.specs.Read.{table_in};
ghost use Rattle.subsetter_sfnt.specs.View.{font_seen};
ghost use Rattle.subsetter_sfnt.specs.declared.flavor.FontFlavor.TheVariants.{TrueType};
ghost use Rattle.subsetter.specs.Common.Head.Written.{head_bytes};
ghost use Rattle.subsetter.specs.Common.Hmtx.Written.{hhea_bytes};
ghost use Rattle.own_glyphs.specs.Own.{HasOwnGlyphs, IsMade};
ghost use Rattle.own_glyphs.specs.Refused.{IsRefused, IsUnmade};
ghost use Rattle.own_glyphs.specs.View.{seen};
ghost use Rattle.own_glyphs.specs.Written.{AreSmall, ends_from, further, is_longer, metrics_with, outlines, tables_by};

use crate::composite::{own_boxes, write_outline};
use crate::glyph::OwnGlyph;
use crate::headers::{head, hhea, hmtx, loca};
use crate::profile::{maxp, most_parts};
use crate::source::{Source, source_in};
use std::alloc::Global;
use subsetter_base::{Error, Tag};
use subsetter_points::Bounds;
use subsetter_sfnt::extras::Extras;
use subsetter_sfnt::face::Face;
use subsetter_sfnt::fields::hmtx::LongHorMetric;
use subsetter_sfnt::fields::loca::OFFSET16_MAX;
use subsetter_sfnt::flavor::FontFlavor;
use subsetter_sfnt::laying::construct::finish;
use subsetter_sfnt::laying::tables::{FontTables, in_order};
use subsetter_sfnt::parse::parse;

/// How many glyphs there are with `more` added to `count`. `OverflowError` where that is more than 65,535. No memory is taken.
fn count_with(count: u16, more: usize) -> Result<u16, Error>
    ensures ok { IfOk result (λ n. n ≡ count + more) }
    ensures few { IfOk result (λ n. count + more ≤ 65535) }
    ensures err { IfErr result (λ e. (e ≡ OverflowError) × (65535 < count + more)) }
{
    if more > usize::from(u16::MAX - count) {
        return Err(Error::OverflowError);
    }
    Ok(count + more as u16)
}

/// Puts outlines of own glyphs in their boxes after those of a font, and after the offsets of these where each ends.
fn add_outlines(
    glyf: &mut Vec<u8>,
    offsets: &mut Vec<usize>,
    own: &[OwnGlyph<'_>],
    boxes: &[Bounds],
) -> Result<(), Error>
    requires { length boxes.now ≡ length own.now }
    ensures glyf { OnOk result (glyf.new.items ≡ glyf.old.items ++ outlines (further own.now boxes.now)) }
    ensures offsets { OnOk result (offsets.new.items ≡ offsets.old.items ++ ends_from (length glyf.old.items) (further own.now boxes.now)) }
    ensures err { IfErr result (λ e. e ≡ OutOfMemory) }
{
    for k in 0..own.len() {
        write_outline(glyf, own[k].parts, boxes[k])?;
        offsets.push(glyf.len())?;
    }
    Ok(())
}

/// The metric of an own glyph in its box.
fn metric(advance: u16, bounds: Bounds) -> LongHorMetric
    ensures advance { result.advance_width ≡ advance }
    ensures lsb { result.lsb ≡ cast_unsigned w16 bounds.x_min }
    ensures small { (result.advance_width < 2 ^ 16) × (result.lsb < 2 ^ 16) }
{
    LongHorMetric {
        advance_width: advance,
        lsb: bounds.x_min.cast_unsigned(),
    }
}

/// Puts the metrics of own glyphs in their boxes after those of a font.
fn add_metrics(
    metrics: &mut Vec<LongHorMetric>,
    own: &[OwnGlyph<'_>],
    boxes: &[Bounds],
) -> Result<(), Error>
    requires { length boxes.now ≡ length own.now }
    ensures ok { OnOk result (metrics.new.items ≡ metrics_with metrics.old.items (further own.now boxes.now)) }
    ensures small { OnOk result (AreSmall (further own.now boxes.now)) }
    ensures err { IfErr result (λ e. e ≡ OutOfMemory) }
{
    for k in 0..own.len() {
        metrics.push(metric(own[k].advance, boxes[k]))?;
    }
    Ok(())
}

/// A copy of bytes, after which others are put.
fn copied(alloc: Global, bytes: &[u8]) -> Result<Vec<u8>, Error>
    ensures ok { IfOk result (λ v. v.items ≡ bytes.now) }
    ensures err { IfErr result (λ e. e ≡ OutOfMemory) }
{
    let mut copy = Vec::with_capacity(alloc, bytes.len())?;
    copy.extend_from_slice(bytes)?;
    Ok(copy)
}

/// `glyf`, and where its outlines begin and the last one ends.
#[derive(Drop)]
struct Outlines {
    glyf: Vec<u8>,
    offsets: Vec<usize>,
}

/// The tables that are made anew.
#[derive(Drop)]
struct NewTables {
    glyf: Vec<u8>,
    head: Vec<u8>,
    hhea: Vec<u8>,
    hmtx: Vec<u8>,
    loca: Vec<u8>,
    maxp: Vec<u8>,
}

/// Makes the tables of a font with `count` glyphs.
fn new_tables(
    alloc: Global,
    source: &Source<'_>,
    outlines: Outlines,
    metrics: &[LongHorMetric],
    maxp: Vec<u8>,
    count: u16,
) -> Result<NewTables, Error>
    requires head { 52 ≤ length source.now.head.now }
    requires hhea { 36 ≤ length source.now.hhea.now }
    requires pairs { length metrics.now ≤ count }
    ensures glyf { IfOk result (λ t. t.glyf.items ≡ outlines.glyf.items) }
    ensures head { IfOk result (λ t. t.head.items ≡ head_bytes (is_longer source.now.long outlines.glyf.items) source.now.head.now) }
    ensures hhea { IfOk result (λ t. t.hhea.items ≡ hhea_bytes count source.now.hhea.now) }
    ensures hmtx { IfOk result (λ t. t.hmtx.items ≡ hmtx_bytes count metrics.now) }
    ensures loca { IfOk result (λ t. t.loca.items ≡ loca_bytes (is_longer source.now.long outlines.glyf.items) outlines.offsets.items) }
    ensures maxp { IfOk result (λ t. t.maxp.items ≡ maxp.items) }
    ensures err { IfErr result (λ e. e ≡ OutOfMemory) }
{
    let long = source.long || outlines.glyf.len() > OFFSET16_MAX;
    Ok(NewTables {
        head: head(alloc, source.head, long)?,
        hhea: hhea(alloc, source.hhea, count)?,
        hmtx: hmtx(alloc, metrics)?,
        loca: loca(alloc, &outlines.offsets, long)?,
        glyf: outlines.glyf,
        maxp,
    })
}

/// The tables of the file, of which five stay as they are in the font.
fn font_tables<'a>(
    new: &'a NewTables,
    cvt: Option<&'a [u8]>,
    fpgm: Option<&'a [u8]>,
    name: Option<&'a [u8]>,
    post: Option<&'a [u8]>,
    prep: Option<&'a [u8]>,
) -> FontTables<&'a [u8]>
    ensures { font_seen (λ bytes. bytes.now) result ≡ record { cff = None; cvt = option_copied cvt.entry; fpgm = option_copied fpgm.entry; glyf = Some new.now.glyf.items; head = Some new.now.head.items; hhea = Some new.now.hhea.items; hmtx = Some new.now.hmtx.items; loca = Some new.now.loca.items; maxp = Some new.now.maxp.items; name = option_copied name.entry; post = option_copied post.entry; prep = option_copied prep.entry } }
{
    FontTables {
        cff: None,
        cvt,
        fpgm,
        glyf: Some(&new.glyf),
        head: Some(&new.head),
        hhea: Some(&new.hhea),
        hmtx: Some(&new.hmtx),
        loca: Some(&new.loca),
        maxp: Some(&new.maxp),
        name,
        post,
        prep,
    }
}

/// The file of a font with `count` glyphs. `OverflowError` where a table's offset or length is 2^32 or more.
fn laid(
    alloc: Global,
    face: &Face<'_>,
    source: &Source<'_>,
    outlines: Outlines,
    metrics: &[LongHorMetric],
    maxp: Vec<u8>,
    count: u16,
) -> Result<Vec<u8>, Error>
    requires head { 52 ≤ length source.now.head.now }
    requires hhea { 36 ≤ length source.now.hhea.now }
    requires pairs { length metrics.now ≤ count }
    ensures { Gives (λ v. v.items) result (file_of (kind_word TrueType) (present (rows (tables_by (table_in face.now.«data».now face.now.records.now) (seen source.now) outlines.glyf.items outlines.offsets.items metrics.now maxp.items count)))) }
{
    let new = new_tables(alloc, source, outlines, metrics, maxp, count)?;
    let cvt = face.stored(Tag::CVT);
    let fpgm = face.stored(Tag::FPGM);
    let name = face.stored(Tag::NAME);
    let post = face.stored(Tag::POST);
    let tables = font_tables(&new, cvt, fpgm, name, post, face.stored(Tag::PREP));
    let list = in_order(alloc, tables)?;
    finish(alloc, FontFlavor::TrueType, &list, None)
}

/// The file with own glyphs, of a font whose tables were read.
fn made(
    alloc: Global,
    face: &Face<'_>,
    source: &Source<'_>,
    own: &[OwnGlyph<'_>],
) -> Result<Vec<u8>, Error>
    requires head { 52 ≤ length source.now.head.now }
    requires maxp { 6 ≤ length source.now.maxp.now }
    requires hhea { 36 ≤ length source.now.hhea.now }
    ensures ok { IfOk result (λ v. IsMade (table_in face.now.«data».now face.now.records.now) (seen source.now) own.now v.items) }
    ensures err { IfErr result (λ e. IsUnmade (table_in face.now.«data».now face.now.records.now) (seen source.now) own.now e) }
{
    let count = count_with(source.count, own.len())?;
    let boxes = own_boxes(alloc, source, own)?;
    let maxp = maxp(alloc, source.maxp, count, most_parts(own))?;
    let mut offsets = source.offsets(alloc)?;
    let mut glyf = copied(alloc, source.glyf)?;
    add_outlines(&mut glyf, &mut offsets, own, &boxes)?;
    let mut metrics = source.metrics(alloc)?;
    add_metrics(&mut metrics, own, &boxes)?;
    let outlines = Outlines { glyf, offsets };
    laid(alloc, face, source, outlines, &metrics, maxp, count)
}

/// A font with own glyphs after those that it has, whose numbers, outlines and metrics stay: the i-th own one, from 0 on, has the
/// number n + i, where n is numGlyphs.
///
/// `font` is a TrueType subset, as `subset` returns it for a font with `glyf`, and has `hmtx` and `maxp`. Tables that a subset
/// doesn't have aren't kept.
///
/// # Errors
///
/// - `UnknownKind`: the file doesn't begin with a known kind of font.
/// - `MalformedFont`: the directory is cut, or one of the seven tables of outlines and metrics is missing or cut, or `loca` doesn't
///   end at the end of `glyf`: no subset with `hmtx` and `maxp` has any of it. Or a part isn't a glyph of the font, or its outline has
///   fewer than 10 bytes, or there are parts and `maxp` has fewer than 32 bytes.
/// - `OverflowError`: there would be more than 65,535 glyphs, or 2^32 bytes; or a side of the box of a glyph, or a limit of composites in
///   `maxp`, hasn't 16 bits.
/// - `OutOfMemory`: a request for memory was refused.
pub fn with_own_glyphs(alloc: Global, font: &[u8], own: &[OwnGlyph<'_>]) -> Result<Vec<u8>, Error>
    ensures ok { IfOk result (λ v. HasOwnGlyphs font.now own.now v.items) }
    ensures err { IfErr result (λ e. IsRefused font.now own.now e) }
{
    let face = parse(font, 0, Extras::ALL)?;
    let source = source_in(&face).ok_or(Error::MalformedFont)?;
    made(alloc, &face, &source, own)
}
