//! Making a static font.
//!
//! The font is opened, and its outlines are found, before any memory is taken.

ghost use Rattle.std.specs.Prelude.{◌≡◌, ◌≤◌, ◌⊎◌, length, IfOk, IfErr, Ok};
ghost use Rattle.subsetter_base.specs.Bytes.{IsBytes};
ghost use Rattle.subsetter_base.specs.Gives.{Gives};
ghost use Rattle.subsetter_base.specs.Within.{IsTooLong};
ghost use Rattle.subsetter_base.specs.declared.error.Error.TheVariants.{OutOfMemory, OverflowError};
ghost use Rattle.subsetter_sfnt.specs.Extras.{all_extras};
ghost use Rattle.subsetter_sfnt.specs.FontAt.{font_at};
ghost use Rattle.subsetter_sfnt.specs.Plain.{opened};
ghost use Rattle.subsetter_sfnt.specs.Read.{table_in};
ghost use Rattle.subsetter_cff.specs.Write.Laying.TableBy.{table_bytes};
ghost use Rattle.subsetter_cff_at.specs.Boxes.{table_boxes};
ghost use Rattle.subsetter_cff_at.specs.Fault.{HasFault};
ghost use Rattle.subsetter_cff_at.specs.Plain.{drawn_of, made_table};
ghost use Rattle.subsetter_cff_at.specs.View.{drawn_size, KeepsBound};
ghost use Rattle.subsetter_cff_instance.specs.Answer.{IsClosedToCff, FailsInstance};
ghost use Rattle.subsetter_cff_instance.specs.Metrics.{metrics_by_glyph};
ghost use Rattle.subsetter_cff_instance.specs.Plain.{prepared, request_at, cff_instance_in, charstrings_in};
ghost use Rattle.subsetter_cff_instance.specs.Promise.{IsCffInstancePromised};
ghost use Rattle.subsetter_cff_instance.specs.Source.{outlines_or_fault};

use crate::metrics::{advances, metrics_by_glyph, varied_metrics};
use crate::source::{Source, outlines_or_fault, source_or_fault};
use crate::tables::laid;
use std::alloc::{AllocError, Global};
use std::marker::Model;
use subsetter_base::{Error, GlyphRemapper, Tag};
use subsetter_cff::CffPieces;
use subsetter_cff_at::making::{MadeTable, make_table};
use subsetter_cff_at::request::TableRequest;
use subsetter_instance::source::normalized_coordinates;
use subsetter_instance::tables::lines::{Lines, lines_of};
use subsetter_points::Bounds;
use subsetter_sfnt::extras::Extras;
use subsetter_sfnt::face::Face;
use subsetter_sfnt::fields::hmtx::LongHorMetric;
use subsetter_sfnt::parse::parse;
use subsetter_type2::limits::Limits;

/// What is read of a font at a location: the normalized coordinates, the tables, the metrics of the glyphs that are requested, in the mapper's
/// order, and the metrics of the font that vary.
#[derive(Drop)]
struct Prepared<'a> {
    at: Vec<i32>,
    source: Source<'a>,
    metrics: Vec<LongHorMetric>,
    lines: Lines<'a>,
}

impl<'a> Model for Prepared<'a> {
    ghost use Rattle.subsetter_cff_instance.specs.Plain.{Prepared};

    ghost Value = { Prepared };

    ghost view = { λ p. record { at = p.at.items; source = p.source; metrics = p.metrics.items; lines = p.lines } };
}

/// Reads that.
#[tactic(auto, unfolding(crate::specs::Plain::prepared))]
fn prepare<'a>(
    alloc: Global,
    face: &Face<'a>,
    coordinates: &[(Tag, i32)],
    mapper: &GlyphRemapper,
) -> Result<Prepared<'a>, Error>
    ensures { Gives (λ p. p) result (prepared (table_in face.now.«data».now face.now.records.now) coordinates.now mapper.now) }
{
    let at = normalized_coordinates(alloc, face, coordinates)?;
    let source = source_or_fault(face)?;
    let metrics = varied_metrics(alloc, &source, &at, mapper)?;
    let lines = lines_of(alloc, face, coordinates, &at)?;
    Ok(Prepared {
        at,
        source,
        metrics,
        lines,
    })
}

/// A new `CFF `, and the box of each of its glyphs.
#[derive(Drop)]
struct NewCff {
    table: Vec<u8>,
    boxes: Vec<Option<Bounds>>,
}

/// The two pieces of a table, one after the other.
fn joined(pieces: CffPieces) -> Result<Vec<u8>, AllocError>
    ensures { IfOk result (λ v. v.items ≡ table_bytes pieces) }
{
    let CffPieces {
        front,
        char_strings,
    } = pieces;
    let mut table = front;
    table.extend_from_slice(&char_strings)?;
    Ok(table)
}

/// The `CFF ` of a `CFF2`, each glyph that is requested with its advance. These are the metrics of all glyphs.
fn make_cff(
    alloc: Global,
    cff2: &[u8],
    prepared: &Prepared<'_>,
    mapper: &GlyphRemapper,
    all: &[Option<LongHorMetric>],
    limits: Limits,
) -> Result<NewCff, Error>
    requires all { all.now ≡ metrics_by_glyph mapper.now prepared.now.metrics prepared.now.source.count }
    requires few { length all.now ≤ 65535 }
    ensures ok { IfOk result (λ c. made_table cff2.now (request_at mapper.now prepared.now) limits.tokens limits.depth ≡ Ok c.table.items) }
    ensures boxes { IfOk result (λ c. c.boxes.items ≡ table_boxes c.table.items) }
    ensures within { IfOk result (λ _. KeepsBound limits.bytes (drawn_of cff2.now (request_at mapper.now prepared.now) limits.tokens limits.depth)) }
    ensures err { IfErr result (λ e. (e ≡ OutOfMemory) ⊎ (HasFault cff2.now (request_at mapper.now prepared.now) limits.tokens limits.depth e ⊎ ((e ≡ OverflowError) × IsTooLong limits.bytes drawn_size (drawn_of cff2.now (request_at mapper.now prepared.now) limits.tokens limits.depth)))) }
{
    let source = &prepared.source;
    let glyphs = advances(alloc, all)?;
    let request = TableRequest {
        coordinates: &prepared.at,
        glyphs: &glyphs,
        units_per_em: source.units_per_em(),
    };
    let MadeTable { pieces, boxes } = make_table(alloc, cff2, &request, limits)?;
    let table = joined(pieces)?;
    Ok(NewCff { table, boxes })
}

/// The directory of a font, and its `CFF2` where its outlines are in that alone. No memory is taken.
fn open(data: &[u8], index: u32) -> Result<(Face<'_>, &[u8]), Error>
    ensures bytes { IsBytes «data».now }
    ensures same { IfOk result (λ r. r.0.«data».now ≡ «data».now) }
    ensures opened { IfOk result (λ r. opened (font_at «data».now index all_extras) ≡ Ok r.0.records.now) }
    ensures outlines { IfOk result (λ r. outlines_or_fault (table_in «data».now r.0.records.now) ≡ Ok r.1.now) }
    ensures err { IfErr result (λ e. IsClosedToCff (font_at «data».now index all_extras) e) }
{
    let face = parse(data, index, Extras::ALL)?;
    let cff2 = outlines_or_fault(&face)?;
    Ok((face, cff2))
}

/// The static font of a font whose directory was read, and of its `CFF2`.
#[tactic(auto, unfolding(crate::specs::Plain::cff_instance_in, crate::specs::Plain::charstrings_in))]
fn make(
    alloc: Global,
    face: &Face<'_>,
    cff2: &[u8],
    coordinates: &[(Tag, i32)],
    mapper: &GlyphRemapper,
    limits: Limits,
) -> Result<Vec<u8>, Error>
    ensures ok { IfOk result (λ v. cff_instance_in (table_in face.now.«data».now face.now.records.now) cff2.now coordinates.now mapper.now limits.tokens limits.depth ≡ Ok v.items) }
    ensures within { IfOk result (λ _. KeepsBound limits.bytes (charstrings_in (table_in face.now.«data».now face.now.records.now) cff2.now coordinates.now mapper.now limits.tokens limits.depth)) }
    ensures err { IfErr result (λ e. FailsInstance (table_in face.now.«data».now face.now.records.now) cff2.now coordinates.now mapper.now limits.tokens limits.depth limits.bytes e) }
{
    let prepared = prepare(alloc, face, coordinates, mapper)?;
    let count = prepared.source.count();
    let all = metrics_by_glyph(alloc, mapper, &prepared.metrics, count)?;
    let cff = make_cff(alloc, cff2, &prepared, mapper, &all, limits)?;
    laid(
        alloc,
        face,
        &prepared.source,
        &prepared.lines,
        mapper,
        &prepared.metrics,
        &all,
        &cff.table,
        &cff.boxes,
    )
}

/// A static font with a CID-keyed `CFF `: the mapper's glyphs, glyph 0 among them, as a font with outlines in `CFF2` has them at these
/// coordinates, each under its old number with its width and without subroutines. Every other glyph is empty. The left side bearing of each is
/// the least x of its outline there, and the boxes of `head` and of the `CFF ` and the extremes of `hhea` are those of what is drawn: around
/// control points too, 0 where there is no outline, and minRightSideBearing at most 32,767.
///
/// `data` is a font file or a collection, of which `index` names a face (it is ignored for a single font). A coordinate is the
/// tag of an axis and a value in 65536ths; where a tag comes twice the last value counts, and an axis without a value stays at
/// its default. A font without `fvar` has no axes. Each charstring may take the tokens and the depth of `limits`, and all of them
/// together its bytes.
///
/// # Errors
///
/// Each names what is in the source (`HasCffInstanceFault`), but where a bound on bytes is set; a font without a fault whose charstrings don't
/// pass that bound is refused only when out of memory.
///
/// - `UnknownKind`: the file doesn't begin with a known kind of font, or has none of `glyf`, `CFF ` and `CFF2`.
/// - `Unimplemented`: there is `glyf` or `CFF `; or `fvar`, `avar`, `HVAR` or `MVAR` has a major version other than 1.
/// - `MalformedFont`: the directory, `fvar`, `avar`, `HVAR`, `MVAR` or `CFF2` is cut, or a table of metrics is missing or cut; a glyph isn't one of
///   the font's, or its metric, its variations, its font dict, its private dict or its charstring can't be read.
/// - `CFFError`: a charstring can't be run, or not within the limits.
/// - `OverflowError`: a number of a charstring, an advance or a metric of `hhea` or `post` has no room; a size of the new `CFF ` is past its limit
///   (`make_table` of `subsetter_cff_at`); the file passes 2^32 bytes; or the charstrings pass the bound on bytes.
pub fn cff_instance(
    alloc: Global,
    data: &[u8],
    index: u32,
    coordinates: &[(Tag, i32)],
    mapper: &GlyphRemapper,
    limits: Limits,
) -> Result<Vec<u8>, Error>
    // What is returned is the static font, what is refused has a fault of that name, or its charstrings pass the bound on bytes.
    ensures promise { IsCffInstancePromised (λ v. v.items) limits.bytes limits.tokens limits.depth (font_at «data».now index all_extras) coordinates.now mapper.now result }
{
    let (face, cff2) = open(data, index)?;
    make(alloc, &face, cff2, coordinates, mapper, limits)
}
