//! What is wrong with what varies, where a call is at coordinates.

ghost use Rattle.std.specs.Prelude.{◌≡◌, ◌+◌, ◌<◌, length, pos, IfOk, IfErr, IfSome};
ghost use Rattle.std.specs.List.{list_all};
ghost use Rattle.std.specs.Ordering.{int_eq};
ghost use Rattle.std.specs.Option.{option_copied, option_map};
ghost use Rattle.subsetter_base.specs.Gives.{Gives};
ghost use Rattle.subsetter_base.specs.declared.error.Error.TheVariants.{OutOfMemory};
ghost use Rattle.subsetter_points.specs.Simple.{parts};
ghost use Rattle.subsetter_sfnt.specs.Extras.{all_extras};
ghost use Rattle.subsetter_variation.specs.Glyphs.Movement.{moved_points};
ghost use Rattle.subsetter_variation.specs.Items.Advances.{store_of};
ghost use Rattle.font_reasons.specs.Charstrings.{cff2_reason};
ghost use Rattle.font_reasons.specs.Outlines.{components_in};
ghost use Rattle.font_reasons.specs.Calls.{face_in};
ghost use Rattle.font_reasons.specs.Varying.{is_fault, is_malformed, unread_hvar, unvaried_advance, first_advance, wrong_hvar_of, wrong_hvar, wrong_metric, wrong_lines, wrong_caret, wrong_underline, wrong_post_of, wrong_post, wrong_mvar, delta_of, if_large, large_by, large_advance, first_large, most_advance, large_advances, is_composite, point_count, blank, gvar_of, unvaried_points, unvaried_by, unvaried_glyph, first_unvaried, face_gvar, outlines_reason, located, varies, moves, no_metrics, glyphs_of, wrong_mvar_for, metrics_reason, reads_outlines, unseen_outlines, glyf_reason, face_cff2, glyphs_reason, malformed_at, moved_by, location_reason, located_reason, varied_reason};
ghost use Rattle.font_reasons.specs.View.{tables_view};

use crate::asked::{Asked, Call, is_at, takes_outlines};
use crate::charstrings::cff2_reason;
use crate::outlines::{
    Tables, components_in, deep_reason, outline, outline_tables, seen_from, tree, tree_reason,
};
use crate::parts::{no_table, pair_count};
use crate::reason::Reason;
use crate::variations::{
    avar_tag, fvar_tag, gvar_tag, hvar_tag, mvar_tag, other_axes, other_deltas, wrong_gvar,
    wrong_location,
};
use pdf_cff::unless_memory;
use std::alloc::{AllocError, Global};
use subsetter_base::read::{Reader, from_offset, number_at};
use subsetter_base::{Error, GlyphRemapper, Tag};
use subsetter_points::header::COMPOSITE;
use subsetter_points::read_simple;
use subsetter_sfnt::directory::table;
use subsetter_sfnt::fields::hmtx::{LongHorMetric, glyph_metric};
use subsetter_type2::limits::Limits;
use subsetter_variation::glyphs::movement::{Outline, moved_points};
use subsetter_variation::glyphs::spare::SpareLists;
use subsetter_variation::glyphs::tuples::{Gvar, gvar_table};
use subsetter_variation::items::advances::advance_delta;
use subsetter_variation::items::font_metrics::metric_delta;
use subsetter_variation::items::item_variations::{Store, item_store};
use subsetter_variation::locations::coordinates::coordinates;

/// itemVariationStoreOffset of `HVAR`, four bytes.
const ITEM_VARIATION_STORE_OFFSET: usize = 4;
/// Where underlineThickness of `post` ends.
const UNDERLINE_END: usize = 12;

/// Whether an error is that of a table that can't be read.
fn is_fault(error: Error) -> bool
    ensures { result ≡ is_fault error }
{
    match error {
        Error::MalformedFont => true,
        _ => false,
    }
}

/// Whether a delta can't be read.
fn is_malformed(delta: Result<i64, Error>) -> bool
    ensures { result ≡ is_malformed delta }
{
    match delta {
        Err(error) => is_fault(error),
        Ok(_) => false,
    }
}

/// The store of `HVAR`, if its regions have `axes` axes.
#[tactic(auto, unfolding(subsetter_variation::specs::Items::Advances::store_of))]
fn store_of(hvar: &[u8], axes: usize) -> Option<Store<'_>>
    ensures { result ≡ store_of hvar.now axes }
{
    let at = Reader::new_at(hvar, ITEM_VARIATION_STORE_OFFSET).read::<u32>()?;
    if at == 0 {
        return None;
    }
    let store = item_store(from_offset(hvar, at as usize)?)?;
    if usize::from(store.axis_count()) == axes {
        Some(store)
    } else {
        None
    }
}

/// Whether `HVAR` has no item variation store of as many axes.
fn unread_hvar(hvar: &[u8], axes: usize) -> Option<Reason>
    ensures { result ≡ unread_hvar hvar.now axes }
{
    match store_of(hvar, axes) {
        Some(_) => None,
        None => Some(Reason::Unread(hvar_tag())),
    }
}

/// Whether the variation of a glyph's advance can't be read.
fn unvaried_advance(hvar: &[u8], at: &[i32], glyph: u16) -> Option<Reason>
    ensures { result ≡ unvaried_advance hvar.now at.now glyph }
{
    if is_malformed(advance_delta(hvar, at, glyph)) {
        return Some(Reason::Unvaried(hvar_tag(), glyph));
    }
    None
}

/// The first of the glyphs of which it can't.
fn first_advance(hvar: &[u8], at: &[i32], glyphs: &[u16]) -> Option<Reason>
    ensures { result ≡ first_advance hvar.now at.now glyphs.now }
{
    for glyph in glyphs {
        if let Some(reason) = unvaried_advance(hvar, at, *glyph) {
            return Some(reason);
        }
    }
    None
}

/// What is wrong with the `HVAR` of a face, for these glyphs.
fn wrong_hvar(font: &[u8], index: u32, at: &[i32], glyphs: &[u16]) -> Option<Reason>
    ensures { result ≡ wrong_hvar (record { bytes = font.now; index = index; extras = all_extras }) at.now glyphs.now }
{
    let hvar = table(font, index, hvar_tag())?;
    unread_hvar(hvar, at.len()).or(first_advance(hvar, at, glyphs))
}

/// Whether the variation of the metric of a tag, these bytes, can't be read.
#[tactic(auto, unfolding(crate::specs::Varying::wrong_metric))]
fn wrong_metric(mvar: &[u8], at: &[i32], name: &[u8; 4]) -> Option<Reason>
    ensures { result ≡ wrong_metric mvar.now at.now (record { 0 = name.now }) }
{
    let tag = Tag::new(name);
    if is_malformed(metric_delta(mvar, at, tag)) {
        return Some(Reason::WrongMetric(tag));
    }
    None
}

/// What is wrong with the metrics of lines in `MVAR`.
fn wrong_lines(mvar: &[u8], at: &[i32]) -> Option<Reason>
    ensures { result ≡ wrong_lines mvar.now at.now }
{
    let others = wrong_metric(mvar, at, b"hdsc").or(wrong_metric(mvar, at, b"hlgp"));
    wrong_metric(mvar, at, b"hasc").or(others)
}

/// What is wrong with those of the caret.
fn wrong_caret(mvar: &[u8], at: &[i32]) -> Option<Reason>
    ensures { result ≡ wrong_caret mvar.now at.now }
{
    let others = wrong_metric(mvar, at, b"hcrn").or(wrong_metric(mvar, at, b"hcof"));
    wrong_metric(mvar, at, b"hcrs").or(others)
}

/// What is wrong with those of the underline.
fn wrong_underline(mvar: &[u8], at: &[i32]) -> Option<Reason>
    ensures { result ≡ wrong_underline mvar.now at.now }
{
    wrong_metric(mvar, at, b"undo").or(wrong_metric(mvar, at, b"unds"))
}

/// What is wrong with those of the underline, where `post` has them.
fn wrong_post_of(mvar: &[u8], at: &[i32], post: &[u8]) -> Option<Reason>
    ensures { result ≡ wrong_post_of mvar.now at.now post.now }
{
    if post.len() < UNDERLINE_END {
        return None;
    }
    wrong_underline(mvar, at)
}

/// What is wrong with those of the underline, where the `post` of a face has them.
fn wrong_post(font: &[u8], index: u32, mvar: &[u8], at: &[i32]) -> Option<Reason>
    ensures { result ≡ wrong_post (record { bytes = font.now; index = index; extras = all_extras }) mvar.now at.now }
{
    let post = table(font, index, Tag::POST)?;
    wrong_post_of(mvar, at, post)
}

/// What is wrong with the `MVAR` of a face.
fn wrong_mvar(font: &[u8], index: u32, at: &[i32]) -> Option<Reason>
    ensures { result ≡ wrong_mvar (record { bytes = font.now; index = index; extras = all_extras }) at.now }
{
    let mvar = table(font, index, mvar_tag())?;
    wrong_lines(mvar, at).or(wrong_caret(mvar, at).or(wrong_post(font, index, mvar, at)))
}

/// What the advance of a glyph varies by; without `HVAR` it stays.
fn delta_of(hvar: Option<&[u8]>, at: &[i32], glyph: u16) -> Result<i64, Error>
    ensures { result ≡ delta_of (option_copied hvar.entry) at.now glyph }
{
    match hvar {
        Some(hvar) => advance_delta(hvar, at, glyph),
        None => Ok(0),
    }
}

/// Whether an advance is past a limit.
fn if_large(limit: u16, glyph: u16, advance: i128) -> Option<Reason>
    ensures { result ≡ if_large limit glyph advance }
{
    if advance <= i128::from(limit) {
        return None;
    }
    Some(Reason::LargeAdvance(glyph, limit))
}

/// Whether that of a glyph is, which varies by this.
fn large_by(limit: u16, glyph: u16, before: u16, delta: Result<i64, Error>) -> Option<Reason>
    ensures { result ≡ large_by limit glyph before delta }
{
    match delta {
        Ok(delta) => if_large(limit, glyph, i128::from(before) + i128::from(delta)),
        Err(_) => None,
    }
}

/// Whether that of a glyph with this metric is.
fn large_advance(
    limit: u16,
    hvar: Option<&[u8]>,
    at: &[i32],
    glyph: u16,
    metric: Option<LongHorMetric>,
) -> Option<Reason>
    ensures { result ≡ large_advance limit (option_copied hvar.entry) at.now glyph metric }
{
    match metric {
        Some(metric) => large_by(
            limit,
            glyph,
            metric.advance_width,
            delta_of(hvar, at, glyph),
        ),
        None => None,
    }
}

/// The first of the glyphs of which it is.
fn first_large(
    limit: u16,
    hvar: Option<&[u8]>,
    at: &[i32],
    hmtx: &[u8],
    count: u16,
    glyphs: &[u16],
) -> Option<Reason>
    ensures { result ≡ first_large limit (option_copied hvar.entry) at.now hmtx.now count glyphs.now }
{
    for glyph in glyphs {
        let metric = glyph_metric(hmtx, count, *glyph);
        if let Some(reason) = large_advance(limit, hvar, at, *glyph, metric) {
            return Some(reason);
        }
    }
    None
}

/// The greatest advance that is written: a metric has 16 bits, and a number in a charstring 15 and a sign.
fn most_advance(call: Call, glyf: Option<&[u8]>) -> u16
    ensures { result ≡ most_advance call (option_copied glyf.entry) }
{
    match glyf {
        Some(_) => 65535,
        None => { if takes_outlines(call) { 32767 } else { 65535 } }
    }
}

/// The first of these glyphs of a face whose advance is too large.
fn large_advances(call: Call, font: &[u8], index: u32, at: &[i32], glyphs: &[u16]) -> Option<Reason>
    ensures { result ≡ large_advances call (record { bytes = font.now; index = index; extras = all_extras }) at.now glyphs.now }
{
    let hmtx = table(font, index, Tag::HMTX)?;
    let count = pair_count(font, index)?;
    let limit = most_advance(call, table(font, index, Tag::GLYF));
    first_large(
        limit,
        table(font, index, hvar_tag()),
        at,
        hmtx,
        count,
        glyphs,
    )
}

/// The first of the glyphs whose advances a call reads that is too large.
fn large_moved(
    alloc: Global,
    asked: &Asked<'_>,
    font: &[u8],
    at: &[i32],
    mapper: &GlyphRemapper,
) -> Result<Option<Reason>, Error>
    ensures ok { IfOk result (λ r. r ≡ large_advances asked.now.call (face_in asked.now font.now) at.now (glyphs_of asked.now.call asked.now.glyphs mapper.now)) }
    ensures err { IfErr result (λ e. e ≡ OutOfMemory) }
{
    let every = seen_from(alloc, mapper, 0)?;
    let (call, index) = (asked.call, asked.index);
    let glyphs = glyphs_of(call, asked.glyphs, &every);
    Ok(large_advances(call, font, index, at, glyphs))
}

/// Whether an outline is composite, by numberOfContours.
fn is_composite(contours: Option<u16>) -> bool
    ensures { result ≡ is_composite contours }
{
    match contours {
        Some(contours) => contours >= COMPOSITE,
        None => false,
    }
}

/// How many components an outline has, and four phantom points.
fn count_components(alloc: Global, bytes: &[u8]) -> Result<Option<usize>, AllocError>
    ensures { IfOk result (λ n. n ≡ option_map (λ w. length w.glyphs + 4) (components_in bytes.now)) }
{
    match components_in(alloc, bytes)? {
        Some(walked) => Ok(Some(walked.glyphs.len() + 4)),
        None => Ok(None),
    }
}

/// How many points a simple outline has, with its phantom points.
fn count_points(alloc: Global, bytes: &[u8]) -> Result<Option<usize>, Error>
    ensures ok { IfOk result (λ n. n ≡ option_map (λ p. length p.1 + 4) (parts bytes.now)) }
    ensures err { IfErr result (λ e. e ≡ OutOfMemory) }
{
    match read_simple(alloc, bytes)? {
        Some(outline) => Ok(Some(outline.points.len() + 4)),
        None => Ok(None),
    }
}

/// How many points `gvar` counts of an outline, unless it can't be read.
fn point_count(alloc: Global, bytes: &[u8]) -> Result<Option<usize>, Error>
    ensures ok { IfOk result (λ n. n ≡ point_count bytes.now) }
    ensures err { IfErr result (λ e. e ≡ OutOfMemory) }
{
    if is_composite(number_at(bytes, 0)) {
        return Ok(count_components(alloc, bytes)?);
    }
    count_points(alloc, bytes)
}

/// Whether the variation data of a glyph with `count` points is found unreadable within `steps` steps.
fn is_unvaried(
    alloc: Global,
    gvar: &Gvar<'_>,
    at: &[i32],
    steps: u32,
    glyph: u16,
    count: u32,
) -> Result<bool, Error>
    requires axes { length at.now ≡ gvar.now.axis_count }
    requires some { 0 < count }
    ensures ok { IfOk result (λ yes. yes ≡ is_malformed (moved_points gvar.now glyph (blank count) at.now steps)) }
    ensures err { IfErr result (λ e. e ≡ OutOfMemory) }
{
    let zeros = vec![in alloc; 0i16; count as usize]?;
    let ends = [count as usize - 1];
    let outline = Outline {
        xs: &zeros,
        ys: &zeros,
        ends: &ends,
    };
    let mut lists = SpareLists::new(alloc);
    match moved_points(alloc, &mut lists, gvar, glyph, &outline, at, steps) {
        Ok(_moved) => Ok(false),
        Err(error) => {
            unless_memory(error)?;
            Ok(is_fault(error))
        }
    }
}

/// Whether the variation data of a glyph with `count` points can't be read, where there is `gvar`.
fn unvaried_points(
    alloc: Global,
    gvar: &Option<Gvar<'_>>,
    at: &[i32],
    steps: u32,
    glyph: u16,
    count: usize,
) -> Result<Option<Reason>, Error>
    requires axes { IfSome gvar.now (λ t. length at.now ≡ t.axis_count) }
    requires some { 0 < count }
    ensures ok { IfOk result (λ r. r ≡ unvaried_points gvar.now at.now steps glyph count) }
    ensures err { IfErr result (λ e. e ≡ OutOfMemory) }
{
    let Some(gvar) = gvar else {
        return Ok(None);
    };
    if count > steps as usize {
        return Ok(None);
    }
    if is_unvaried(alloc, gvar, at, steps, glyph, count as u32)? {
        return Ok(Some(Reason::Unvaried(gvar_tag(), glyph)));
    }
    Ok(None)
}

/// What is wrong with the outline of a glyph, these bytes, or with its variation data.
fn unvaried_bytes(
    alloc: Global,
    gvar: &Option<Gvar<'_>>,
    at: &[i32],
    steps: u32,
    glyph: u16,
    bytes: &[u8],
) -> Result<Option<Reason>, Error>
    requires { IfSome gvar.now (λ t. length at.now ≡ t.axis_count) }
    ensures ok { IfOk result (λ r. r ≡ unvaried_by gvar.now at.now steps glyph (point_count bytes.now)) }
    ensures err { IfErr result (λ e. e ≡ OutOfMemory) }
{
    match point_count(alloc, bytes)? {
        Some(count) => unvaried_points(alloc, gvar, at, steps, glyph, count),
        None => Ok(Some(Reason::WrongOutline(glyph))),
    }
}

/// What is wrong with the outline of a glyph, or with its variation data.
fn unvaried_glyph(
    alloc: Global,
    tables: Tables<'_>,
    gvar: &Option<Gvar<'_>>,
    at: &[i32],
    steps: u32,
    glyph: u16,
) -> Result<Option<Reason>, Error>
    requires { IfSome gvar.now (λ t. length at.now ≡ t.axis_count) }
    ensures ok { IfOk result (λ r. r ≡ unvaried_glyph (tables_view tables.entry) gvar.now at.now steps glyph) }
    ensures err { IfErr result (λ e. e ≡ OutOfMemory) }
{
    match outline(tables.glyf, tables.loca, tables.format, glyph) {
        Some(bytes) => unvaried_bytes(alloc, gvar, at, steps, glyph, bytes),
        None => Ok(None),
    }
}

/// What is wrong with the first of a mapper's glyphs of which this is so.
fn first_unvaried(
    alloc: Global,
    tables: Tables<'_>,
    gvar: &Option<Gvar<'_>>,
    at: &[i32],
    steps: u32,
    mapper: &GlyphRemapper,
) -> Result<Option<Reason>, Error>
    requires { IfSome gvar.now (λ t. length at.now ≡ t.axis_count) }
    ensures ok { IfOk result (λ r. r ≡ first_unvaried (tables_view tables.entry) gvar.now at.now steps mapper.now) }
    ensures err { IfErr result (λ e. e ≡ OutOfMemory) }
{
    for glyph in mapper.remapped_gids() {
        if let Some(reason) = unvaried_glyph(alloc, tables, gvar, at, steps, glyph)? {
            return Ok(Some(reason));
        }
    }
    Ok(None)
}

/// A `gvar` table, if it has `axes` axes.
fn gvar_of(gvar: Gvar<'_>, axes: usize) -> Option<Gvar<'_>>
    ensures value { result ≡ gvar_of axes gvar.entry }
    ensures axes { IfSome result (λ t. axes ≡ t.axis_count) }
{
    if usize::from(gvar.axis_count()) == axes {
        Some(gvar)
    } else {
        None
    }
}

/// The `gvar` of a face, if it has `axes` axes.
fn face_gvar(font: &[u8], index: u32, axes: usize) -> Option<Gvar<'_>>
    ensures value { result ≡ face_gvar (record { bytes = font.now; index = index; extras = all_extras }) axes }
    ensures axes { IfSome result (λ t. axes ≡ t.axis_count) }
{
    let gvar = gvar_table(table(font, index, gvar_tag())?)?;
    gvar_of(gvar, axes)
}

/// What is wrong with the outlines in `glyf` that these glyphs reach, with what they vary by, or with their depth.
fn outlines_reason(
    alloc: Global,
    font: &[u8],
    index: u32,
    at: &[i32],
    limits: &Limits,
    mapper: &GlyphRemapper,
) -> Result<Option<Reason>, Error>
    ensures ok { IfOk result (λ r. r ≡ outlines_reason (record { bytes = font.now; index = index; extras = all_extras }) at.now limits.now.tokens limits.now.depth mapper.now) }
    ensures err { IfErr result (λ e. e ≡ OutOfMemory) }
{
    let Some(tables) = outline_tables(font, index) else {
        return Ok(None);
    };
    let steps = limits.tokens();
    let gvar = face_gvar(font, index, at.len());
    let seen = tree(alloc, tables, steps, limits.depth(), mapper)?;
    match first_unvaried(alloc, tables, &gvar, at, steps, &seen)? {
        Some(reason) => Ok(Some(reason)),
        None => deep_reason(alloc, tables, steps, mapper),
    }
}

/// The location of a face on its axes, for user coordinates.
fn locate(
    alloc: Global,
    font: &[u8],
    index: u32,
    settings: &[(Tag, i32)],
) -> Result<Vec<i32>, Error>
    ensures { Gives (λ v. v.items) result (located (record { bytes = font.now; index = index; extras = all_extras }) settings.now) }
{
    match table(font, index, fvar_tag()) {
        None => Ok(Vec::new(alloc)),
        Some(fvar) => coordinates(alloc, fvar, table(font, index, avar_tag()), settings),
    }
}

/// Whether outlines are looked for at a location.
fn varies(font: &[u8], index: u32) -> bool
    ensures { result ≡ varies (record { bytes = font.now; index = index; extras = all_extras }) }
{
    let outlines = (
        table(font, index, Tag::GLYF),
        table(font, index, Tag::CFF),
        table(font, index, Tag::CFF2),
    );
    match outlines {
        (Some(_), _, _) => true,
        (None, None, Some(_)) => true,
        _ => false,
    }
}

/// Whether each coordinate is 0.
fn are_zero(at: &[i32]) -> bool
    ensures { result ≡ list_all (λ v. int_eq v (pos 0)) at.now }
{
    at.iter().all(|v| *v == 0)
}

/// Whether a static font is made at a location.
fn moves(font: &[u8], index: u32, at: &[i32]) -> bool
    ensures { result ≡ moves (record { bytes = font.now; index = index; extras = all_extras }) at.now }
{
    match table(font, index, Tag::GLYF) {
        Some(_) => !are_zero(at),
        None => true,
    }
}

/// Whether a face lacks what metrics are read with.
fn no_metrics(font: &[u8], index: u32) -> Option<Reason>
    ensures { result ≡ no_metrics (record { bytes = font.now; index = index; extras = all_extras }) }
{
    let others = no_table(font, index, Tag::MAXP).or(no_table(font, index, Tag::HEAD));
    no_table(font, index, Tag::HMTX).or(others)
}

/// The glyphs whose advances a call reads.
fn glyphs_of<'a>(call: Call, given: &'a [u16], every: &'a [u16]) -> &'a [u16]
    ensures { result.now ≡ glyphs_of call given.now every.now }
{
    if takes_outlines(call) { every } else { given }
}

/// What is wrong with the `MVAR` of a face, where a call reads it.
fn wrong_mvar_for(call: Call, font: &[u8], index: u32, at: &[i32]) -> Option<Reason>
    ensures { result ≡ wrong_mvar_for call (record { bytes = font.now; index = index; extras = all_extras }) at.now }
{
    if takes_outlines(call) {
        return wrong_mvar(font, index, at);
    }
    None
}

/// What is wrong with metrics at a location, or with `gvar` as a whole.
#[tactic(auto, unfolding(crate::specs::Varying::metrics_reason))]
fn metrics_reason(
    call: Call,
    font: &[u8],
    index: u32,
    at: &[i32],
    given: &[u16],
    every: &[u16],
) -> Option<Reason>
    ensures { result ≡ metrics_reason call (record { bytes = font.now; index = index; extras = all_extras }) at.now given.now every.now }
{
    let advances = wrong_hvar(font, index, at, glyphs_of(call, given, every));
    let varied = advances.or(wrong_mvar_for(call, font, index, at));
    no_metrics(font, index).or(wrong_gvar(font, index).or(varied))
}

/// Whether a call reads outlines in `glyf`.
fn reads_outlines(call: Call, hvar: Option<&[u8]>) -> bool
    ensures { result ≡ reads_outlines call (option_copied hvar.entry) }
{
    takes_outlines(call) || hvar.is_none()
}

/// What is wrong with the outlines in `glyf` that these glyphs reach, where a call isn't one on outlines.
fn unseen_outlines(
    alloc: Global,
    call: Call,
    font: &[u8],
    index: u32,
    limits: &Limits,
    mapper: &GlyphRemapper,
) -> Result<Option<Reason>, Error>
    ensures ok { IfOk result (λ r. r ≡ unseen_outlines call (record { bytes = font.now; index = index; extras = all_extras }) limits.now.tokens limits.now.depth mapper.now) }
    ensures err { IfErr result (λ e. e ≡ OutOfMemory) }
{
    if takes_outlines(call) {
        return Ok(None);
    }
    tree_reason(alloc, font, index, limits.tokens(), limits.depth(), mapper)
}

/// What is wrong with outlines in `glyf`, where a call reads them.
fn glyf_reason(
    alloc: Global,
    call: Call,
    font: &[u8],
    index: u32,
    at: &[i32],
    limits: &Limits,
    mapper: &GlyphRemapper,
) -> Result<Option<Reason>, Error>
    ensures ok { IfOk result (λ r. r ≡ glyf_reason call (record { bytes = font.now; index = index; extras = all_extras }) at.now limits.now.tokens limits.now.depth mapper.now) }
    ensures err { IfErr result (λ e. e ≡ OutOfMemory) }
{
    if !reads_outlines(call, table(font, index, hvar_tag())) {
        return Ok(None);
    }
    match unseen_outlines(alloc, call, font, index, limits, mapper)? {
        Some(reason) => Ok(Some(reason)),
        None => outlines_reason(alloc, font, index, at, limits, mapper),
    }
}

/// What is wrong with the `CFF2` of a face, where a call reads it.
fn face_cff2(
    alloc: Global,
    call: Call,
    font: &[u8],
    index: u32,
    at: &[i32],
    limits: &Limits,
    mapper: &GlyphRemapper,
) -> Result<Option<Reason>, Error>
    ensures ok { IfOk result (λ r. r ≡ face_cff2 call (record { bytes = font.now; index = index; extras = all_extras }) at.now limits.now.tokens limits.now.depth mapper.now) }
    ensures err { IfErr result (λ e. e ≡ OutOfMemory) }
{
    if !takes_outlines(call) {
        return Ok(None);
    }
    match table(font, index, Tag::CFF2) {
        Some(cff2) => cff2_reason(alloc, cff2, at, limits, mapper),
        None => Ok(None),
    }
}

/// What is wrong with outlines at a location.
#[tactic(auto, unfolding(crate::specs::Varying::glyphs_reason))]
fn glyphs_reason(
    alloc: Global,
    call: Call,
    font: &[u8],
    index: u32,
    at: &[i32],
    limits: &Limits,
    mapper: &GlyphRemapper,
) -> Result<Option<Reason>, Error>
    ensures ok { IfOk result (λ r. r ≡ glyphs_reason call (record { bytes = font.now; index = index; extras = all_extras }) at.now limits.now.tokens limits.now.depth mapper.now) }
    ensures err { IfErr result (λ e. e ≡ OutOfMemory) }
{
    match table(font, index, Tag::GLYF) {
        Some(_) => glyf_reason(alloc, call, font, index, at, limits, mapper),
        None => face_cff2(alloc, call, font, index, at, limits, mapper),
    }
}

/// What is malformed at a location.
fn malformed_at(
    alloc: Global,
    asked: &Asked<'_>,
    font: &[u8],
    at: &[i32],
    mapper: &GlyphRemapper,
) -> Result<Option<Reason>, Error>
    ensures ok { IfOk result (λ r. r ≡ malformed_at asked.now.call (face_in asked.now font.now) at.now asked.now.tokens asked.now.depth asked.now.glyphs mapper.now) }
    ensures err { IfErr result (λ e. e ≡ OutOfMemory) }
{
    let every = seen_from(alloc, mapper, 0)?;
    let (call, index) = (asked.call, asked.index);
    match metrics_reason(call, font, index, at, asked.glyphs, &every) {
        Some(reason) => Ok(Some(reason)),
        None => glyphs_reason(alloc, call, font, index, at, &asked.limits, mapper),
    }
}

/// What is wrong at a location, by the error.
fn moved_by(
    alloc: Global,
    asked: &Asked<'_>,
    font: &[u8],
    at: &[i32],
    mapper: &GlyphRemapper,
) -> Result<Option<Reason>, Error>
    ensures ok { IfOk result (λ r. r ≡ moved_by asked.now.error asked.now.call (face_in asked.now font.now) at.now asked.now.tokens asked.now.depth asked.now.glyphs mapper.now) }
    ensures err { IfErr result (λ e. e ≡ OutOfMemory) }
{
    let (call, index) = (asked.call, asked.index);
    match asked.error {
        Error::Unimplemented => Ok(other_deltas(font, index)),
        Error::MalformedFont => malformed_at(alloc, asked, font, at, mapper),
        Error::CFFError => face_cff2(alloc, call, font, index, at, &asked.limits, mapper),
        Error::OverflowError => large_moved(alloc, asked, font, at, mapper),
        _ => Ok(None),
    }
}

/// Why a face has no location, where that is the error.
fn location_reason(error: Error, found: Error, font: &[u8], index: u32) -> Option<Reason>
    ensures { result ≡ location_reason error found (record { bytes = font.now; index = index; extras = all_extras }) }
{
    match (error, found) {
        (Error::MalformedFont, Error::MalformedFont) => {
            wrong_location(font, index).or(Some(Reason::Unread(avar_tag())))
        }
        (Error::Unimplemented, Error::Unimplemented) => other_axes(font, index),
        _ => None,
    }
}

/// What is wrong with the location of a face, or with what is read there.
fn located_reason(
    alloc: Global,
    asked: &Asked<'_>,
    font: &[u8],
    mapper: &GlyphRemapper,
) -> Result<Option<Reason>, Error>
    ensures ok { IfOk result (λ r. r ≡ located_reason asked.now (face_in asked.now font.now) mapper.now (located (face_in asked.now font.now) asked.now.coordinates)) }
    ensures err { IfErr result (λ e. e ≡ OutOfMemory) }
{
    let index = asked.index;
    match locate(alloc, font, index, asked.coordinates) {
        Ok(at) => {
            if moves(font, index, &at) {
                return moved_by(alloc, asked, font, &at, mapper);
            }
            Ok(None)
        }
        Err(found) => {
            unless_memory(found)?;
            Ok(location_reason(asked.error, found, font, index))
        }
    }
}

/// What is wrong with what varies, where a call is at coordinates: of these glyphs.
///
/// # Errors
///
/// `OutOfMemory` alone.
pub fn varied_reason(
    alloc: Global,
    asked: &Asked<'_>,
    font: &[u8],
    mapper: &GlyphRemapper,
) -> Result<Option<Reason>, Error>
    ensures ok { IfOk result (λ r. r ≡ varied_reason asked.now (face_in asked.now font.now) mapper.now) }
    ensures err { IfErr result (λ e. e ≡ OutOfMemory) }
{
    if is_at(asked.call) && varies(font, asked.index) {
        return located_reason(alloc, asked, font, mapper);
    }
    Ok(None)
}
