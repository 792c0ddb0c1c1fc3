//! What a glyph is at a location.

ghost use Rattle.std.specs.Prelude.{◌≡◌, ◌<◌, ◌≤◌, ◌^◌, ◌-ℤ◌, All, IfOk, IfSome, length, slice_index_or, unsigned_abs};
ghost use Rattle.std.specs.Option.{option_copied};
ghost use Rattle.subsetter_base.specs.Bytes.{has_flag};
ghost use Rattle.subsetter_base.specs.Gives.{Gives};
ghost use Rattle.subsetter_variation.specs.Items.Advances.{advance_delta};
ghost use Rattle.subsetter_variation.specs.Items.ItemVariations.{whole_or_fault};
ghost use Rattle.subsetter_instance.specs.Glyphs.Cache.{AreKept};
ghost use Rattle.subsetter_instance.specs.Source.{HasAxes};
ghost use Rattle.subsetter_instance.specs.Glyphs.Known.{AreKnown, IsKnown};
ghost use Rattle.subsetter_instance.specs.Glyphs.Drawn.{whole, word_or_fault, point_or_fault, points_or_fault, advance_or_fault, advance, drawn_if_fit, rounded, drawn};
ghost use Rattle.subsetter_instance.specs.Plain.{drawn_if, drawn_all};
ghost use Rattle.subsetter_instance.specs.Glyphs.Unfolded.{IsInReach, on_curve};

use crate::glyphs::cache::GlyphCache;
use crate::glyphs::spare::Spare;
use crate::glyphs::unfolding::{Unfolded, unfold};
use crate::source::Source;
use std::alloc::{AllocError, Global};
use std::marker::Model;
use subsetter_base::{Error, GlyphRemapper};
use subsetter_points::{Bounds, Outline, Point, bounds_of, fits};
use subsetter_sfnt::fields::hmtx::LongHorMetric;
use subsetter_variation::items::advances::{advance_delta, advance_deltas};

/// The unit of unfolded coordinates.
const UNIT: u64 = 1 << 30;
/// Half of it.
const HALF: i64 = 1 << 29;
/// As many units as make the sum with any coordinate greater than 0.
const ABOVE_UNITS: i64 = 1 << 31;
/// What is drawn of a glyph, in parts.
const ABOVE: i64 = 1 << 61;

/// What is drawn of a glyph: its outline, and its horizontal metric.
#[derive(Drop)]
pub struct Drawn {
    /// The points and the contours.
    pub outline: Outline,
    /// The advance width.
    pub advance: u16,
    /// The box around the points, at 0 where there are none. Its left side is the left side bearing.
    pub bounds: Bounds,
}

impl Model for Drawn {
    ghost use Rattle.std.specs.Prelude.{◌≡◌, IsTrue};
    ghost use Rattle.subsetter_points.specs.Bounds.{bounds_of};
    ghost use Rattle.subsetter_points.specs.Simple.{parts_fit};
    ghost use Rattle.subsetter_instance.specs.Glyphs.Drawn.{Drawn};

    ghost Value = { Drawn };

    ghost view = { λ d. record { ends = d.outline.ends.items; points = d.outline.points.items; advance = d.advance; bearing = d.bounds.x_min } };

    // The outline can be written, and the box is around its points.
    ghost invariant = { λ d. IsTrue (parts_fit d.outline.ends.items d.outline.points.items) × (d.bounds ≡ bounds_of d.outline.points.items) };
}

/// Parts of 2^30 as a whole number, halves up. What is divided is above 0, so that no sign has to be looked at.
#[tactic(auto, using(crate::proofs::GlyphsLaws::Wholes::whole_is))]
fn whole(value: i64) -> i64
    requires { unsigned_abs value ≤ 2 ^ 60 }
    ensures { result ≡ whole value }
{
    let above = (value + ABOVE + HALF).unsigned_abs();
    (above / UNIT) as i64 - ABOVE_UNITS
}

/// A number of 16 bits, `OverflowError` where it has more.
pub fn word_or_fault(value: i128) -> Result<i16, Error>
    ensures { result ≡ word_or_fault value }
{
    if value >= -32768 && value < 32768 {
        Ok(value as i16)
    } else {
        Err(Error::OverflowError)
    }
}

/// A coordinate of 16 bits, `OverflowError` where it has more.
fn coordinate_or_fault(value: i64) -> Result<i16, Error>
    ensures { result ≡ word_or_fault value }
{
    word_or_fault(i128::from(value))
}

/// How far a coordinate is from another.
fn distance(from: i64, to: i64) -> i64
    requires from { unsigned_abs from ≤ 2 ^ 58 }
    requires to { unsigned_abs to ≤ 2 ^ 58 }
    ensures value { result ≡ to -ℤ from }
    ensures bound { unsigned_abs result ≤ 2 ^ 59 }
{
    to - from
}

/// A point, of which x begins at the left phantom point. `OverflowError` where a coordinate has no 16 bits.
fn point_or_fault(left: i64, on_curve: bool, x: i64, y: i64) -> Result<Point, Error>
    requires left { unsigned_abs left ≤ 2 ^ 58 }
    requires x { unsigned_abs x ≤ 2 ^ 58 }
    requires y { unsigned_abs y ≤ 2 ^ 58 }
    ensures { result ≡ point_or_fault left on_curve x y }
{
    let across = coordinate_or_fault(whole(distance(left, x)))?;
    let up = coordinate_or_fault(whole(y))?;
    Ok(Point {
        x: across,
        y: up,
        on_curve,
    })
}

/// Whether a point is on the curve, by bit 0 of its flag.
fn is_on_curve(flag: u8) -> bool
    ensures { result ≡ has_flag flag 1 }
{
    flag & 1 != 0
}

/// The points of an unfolded glyph, by their flags.
#[tactic(auto, using(crate::proofs::GlyphsLaws::Points::no_front, crate::proofs::GlyphsLaws::Points::flags_end))]
fn points_or_fault(
    alloc: Global,
    left: i64,
    on: &[u8],
    xs: &[i64],
    ys: &[i64],
) -> Result<Vec<Point>, Error>
    requires left { unsigned_abs left ≤ 2 ^ 58 }
    requires many_xs { length xs.now ≡ length on.now }
    requires many_ys { length ys.now ≡ length on.now }
    requires xs { All (λ z. unsigned_abs z ≤ 2 ^ 45) xs.now }
    requires ys { All (λ z. unsigned_abs z ≤ 2 ^ 45) ys.now }
    ensures { Gives (λ v. v.items) result (points_or_fault left (on_curve on.now) xs.now ys.now) }
{
    let mut points = Vec::with_capacity(alloc, on.len())?;
    for i in 0..on.len() {
        points.push_reserved(point_or_fault(left, is_on_curve(on[i]), xs[i], ys[i])?);
    }
    Ok(points)
}

/// The advance of a width: 0 where it is under 0, and `OverflowError` where it has no 16 bits.
fn advance_or_fault(width: i128) -> Result<u16, Error>
    ensures { result ≡ advance_or_fault width }
{
    if width <= 0 {
        Ok(0)
    } else if width < 65536 {
        Ok(width as u16)
    } else {
        Err(Error::OverflowError)
    }
}

/// What the advance of a glyph varies by, which may be known.
fn varied_by(
    hvar: &[u8],
    at: &[i32],
    glyph: u16,
    known: Option<Result<i64, Error>>,
) -> Result<i64, Error>
    requires { IfSome known (λ d. d ≡ whole_or_fault (advance_delta hvar.now at.now glyph)) }
    ensures { result ≡ whole_or_fault (advance_delta hvar.now at.now glyph) }
{
    match known {
        Some(delta) => delta,
        None => advance_delta(hvar, at, glyph),
    }
}

/// The advance by `HVAR`, of which the delta may be known, or by the width between the phantom points where there is none.
fn advance_by(
    hvar: Option<&[u8]>,
    at: &[i32],
    glyph: u16,
    known: Option<Result<i64, Error>>,
    before: u16,
    width: i64,
) -> Result<u16, Error>
    requires width { unsigned_abs width ≤ 2 ^ 59 }
    requires known { IsKnown (option_copied hvar) at.now glyph known }
    ensures { result ≡ advance (option_copied hvar.entry) at.now glyph before width }
{
    match hvar {
        None => advance_or_fault(i128::from(whole(width))),
        Some(hvar) => {
            let delta = varied_by(hvar, at, glyph, known)?;
            advance_or_fault(i128::from(before) + i128::from(delta))
        }
    }
}

/// The advance by `HVAR`, or by the width between the phantom points where there is none.
pub fn advance(
    hvar: Option<&[u8]>,
    at: &[i32],
    glyph: u16,
    before: u16,
    width: i64,
) -> Result<u16, Error>
    requires { unsigned_abs width ≤ 2 ^ 59 }
    ensures { result ≡ advance (option_copied hvar.entry) at.now glyph before width }
{
    advance_by(hvar, at, glyph, None, before, width)
}

/// What is drawn, unless the outline can't be written, which is `OverflowError`.
#[tactic(auto, using(crate::proofs::GlyphsLaws::Bearings::bearing_is))]
fn drawn_if_fit(outline: Outline, advance: u16) -> Result<Drawn, Error>
    ensures { result ≡ drawn_if_fit outline.ends.items outline.points.items advance }
{
    if !fits(&outline) {
        return Err(Error::OverflowError);
    }
    let bounds = bounds_of(&outline.points);
    Ok(Drawn {
        outline,
        advance,
        bounds,
    })
}

/// What is drawn of an unfolded glyph: rounded, with its advance and its bearing.
#[tactic(auto, unfolding(crate::specs::Glyphs::Drawn::rounded), using(crate::proofs::GlyphsLaws::Reach::on_count))]
fn rounded(
    alloc: Global,
    spare: &mut Spare,
    source: &Source<'_>,
    at: &[i32],
    glyph: u16,
    known: Option<Result<i64, Error>>,
    metric: LongHorMetric,
    unfolded: Unfolded,
) -> Result<Drawn, Error>
    requires reach { IsInReach unfolded }
    requires known { IsKnown source.now.hvar at.now glyph known }
    ensures { Gives (λ d. d) result (rounded source.now at.now glyph metric unfolded) }
{
    let width = distance(unfolded.left, unfolded.right);
    let hvar = source.hvar();
    let advance = advance_by(hvar, at, glyph, known, metric.advance_width, width)?;
    let points = points_or_fault(
        alloc,
        unfolded.left,
        &unfolded.on,
        &unfolded.xs,
        &unfolded.ys,
    )?;
    let Unfolded {
        ends,
        on,
        xs,
        ys,
        ..
    } = unfolded;
    spare.keep(on, xs, ys);
    let outline = Outline { points, ends };
    drawn_if_fit(outline, advance)
}

/// What is drawn of a glyph at a location, within `steps` steps, and the glyphs that are kept.
#[tactic(auto, unfolding(crate::specs::Glyphs::Drawn::drawn))]
pub fn draw(
    alloc: Global,
    spare: &mut Spare,
    source: &Source<'_>,
    at: &[i32],
    steps: u32,
    glyph: u16,
    known: Option<Result<i64, Error>>,
    kept: GlyphCache,
) -> Result<(Drawn, GlyphCache), Error>
    requires axes { HasAxes source.now.gvar (length at.now) }
    requires known { IsKnown source.now.hvar at.now glyph known }
    requires kept { AreKept source.now at.now kept }
    ensures value { Gives (λ r. r.0) result (drawn source.now at.now steps glyph) }
    ensures kept { IfOk result (λ r. AreKept source.now at.now r.1) }
{
    let metric = source.metric(glyph).ok_or(Error::MalformedFont)?;
    let (unfolded, _, kept) = unfold(alloc, spare, source, at, steps, glyph, kept)?;
    let drawn = rounded(alloc, spare, source, at, glyph, known, metric, unfolded)?;
    Ok((drawn, kept))
}

/// What is drawn of a glyph that is requested, and the glyphs that are kept. `MalformedFont` where it is none of the font's.
fn drawn_if(
    alloc: Global,
    spare: &mut Spare,
    source: &Source<'_>,
    at: &[i32],
    steps: u32,
    glyph: u16,
    known: Option<Result<i64, Error>>,
    kept: GlyphCache,
) -> Result<(Drawn, GlyphCache), Error>
    requires axes { HasAxes source.now.gvar (length at.now) }
    requires known { IsKnown source.now.hvar at.now glyph known }
    requires kept { AreKept source.now at.now kept }
    ensures value { Gives (λ r. r.0) result (drawn_if source.now at.now steps glyph) }
    ensures kept { IfOk result (λ r. AreKept source.now at.now r.1) }
{
    if glyph < source.count() {
        draw(alloc, spare, source, at, steps, glyph, known, kept)
    } else {
        Err(Error::MalformedFont)
    }
}

/// What the advances of glyphs vary by; none without `HVAR`.
fn known_deltas(
    alloc: Global,
    hvar: Option<&[u8]>,
    at: &[i32],
    glyphs: &[u16],
) -> Result<Vec<Result<i64, Error>>, AllocError>
    ensures { IfOk result (λ v. AreKnown (option_copied hvar.entry) at.now glyphs.now v.items) }
{
    match hvar {
        Some(hvar) => advance_deltas(alloc, hvar, at, glyphs),
        None => Ok(Vec::new(alloc)),
    }
}

/// What the advance of a glyph of the list varies by, if that is known.
fn known_at(known: &[Result<i64, Error>], place: usize) -> Option<Result<i64, Error>>
    ensures { IfSome result (λ d. (place < length known.now) × (slice_index_or known.now place d ≡ d)) }
{
    if place < known.len() {
        Some(known[place])
    } else {
        None
    }
}

/// What is drawn of these glyphs, each in as many steps as each other, by what their advances vary by.
#[tactic(auto, using(crate::proofs::GlyphsLaws::Glyphs::glyphs_start, crate::proofs::GlyphsLaws::Glyphs::glyphs_end))]
fn draw_each(
    alloc: Global,
    source: &Source<'_>,
    at: &[i32],
    steps: u32,
    glyphs: &[u16],
    known: &[Result<i64, Error>],
) -> Result<Vec<Drawn>, Error>
    requires axes { HasAxes source.now.gvar (length at.now) }
    requires known { AreKnown source.now.hvar at.now glyphs.now known.now }
    ensures { Gives (λ v. v.items) result (drawn_all source.now at.now steps glyphs.now) }
{
    let mut all = Vec::with_capacity(alloc, glyphs.len())?;
    let mut kept = GlyphCache::new(alloc);
    let mut spare = Spare::new(alloc);
    for place in 0..glyphs.len() {
        let (drawn, others) = drawn_if(
            alloc,
            &mut spare,
            source,
            at,
            steps,
            glyphs[place],
            known_at(known, place),
            kept,
        )?;
        all.push(drawn)?;
        kept = others;
    }
    Ok(all)
}

/// What is drawn of the glyphs that are requested, each in as many steps as each other. What tuples and items have in common is
/// reckoned once.
pub fn draw_all(
    alloc: Global,
    source: &Source<'_>,
    at: &[i32],
    steps: u32,
    mapper: &GlyphRemapper,
) -> Result<Vec<Drawn>, Error>
    requires { HasAxes source.now.gvar (length at.now) }
    ensures { Gives (λ v. v.items) result (drawn_all source.now at.now steps mapper.now) }
{
    let glyphs: Vec<u16> = mapper.remapped_gids().collect(alloc)?;
    let known = known_deltas(alloc, source.hvar(), at, &glyphs)?;
    let scalars = source.shared_scalars(alloc, at)?;
    let located = source.located(at, &scalars);
    draw_each(alloc, &located, at, steps, &glyphs, &known)
}
