//! The points of a glyph, moved by its tuples one after the other (OpenType, "gvar"), in a number of steps.
//!
//! It takes a step for each tuple, and one for each point (phantom points too) of a tuple whose scalar isn't 0, before
//! what it is for is read. Where the steps end the answer is `OverflowError`. They decide whether points move and not
//! where to (`laws::is_same_at_any_steps`). The axes of a region aren't counted: a tuple costs its axes besides, so
//! that whoever opens the font should bound their number. The phantom points are handed over at 0: each is a contour of
//! its own, and what moves it doesn't depend on its position (`laws::is_free_of_position`).

ghost use Rattle.std.specs.Prelude.{◌≡◌, ◌+◌, ◌<◌, ◌≤◌, ◌^◌, ℕ, None, Ok, IfOk, IfSome, length, unsigned_abs, All};
ghost use Rattle.std.specs.Option.{ok_or, option_map};
ghost use Rattle.subsetter_base.specs.Gives.{Gives};
ghost use Rattle.subsetter_base.specs.declared.error.Error.TheVariants.{MalformedFont};
ghost use Rattle.subsetter_variation.specs.Glyphs.Movement.{AreWithin, IsOutline, IsWithin, spent, moved_by, counted_walk, next_walk, walk_all, start, moved_in_bytes, moved_points};
ghost use Rattle.subsetter_variation.specs.Glyphs.SharedScalars.{AreSharedScalars};
ghost use Rattle.subsetter_variation.specs.Glyphs.Tuples.{both_deltas, count_of};

use crate::glyphs::inference::Point;
use crate::glyphs::spare::{SpareLists, keep_numbers};
use crate::glyphs::tuples::{
    Gvar, TupleHeader, TupleHeaders, both_deltas, count_of, listed_scalar, next_header, scalar_by,
    shared_numbers, tuple_headers,
};
use crate::glyphs::varied::{added, added_to_each, in_units};
use crate::packing::packed::point_numbers;
use std::alloc::{AllocError, Global};
use std::marker::Model;
use subsetter_base::Error;

/// The default outline of a glyph: the coordinates of its points, the phantom points last, and for each contour the number of its
/// last point. Each phantom point, and each component of a composite glyph, is a contour of its own.
#[derive(Drop)]
pub struct Outline<'a> {
    pub xs: &'a [i16],
    pub ys: &'a [i16],
    pub ends: &'a [usize],
}

impl<'a> Model for Outline<'a> {
    ghost use Rattle.subsetter_variation.specs.Glyphs.Movement.{Outline};

    ghost Value = { Outline };

    ghost view = { λ o. record { xs = o.xs.now; ys = o.ys.now; ends = o.ends.now } };
}

/// Points under way: their coordinates in parts of 2^30, the steps that are left, and the tuples that are left.
#[derive(Drop)]
struct Walk<'a> {
    xs: Vec<i64>,
    ys: Vec<i64>,
    steps: u32,
    headers: TupleHeaders<'a>,
}

impl<'a> Model for Walk<'a> {
    ghost use Rattle.subsetter_variation.specs.Glyphs.Movement.{Walk};

    ghost Value = { Walk };

    ghost view = { λ w. record { xs = w.xs.items; ys = w.ys.items; steps = w.steps; headers = w.headers } };
}

impl<'a> Outline<'a> {
    /// How many points it has.
    fn count(&self) -> usize
        ensures { result ≡ length self.now.xs }
    {
        self.xs.len()
    }
}

impl<'a> Walk<'a> {
    /// The steps that are left.
    fn steps(&self) -> u32
        ensures { result ≡ self.now.steps }
    {
        self.steps
    }

    /// How many tuples are left.
    fn left(&self) -> u16
        ensures { result ≡ self.now.headers.left }
    {
        self.headers.left()
    }
}

/// The steps that are left after `n`. Where there aren't as many it is `OverflowError`.
pub fn spent(n: usize, steps: u32) -> Result<u32, Error>
    ensures { result ≡ spent n steps }
{
    if n <= steps as usize {
        Ok(steps - n as u32)
    } else {
        Err(Error::OverflowError)
    }
}

/// The points moved by one tuple, and these steps left.
fn moved_by<'a>(
    alloc: Global,
    spare: &mut Vec<Point>,
    o: &Outline<'_>,
    scalar: i64,
    numbers: &Option<Vec<u32>>,
    dx: &[i16],
    dy: &[i16],
    left: u32,
    w: Walk<'a>,
) -> Result<Walk<'a>, AllocError>
    requires outline { IsOutline o.now }
    requires scalar { unsigned_abs scalar ≤ 2 ^ 30 }
    requires room { IsWithin (2 ^ 62) o.now w }
    ensures value { IfOk result (λ v. v ≡ moved_by o.now scalar (option_map (λ x. x.items) numbers.now) dx.now dy.now left w.entry) }
    ensures bound { (b : ℕ) → IsWithin b o.now w.entry → IfOk result (λ v. IsWithin (b + 2 ^ 45) o.now v) }
{
    let Walk {
        xs,
        ys,
        headers,
        ..
    } = w;
    let xs = added(alloc, spare, o.xs, o.ends, numbers, dx, scalar, xs)?;
    let ys = added(alloc, spare, o.ys, o.ends, numbers, dy, scalar, ys)?;
    Ok(Walk {
        xs,
        ys,
        steps: left,
        headers,
    })
}

/// The points moved by a tuple that gives each a delta, whose bytes these are, and these steps left, unless the deltas are cut.
#[tactic(auto, unfolding(crate::specs::Glyphs::Tuples::both_deltas))]
fn moved_by_each<'a>(
    o: &Outline<'_>,
    scalar: i64,
    bytes: &[u8],
    left: u32,
    w: Walk<'a>,
) -> Option<Walk<'a>>
    requires outline { IsOutline o.now }
    requires scalar { unsigned_abs scalar ≤ 2 ^ 30 }
    requires room { IsWithin (2 ^ 62) o.now w }
    ensures value { result ≡ option_map (λ d. moved_by o.now scalar None d.0 d.1 left w.entry) (both_deltas (length o.now.xs) bytes.now) }
    ensures bound { (b : ℕ) → IsWithin b o.now w.entry → IfSome result (λ v. IsWithin (b + 2 ^ 45) o.now v) }
{
    let Walk {
        xs,
        ys,
        headers,
        ..
    } = w;
    let (xs, rest) = added_to_each(o.xs, o.ends, bytes, scalar, xs)?;
    let (ys, _) = added_to_each(o.ys, o.ends, rest, scalar, ys)?;
    Some(Walk {
        xs,
        ys,
        steps: left,
        headers,
    })
}

/// The points moved by a tuple with these point numbers, none for all, and deltas, whose bytes these are, and these steps left.
fn moved_by_packed<'a>(
    alloc: Global,
    lists: &mut SpareLists,
    o: &Outline<'_>,
    scalar: i64,
    numbers: &Option<Vec<u32>>,
    bytes: &[u8],
    left: u32,
    w: Walk<'a>,
) -> Result<Walk<'a>, Error>
    requires outline { IsOutline o.now }
    requires scalar { unsigned_abs scalar ≤ 2 ^ 30 }
    requires room { IsWithin (2 ^ 62) o.now w }
    ensures value { Gives (λ v. v) result (ok_or (option_map (λ d. moved_by o.now scalar (option_map (λ x. x.items) numbers.now) d.0 d.1 left w.entry) (both_deltas (count_of (length o.now.xs) (option_map (λ x. x.items) numbers.now)) bytes.now)) MalformedFont) }
    ensures bound { (b : ℕ) → IsWithin b o.now w.entry → IfOk result (λ v. IsWithin (b + 2 ^ 45) o.now v) }
{
    match numbers {
        None => moved_by_each(o, scalar, bytes, left, w).ok_or(Error::MalformedFont),
        Some(_) => {
            let dx = lists.take_dx(alloc);
            let dy = lists.take_dy(alloc);
            let (dx, dy) = both_deltas(dx, dy, count_of(o.count() as u32, numbers), bytes)?;
            let points = &mut lists.points;
            let moved = moved_by(alloc, points, o, scalar, numbers, &dx, &dy, left, w)?;
            lists.dx = dx;
            lists.dy = dy;
            Ok(moved)
        }
    }
}

/// The points moved by a tuple that counts: a step for each point, and its deltas.
#[tactic(auto, unfolding(crate::specs::Glyphs::Movement::counted_walk, crate::specs::Glyphs::Tuples::tuple_of, crate::specs::Glyphs::Tuples::numbers_and_deltas))]
fn counted_walk<'a>(
    alloc: Global,
    lists: &mut SpareLists,
    o: &Outline<'_>,
    shared: &Option<Vec<u32>>,
    scalar: i64,
    h: TupleHeader<'_>,
    w: Walk<'a>,
) -> Result<Walk<'a>, Error>
    requires outline { IsOutline o.now }
    requires scalar { unsigned_abs scalar ≤ 2 ^ 30 }
    requires room { IsWithin (2 ^ 62) o.now w }
    ensures value { Gives (λ v. v) result (counted_walk o.now (option_map (λ x. x.items) shared.now) scalar h.entry w.entry) }
    ensures bound { (b : ℕ) → IsWithin b o.now w.entry → IfOk result (λ v. IsWithin (b + 2 ^ 45) o.now v) }
{
    let n = o.count();
    let left = spent(n, w.steps())?;
    if h.has_private_numbers() {
        let (numbers, rest) = point_numbers(alloc, &mut lists.numbers, n as u32, h.packed())?;
        let moved = moved_by_packed(alloc, lists, o, scalar, &numbers, rest, left, w);
        keep_numbers(&mut lists.numbers, numbers);
        moved
    } else {
        moved_by_packed(alloc, lists, o, scalar, shared, h.packed(), left, w)
    }
}

/// The points moved by the next tuple: a step, its header, its scalar, and its deltas unless that is 0.
#[tactic(auto, unfolding(crate::specs::Glyphs::Movement::next_walk))]
fn next_walk<'a>(
    alloc: Global,
    lists: &mut SpareLists,
    t: &Gvar<'a>,
    o: &Outline<'_>,
    shared: &Option<Vec<u32>>,
    at: &[i32],
    scalars: &[i64],
    w: Walk<'a>,
) -> Result<Walk<'a>, Error>
    requires outline { IsOutline o.now }
    requires axes { length at.now ≡ t.now.axis_count }
    requires scalars { AreSharedScalars t.now at.now scalars.now }
    requires room { IsWithin (2 ^ 62) o.now w }
    ensures value { Gives (λ v. v) result (next_walk t.now o.now (option_map (λ x. x.items) shared.now) at.now w.entry) }
    ensures bound { (b : ℕ) → IsWithin b o.now w.entry → IfOk result (λ v. IsWithin (b + 2 ^ 45) o.now v) }
{
    let Walk {
        xs,
        ys,
        steps,
        headers,
    } = w;
    let steps = spent(1, steps)?;
    let listed = listed_scalar(t, at, scalars, &headers);
    let (header, headers) = next_header(t, headers).ok_or(Error::MalformedFont)?;
    let w = Walk {
        xs,
        ys,
        steps,
        headers,
    };
    let s = scalar_by(listed, &header, at);
    if s == 0 {
        Ok(w)
    } else {
        counted_walk(alloc, lists, o, shared, s, header, w)
    }
}

/// The points moved by all tuples that are left.
#[tactic(auto, using(crate::proofs::GlyphsLaws::Walks::walk_step, crate::proofs::GlyphsLaws::Walks::walk_cut, crate::proofs::GlyphsLaws::Walks::walk_end))]
fn walk_all<'a>(
    alloc: Global,
    lists: &mut SpareLists,
    t: &Gvar<'a>,
    o: &Outline<'_>,
    shared: &Option<Vec<u32>>,
    at: &[i32],
    scalars: &[i64],
    w: Walk<'a>,
) -> Result<Walk<'a>, Error>
    requires outline { IsOutline o.now }
    requires axes { length at.now ≡ t.now.axis_count }
    requires scalars { AreSharedScalars t.now at.now scalars.now }
    requires start { IsWithin (2 ^ 45) o.now w }
    requires few { w.headers.left < 4096 }
    ensures value { Gives (λ v. v) result (walk_all t.now o.now (option_map (λ x. x.items) shared.now) at.now w.entry.headers.left w.entry) }
    ensures bound { IfOk result (λ v. IsWithin (2 ^ 57) o.now v) }
{
    let count = w.left();
    let mut w = w;
    for i in 0..count {
        w = next_walk(alloc, lists, t, o, shared, at, scalars, w)?;
    }
    Ok(w)
}

/// The points before the first tuple.
fn start<'a>(
    alloc: Global,
    lists: &mut SpareLists,
    o: &Outline<'_>,
    steps: u32,
    headers: TupleHeaders<'a>,
) -> Result<Walk<'a>, AllocError>
    requires { IsOutline o.now }
    ensures value { IfOk result (λ w. w ≡ start o.now steps headers.entry) }
    ensures bound { IfOk result (λ w. IsWithin (2 ^ 45) o.now w) }
{
    let xs = in_units(lists.take_xs(alloc), o.xs)?;
    let ys = in_units(lists.take_ys(alloc), o.ys)?;
    Ok(Walk {
        xs,
        ys,
        steps,
        headers,
    })
}

/// The points moved by all tuples of a glyph, whose bytes these are.
#[tactic(auto, unfolding(crate::specs::Glyphs::Movement::moved_in_bytes))]
fn moved_in_bytes<'a>(
    alloc: Global,
    lists: &mut SpareLists,
    t: &Gvar<'a>,
    o: &Outline<'_>,
    at: &[i32],
    steps: u32,
    bytes: &'a [u8],
) -> Result<(Vec<i64>, Vec<i64>, u32), Error>
    requires outline { IsOutline o.now }
    requires axes { length at.now ≡ t.now.axis_count }
    ensures value { Gives (λ r. (r.0.items, r.1.items, r.2)) result (moved_in_bytes t.now o.now at.now steps bytes.now) }
    ensures bound { IfOk result (λ r. AreWithin (2 ^ 57) o.now r.0.items r.1.items) }
{
    let n = o.count() as u32;
    let (is_shared, headers) = tuple_headers(bytes).ok_or(Error::MalformedFont)?;
    let (shared, headers) = shared_numbers(alloc, &mut lists.shared, n, is_shared, headers)?;
    let w = start(alloc, lists, o, steps, headers)?;
    let scalars = t.scalars_at(at);
    let Walk { xs, ys, steps, .. } = walk_all(alloc, lists, t, o, &shared, at, scalars, w)?;
    keep_numbers(&mut lists.shared, shared);
    Ok((xs, ys, steps))
}

/// Where the points of a glyph go at a location, x and y in parts of 2^30, and the steps that are left: 1 for each tuple, and 1 for
/// each point of one whose scalar isn't 0, each taken before what it is for is read. Where they end it is `OverflowError`; variations
/// that aren't there or are cut are `MalformedFont`.
#[tactic(auto, unfolding(crate::specs::Glyphs::Movement::moved_points))]
pub fn moved_points(
    alloc: Global,
    lists: &mut SpareLists,
    t: &Gvar<'_>,
    glyph: u16,
    o: &Outline<'_>,
    at: &[i32],
    steps: u32,
) -> Result<(Vec<i64>, Vec<i64>, u32), Error>
    requires outline { IsOutline o.now }
    requires axes { length at.now ≡ t.now.axis_count }
    ensures value { Gives (λ r. (r.0.items, r.1.items, r.2)) result (moved_points t.now glyph o.now at.now steps) }
    ensures bound { IfOk result (λ r. AreWithin (2 ^ 57) o.now r.0.items r.1.items) }
{
    let bytes = t.variations_of(glyph).ok_or(Error::MalformedFont)?;
    if bytes.is_empty() {
        let xs = in_units(lists.take_xs(alloc), o.xs)?;
        let ys = in_units(lists.take_ys(alloc), o.ys)?;
        return Ok((xs, ys, steps));
    }
    moved_in_bytes(alloc, lists, t, o, at, steps, bytes)
}
