//! The tuples of a glyph, and its points moved by them.

ghost use Rattle.std.specs.Prelude.{◌≡◌, true, IfSome, length};
ghost use Rattle.subsetter_variation.specs.Glyphs.Varied.{AreEnds};

use crate::answer::{Answer, list};
use crate::failure::Failure;
use crate::tables::listed;
use crate::words::{number, numbers};
use std::alloc::Global;
use subsetter_base::Error;
use subsetter_variation::glyphs::movement::{Outline, moved_points};
use subsetter_variation::glyphs::spare::SpareLists;
use subsetter_variation::glyphs::tuples::{
    Gvar, TupleHeader, gvar_table, next_header, numbers_and_deltas, tuple_headers,
};

/// A tuple that is read: whether tuples share their point numbers, how many tuples there are, the first of them, and how
/// many are after it.
#[derive(Drop)]
struct FirstTuple<'a> {
    is_shared: bool,
    left: u16,
    header: TupleHeader<'a>,
    following: u16,
}

/// The first tuple of a glyph, by the bytes of its variations.
fn first_tuple<'a>(gvar: &Gvar<'a>, bytes: &'a [u8]) -> Option<FirstTuple<'a>>
    ensures { IfSome result (λ f. length f.header.region ≡ gvar.now.axis_count) }
{
    let (is_shared, headers) = tuple_headers(bytes)?;
    let left = headers.left();
    let (header, headers) = next_header(gvar, headers)?;
    let following = headers.left();
    Some(FirstTuple {
        is_shared,
        left,
        header,
        following,
    })
}

/// How far a tuple of a table of one axis counts at -1, 4096, 16384 and 16385, in parts of 2^30.
fn scalars_of(alloc: Global, header: &TupleHeader<'_>) -> Result<Vec<i64>, Failure>
    requires { length header.now.region ≡ 1 }
{
    let scalars = [
        header.scalar(&[-1]),
        header.scalar(&[4096]),
        header.scalar(&[16384]),
        header.scalar(&[16385]),
    ];
    Ok(Vec::from_array(alloc, scalars)?)
}

/// Whether point numbers are shared, how many tuples there are, whether the first has point numbers of its own, and how many are
/// after it.
fn counts_of(alloc: Global, tuple: &FirstTuple<'_>) -> Result<Vec<i64>, Failure> {
    let counts = [
        i64::from(tuple.is_shared),
        i64::from(tuple.left),
        i64::from(tuple.header.has_private_numbers()),
        i64::from(tuple.following),
    ];
    Ok(Vec::from_array(alloc, counts)?)
}

/// What a tuple of a glyph with `points` points holds.
fn tuple_of(alloc: Global, points: u32, tuple: &FirstTuple<'_>) -> Result<Answer, Failure>
    requires { length tuple.now.header.region ≡ 1 }
{
    match numbers_and_deltas(alloc, points, tuple.header.packed()) {
        Ok((numbers, xs, ys)) => {
            let counts = counts_of(alloc, tuple)?;
            let scalars = scalars_of(alloc, &tuple.header)?;
            let numbers = listed(alloc, &numbers)?;
            let xs = list(alloc, &xs)?;
            let ys = list(alloc, &ys)?;
            let lists = Vec::from_array(alloc, [counts, scalars, numbers, xs, ys])?;
            Ok(Answer::Lists(lists))
        }
        Err(error) => Ok(Answer::Refused(error)),
    }
}

/// The first tuple of a glyph with `points` points, in a table of one axis: whether point numbers are shared (1, else 0), how
/// many tuples there are, whether it has point numbers of its own, and how many tuples are after it; how far it counts at -1,
/// 4096, 16384 and 16385; its point numbers, none for all; its deltas.
pub fn tuple(alloc: Global, gvar: &[u8], glyph: &str, points: &str) -> Result<Answer, Failure> {
    let Some(table) = gvar_table(gvar) else {
        return Ok(Answer::Nothing);
    };
    if table.axis_count() != 1 {
        return Ok(Answer::Nothing);
    }
    let Some(bytes) = table.variations_of(number(glyph)?) else {
        return Ok(Answer::Nothing);
    };
    let Some(tuple) = first_tuple(&table, bytes) else {
        return Ok(Answer::Refused(Error::MalformedFont));
    };
    tuple_of(alloc, number(points)?, &tuple)
}

/// Whether `ends` are the last points of contours, the first of which begins at point `start`, in an outline of `points` points.
fn are_ends(start: usize, ends: &[usize], points: usize) -> bool
    ensures { result ≡ true → AreEnds start ends.now points }
{
    let [end, following @ ..] = ends else {
        return start == points;
    };
    start <= *end && *end < points && are_ends(*end + 1, following, points)
}

/// Where the points of an outline go at a location, within `steps` steps: the coordinates in parts of 2^30, and the steps that
/// are left. `Row` where the coordinates don't fit the table or each other.
fn points_moved(
    alloc: Global,
    table: &Gvar<'_>,
    glyph: u16,
    outline: &Outline<'_>,
    at: &[i32],
    steps: u32,
) -> Result<Answer, Failure> {
    let points = outline.xs.len();
    if table.axis_count() as usize != at.len()
        || outline.ys.len() != points
        || points as u64 >= 0x1_0000_0000
        || !are_ends(0, outline.ends, points)
    {
        return Err(Failure::Row);
    }
    let mut lists = SpareLists::new(alloc);
    match moved_points(alloc, &mut lists, table, glyph, outline, at, steps) {
        Ok((xs, ys, left)) => {
            let left = Vec::from_array(alloc, [i64::from(left)])?;
            Ok(Answer::Lists(Vec::from_array(alloc, [xs, ys, left])?))
        }
        Err(error) => Ok(Answer::Refused(error)),
    }
}

/// The words of a row of moved points after its `gvar`.
#[derive(Clone, Copy)]
pub struct Moved<'a> {
    pub glyph: &'a str,
    pub xs: &'a str,
    pub ys: &'a str,
    pub ends: &'a str,
    pub at: &'a str,
    pub steps: &'a str,
}

/// Where the points that words write go.
pub fn moved_by_words(alloc: Global, gvar: &[u8], words: &Moved<'_>) -> Result<Answer, Failure> {
    let Some(table) = gvar_table(gvar) else {
        return Ok(Answer::Nothing);
    };
    let xs: Vec<i16> = numbers(alloc, words.xs)?;
    let ys: Vec<i16> = numbers(alloc, words.ys)?;
    let ends: Vec<usize> = numbers(alloc, words.ends)?;
    let at: Vec<i32> = numbers(alloc, words.at)?;
    let outline = Outline {
        xs: &xs,
        ys: &ys,
        ends: &ends,
    };
    let (glyph, steps) = (number(words.glyph)?, number(words.steps)?);
    points_moved(alloc, &table, glyph, &outline, &at, steps)
}
