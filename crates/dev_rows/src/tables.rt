//! Quotients, `fvar` and `avar`, regions, packed numbers, and `HVAR`.

use crate::answer::{Answer, list, one};
use crate::failure::Failure;
use crate::words::{number, numbers, settings};
use std::alloc::Global;
use subsetter_variation::items::advances::advance_delta;
use subsetter_variation::locations::{axes, coordinates};
use subsetter_variation::packing::packed;
use subsetter_variation::region::{RegionAxis, scalar};
use subsetter_variation::rounding::nearest;

/// The nearest whole number to a quotient.
pub fn quotient(alloc: Global, dividend: &str, divisor: &str) -> Result<Answer, Failure> {
    let divisor: u32 = number(divisor)?;
    if divisor == 0 {
        return Err(Failure::Row);
    }
    let dividend: i32 = number(dividend)?;
    one(alloc, nearest(i64::from(dividend), u64::from(divisor)))
}

/// How many these are.
fn count_of(number: usize) -> Result<i64, Failure> {
    i64::try_from(number).ok().ok_or(Failure::Row)
}

/// How many axes `fvar` has.
pub fn axis_count(alloc: Global, fvar: &[u8]) -> Result<Answer, Failure> {
    match axes::axes(alloc, fvar) {
        Ok(axes) => one(alloc, count_of(axes.len())?),
        Err(error) => Ok(Answer::Refused(error)),
    }
}

/// The normalized coordinates of settings.
pub fn normalized_settings(
    alloc: Global,
    fvar: &[u8],
    avar: Option<&[u8]>,
    words: &str,
) -> Result<Answer, Failure> {
    let settings = settings(alloc, words)?;
    match coordinates::coordinates(alloc, fvar, avar, &settings) {
        Ok(at) => {
            let at = list(alloc, &at)?;
            Ok(Answer::Lists(Vec::from_array(alloc, [at])?))
        }
        Err(error) => Ok(Answer::Refused(error)),
    }
}

/// A region on one axis: its start, its peak and its end.
fn axis_of(alloc: Global, word: &str) -> Result<RegionAxis, Failure> {
    let ends: Vec<i16> = numbers(alloc, word)?;
    let [start, peak, end] = *ends.as_slice() else {
        return Err(Failure::Row);
    };
    Ok(RegionAxis { start, peak, end })
}

/// A region, with a semicolon between axes.
fn region_of(alloc: Global, words: &str) -> Result<Vec<RegionAxis>, Failure> {
    let mut region = Vec::new(alloc);
    for word in words.split(';') {
        region.push(axis_of(alloc, word)?)?;
    }
    Ok(region)
}

/// The scalar of a region at coordinates, in parts of 2^30.
pub fn region_scalar(alloc: Global, words: &str, at: &str) -> Result<Answer, Failure> {
    let region = region_of(alloc, words)?;
    let at: Vec<i32> = numbers(alloc, at)?;
    if region.len() != at.len() {
        return Err(Failure::Row);
    }
    one(alloc, scalar(&region, &at))
}

/// A list, and how many bytes are after it.
fn list_and_rest(alloc: Global, list: Vec<i64>, rest: &[u8]) -> Result<Answer, Failure> {
    let count = Vec::from_array(alloc, [count_of(rest.len())?])?;
    Ok(Answer::Lists(Vec::from_array(alloc, [list, count])?))
}

/// Point numbers, none for all points.
pub fn listed(alloc: Global, numbers: &Option<Vec<u32>>) -> Result<Vec<i64>, Failure> {
    match numbers {
        Some(numbers) => list(alloc, numbers),
        None => Ok(Vec::new(alloc)),
    }
}

/// The points that deltas are given for, none for all, and how many bytes are after them.
pub fn point_numbers(alloc: Global, limit: &str, bytes: &[u8]) -> Result<Answer, Failure> {
    let limit = number(limit)?;
    let mut spare = Vec::new(alloc);
    match packed::point_numbers(alloc, &mut spare, limit, bytes) {
        Ok((numbers, rest)) => list_and_rest(alloc, listed(alloc, &numbers)?, rest),
        Err(error) => Ok(Answer::Refused(error)),
    }
}

/// `count` deltas, and how many bytes are after them.
pub fn deltas(alloc: Global, count: &str, bytes: &[u8]) -> Result<Answer, Failure> {
    match packed::deltas(Vec::new(alloc), number(count)?, bytes) {
        Ok((deltas, rest)) => list_and_rest(alloc, list(alloc, &deltas)?, rest),
        Err(error) => Ok(Answer::Refused(error)),
    }
}

/// What `HVAR` adds to the advance of a glyph.
pub fn advance(alloc: Global, hvar: &[u8], at: &str, glyph: &str) -> Result<Answer, Failure> {
    let at: Vec<i32> = numbers(alloc, at)?;
    match advance_delta(hvar, &at, number(glyph)?) {
        Ok(delta) => one(alloc, delta),
        Err(error) => Ok(Answer::Refused(error)),
    }
}
