//! Simple outlines, read and written.

use crate::answer::{Answer, list, one};
use crate::failure::Failure;
use crate::words::numbers;
use std::alloc::Global;
use subsetter_base::Error;
use subsetter_points::{Outline, Point, fits, read_simple, write_simple};

/// The points of an outline: the numbers from left to right, from below to above, and 1 for each on the curve, then the
/// last points of its contours.
fn answer_of(alloc: Global, outline: &Outline) -> Result<Answer, Failure> {
    let points = outline.points.as_slice();
    let xs: Vec<i64> = points.iter().map(|p| i64::from(p.x)).collect(alloc)?;
    let ys: Vec<i64> = points.iter().map(|p| i64::from(p.y)).collect(alloc)?;
    let on_curve: Vec<i64> = points.iter().map(|p| i64::from(p.on_curve)).collect(alloc)?;
    let ends = list(alloc, &outline.ends)?;
    let lists = Vec::from_array(alloc, [xs, ys, on_curve, ends])?;
    Ok(Answer::Lists(lists))
}

/// The points of a simple glyph description.
pub fn read(alloc: Global, description: &[u8]) -> Result<Answer, Failure> {
    match read_simple(alloc, description) {
        Ok(Some(outline)) => answer_of(alloc, &outline),
        Ok(None) => Ok(Answer::Nothing),
        Err(error) => Ok(Answer::Refused(error)),
    }
}

/// The bytes that a simple glyph description is written as when it was read.
fn bytes_again(alloc: Global, description: &[u8]) -> Result<Answer, Error> {
    let Some(outline) = read_simple(alloc, description)? else {
        return Ok(Answer::Nothing);
    };
    if !fits(&outline) {
        return Ok(Answer::Nothing);
    }
    let mut bytes = Vec::new(alloc);
    write_simple(&mut bytes, &outline)?;
    Ok(Answer::Bytes(bytes))
}

/// The bytes of `bytes_again` as an answer.
pub fn read_and_written(alloc: Global, description: &[u8]) -> Answer {
    match bytes_again(alloc, description) {
        Ok(answer) => answer,
        Err(error) => Answer::Refused(error),
    }
}

/// Whether an outline of points on the curve can be written: 1, else 0.
pub fn is_fit(alloc: Global, xs: &str, ys: &str, ends: &str) -> Result<Answer, Failure> {
    let ys: Vec<i16> = numbers(alloc, ys)?;
    let xs: Vec<i16> = numbers(alloc, xs)?;
    let ends = numbers(alloc, ends)?;
    let mut points = Vec::new(alloc);
    for (x, y) in xs.iter().zip(&ys) {
        let (x, y, on_curve) = (*x, *y, true);
        points.push(Point { x, y, on_curve })?;
    }
    one(alloc, i64::from(fits(&Outline { points, ends })))
}
