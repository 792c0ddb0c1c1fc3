//! What advance heights and the origins of `VORG` vary by off a font's default (OpenType, "VVAR").

ghost use Rattle.std.specs.Prelude.{◌≡◌, ◌≤◌, ◌^◌, ◌+ℤ◌, IfOk, pos, unsigned_abs};
ghost use Rattle.std.specs.Option.{option_map};
ghost use Rattle.std.specs.Result.{result_unwrap_or};
ghost use Rattle.pdf_glyphs.specs.HeightVariation.{AreDeltasBy, if_height, if_origin, known_at, variation_view};

use std::alloc::{AllocError, Global};
use subsetter_base::Error;
use subsetter_variation::items::advances::{advance_deltas, origin_deltas};

/// Where a font is off its default, and what its advance heights and the origins of `VORG` vary by.
#[derive(Clone, Copy)]
pub struct HeightVariation<'a> {
    /// The normalized coordinates, in 16384ths.
    pub at: &'a [i32],
    /// The table `VVAR`.
    pub vvar: &'a [u8],
}

/// What the advance heights of glyphs vary by, and the ys of their origins in `VORG`, in whole units: of each glyph one.
#[derive(Drop)]
pub struct Deltas {
    pub heights: Vec<Result<i64, Error>>,
    pub origins: Vec<Result<i64, Error>>,
}

/// What glyphs vary by, reckoned for all of them at once; none without a variation.
pub fn deltas_of(
    alloc: Global,
    variation: Option<HeightVariation<'_>>,
    glyphs: &[u16],
) -> Result<Deltas, AllocError>
    ensures { IfOk result (λ d. AreDeltasBy (option_map variation_view variation.entry) glyphs.now d) }
{
    let Some(variation) = variation else {
        return Ok(Deltas {
            heights: Vec::new(alloc),
            origins: Vec::new(alloc),
        });
    };
    let heights = advance_deltas(alloc, variation.vvar, variation.at, glyphs)?;
    let origins = origin_deltas(alloc, variation.vvar, variation.at, glyphs)?;
    Ok(Deltas { heights, origins })
}

/// The delta at a place of a list; past its end nothing is there to be read.
pub fn known_at(known: &[Result<i64, Error>], place: usize) -> Result<i64, Error>
    ensures { result ≡ known_at known.now place }
{
    known
        .get(place)
        .copied()
        .unwrap_or(Err(Error::MalformedFont))
}

/// Whole units; 0 where nothing is there to be read.
fn if_read(delta: Result<i64, Error>) -> i64
    ensures { result ≡ result_unwrap_or delta (pos 0) }
{
    match delta {
        Ok(delta) => delta,
        Err(_) => 0,
    }
}

/// A sum as an advance: at least 0; past 16 bits the advance stays.
fn if_height(sum: i128, advance: u16) -> u16
    ensures { result ≡ if_height sum advance }
{
    if sum <= 0 {
        return 0;
    }
    if sum < 65536 {
        return sum as u16;
    }
    advance
}

/// An advance height with what it varies by.
pub fn varied_height(delta: Result<i64, Error>, advance: u16) -> u16
    ensures { result ≡ if_height (pos advance +ℤ result_unwrap_or delta (pos 0)) advance }
{
    let by = if_read(delta);
    if_height(i128::from(advance) + i128::from(by), advance)
}

/// A sum as the y of an origin; past 16 bits the y stays.
fn if_origin(sum: i128, y: i16) -> i16
    ensures { result ≡ if_origin sum y }
{
    if -32768 <= sum && sum < 32768 {
        return sum as i16;
    }
    y
}

/// The y of an origin in `VORG` with what it varies by.
pub fn varied_origin(delta: Result<i64, Error>, y: i16) -> i16
    ensures { result ≡ if_origin (y +ℤ result_unwrap_or delta (pos 0)) y }
{
    let by = if_read(delta);
    if_origin(i128::from(y) + i128::from(by), y)
}
