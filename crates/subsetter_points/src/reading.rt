//! A simple glyph description, read.
//!
//! A glyph whose numberOfContours is 0 has no points, and what follows the ten bytes of its header is not looked at, as
//! in FreeType, HarfBuzz and fontTools. Bytes after the last y coordinate are padding, as `loca` may count them to a
//! glyph. Bytes that are missing are a fault: no coordinate is made up. A flag that is repeated past the last point
//! makes the glyph unreadable. A coordinate has 16 bits, as each side of a glyph's bounding box has; a glyph whose
//! deltas pass beyond has no reading. The bounding box of the header is passed over.

ghost use Rattle.std.specs.Prelude.{◌≡◌, IfOk, IfErr, IfSome, IsTrue, length, vec_len};
ghost use Rattle.std.specs.Option.{option_map};
ghost use Rattle.subsetter_base.specs.declared.error.Error.TheVariants.{OutOfMemory};
ghost use Rattle.subsetter_points.specs.Simple.{points, points_at, body_at, parts_at, description_at, header_at, parts, simple, are_ends};
ghost use Rattle.subsetter_points.specs.View.{parts_of, parts_of_columns, contours_of};

use crate::header::HEADER_SIZE;
use crate::lists::coordinates::read_coordinates;
use crate::lists::deltas::{
    X_IS_SAME_OR_POSITIVE_X_SHORT_VECTOR, X_SHORT_VECTOR, Y_IS_SAME_OR_POSITIVE_Y_SHORT_VECTOR,
    Y_SHORT_VECTOR,
};
use crate::lists::ends::{count, read_ends};
use crate::lists::flags::read_flags;
use crate::lists::front::{read_after, read_word};
use crate::outline::{Columns, Outline};
use crate::points::join_points;
use std::alloc::Global;
use subsetter_base::Error;
use subsetter_base::read::Reader;

/// The most contours of a simple glyph: `numberOfContours` is an int16, and below 0 for a composite glyph.
const MOST_CONTOURS: u16 = 0x7FFF;

/// The flags, the x coordinates and the y coordinates of `count` points, in the memory of the spare lists.
#[tactic(auto, unfolding(crate::specs::Simple::points_at))]
fn read_points(
    spare_flags: Vec<u8>,
    spare_xs: Vec<i16>,
    spare_ys: Vec<i16>,
    count: usize,
    bytes: &[u8],
) -> Result<Option<(Vec<u8>, Vec<i16>, Vec<i16>)>, Error>
    ensures ok { IfOk result (λ o. option_map (λ p. points p.0.items p.1.items p.2.items) o ≡ points_at count bytes.now) }
    ensures xs { IfOk result (λ o. IfSome o (λ p. vec_len p.1 ≡ length p.0.items)) }
    ensures ys { IfOk result (λ o. IfSome o (λ p. vec_len p.2 ≡ length p.0.items)) }
    ensures err { IfErr result (λ e. e ≡ OutOfMemory) }
{
    let Some((flags, rest)) = read_flags(spare_flags, count, bytes)? else {
        return Ok(None);
    };
    let Some((xs, rest)) = read_coordinates(
        spare_xs,
        X_SHORT_VECTOR,
        X_IS_SAME_OR_POSITIVE_X_SHORT_VECTOR,
        &flags,
        rest,
    )?
    else {
        return Ok(None);
    };
    let Some((ys, _)) = read_coordinates(
        spare_ys,
        Y_SHORT_VECTOR,
        Y_IS_SAME_OR_POSITIVE_Y_SHORT_VECTOR,
        &flags,
        rest,
    )?
    else {
        return Ok(None);
    };
    Ok(Some((flags, xs, ys)))
}

/// The bytes after the instructions.
fn read_body(bytes: &[u8]) -> Option<&[u8]>
    ensures { option_map (λ p. p.now) result ≡ body_at bytes.now }
{
    let (size, rest) = read_word(bytes)?;
    read_after(rest, usize::from(size))
}

/// The last points of the contours, the instructions, which are passed over, and the points.
#[tactic(auto, unfolding(crate::specs::Simple::parts_at))]
fn read_parts(
    alloc: Global,
    spare: Columns,
    contours: u16,
    bytes: &[u8],
) -> Result<Option<Columns>, Error>
    ensures ok { IfOk result (λ o. option_map parts_of_columns o ≡ parts_at contours bytes.now) }
    ensures xs { IfOk result (λ o. IfSome o (λ c. length c.xs.items ≡ length c.flags.items)) }
    ensures ys { IfOk result (λ o. IfSome o (λ c. length c.ys.items ≡ length c.flags.items)) }
    ensures err { IfErr result (λ e. e ≡ OutOfMemory) }
{
    let Some((ends, rest)) = read_ends(alloc, contours, bytes)? else {
        return Ok(None);
    };
    let Some(body) = read_body(rest) else {
        return Ok(None);
    };
    let Columns { flags, xs, ys, .. } = spare;
    let Some((flags, xs, ys)) = read_points(flags, xs, ys, count(&ends), body)? else {
        return Ok(None);
    };
    Ok(Some(Columns {
        ends,
        flags,
        xs,
        ys,
    }))
}

/// The last points of contours and the points, by what follows the header; none where there are no contours.
#[tactic(auto, unfolding(crate::specs::Simple::points))]
fn read_description(
    alloc: Global,
    spare: Columns,
    contours: u16,
    bytes: &[u8],
) -> Result<Option<Columns>, Error>
    ensures ok { IfOk result (λ o. option_map parts_of_columns o ≡ description_at contours bytes.now) }
    ensures xs { IfOk result (λ o. IfSome o (λ c. length c.xs.items ≡ length c.flags.items)) }
    ensures ys { IfOk result (λ o. IfSome o (λ c. length c.ys.items ≡ length c.flags.items)) }
    ensures err { IfErr result (λ e. e ≡ OutOfMemory) }
{
    if contours == 0 {
        return Ok(Some(spare.emptied()));
    }
    read_parts(alloc, spare, contours, bytes)
}

/// The number of contours, if it isn't that of a composite glyph, and the bytes after the header.
fn read_header(bytes: &[u8]) -> Option<(u16, &[u8])>
    ensures { option_map (λ p. (p.0, p.1.now)) result ≡ header_at bytes.now }
{
    let contours = Reader::new(bytes).read::<u16>()?;
    let rest = read_after(bytes, HEADER_SIZE)?;
    if contours > MOST_CONTOURS {
        return None;
    }
    Some((contours, rest))
}

/// What [`read_simple`] reads, before the points are joined. Flags and coordinates use the memory of the spare columns, whose
/// contents don't count. Four more coordinates have room after those of the points.
pub fn read_columns(alloc: Global, spare: Columns, bytes: &[u8]) -> Result<Option<Columns>, Error>
    ensures parts { IfOk result (λ o. option_map parts_of_columns o ≡ parts bytes.now) }
    ensures xs { IfOk result (λ o. IfSome o (λ c. length c.xs.items ≡ length c.flags.items)) }
    ensures ys { IfOk result (λ o. IfSome o (λ c. length c.ys.items ≡ length c.flags.items)) }
    ensures sound { IfOk result (λ o. IfSome o (λ c. IsTrue (are_ends 0 c.ends.items (length c.flags.items)))) }
    ensures err { IfErr result (λ e. e ≡ OutOfMemory) }
{
    if bytes.is_empty() {
        return Ok(Some(spare.emptied()));
    }
    let Some((contours, rest)) = read_header(bytes) else {
        return Ok(None);
    };
    read_description(alloc, spare, contours, rest)
}

/// The outline of a simple glyph, if the bytes are its description. A glyph without bytes has an outline without points, and
/// so has one of no contours.
pub fn read_simple(alloc: Global, bytes: &[u8]) -> Result<Option<Outline>, Error>
    ensures ok { IfOk result (λ o. option_map contours_of o ≡ simple bytes.now) }
    // The same, as the points of all contours and the last point of each.
    ensures parts { IfOk result (λ o. option_map parts_of o ≡ parts bytes.now) }
    ensures sound { IfOk result (λ o. IfSome o (λ x. IsTrue (are_ends 0 x.ends.items (length x.points.items)))) }
    ensures err { IfErr result (λ e. e ≡ OutOfMemory) }
{
    let Some(columns) = read_columns(alloc, Columns::new(alloc), bytes)? else {
        return Ok(None);
    };
    let points = join_points(alloc, &columns.flags, &columns.xs, &columns.ys)?;
    let Columns { ends, .. } = columns;
    Ok(Some(Outline { points, ends }))
}
