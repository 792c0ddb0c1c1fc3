//! Own glyphs as outlines: their boxes and their components (OpenType, "glyf").

ghost use Rattle.std.specs.Prelude.{◌≡◌, ◌≤◌, ◌++◌, length, IfErr, OnOk};
ghost use Rattle.std.specs.List.{flat_map};
ghost use Rattle.subsetter_base.specs.Gives.{Gives};
ghost use Rattle.subsetter_base.specs.declared.error.Error.TheVariants.{OutOfMemory};
ghost use Rattle.subsetter.specs.Glyf.Parts.{parts_bytes, spelled};
ghost use Rattle.own_glyphs.specs.Composite.{both, box_in, box_or_zero, component_of, components, header_box, joined, moved, moved_box, own_box, own_boxes, own_parts, part_box};
ghost use Rattle.own_glyphs.specs.View.{seen};

use crate::glyph::{OwnGlyph, Part};
use crate::source::Source;
use std::alloc::Global;
use subsetter_base::Error;
use subsetter_base::compare::{larger, smaller};
use subsetter_base::read::signed_at;
use subsetter_points::component::{ARG_1_AND_2_ARE_WORDS, ARGS_ARE_XY_VALUES, MORE_COMPONENTS};
use subsetter_points::{Bounds, bounds_bytes};

/// How many bytes the header of an outline has: numberOfContours, xMin, yMin, xMax and yMax, two each.
const HEADER_SIZE: usize = 10;

/// A side of a box, moved. `OverflowError` where it hasn't 16 bits.
fn moved(side: i16, by: i16) -> Result<i16, Error>
    ensures { result ≡ moved side by }
{
    let sum = i32::from(side) + i32::from(by);
    if sum >= -32768 && sum < 32768 {
        Ok(sum as i16)
    } else {
        Err(Error::OverflowError)
    }
}

/// The box of a part, if its glyph has one.
fn moved_box(bounds: Option<Bounds>, part: Part) -> Result<Option<Bounds>, Error>
    ensures { result ≡ moved_box bounds part }
{
    let Some(b) = bounds else {
        return Ok(None);
    };
    let x_min = moved(b.x_min, part.x)?;
    let y_min = moved(b.y_min, part.y)?;
    let x_max = moved(b.x_max, part.x)?;
    let y_max = moved(b.y_max, part.y)?;
    Ok(Some(Bounds {
        x_min,
        y_min,
        x_max,
        y_max,
    }))
}

/// The box in the header of an outline.
fn header_box(outline: &[u8]) -> Bounds
    requires { 10 ≤ length outline.now }
    ensures { result ≡ header_box outline.now }
{
    Bounds {
        x_min: signed_at(outline, 2),
        y_min: signed_at(outline, 4),
        x_max: signed_at(outline, 6),
        y_max: signed_at(outline, 8),
    }
}

/// The box of an outline, unless its header is cut: none of an empty outline.
fn box_in(outline: &[u8]) -> Option<Option<Bounds>>
    ensures { result ≡ box_in outline.now }
{
    if outline.is_empty() {
        return Some(None);
    }
    if outline.len() < HEADER_SIZE {
        return None;
    }
    Some(Some(header_box(outline)))
}

/// The box of a part. `MalformedFont` where the font has no such glyph, or its outline is cut.
#[tactic(auto, unfolding(crate::specs::Composite::part_box))]
fn part_box(source: &Source<'_>, part: Part) -> Result<Option<Bounds>, Error>
    ensures { result ≡ part_box (seen source.now) part }
{
    let outline = source.outline(part.glyph).ok_or(Error::MalformedFont)?;
    let found = box_in(outline).ok_or(Error::MalformedFont)?;
    moved_box(found, part)
}

/// The least box around two.
fn both(a: Bounds, b: Bounds) -> Bounds
    ensures { result ≡ both a b }
{
    Bounds {
        x_min: smaller(a.x_min, b.x_min),
        y_min: smaller(a.y_min, b.y_min),
        x_max: larger(a.x_max, b.x_max),
        y_max: larger(a.y_max, b.y_max),
    }
}

/// The least box around boxes, and one more.
fn joined(before: Option<Bounds>, more: Option<Bounds>) -> Option<Bounds>
    ensures { result ≡ joined before more }
{
    match before {
        None => more,
        Some(a) => match more {
            None => Some(a),
            Some(b) => Some(both(a, b)),
        },
    }
}

/// A box, at 0 where there is none.
fn box_or_zero(bounds: Option<Bounds>) -> Bounds
    ensures { result ≡ box_or_zero bounds }
{
    match bounds {
        Some(bounds) => bounds,
        None => Bounds {
            x_min: 0,
            y_min: 0,
            x_max: 0,
            y_max: 0,
        },
    }
}

/// The least box around parts.
#[tactic(auto, unfolding(crate::specs::Composite::own_box))]
fn own_box(source: &Source<'_>, parts: &[Part]) -> Result<Bounds, Error>
    ensures { result ≡ own_box (seen source.now) parts.now }
{
    let mut all = None;
    for part in parts {
        let bounds = part_box(source, *part)?;
        all = joined(all, bounds);
    }
    Ok(box_or_zero(all))
}

/// The boxes of own glyphs. `MalformedFont` where a part isn't a glyph of the font, or its outline is cut; `OverflowError` where a side of its
/// box hasn't 16 bits.
pub fn own_boxes(
    alloc: Global,
    source: &Source<'_>,
    own: &[OwnGlyph<'_>],
) -> Result<Vec<Bounds>, Error>
    ensures { Gives (λ v. v.items) result (own_boxes (seen source.now) own.now) }
{
    let mut boxes = Vec::with_capacity(alloc, own.len())?;
    for glyph in own {
        let bounds = own_box(source, glyph.parts)?;
        boxes.push(bounds)?;
    }
    Ok(boxes)
}

/// Appends a part as a component.
fn write_component(out: &mut Vec<u8>, part: Part, more: bool) -> Result<(), Error>
    ensures ok { OnOk result (out.new.items ≡ out.old.items ++ spelled (component_of more part)) }
    ensures err { IfErr result (λ e. e ≡ OutOfMemory) }
{
    let flags = if more {
        ARG_1_AND_2_ARE_WORDS | ARGS_ARE_XY_VALUES | MORE_COMPONENTS
    } else {
        ARG_1_AND_2_ARE_WORDS | ARGS_ARE_XY_VALUES
    };
    let [a, b] = flags.to_be_bytes();
    let [c, d] = part.glyph.to_be_bytes();
    let [e, f] = part.x.to_be_bytes();
    let [g, h] = part.y.to_be_bytes();
    out.extend_from_slice(&[a, b, c, d, e, f, g, h])?;
    Ok(())
}

/// Appends parts as components.
fn write_components(out: &mut Vec<u8>, parts: &[Part]) -> Result<(), Error>
    ensures ok { OnOk result (out.new.items ≡ out.old.items ++ flat_map spelled (components parts.now)) }
    ensures err { IfErr result (λ e. e ≡ OutOfMemory) }
{
    let mut left = parts.len();
    for part in parts {
        left -= 1;
        write_component(out, *part, left > 0)?;
    }
    Ok(())
}

/// Appends the outline of parts in a box: nothing without parts.
pub fn write_outline(out: &mut Vec<u8>, parts: &[Part], bounds: Bounds) -> Result<(), Error>
    ensures ok { OnOk result (out.new.items ≡ out.old.items ++ parts_bytes (own_parts parts.now bounds)) }
    ensures err { IfErr result (λ e. e ≡ OutOfMemory) }
{
    if parts.is_empty() {
        return Ok(());
    }
    out.extend_from_slice(&[0xFF, 0xFF])?;
    out.extend_from_slice(&bounds_bytes(bounds))?;
    write_components(out, parts)
}
