//! A simple glyph description, written.
//!
//! The bounding box is that of all points, control points among them. There is one flag for each point, without
//! REPEAT_FLAG (repeats would save 1.4 % of the outlines of the fonts that were measured). The first one has OVERLAP_SIMPLE,
//! as contours of a variable font may overlap anywhere. A delta takes its shortest encoding: nothing for 0, a byte below
//! 256 in size, else two bytes. There are no instructions.

ghost use Rattle.std.specs.Prelude.{◌≡◌, ◌++◌, IsTrue, OnOk, IfErr};
ghost use Rattle.subsetter_base.specs.declared.error.Error.TheVariants.{OutOfMemory};
ghost use Rattle.subsetter_points.specs.Bounds.{bounds_of};
ghost use Rattle.subsetter_points.specs.Simple.{parts_bytes, simple_bytes, parts_fit, fits};
ghost use Rattle.subsetter_points.specs.View.{contours_of};

use crate::bounds::{Bounds, bounds_of, write_bounds};
use crate::list_bytes::delta_bytes::write_deltas;
use crate::list_bytes::end_bytes::write_ends;
use crate::list_bytes::flag_bytes::write_flags;
use crate::outline::{Column, Outline, Point};
use subsetter_base::Error;

/// Writes points as a simple glyph description, by the last points of their contours and the box around them.
fn write_parts(
    out: &mut Vec<u8>,
    ends: &[u16],
    points: &[Point],
    bounds: Bounds,
) -> Result<(), Error>
    requires fit { IsTrue (parts_fit ends.now points.now) }
    requires bounds { bounds ≡ bounds_of points.now }
    ensures ok { OnOk result (out.new.items ≡ out.old.items ++ parts_bytes ends.now points.now) }
    ensures err { IfErr result (λ e. e ≡ OutOfMemory) }
{
    if points.is_empty() {
        return Ok(());
    }
    let contours = ends.len() as u16;
    out.extend_from_slice(&contours.to_be_bytes())?;
    write_bounds(out, bounds)?;
    write_ends(out, ends)?;
    out.extend_from_slice(&[0, 0])?;
    write_flags(out, points)?;
    write_deltas(out, Column::XCoordinates, points)?;
    write_deltas(out, Column::YCoordinates, points)?;
    Ok(())
}

/// Appends the simple glyph description of an outline that [`fits`](crate::fits) to bytes, by the box around its points; nothing where
/// it has no points.
#[tactic(auto, using(crate::proofs::WriteLemmas::bytes_of_parts, crate::proofs::WriteLemmas::fits_of_parts))]
pub fn write_bounded(out: &mut Vec<u8>, outline: &Outline, bounds: Bounds) -> Result<(), Error>
    requires fit { IsTrue (parts_fit outline.now.ends.items outline.now.points.items) }
    requires bounds { bounds ≡ bounds_of outline.now.points.items }
    ensures ok { OnOk result (out.new.items ≡ out.old.items ++ simple_bytes (contours_of outline.now)) }
    // An outline that fits is read from these bytes.
    ensures fits { IsTrue (fits (contours_of outline.now)) }
    ensures err { IfErr result (λ e. e ≡ OutOfMemory) }
{
    write_parts(out, &outline.ends, &outline.points, bounds)
}

/// Appends the simple glyph description of an outline that [`fits`](crate::fits) to bytes; nothing where it has no points.
pub fn write_simple(out: &mut Vec<u8>, outline: &Outline) -> Result<(), Error>
    requires { IsTrue (parts_fit outline.now.ends.items outline.now.points.items) }
    ensures ok { OnOk result (out.new.items ≡ out.old.items ++ simple_bytes (contours_of outline.now)) }
    // An outline that fits is read from these bytes.
    ensures fits { IsTrue (fits (contours_of outline.now)) }
    ensures err { IfErr result (λ e. e ≡ OutOfMemory) }
{
    write_bounded(out, outline, bounds_of(&outline.points))
}
