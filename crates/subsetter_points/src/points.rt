//! The points of a simple glyph.

ghost use Rattle.std.specs.Prelude.{◌≡◌, IfOk, IfErr, length};
ghost use Rattle.subsetter_base.specs.declared.error.Error.TheVariants.{OutOfMemory};
ghost use Rattle.subsetter_points.specs.Simple.{points};

use crate::lists::deltas::has;
use crate::outline::Point;
use std::alloc::Global;
use subsetter_base::Error;

/// The point is on the curve.
const ON_CURVE_POINT: u8 = 0x01;

/// A point from each flag and its coordinates.
pub fn join_points(alloc: Global, flags: &[u8], xs: &[i16], ys: &[i16]) -> Result<Vec<Point>, Error>
    requires as_many_xs { length xs.now ≡ length flags.now }
    requires as_many_ys { length ys.now ≡ length flags.now }
    ensures ok { IfOk result (λ v. v.items ≡ points flags.now xs.now ys.now) }
    ensures err { IfErr result (λ e. e ≡ OutOfMemory) }
{
    let mut points = Vec::with_capacity(alloc, flags.len())?;
    for i in 0..flags.len() {
        let point = Point {
            x: xs[i],
            y: ys[i],
            on_curve: has(flags[i], ON_CURVE_POINT),
        };
        points.push(point)?;
    }
    Ok(points)
}
