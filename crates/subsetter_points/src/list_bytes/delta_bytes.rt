//! The coordinates of points, written as deltas.

ghost use Rattle.std.specs.Prelude.{◌≡◌, ◌++◌, pos, IsTrue, OnOk, IfErr};
ghost use Rattle.subsetter_base.specs.declared.error.Error.TheVariants.{OutOfMemory};
ghost use Rattle.subsetter_points.specs.Simple.{column_of, delta_bytes, deltas_fit};

use crate::lists::deltas::{delta_between, write_delta};
use crate::outline::{Column, Point, coordinate_in};
use subsetter_base::Error;

/// Writes a column of coordinates.
#[inline]
pub fn write_deltas(out: &mut Vec<u8>, column: Column, points: &[Point]) -> Result<(), Error>
    requires { IsTrue (deltas_fit (pos 0) (column_of column points.now)) }
    ensures ok { OnOk result (out.new.items ≡ out.old.items ++ delta_bytes (pos 0) (column_of column points.now)) }
    ensures err { IfErr result (λ e. e ≡ OutOfMemory) }
{
    out.reserve(2 * points.len())?;
    let mut before = 0;
    for point in points {
        let coordinate = coordinate_in(column, *point);
        write_delta(out, delta_between(before, coordinate))?;
        before = coordinate;
    }
    Ok(())
}
