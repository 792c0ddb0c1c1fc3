//! The flags of points, written.

ghost use Rattle.std.specs.Prelude.{◌≡◌, ◌≤◌, ◌<◌, ◌+◌, ◌++◌, pos, true, if◌then◌else◌, IsTrue, OnOk, IfErr};
ghost use Rattle.subsetter_base.specs.declared.error.Error.TheVariants.{OutOfMemory};
ghost use Rattle.subsetter_points.specs.Simple.{encoding_bits, shortest_encoding, flag_of, flag_bytes, deltas_fit, xs_of, ys_of};

use crate::lists::deltas::{
    X_IS_SAME_OR_POSITIVE_X_SHORT_VECTOR, X_SHORT_VECTOR, Y_IS_SAME_OR_POSITIVE_Y_SHORT_VECTOR,
    Y_SHORT_VECTOR, delta_between,
};
use crate::outline::Point;
use subsetter_base::Error;

/// Contours of the glyph may overlap.
const OVERLAP_SIMPLE: u8 = 0x40;

/// The bits of a flag that encode a delta the shortest way, by the bit for a short vector and the one for the same coordinate
/// or the sign. Each is chosen by itself, as deltas come in no order that a processor could guess.
#[inline]
fn encoding_bits(short: u8, same: u8, delta: i16) -> u8
    requires { short + same < 256 }
    ensures value { result ≡ encoding_bits short same (shortest_encoding delta) }
    ensures small { result ≤ short + same }
{
    let byte = if delta != 0 { short } else { 0 };
    let same_or_positive = if delta >= 0 { same } else { 0 };
    if delta > -256 && delta < 256 {
        byte + same_or_positive
    } else {
        0
    }
}

/// The bit of a flag that is set where contours may overlap.
fn overlap_bit(overlap: bool) -> u8
    ensures value { result ≡ (if overlap then 64 else 0) }
    ensures small { result ≤ 64 }
{
    if overlap { OVERLAP_SIMPLE } else { 0 }
}

/// The flag of a point, by whether contours may overlap, whether the point is on the curve, and its two deltas.
fn flag_of(overlap: bool, on_curve: bool, x: i16, y: i16) -> u8
    ensures { result ≡ flag_of overlap on_curve (shortest_encoding x) (shortest_encoding y) }
{
    overlap_bit(overlap)
        + u8::from(on_curve)
        + encoding_bits(X_SHORT_VECTOR, X_IS_SAME_OR_POSITIVE_X_SHORT_VECTOR, x)
        + encoding_bits(Y_SHORT_VECTOR, Y_IS_SAME_OR_POSITIVE_Y_SHORT_VECTOR, y)
}

/// Writes the flag of each point. The first one has OVERLAP_SIMPLE, as contours of a variable font overlap at some locations.
pub fn write_flags(out: &mut Vec<u8>, points: &[Point]) -> Result<(), Error>
    requires xs { IsTrue (deltas_fit (pos 0) (xs_of points.now)) }
    requires ys { IsTrue (deltas_fit (pos 0) (ys_of points.now)) }
    ensures ok { OnOk result (out.new.items ≡ out.old.items ++ flag_bytes true (pos 0) (pos 0) points.now) }
    ensures err { IfErr result (λ e. e ≡ OutOfMemory) }
{
    out.reserve(points.len())?;
    let mut overlap = true;
    let mut x = 0;
    let mut y = 0;
    for point in points {
        let by_x = delta_between(x, point.x);
        let by_y = delta_between(y, point.y);
        out.push_reserved(flag_of(overlap, point.on_curve, by_x, by_y));
        overlap = false;
        x = point.x;
        y = point.y;
    }
    Ok(())
}
