//! The headers of an instance (OpenType, "head", "hhea" and "maxp").

ghost use Rattle.std.specs.Prelude.{◌≡◌, ◌≤◌, IfOk, length};
ghost use Rattle.subsetter_instance.specs.Tables.Written.{head_bytes, hhea_bytes, most_points, most_contours, maxp_bytes};

use crate::glyphs::drawn::Drawn;
use crate::tables::extremes::{all_extents, box_bytes, extreme_bytes};
use std::alloc::{AllocError, Global};
use subsetter_sfnt::fields::head::write_head;
use subsetter_sfnt::fields::hhea::write_hhea;

/// `head`: without its checksum, with the box around what is drawn, and with the format of the new `loca`.
pub fn head(
    alloc: Global,
    source: &[u8],
    long: bool,
    drawn: &[Drawn],
) -> Result<Vec<u8>, AllocError>
    requires { 52 ≤ length source.now }
    ensures { IfOk result (λ v. v.items ≡ head_bytes long drawn.now source.now) }
{
    let mut head = Vec::with_capacity(alloc, source.len())?;
    write_head(&mut head, source, long, &box_bytes(all_extents(drawn)));
    Ok(head)
}

/// `hhea`: with the extremes of what is drawn, and a pair of `hmtx` for each glyph.
pub fn hhea(
    alloc: Global,
    source: &[u8],
    count: u16,
    drawn: &[Drawn],
) -> Result<Vec<u8>, AllocError>
    requires { 36 ≤ length source.now }
    ensures { IfOk result (λ v. v.items ≡ hhea_bytes count drawn.now source.now) }
{
    let mut hhea = Vec::with_capacity(alloc, source.len())?;
    write_hhea(&mut hhea, source, &extreme_bytes(drawn), count);
    Ok(hhea)
}

/// The most points of a glyph.
fn most_points(drawn: &[Drawn]) -> usize
    ensures { result ≡ most_points drawn.now }
{
    let mut most = 0;
    for glyph in drawn {
        most = most.max(glyph.point_count());
    }
    most
}

/// The most contours of a glyph.
fn most_contours(drawn: &[Drawn]) -> usize
    ensures { result ≡ most_contours drawn.now }
{
    let mut most = 0;
    for glyph in drawn {
        most = most.max(glyph.contour_count());
    }
    most
}

/// `maxp` of `count` glyphs, without instructions and components.
pub fn maxp(alloc: Global, count: u16, drawn: &[Drawn]) -> Result<Vec<u8>, AllocError>
    ensures { IfOk result (λ v. v.items ≡ maxp_bytes count drawn.now) }
{
    let mut maxp = Vec::with_capacity(alloc, 32)?;
    maxp.extend_from_slice(&[0, 1, 0, 0])?;
    maxp.extend_from_slice(&count.to_be_bytes())?;
    let [_, _, _, _, _, _, a, b] = (most_points(drawn) as u64).to_be_bytes();
    let [_, _, _, _, _, _, c, d] = (most_contours(drawn) as u64).to_be_bytes();
    maxp.extend_from_slice(&[a, b, c, d, 0, 0, 0, 0, 0, 1])?;
    maxp.extend_from_slice(&[0, 0, 0, 0, 0, 0, 0, 0, 0, 0, 0, 0, 0, 0, 0, 1])?;
    Ok(maxp)
}
