//! `loca`, the offsets of the outlines (OpenType, "loca").
//!
//! It has an offset into `glyf` for each glyph and one more for the end: four bytes each in the long format, or halves of
//! them in two bytes in the short one. The new table is written anew for the new `glyf`, in the short format where that can
//! say every offset.

ghost use Rattle.std.specs.Prelude.{◌≡◌, ◌<◌, ◌^◌, length, if◌then◌else◌, IfOk, IfErr};
ghost use Rattle.subsetter_base.specs.declared.error.Error.TheVariants.{OutOfMemory};
ghost use Rattle.subsetter.specs.Glyf.Written.{is_long, glyf_bytes, loca_bytes};

use crate::glyf::outlines::{OutlineList, outlines_len};
use std::alloc::Global;
use subsetter_base::Error;
use subsetter_sfnt::fields::loca::{OFFSET16_MAX, OFFSET16_SIZE, OFFSET32_SIZE, write_offset};

/// Whether the offsets need the long format: halves of them don't fit 16 bits.
pub fn is_long(outlines: &OutlineList<'_>) -> bool
    ensures { result ≡ is_long outlines.now.items }
{
    outlines_len(outlines, false) > OFFSET16_MAX
}

/// `loca`: where each outline begins, and where the last one ends.
pub fn subset(alloc: Global, outlines: &OutlineList<'_>, long: bool) -> Result<Vec<u8>, Error>
    requires { length (glyf_bytes long outlines.now.items) < (if long then 2 ^ 32 else 2 ^ 17) }
    ensures ok { IfOk result (λ v. v.items ≡ loca_bytes long 0 outlines.now.items) }
    ensures err { IfErr result (λ e. e ≡ OutOfMemory) }
{
    let entry = if long { OFFSET32_SIZE } else { OFFSET16_SIZE };
    let room = outlines.len().saturating_add(1).saturating_mul(entry);
    let mut loca = Vec::with_capacity(alloc, room)?;
    let mut offset: usize = 0;
    for outline in outlines.iter() {
        write_offset(&mut loca, long, offset)?;
        offset = offset.saturating_add(outline.padded_len(long));
    }
    write_offset(&mut loca, long, offset)?;
    Ok(loca)
}
