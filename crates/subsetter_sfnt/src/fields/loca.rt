//! `loca`, the offsets of the outlines (OpenType, "loca").
//!
//! It has an offset into `glyf` for each glyph and one more for the end: four bytes each in the long format, or halves of
//! them in two bytes in the short one.

ghost use Rattle.std.specs.Prelude.{◌≡◌, ◌<◌, ◌^◌, ◌++◌, IfSome, IfErr, OnOk};
ghost use Rattle.subsetter_base.specs.declared.error.Error.TheVariants.{OutOfMemory};
ghost use Rattle.subsetter_sfnt.specs.Fields.Loca.{loca_offset, offset_bytes};

use subsetter_base::Error;
use subsetter_base::read::Reader;

/// How many bytes an entry has in the long format.
pub const OFFSET32_SIZE: usize = 4;
/// How many bytes it has in the short one.
pub const OFFSET16_SIZE: usize = 2;
/// The greatest offset of the long format.
pub const OFFSET32_MAX: usize = 0xffff_ffff;
/// The greatest offset of the short format, whose halves have 16 bits.
pub const OFFSET16_MAX: usize = 131_070;

/// An entry: an offset; the short format stores its half.
pub fn loca_offset(loca: &[u8], long: bool, index: usize) -> Option<usize>
    requires { index < 2 ^ 32 }
    ensures exact { result ≡ loca_offset loca.now long index }
    ensures small { IfSome result (λ n. n < 2 ^ 32) }
{
    if long {
        let offset = Reader::new_at(loca, OFFSET32_SIZE * index).read::<u32>()?;
        Some(offset as usize)
    } else {
        let half = Reader::new_at(loca, OFFSET16_SIZE * index).read::<u16>()?;
        Some(2 * half as usize)
    }
}

/// Appends the entry of an offset.
pub fn write_offset(loca: &mut Vec<u8>, long: bool, offset: usize) -> Result<(), Error>
    ensures ok { OnOk result (loca.new.items ≡ loca.old.items ++ offset_bytes long offset) }
    ensures err { IfErr result (λ e. e ≡ OutOfMemory) }
{
    if long {
        let [_, _, _, _, a, b, c, d] = (offset as u64).to_be_bytes();
        loca.extend_from_slice(&[a, b, c, d])?;
    } else {
        let [_, _, _, _, _, _, a, b] = ((offset / 2) as u64).to_be_bytes();
        loca.extend_from_slice(&[a, b])?;
    }
    Ok(())
}
