//! `loca` of an instance (OpenType, "loca").
//!
//! As many entries have one offset as there are glyphs from one that was requested to the next, so they are written many at a time.

ghost use Rattle.std.specs.Prelude.{◌≡◌, ◌≤◌, ◌++◌, IfOk, IfErr, OnOk, length, replicate, if◌then◌else◌};
ghost use Rattle.subsetter_base.specs.declared.error.Error.TheVariants.{OutOfMemory};
ghost use Rattle.subsetter_instance.specs.Tables.Requested.{offsets_by};
ghost use Rattle.subsetter_sfnt.specs.Fields.Loca.{loca_bytes};

use std::alloc::Global;
use subsetter_base::Error;
use subsetter_sfnt::fields::loca::{OFFSET16_SIZE, OFFSET32_SIZE};

/// How many bytes are written at a time.
const ROW_SIZE: usize = 32;

/// How many bytes an entry has.
fn entry_size(long: bool) -> usize
    ensures { result ≡ (if long then 4 else 2) }
{
    if long { OFFSET32_SIZE } else { OFFSET16_SIZE }
}

/// Entries of one offset, as many as a row has.
fn row_of(long: bool, offset: usize) -> [u8; 32]
    ensures { result ≡ loca_bytes long (replicate (if long then 8 else 16) offset) }
{
    if long {
        let [_, _, _, _, a, b, c, d] = (offset as u64).to_be_bytes();
        [
            a, b, c, d, a, b, c, d, a, b, c, d, a, b, c, d, a, b, c, d, a, b, c, d, a, b, c, d, a,
            b, c, d,
        ]
    } else {
        let [_, _, _, _, _, _, a, b] = ((offset / 2) as u64).to_be_bytes();
        [
            a, b, a, b, a, b, a, b, a, b, a, b, a, b, a, b, a, b, a, b, a, b, a, b, a, b, a, b, a,
            b, a, b,
        ]
    }
}

/// Appends `count` entries of one offset.
fn write_run(loca: &mut Vec<u8>, long: bool, offset: usize, count: usize) -> Result<(), Error>
    requires { count ≤ 65536 }
    ensures ok { OnOk result (loca.new.items ≡ loca.old.items ++ loca_bytes long (replicate count offset)) }
    ensures err { IfErr result (λ e. e ≡ OutOfMemory) }
{
    let row = row_of(long, offset);
    let len = count * entry_size(long);
    for k in 0..len / ROW_SIZE {
        loca.extend_from_slice(&row)?;
    }
    loca.extend_from_slice(&row[..len % ROW_SIZE])?;
    Ok(())
}

/// `loca` of `count` glyphs, by where each requested one begins, and where the last one ends.
pub fn loca(
    alloc: Global,
    long: bool,
    count: u16,
    order: &[u16],
    starts: &[usize],
    end: usize,
) -> Result<Vec<u8>, Error>
    requires { length starts.now ≡ length order.now }
    ensures ok { IfOk result (λ v. v.items ≡ loca_bytes long (offsets_by count end 0 order.now starts.now)) }
    ensures err { IfErr result (λ e. e ≡ OutOfMemory) }
{
    let entries = usize::from(count) + 1;
    let mut loca = Vec::with_capacity(alloc, entries * entry_size(long))?;
    let mut next = 0;
    for k in 0..order.len() {
        let following = usize::from(order[k]) + 1;
        write_run(&mut loca, long, starts[k], following.saturating_sub(next))?;
        next = following;
    }
    write_run(&mut loca, long, end, entries.saturating_sub(next))?;
    Ok(loca)
}
