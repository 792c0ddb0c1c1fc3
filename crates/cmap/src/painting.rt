//! Tables of format 12 in any order: each group in turn gives its glyphs to those of its characters that no group before
//! it has.

ghost use Rattle.std.specs.Prelude.{◌≡◌, ◌+◌, ◌-◌, ◌*◌, ◌<◌, ◌≤◌, ◌^◌, ℕ, length, slice_index, IfOk};
ghost use Rattle.std.specs.Option.{unwrap_or};
ghost use Rattle.subsetter_base.specs.Bytes.{range};
ghost use Rattle.cmap.specs.Groups.{by_groups, group_of, in_range};
ghost use Rattle.cmap.specs.Painting.{AreAll, IsPainted, characters};

use crate::groups::{GROUPS, Group, SEQUENTIAL_MAP_GROUP_SIZE, group_of};
use crate::passed::{first_open, pass};
use std::alloc::{AllocError, Global};
use subsetter_base::read::Reader;

/// One more than the last character of Unicode.
const CHARACTERS: usize = 0x110000;

/// The places of all characters and one after them, each open.
fn all_open(alloc: Global) -> Result<Vec<u32>, AllocError>
    ensures len { IfOk result (λ v. length v.items ≡ characters + 1) }
    ensures open { IfOk result (λ v. (k : ℕ) → k < characters + 1 → slice_index v.items k ≡ k) }
{
    let mut places = Vec::with_capacity(alloc, CHARACTERS + 1)?;
    for place in 0..CHARACTERS as u32 + 1 {
        places.push(place)?;
    }
    Ok(places)
}

/// Gives the glyphs of a group to those of its characters that are open, and passes these over.
fn paint(
    table: &[u8],
    count: u32,
    place: u32,
    next: &mut Vec<u32>,
    glyphs: &mut Vec<u16>,
    bytes: &[u8],
)
    requires inside { place < count }
    requires group { range table.now (16 + 12 * place) 12 ≡ Some bytes.now }
    requires before { IsPainted table.now count place next.old.items glyphs.old.items }
    ensures { IsPainted table.now count (place + 1) next.new.items glyphs.new.items }
{
    let group = group_of(bytes);
    let first = (group.start as usize).min(CHARACTERS);
    let mut at = first_open(next, first);
    while at < CHARACTERS && at <= group.end as usize {
        glyphs[at] = group.glyph_of(at as u32).unwrap_or(0);
        pass(next, at);
        at = first_open(next, at + 1);
    }
}

/// The glyph of each character by that many groups, 0 where they don't have it.
pub(crate) fn all_glyphs(alloc: Global, table: &[u8], count: u32) -> Result<Vec<u16>, AllocError>
    ensures { IfOk result (λ v. AreAll table.now count v.items) }
{
    let mut next = all_open(alloc)?;
    let mut glyphs = Vec::with_capacity(alloc, CHARACTERS)?;
    glyphs.resize(CHARACTERS, 0)?;
    for place in 0..count {
        let Some(bytes) = Reader::new_at(
            table,
            GROUPS + SEQUENTIAL_MAP_GROUP_SIZE * (place as usize),
        ).read_bytes(SEQUENTIAL_MAP_GROUP_SIZE) else {
            return Ok(glyphs);
        };
        paint(table, count, place, &mut next, &mut glyphs, bytes);
    }
    Ok(glyphs)
}
