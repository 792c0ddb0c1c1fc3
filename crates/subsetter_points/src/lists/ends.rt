//! The last points of contours.
//!
//! A contour has a point at least: endPtsOfContours ascends, as OpenType says, so an end that isn't above the one
//! before it makes the glyph unreadable.

ghost use Rattle.std.specs.Prelude.{◌≡◌, IfOk, IfErr};
ghost use Rattle.std.specs.Option.{option_map};
ghost use Rattle.subsetter_base.specs.declared.error.Error.TheVariants.{OutOfMemory};
ghost use Rattle.subsetter_points.specs.Simple.{end_at, ends, count};

use crate::lists::front::read_word;
use std::alloc::Global;
use subsetter_base::Error;

/// The number of the last point of a contour, which is not before its first point, and the bytes after it.
fn read_end(from: u32, bytes: &[u8]) -> Option<(u16, &[u8])>
    ensures { option_map (λ p. (p.0, p.1.now)) result ≡ end_at from bytes.now }
{
    let (end, rest) = read_word(bytes)?;
    if u32::from(end) < from {
        return None;
    }
    Some((end, rest))
}

/// The last points of `count` contours, and the bytes after them.
pub fn read_ends(
    alloc: Global,
    count: u16,
    bytes: &[u8],
) -> Result<Option<(Vec<u16>, &[u8])>, Error>
    ensures ok { IfOk result (λ o. option_map (λ p. (p.0.items, p.1.now)) o ≡ ends count 0 bytes.now) }
    ensures err { IfErr result (λ e. e ≡ OutOfMemory) }
{
    let mut ends = Vec::with_capacity(alloc, usize::from(count))?;
    let mut from = 0;
    let mut rest = bytes;
    for _ in 0..count {
        let Some((end, after)) = read_end(from, rest) else {
            return Ok(None);
        };
        ends.push(end)?;
        from = u32::from(end) + 1;
        rest = after;
    }
    Ok(Some((ends, rest)))
}

/// How many points there are, by the last points of the contours.
#[tactic(auto, using(crate::proofs::ReadLemmas::count_last))]
pub fn count(ends: &[u16]) -> usize
    ensures { result ≡ count 0 ends.now }
{
    if ends.is_empty() {
        return 0;
    }
    usize::from(ends[ends.len() - 1]) + 1
}
