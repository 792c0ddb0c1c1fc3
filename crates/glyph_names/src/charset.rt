//! The SIDs of glyphs by a charset (Technical Note 5176, section 13 "Charsets").

ghost use Rattle.std.specs.Prelude.{◌≡◌, ◌≤◌, [], map, drop, IfOk};
ghost use Rattle.std.specs.Option.{option_map};
ghost use Rattle.subsetter_base.specs.Bytes.{number};
ghost use Rattle.glyph_names.specs.Charset.{run_at, take_one, next_sid, sids, sids_in, sids_at};
ghost use Rattle.glyph_names.specs.View.{run_view};

use std::alloc::{AllocError, Global};
use subsetter_base::read::Reader;

/// SIDs in a row.
#[derive(Clone, Copy)]
pub struct Run<'a> {
    /// The first.
    pub first: u16,
    /// How many more there are.
    pub left: u16,
    /// How many of them were taken.
    pub taken: u32,
    /// The bytes after.
    pub rest: &'a [u8],
}

/// How many SIDs of the range at the front follow its first.
fn left_at(format: u8, bytes: &[u8]) -> Option<u16>
    requires { format ≤ 2 }
    ensures { result ≡ number bytes.now 2 format }
{
    match format {
        0 => match Reader::new_at(bytes, 2).read_bytes(0) {
            Some(_) => Some(0),
            None => None,
        },
        1 => match Reader::new_at(bytes, 2).read::<u8>() {
            Some(left) => Some(u16::from(left)),
            None => None,
        },
        _ => Reader::new_at(bytes, 2).read::<u16>(),
    }
}

/// The bytes from a place on.
fn following(bytes: &[u8], at: usize) -> &[u8]
    ensures { result.now ≡ drop at bytes.now }
{
    bytes.get(at..).unwrap_or(&[])
}

/// The range at the front.
fn run_at(format: u8, bytes: &[u8]) -> Option<Run<'_>>
    requires { format ≤ 2 }
    ensures { option_map run_view result ≡ run_at format bytes.now }
{
    let Some(first) = Reader::new_at(bytes, 0).read::<u16>() else {
        return None;
    };
    let Some(left) = left_at(format, bytes) else {
        return None;
    };
    Some(Run {
        first,
        left,
        taken: 0,
        rest: following(bytes, 2 + usize::from(format)),
    })
}

/// One SID of a range that has more.
fn take_one(run: Run<'_>) -> (u32, Run<'_>)
    requires { run.taken ≤ run.left }
    ensures sid { result.0 ≡ (take_one (run_view run.entry)).0 }
    ensures run { run_view result.1 ≡ (take_one (run_view run.entry)).1 }
{
    let sid = u32::from(run.first) + run.taken;
    let after = Run {
        first: run.first,
        left: run.left,
        taken: run.taken + 1,
        rest: run.rest,
    };
    (sid, after)
}

/// The next SID.
fn next_sid(format: u8, run: Run<'_>) -> Option<(u32, Run<'_>)>
    requires { format ≤ 2 }
    ensures { option_map (λ s. (s.0, run_view s.1)) result ≡ next_sid format (run_view run.entry) }
{
    if run.taken <= u32::from(run.left) {
        return Some(take_one(run));
    }
    let next = run_at(format, run.rest)?;
    Some(take_one(next))
}

/// The next `count` SIDs, or all that there are.
fn sids(alloc: Global, format: u8, count: u32, start: Run<'_>) -> Result<Vec<u32>, AllocError>
    requires { format ≤ 2 }
    ensures { IfOk result (λ v. v.items ≡ sids format count (run_view start.entry)) }
{
    let mut found = Vec::new(alloc);
    let mut run = start;
    for i in 0..count {
        let Some((sid, after)) = next_sid(format, run) else {
            return Ok(found);
        };
        found.push(sid)?;
        run = after;
    }
    Ok(found)
}

/// The SIDs of `count` glyphs by a charset.
fn sids_in(alloc: Global, count: u32, charset: &[u8]) -> Result<Vec<u32>, AllocError>
    ensures { IfOk result (λ v. v.items ≡ sids_in count charset.now) }
{
    let Some((format, rest)) = charset.split_first() else {
        return Ok(Vec::new(alloc));
    };
    if *format > 2 {
        return Ok(Vec::new(alloc));
    }
    let start = Run {
        first: 0,
        left: 0,
        taken: 0,
        rest,
    };
    sids(alloc, *format, count, start)
}

/// The SIDs of `count` glyphs, by the offset of the charset.
pub fn sids_at(alloc: Global, cff: &[u8], count: u32, offset: usize) -> Result<Vec<u32>, AllocError>
    ensures { IfOk result (λ v. v.items ≡ sids_at cff.now count offset) }
{
    if offset == 0 {
        let adobe = Run {
            first: 0,
            left: 228,
            taken: 0,
            rest: &[],
        };
        return sids(alloc, 0, count, adobe);
    }
    if offset <= 2 {
        return Ok(Vec::new(alloc));
    }
    sids_in(alloc, count, following(cff, offset))
}
