//! Whether a list has few enough numbers.

ghost use Rattle.std.specs.Prelude.{◌≡◌, map};
ghost use Rattle.subset_args.specs.Listing.Few.{ends_by};
ghost use Rattle.subset_args.specs.Listing.Lists.{size, fits};

use crate::listing::characters::codes_in;
use crate::listing::lists::{FileKind, ends_in};

/// The most numbers that a list may have.
const MOST: u64 = 2_000_000;

/// How many glyphs are between the ends of a part, with these.
fn glyphs_between(part: &str) -> u32
    ensures { result ≡ size (ends_by FileKind.Glyphs part.now) }
{
    match ends_in(part) {
        Some(ends) => u32::from(ends.last) + 1 - u32::from(ends.first),
        None => 0,
    }
}

/// How many codes are between the ends of a part, with these. A code is below 110000.
fn codes_between(part: &str) -> u64
    ensures { result ≡ size (ends_by FileKind.Characters part.now) }
{
    match codes_in(part) {
        Some(codes) => (u64::from(codes.last) + 1).saturating_sub(u64::from(codes.first)),
        None => 0,
    }
}

/// How many numbers are between the ends of a part, with these.
fn size_of(kind: FileKind, part: &str) -> u64
    ensures { result ≡ size (ends_by kind part.now) }
{
    match kind {
        FileKind::Glyphs => u64::from(glyphs_between(part)),
        FileKind::Characters => codes_between(part),
        FileKind::Text => 0,
    }
}

/// Whether parts have at most 2,000,000 numbers.
pub fn are_few(kind: FileKind, parts: &[&str]) -> bool
    ensures { result ≡ fits (ends_by kind) 2000000 (map (λ part. part.now) parts.now) }
{
    let mut left = MOST;
    let mut rest = parts;
    while let [part, following @ ..] = rest {
        let size = size_of(kind, part);
        if size > left {
            return false;
        }
        left -= size;
        rest = following;
    }
    true
}
