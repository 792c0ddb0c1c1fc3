//! What the advances of glyphs vary by, reckoned for all of them at once.

ghost use Rattle.std.specs.Prelude.{◌≡◌, ◌<◌, IfOk, IfSome, length, slice_index_or};
ghost use Rattle.std.specs.Option.{option_copied};
ghost use Rattle.subsetter_instance.specs.Glyphs.Known.{AreKnown};

use std::alloc::{AllocError, Global};
use subsetter_base::Error;
use subsetter_variation::items::advances::advance_deltas;

/// What the advances of glyphs vary by, by `HVAR` or `VVAR`; none without a table.
pub fn known_deltas(
    alloc: Global,
    table: Option<&[u8]>,
    at: &[i32],
    glyphs: &[u16],
) -> Result<Vec<Result<i64, Error>>, AllocError>
    ensures { IfOk result (λ v. AreKnown (option_copied table.entry) at.now glyphs.now v.items) }
{
    match table {
        Some(table) => advance_deltas(alloc, table, at, glyphs),
        None => Ok(Vec::new(alloc)),
    }
}

/// What the advance of a glyph of the list varies by, if that is known.
pub fn known_at(known: &[Result<i64, Error>], place: usize) -> Option<Result<i64, Error>>
    ensures { IfSome result (λ d. (place < length known.now) × (slice_index_or known.now place d ≡ d)) }
{
    if place < known.len() {
        Some(known[place])
    } else {
        None
    }
}
