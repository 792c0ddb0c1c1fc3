//! Numbers, tags and lists as the arguments of a command line write them.
//!
//! ```text
//! u16_of("36")                  // Some(36); None for "+36", "" and "65536"
//! parts_of(alloc, "36,68")?     // "36" and "68"
//! ```

ghost use Rattle.std.specs.Prelude.{◌≡◌, ◌==◌, map, IfOk, slice_index};
ghost use Rattle.std.specs.List.{slice_split};
ghost use Rattle.subset_args.specs.Words.{number_in_bits, tag_of};

use std::alloc::{AllocError, Global};
use subsetter_base::Tag;

/// Whether the first character is a plus, which `parse` accepts.
fn begins_with_plus(word: &str) -> bool
    ensures { result ≡ (slice_index word.now 0 == 43) }
{
    matches!(word.as_bytes(), [b'+', ..])
}

/// The number that a word of one or more ASCII digits writes, if it fits 32 bits.
pub(crate) fn u32_of(word: &str) -> Option<u32>
    ensures { result ≡ number_in_bits 32 word.now }
{
    if begins_with_plus(word) {
        return None;
    }
    word.parse().ok()
}

/// The number that a word of one or more ASCII digits writes, if it fits 16 bits.
pub(crate) fn u16_of(word: &str) -> Option<u16>
    ensures { result ≡ number_in_bits 16 word.now }
{
    if begins_with_plus(word) {
        return None;
    }
    word.parse().ok()
}

/// The number that a word of one or more ASCII digits writes, if it fits 8 bits.
pub(crate) fn u8_of(word: &str) -> Option<u8>
    ensures { result ≡ number_in_bits 8 word.now }
{
    if begins_with_plus(word) {
        return None;
    }
    word.parse().ok()
}

/// The tag that a word of four bytes writes.
pub(crate) fn tag_of(word: &str) -> Option<Tag>
    ensures { result ≡ tag_of word.now }
{
    word.parse::<Tag>().ok()
}

/// The parts of a list between its commas.
pub(crate) fn parts_of(alloc: Global, list: &str) -> Result<Vec<&str>, AllocError>
    ensures { IfOk result (λ v. map (λ part. part.now) v.items ≡ slice_split (λ b. b == 44) list.now) }
{
    list.split(',').collect(alloc)
}
