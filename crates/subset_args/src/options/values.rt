//! What the values of options say: limits, codes and rights.

ghost use Rattle.std.specs.Prelude.{◌≡◌};
ghost use Rattle.std.specs.Option.{option_map};
ghost use Rattle.subset_args.specs.Limits.{limits_after, limits_from, limits_in, limits_view};
ghost use Rattle.subset_args.specs.Options.{coding_in, holds_rights};

use crate::limits::RunLimits;
use crate::options::names::Coding;
use crate::words::{u8_of, u32_of};

/// How the glyphs of a PDF get codes, by a word.
pub fn coding_of(word: &str) -> Option<Coding>
    ensures { result ≡ coding_in word.now }
{
    match word {
        "consecutive" => Some(Coding::Consecutive),
        "source" => Some(Coding::Source),
        "text" => Some(Coding::Text),
        _ => None,
    }
}

/// Whether a word says that the user holds the rights.
pub fn holds_rights(word: &str) -> bool
    ensures { result ≡ holds_rights word.now }
{
    word == "held"
}

/// The limits that the parts of an argument write.
fn limits_from(tokens: &str, depth: &str, bytes: Option<u32>) -> Option<RunLimits>
    ensures { option_map limits_view result ≡ limits_from tokens.now depth.now bytes }
{
    RunLimits::new(u32_of(tokens)?, u8_of(depth)?, bytes)
}

/// The limits that an argument writes after the tokens.
fn limits_after(tokens: &str, rest: &str) -> Option<RunLimits>
    ensures { option_map limits_view result ≡ limits_after tokens.now rest.now }
{
    match rest.split_once(',') {
        Some((depth, bytes)) => limits_from(tokens, depth, Some(u32_of(bytes)?)),
        None => limits_from(tokens, rest, None),
    }
}

/// The limits that an argument `TOKENS,DEPTH[,BYTES]` writes.
pub fn limits_of(word: &str) -> Option<RunLimits>
    ensures { option_map limits_view result ≡ limits_in word.now }
{
    let (tokens, rest) = word.split_once(',')?;
    limits_after(tokens, rest)
}
