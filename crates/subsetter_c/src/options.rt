//! What the words of `subsetter_options` request.

ghost use Rattle.std.specs.Prelude.{◌≡◌, ◌==◌, if◌then◌else◌, Some, None, MatchOption};
ghost use Rattle.subsetter_c.specs.Options.{AreRequested, AreKnown, or_default, word};

use subsetter::{Extras, Limits, Options};

/// A word by its index; one past the end is 0.
pub fn word(words: &[u32], at: usize) -> u32
    ensures { result ≡ word words.now at }
{
    words.get(at).copied().unwrap_or(0)
}

/// A number, where 0 means the default.
pub fn or_default(n: u32, usual: u32) -> u32
    ensures { result ≡ or_default n usual }
{
    if n == 0 { usual } else { n }
}

/// With at most `bytes` bytes, where that isn't 0.
fn bounded(limits: Limits, bytes: u32) -> Limits
    ensures tokens { result.tokens ≡ limits.tokens }
    ensures depth { result.depth ≡ limits.depth }
    ensures bytes { limits.bytes ≡ None → result.bytes ≡ (if bytes == 0 then None else Some bytes) }
{
    if bytes == 0 {
        return limits;
    }
    limits.with_bytes(bytes)
}

/// The options that are requested; none where the library doesn't know them.
pub fn options_of(words: &[u32]) -> Option<Options>
    ensures { MatchOption result (¬ (AreKnown words.now)) (λ options. AreKnown words.now × AreRequested words.now options) }
{
    let count = words.len();
    if count > 5 || word(words, 0) as usize != 4 * count {
        return None;
    }
    let depth = u8::try_from(or_default(word(words, 2), 64)).ok()?;
    let drop = word(words, 3);
    if drop > 7 {
        return None;
    }
    let limits = Limits::new(or_default(word(words, 1), 1_000_000), depth)?;
    let limits = bounded(limits, word(words, 4));
    let extras = Extras {
        hinting: drop & 1 == 0,
        names: drop & 2 == 0,
        glyph_names: drop & 4 == 0,
    };
    Some(Options { limits, extras })
}
