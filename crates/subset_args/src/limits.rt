//! How far a charstring may run, and how many bytes the font may have, as the arguments say it.
//!
//! The value of `--limits` is cut at its first comma, and what is after it at the next: a third one is in BYTES,
//! which is then no number.

ghost use Rattle.std.specs.Prelude.{◌≡◌, ◌≤◌, MatchOption};

/// How many tokens the charstring of a glyph may take, how deep it may go, and how many bytes the font may have.
#[derive(Clone, Copy)]
pub struct RunLimits {
    pub tokens: u32,
    pub depth: u8,
    pub bytes: Option<u32>,
    ghost above: { 1 ≤ depth },
}

impl RunLimits {
    /// None for a depth of 0.
    pub fn new(tokens: u32, depth: u8, bytes: Option<u32>) -> Option<Self>
        ensures { MatchOption result (depth ≡ 0) (λ limits. (limits.tokens ≡ tokens) × (limits.depth ≡ depth) × (limits.bytes ≡ bytes)) }
    {
        if depth == 0 {
            return None;
        }
        Some(RunLimits {
            tokens,
            depth,
            bytes,
        })
    }
}
