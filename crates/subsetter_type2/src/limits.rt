//! How far a charstring may run, and how many bytes may be written.

ghost use Rattle.std.specs.Prelude.{◌≡◌, ◌≤◌, Some, None, MatchOption};
ghost use Rattle.subsetter_base.specs.Within.{is_past};

/// How many tokens a run may take, how deep it may go, and how many bytes may be written.
#[derive(Clone, Copy, PartialEq, Eq, Debug)]
pub struct Limits {
    pub(crate) tokens: u32,
    pub(crate) depth: u8,
    pub(crate) bytes: Option<u32>,
    ghost holds_a_charstring: { 1 ≤ depth },
}

impl Limits {
    /// None for a depth of 0, since the glyph's own charstring is at depth 1. The bytes have no bound.
    pub fn new(tokens: u32, depth: u8) -> Option<Self>
        ensures { MatchOption result (depth ≡ 0) (λ limits. (limits.tokens ≡ tokens) × (limits.depth ≡ depth) × (limits.bytes ≡ None)) }
    {
        if depth == 0 {
            return None;
        }
        Some(Limits {
            tokens,
            depth,
            bytes: None,
        })
    }

    /// These limits, where at most `bytes` bytes may be written.
    pub fn with_bytes(self, bytes: u32) -> Self
        ensures { (result.tokens ≡ self.tokens) × (result.depth ≡ self.depth) × (result.bytes ≡ Some bytes) }
    {
        Limits {
            tokens: self.tokens,
            depth: self.depth,
            bytes: Some(bytes),
        }
    }

    /// The most tokens of a run: each number is one, and so is each operator together with its mask, be it a call or a
    /// return.
    pub fn tokens(&self) -> u32
        ensures { result ≡ self.now.tokens }
    {
        self.tokens
    }

    /// The greatest depth, where the glyph's own charstring is at 1, and a subroutine one deeper than its caller.
    pub fn depth(&self) -> u8
        ensures value { result ≡ self.now.depth }
        ensures above { 1 ≤ result }
    {
        self.depth
    }

    /// The most bytes that may be written, if they have a bound.
    pub fn bytes(&self) -> Option<u32>
        ensures { result ≡ self.now.bytes }
    {
        self.bytes
    }

    /// Whether `len` bytes are more than may be written.
    #[inline(always)]
    pub fn is_past(&self, len: usize) -> bool
        ensures { result ≡ is_past self.now.bytes len }
    {
        match self.bytes {
            None => false,
            Some(most) => len > most as usize,
        }
    }
}

/// 1,000,000 tokens and depth 64; the bytes have no bound.
impl Default for Limits {
    ghost use Rattle.std.specs.Prelude.{None};
    ghost use Rattle.subsetter_type2.specs.declared.limits.Limits.{Limits};

    ghost is_default = { λ limits. (limits.tokens ≡ 1000000) × (limits.depth ≡ 64) × (limits.bytes ≡ None) };

    fn default() -> Self {
        Limits {
            tokens: 1_000_000,
            depth: 64,
            bytes: None,
        }
    }
}
