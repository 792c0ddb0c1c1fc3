//! The text of a real.

ghost use Rattle.std.specs.Prelude.{◌≡◌, ◌+◌, ◌<◌, ◌≤◌, ◌++◌, ◌∷◌, [], length, drop, OnSome, IfNone};
ghost use Rattle.std.specs.Option.{option_map};

/// The characters of a real by their nibbles (Technical Note 5176, table 5): `.`, which comes between digits.
pub(crate) const POINT: u8 = 10;
/// `E`, before an exponent.
pub(crate) const EXPONENT: u8 = 11;
/// `E-`, before an exponent below 0.
const NEGATIVE_EXPONENT: u8 = 12;
/// No character.
const RESERVED: u8 = 13;
/// `-`
pub(crate) const MINUS: u8 = 14;
/// The end of a number.
pub(crate) const END: u8 = 15;
/// The end in both nibbles of a byte.
pub(crate) const TWO_ENDS: u8 = 255;

/// At most 64 characters.
#[derive(Clone, Copy)]
pub struct Text {
    pub characters: [u8; 64],
    pub len: usize,
    ghost within: { len ≤ 64 },
}

impl Text {
    ghost use Rattle.subsetter_cffdata.specs.Reals.TextSteps.{shown, extended, byte_step};

    /// No characters.
    pub fn empty() -> Text
        ensures value { shown result ≡ [] }
        ensures len { result.len ≡ 0 }
    {
        Text {
            characters: [0; 64],
            len: 0,
        }
    }

    /// One character more.
    pub fn put(&mut self, c: u8)
        requires { self.old.len < 64 }
        ensures after { shown self.new ≡ shown self.old ++ c ∷ [] }
        ensures len { self.new.len ≡ self.old.len + 1 }
    {
        self.characters[self.len] = c;
        self.len += 1;
    }

    /// One character more; None where there are 64.
    fn push(&mut self, c: u8) -> Option<()>
        ensures some { OnSome result (shown self.new ≡ shown self.old ++ c ∷ []) }
        ensures none { IfNone result (length (shown self.old) ≡ 64) }
        ensures same { IfNone result (shown self.new ≡ shown self.old) }
    {
        if self.len == 64 {
            return None;
        }
        self.characters[self.len] = c;
        self.len += 1;
        Some(())
    }

    /// The characters of a nibble.
    #[tactic(auto, unfolding(crate::specs::Reals::TextSteps::extended))]
    pub fn push_nibble(&mut self, nibble: u8) -> Option<()>
        ensures { option_map (λ x. shown self.new) result ≡ extended (shown self.old) nibble }
    {
        match nibble {
            RESERVED => None,
            NEGATIVE_EXPONENT => {
                self.push(EXPONENT)?;
                self.push(MINUS)
            }
            _ => self.push(nibble),
        }
    }

    /// The characters of a byte, and whether the end is there.
    #[tactic(auto, unfolding(crate::specs::Reals::TextSteps::byte_step))]
    pub fn push_byte(&mut self, b: u8) -> Option<bool>
        ensures { option_map (λ x. (x, shown self.new)) result ≡ byte_step (shown self.old) b }
    {
        let high = b / 16;
        if high == END {
            return Some(true);
        }
        self.push_nibble(high)?;
        let low = b % 16;
        if low == END {
            return Some(true);
        }
        self.push_nibble(low)?;
        Some(false)
    }
}
