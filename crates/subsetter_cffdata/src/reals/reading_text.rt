//! Reading the text of a real.

ghost use Rattle.std.specs.Prelude.{◌≡◌, ◌≤◌, [], drop, length, IfSome};
ghost use Rattle.std.specs.Option.{option_map};
ghost use Rattle.subsetter_cffdata.specs.Reals.TextSteps.{shown, text_from};

use crate::reals::text::Text;

/// A text that was read.
#[derive(Clone, Copy)]
pub struct TextRead {
    /// The text.
    pub text: Text,
    /// How many bytes it takes.
    pub len: usize,
}

/// The text up to its end, and how many bytes it takes.
pub fn text_of(bytes: &[u8]) -> Option<TextRead>
    ensures text { option_map (λ x. (shown x.text, drop x.len bytes.now)) result ≡ text_from [] bytes.now }
    ensures len { IfSome result (λ x. x.len ≤ length bytes.now) }
{
    let mut text = Text::empty();
    for (i, b) in bytes.iter().enumerate() {
        if text.push_byte(*b)? {
            return Some(TextRead { text, len: i + 1 });
        }
    }
    None
}
