//! Characters that show nothing of their own.

ghost use Rattle.std.specs.Prelude.{◌≡◌};
ghost use Rattle.text_glyphs.specs.Kinds.{bounds_up_to, is_control, is_ignorable, is_selector};

use crate::tables::BOUNDS;

/// How many of the first bounds are at most a character.
fn bounds_up_to(character: char) -> usize
    ensures { result ≡ bounds_up_to character }
{
    let code = u32::from(character);
    BOUNDS.partition_point(|bound| *bound <= code)
}

/// Whether a character is a default ignorable (Unicode, Default_Ignorable_Code_Point).
pub(crate) fn is_ignorable(character: char) -> bool
    ensures { result ≡ is_ignorable character }
{
    bounds_up_to(character) % 2 == 1
}

/// Whether a character is a control (Unicode, General_Category Cc).
pub(crate) fn is_control(character: char) -> bool
    ensures { result ≡ is_control character }
{
    let code = u32::from(character);
    code < 0x20 || (0x7F <= code && code < 0xA0)
}

/// Whether a character is a variation selector.
pub(crate) fn is_selector(character: char) -> bool
    ensures { result ≡ is_selector character }
{
    let code = u32::from(character);
    (0xFE00 <= code && code <= 0xFE0F)
        || ((0xE0100 <= code && code <= 0xE01EF)
            || ((0x180B <= code && code <= 0x180D) || code == 0x180F))
}
