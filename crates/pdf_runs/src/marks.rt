//! Characters without a width of their own.

ghost use Rattle.std.specs.Prelude.{◌≡◌};
ghost use Rattle.pdf_runs.specs.Marks.{bounds_up_to, is_mark};

use crate::tables::BOUNDS;

/// How many of the first bounds are at most a character.
fn bounds_up_to(character: char) -> usize
    ensures { result ≡ bounds_up_to character }
{
    let code = u32::from(character);
    BOUNDS.partition_point(|bound| *bound <= code)
}

/// Whether a character is a mark or a format character (Unicode, General_Category Mn, Me and Cf).
pub fn is_mark(character: char) -> bool
    ensures { result ≡ is_mark character }
{
    bounds_up_to(character) % 2 == 1
}
