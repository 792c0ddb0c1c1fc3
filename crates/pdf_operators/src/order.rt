//! The order in which the glyphs of a run are written.

ghost use Rattle.std.specs.Prelude.{◌≡◌};
ghost use Rattle.pdf_operators.specs.Order.{is_turned, turned};

use pdf_runs::{Direction, Item, Piece};

/// The order in which the glyphs of a run are written.
#[derive(Clone, Copy, PartialEq, Eq, Debug)]
pub enum Order {
    /// As they are seen: from left to right, or from top to bottom.
    Visual,
    /// As the text is read: those of a run from right to left from the last to the first.
    Logical,
}

/// Whether glyphs are written from the last to the first.
pub fn is_turned(direction: Direction, order: Order) -> bool
    ensures { result ≡ is_turned direction order }
{
    match direction {
        Direction::RightToLeft => order == Order::Logical,
        Direction::LeftToRight | Direction::TopToBottom => false,
    }
}

/// Puts pieces in the order in which they are written.
pub fn turn_pieces(is_turned: bool, pieces: &mut [Piece])
    ensures { pieces.new ≡ turned is_turned pieces.old }
{
    if is_turned {
        pieces.reverse();
    }
}

/// Puts parts in the order in which they are written.
pub fn turn_parts<'a, 'b>(is_turned: bool, parts: &mut [&'b [&'a [Item<'a>]]])
    ensures { parts.new ≡ turned is_turned parts.old }
{
    if is_turned {
        parts.reverse();
    }
}
