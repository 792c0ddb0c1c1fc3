//! Laws of the definitions, which name no code.

ghost use Rattle.pdf_names.specs.Decimal.{ShortestIsTaken};

/// The decimal number that is taken rounds back to the coordinate, and none with fewer decimals does.
pub fn shortest_is_taken()
    ensures { ShortestIsTaken }
{}
