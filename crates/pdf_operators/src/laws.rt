//! A law of places, which no code runs.

ghost use Rattle.pdf_operators.specs.Reading.{ThousandthsAreNear};

/// A length in thousandths of the em is within half a one of what it was.
pub fn thousandths_are_near()
    ensures { ThousandthsAreNear }
{}
