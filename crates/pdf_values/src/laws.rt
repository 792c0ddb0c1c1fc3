//! Laws of the definitions, which name no code.

ghost use Rattle.pdf_values.specs.Name.{FirstIsTaken, NoneIsPassed};

/// The name that is taken is that of the first record that has one.
pub fn first_is_taken()
    ensures { FirstIsTaken }
{}

/// Where no name is taken no record has one.
pub fn none_is_passed()
    ensures { NoneIsPassed }
{}
