//! Laws of the choice, which no code runs.

ghost use Rattle.own_choice.specs.Laws.{DrawnAreSmall, InstancesFit, PartsFit, PartsHaveBoxes};

/// A glyph that can be a part has a box of 16 bits wherever it is placed.
pub fn parts_have_boxes()
    ensures { PartsHaveBoxes }
{}

/// With glyphs of as many parts as own ones can have the limits of `maxp` have 16 bits, and of more not.
pub fn parts_fit()
    ensures { PartsFit }
{}

/// Off the default an instance has an outline in such a box of each glyph that can be a part.
pub fn drawn_are_small()
    ensures { DrawnAreSmall }
{}

/// And its `maxp` has such limits, whichever of the font's glyphs it has.
pub fn instances_fit()
    ensures { InstancesFit }
{}
