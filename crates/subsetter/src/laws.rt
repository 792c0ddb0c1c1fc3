//! Laws of what `subset` promises, which no code runs.

ghost use Rattle.subsetter.specs.Promise.{AnswersAreClean, AnswersAreOne, FaultsAreTheFonts};

/// A font that is returned is a subset, and its source has no fault.
pub fn answers_are_clean()
    ensures { AnswersAreClean }
{}

/// Fonts that are returned for the same glyphs of a font, within whatever limits, have the same bytes.
pub fn answers_are_one()
    ensures { AnswersAreOne }
{}

/// Where no bound is set, an error names a fault of the font, and what is refused has no answer at all.
pub fn faults_are_the_fonts()
    ensures { FaultsAreTheFonts }
{}
