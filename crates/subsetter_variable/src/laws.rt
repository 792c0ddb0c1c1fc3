//! Laws of the definitions, which no code runs.

ghost use Rattle.subsetter_variable.specs.Laws.{IsItselfAgain};
ghost use Rattle.subsetter_variable.specs.Promise.{AnswersAreCleanAt, AnswersAreOneAt};

/// The instance of an instance, at no coordinates and for the same glyphs, is it again.
pub fn is_itself_again()
    ensures { IsItselfAgain }
{}

/// A font that is returned is a subset of the static font, and no fault is there.
pub fn answers_are_clean_at()
    ensures { AnswersAreCleanAt }
{}

/// Fonts that are returned for the same coordinates and glyphs of a font, within whatever limits, have the same bytes.
pub fn answers_are_one_at()
    ensures { AnswersAreOneAt }
{}
