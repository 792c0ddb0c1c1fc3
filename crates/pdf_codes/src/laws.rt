//! Laws of the codes, which no code runs.

ghost use Rattle.pdf_codes.specs.Laws.{CodesAreDetermined, CodesHaveTexts, CodesStay};

/// Where more glyphs come into use, the codes of the earlier entries stay: pages may be written before all are known.
pub fn codes_stay()
    ensures { CodesStay }
{}

/// The glyphs in use and the choice determine the codes: those of a font are those that `codes_of` gives without it.
pub fn codes_are_determined()
    ensures { CodesAreDetermined }
{}

/// Each code of an entry says something, if only U+2060, but for code 0, which says nothing.
pub fn codes_have_texts()
    ensures { CodesHaveTexts }
{}
