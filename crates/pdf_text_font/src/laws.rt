//! Laws of the font of a text, which no code runs.

ghost use Rattle.pdf_text_font.specs.Laws.{MapsAreRead, OwnGlyphsAreKept, TextsAreRead, TextsAreSaid, ZerothStays};

/// CIDToGIDMap leads each code to the number of its glyph.
pub fn maps_are_read()
    ensures { MapsAreRead }
{}

/// Own glyphs have their parts, in order, under the numbers of these and in their places.
pub fn own_glyphs_are_kept()
    ensures { OwnGlyphsAreKept }
{}

/// ToUnicode has a line for each code above 0, and no other.
pub fn texts_are_read()
    ensures { TextsAreRead }
{}

/// A reader by ToUnicode finds of each code what the run's reader finds, and U+2060 of U+0000, U+FEFF and U+FFFE.
pub fn texts_are_said()
    ensures { TextsAreSaid }
{}

/// The pairs of runs have glyph 0 at first, and at no other place.
pub fn zeroth_stays()
    ensures { ZerothStays }
{}
