//! Laws of what a PDF has of a font, which no code runs.

ghost use Rattle.pdf_font.specs.Laws.{CffWidthsAgree, CodesNeedNoFont, CodesStay, HaveNoFault, KeptBoxes, NamesAreShort, OneAnswer, WidthsAgree};

/// What is answered has no fault.
pub fn answers_have_no_fault()
    ensures { HaveNoFault }
{}

/// Where more glyphs come into use, the codes of the earlier entries stay: pages may be written before all are known.
pub fn codes_stay()
    ensures { CodesStay }
{}

/// The codes are those that `codes_of` gives without the font.
pub fn codes_need_no_font()
    ensures { CodesNeedNoFont }
{}

/// There is one answer: the font, the coordinates, the glyphs in use and the options determine all that is answered.
pub fn answers_are_determined()
    ensures { OneAnswer }
{}

/// A program with `hmtx` has the widths that are answered, read afresh: program and dictionary agree (ISO 19005-2, 6.2.11.5).
pub fn widths_agree()
    ensures { WidthsAgree }
{}

/// The `CFF ` of a program, read afresh, is that of the subset but for widths, which are those of `hmtx` (ISO 19005-2, 6.2.11.5).
pub fn cff_widths_agree()
    ensures { CffWidthsAgree }
{}

/// The name of the composite font has at most 127 bytes, whatever the name of its CMap is.
pub fn names_are_short()
    ensures { NamesAreShort }
{}

/// With the box of the kept glyphs a program that is a file is the subset but for this box in `head`, and for the checksums.
pub fn boxes_are_kept()
    ensures { KeptBoxes }
{}
