//! A law of a font that was laid out for C, which no code runs.

ghost use Rattle.subsetter_c.specs.Documents.PdfLaws.{ViewsAreOfTheFont};

/// What is borrowed of it is what `pdf_objects` borrows of the font: so its objects and sheets are the font's.
pub fn views_are_of_the_font()
    ensures { ViewsAreOfTheFont }
{}
