//! Laws of other widths, which no code runs.

ghost use Rattle.pdf_widths.specs.Laws.{TablesChangeWidths, TracesChangeWidths};

/// A charstring with another width draws as before, and its width says the advance.
pub fn traces_change_widths()
    ensures { TracesChangeWidths }
{}

/// The table of a subset with other widths is the same but for the charstrings with another one.
pub fn tables_change_widths()
    ensures { TablesChangeWidths }
{}
