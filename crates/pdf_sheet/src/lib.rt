//! A sheet: a whole PDF that shows glyphs of one font, as a line or in a grid, or lines by their operators.
//!
//! Each glyph is shown by its code, with an ActualText where the code doesn't say its text.
//!
//! ```text
//! let glyphs = [SheetGlyph { code: 1, is_said: true, text: &['A'], advance: 667 }];
//! let file = write_sheet(alloc, values, &glyphs, Layout::Line)?;      // %PDF-1.7 .. %%EOF
//! let file = write_lines(alloc, values, &[SheetLine { operators: b"[ <0001> ] TJ\n", advance: 667 }])?;
//! ```
#![tactic(auto)]

mod content;
mod file;
mod frame;
mod glyphs;
mod hex;
mod lines;
mod pages;
mod sheet;

pub use frame::Layout;
pub use glyphs::{SheetGlyph, width_of};
pub use lines::SheetLine;
pub use sheet::{glyphs_are_shown, objects_are_in_table, write_lines, write_sheet};
