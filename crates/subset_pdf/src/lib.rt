//! A PDF that shows glyphs of a font, by the options of a command line.
//!
//! ```text
//! let request = PdfRequest { index: 0, at: &[], limits, hinting: true, choice, layout: Layout::Line };
//! let sheet = make_sheet(alloc, data, &request, &['A', 'B'], &[36, 37])?;
//! // sheet.file, and sheet.font of which it is a sheet
//! ```
#![tactic(auto)]

mod cells;
mod line;
mod options;
mod sheet;
mod shown;

pub use options::{PdfRequest, options_of};
pub use pdf_font::{FontOptions, Limits, PdfFont, Permission, Usage};
pub use pdf_objects::Layout;
pub use sheet::{Sheet, SheetError, make_sheet};
pub use subset_args::{Coding, PdfChoice};
