//! The objects of a PDF for a font, and a sheet that shows its glyphs, of a font that is borrowed.
//!
//! ```text
//! let font = pdf_font(alloc, data, 0, &[], &shown, &FontOptions::default())?;
//! let view = view_of(&font);
//! let objects = write_objects(alloc, view.values, 4)?;       // objects.text, objects.offsets: 4 0 obj ..
//! let parts = write_parts(alloc, view.values, &[4, 9, 6, 7, 8])?;      // the same as data, with these numbers
//! let file = write_sheet(alloc, view, &shown, Layout::Line)?;
//! ```
#![tactic(auto)]

mod glyphs;
mod sheet;
mod view;

pub use pdf_sheet::Layout;
pub use pdf_text::{
    FontDictionaries, FontObjects, FontPart, Object, PartsError, References, StringRange,
    part_count, part_value, write_dictionaries, write_objects, write_parts, write_w, write_w2,
};
pub use sheet::write_sheet;
pub use view::{FontView, view_of, view_with};
