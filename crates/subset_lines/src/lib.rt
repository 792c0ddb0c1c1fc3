//! The text of the new numbers of glyphs, as lines or as JSON, of the axes of a variable font, and of what a face is.
//!
//! [`write_lines`] writes a line `old -> new` for each glyph, with its character where there is one, and then a text;
//! [`write_json`] one object. [`write_axes`] writes a line for the outlines, each axis of a variable font and each named instance.
//!
//! ```text
//! let numbering = Numbering { characters: &[], names: &[], glyphs: &[36, 68], mapper: &mapper };
//! write_lines(&numbering, b"", &mut lines)?;         // 36 -> 1, 68 -> 2
//! ```
#![tactic(auto)]

mod entry;
mod faces;
mod index;
mod missing;
mod notes;
mod objects;
mod plain;

pub use entry::Numbering;
pub use faces::axes::{FontAxes, read_axes, write_axes};
pub use faces::info::face::Info;
pub use faces::info::json::write_info_json;
pub use faces::info::lines::write_info;
pub use faces::names::{NameTable, encoded};
pub use faces::outlines::Outlines;
pub use faces::sizes::{TableSize, size_lines};
pub use notes::{Note, note_lines};
pub use objects::axes_json::{text_of_name, write_axes_json};
pub use objects::json::{json_numbers, write_json};
pub use objects::members::json_members;
pub use objects::pdf::json_pdf;
pub use plain::write_lines;
