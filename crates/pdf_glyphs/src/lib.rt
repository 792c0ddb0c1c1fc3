//! The boxes of a font's glyphs, by the headers of their outlines in `glyf`, and their columns in vertical writing.
//!
//! ```text
//! let top = top_of(outlines, cmap, 'H');                          // of "H", in the font's units
//! let kept = box_around(outlines, count);                         // the least box around the first glyphs
//! let columns = columns_at(alloc, vertical, None, &glyphs, &widths, &[])?;   // of each CID advance and origin, and DW2
//! ```
#![tactic(auto)]

mod boxes;
mod columns;
mod frequent;
mod heights;
mod metrics;
mod origins;
mod tops;

pub use boxes::{OutlineTables, box_around, glyph_box, joined};
pub use columns::{Columns, columns_at};
pub use frequent::is_most_of_all;
pub use heights::HeightVariation;
pub use metrics::VerticalTables;
pub use tops::{glyph_by, top_of};
