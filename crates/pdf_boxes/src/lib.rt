//! The least boxes around glyphs whose outlines were made of `CFF2`, by the charstrings of their `CFF ` table, and the tops of those of any
//! `CFF `.
//!
//! ```text
//! let kept = kept_box(alloc, cff, count)?;             // around the first glyphs, in the font's units
//! let top = glyph_top(alloc, cff, &limits, glyph)?;    // of one glyph
//! ```
#![tactic(auto)]

mod boxes;
mod sources;

pub use boxes::kept_box;
pub use sources::{glyph_top, glyph_tops};
