//! The names of a font's glyphs, by its tables `post` and `CFF `.
//!
//! [`glyph_names`] returns a name for each glyph, an empty one where the tables have none.
//!
//! ```text
//! let names = glyph_names(alloc, post, &[], &[36, 68])?;         // "A", "a"
//! ```
#![tactic(auto)]

mod charset;
mod names;
mod post;
mod standard;
mod strings;

pub use names::glyph_names;
