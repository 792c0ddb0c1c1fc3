//! The glyphs of characters, by the table `cmap` (OpenType, "cmap - Character to Glyph Index Mapping Table").
//!
//! [`find_subtable`] takes the first Unicode table of format 12, else of format 4; [`glyphs_of`] gives the glyphs of many
//! characters by it.
//!
//! ```text
//! let glyph = find_subtable(cmap)?.glyph_of('A');   // 0 where the font has none
//! ```
#![tactic(auto)]

mod characters;
mod groups;
mod halves;
mod index;
mod mapping;
mod painting;
mod passed;
mod segments;

pub use characters::glyphs_of;
pub use mapping::{Subtable, find_subtable};
