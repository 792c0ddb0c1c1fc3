//! The font of a text: all that a PDF has of a font for the codes of shaped runs, which each draw a figure and say a character. A
//! figure is a glyph of the source, an own glyph of the text, whose parts are glyphs of the source, or a blank.
//!
//! ```text
//! let mut pairs = no_pairs(alloc)?;
//! show_run(alloc, font, direction, size, &mut pairs, &items)?;                    // operators of a page
//! let text = text_font(alloc, data, 0, &[], &pairs, 65536, &[], &FontOptions::default())?;    // text.font, text.cid_to_gid_map
//! ```
#![tactic(auto)]

mod call;
mod drawn;
mod font;
mod glyph_map;
mod laws;
mod own;
mod pairs;
mod texts;

pub use call::text_font;
pub use font::TextFont;
pub use laws::{maps_are_read, own_glyphs_are_kept, texts_are_read, texts_are_said, zeroth_stays};
