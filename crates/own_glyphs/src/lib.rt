//! Glyphs of the caller's own, after those of a finished TrueType subset (OpenType, "glyf").
//!
//! ```text
//! let blank = OwnGlyph { parts: &[], advance: 500 };
//! let pair = OwnGlyph { parts: &[Part { glyph: 1, x: 0, y: 0 }, Part { glyph: 2, x: 300, y: 20 }], advance: 600 };
//! let new = with_own_glyphs(alloc, font, &[blank, pair])?;
//! ```
#![tactic(auto)]

mod adding;
mod composite;
mod glyph;
mod headers;
mod profile;
mod source;

pub use adding::with_own_glyphs;
pub use glyph::{OwnGlyph, Part};
