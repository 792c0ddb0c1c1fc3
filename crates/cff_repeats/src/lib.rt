//! Glyphs of a `CFF ` table again, under further CIDs: a charset has each CID once (Technical Note 5176, section 13 "Charsets"), and a PDF
//! has no map from CIDs to the glyphs of such a program, so that a glyph of two CIDs is in the table twice.
//!
//! ```text
//! let new = with_repeats(alloc, cff, &[Some(0), Some(3), Some(3), None])?;     // glyph 0, glyph 3 twice, a blank
//! ```
#![tactic(auto)]

mod blanks;
mod figures;
mod keeping;
mod repeating;

pub use repeating::with_repeats;
