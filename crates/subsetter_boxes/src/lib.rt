//! The boxes of the outlines of `CFF `, by their charstrings: around the ends and the control points of their segments.
//!
//! ```text
//! let bounds = charstring_box(charstring)?;    // of one glyph, in the font's units
//! let all = least_box(&boxes);                 // around those of several
//! ```
#![tactic(auto)]

mod boxes;
mod events;
mod flexes;
mod joining;
mod paths;
mod pen;

pub use boxes::{charstring_box, flat_box};
pub use joining::{font_box, joined, least_box};
