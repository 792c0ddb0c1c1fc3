//! The PostScript name of a font that is off its default (Technical Note 5902, "PostScript Name Generation for Variation
//! Fonts"): that of the named instance at its coordinates, else the name of its family with each coordinate that isn't the
//! default.
//!
//! A table that is missing or cut says nothing, and no name refuses a font, as in `pdf_values`.
//!
//! ```text
//! let movement = Movement { at: &at, axes: &axes, settings: &coordinates, mvar };
//! name_at(alloc, name, fvar, movement, None)?;      // Made_650wght_-7.5slnt
//! ```
#![tactic(auto)]

mod axis_texts;
mod decimal;
mod instances;
mod laws;
mod letters;
mod moved_name;

pub use laws::shortest_is_taken;
pub use moved_name::name_at;
