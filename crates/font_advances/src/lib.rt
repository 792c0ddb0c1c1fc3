//! Advances of a font's glyphs at coordinates, in its units, before anything of it is embedded: what a writer lays text out by.
//!
//! ```text
//! let found = advances(alloc, data, 0, &[36, 68], &coordinates, &Limits::default())?;
//! // found.units_per_em, found.widths, found.heights
//! ```
#![tactic(auto)]

mod call;
mod heights;
mod known;
mod widths;

pub use call::{GlyphAdvances, advances};
