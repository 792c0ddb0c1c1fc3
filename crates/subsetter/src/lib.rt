//! A subsetter for OpenType fonts, for embedding in PDF: it keeps some glyphs of a font under new consecutive numbers,
//! and drops the rest.
//!
//! [`subset`] returns a font with exactly the mapper's glyphs, in order, and each further glyph that a composite needs;
//! each draws as in the source. `subset_with_options` leaves out hinting or names, and takes limits on the work;
//! `check_opening` looks at what needs no memory.
//!
//! ```text
//! let mapper = GlyphRemapper::new_from_glyphs(alloc, &[36, 68])?;
//! let font = subset(alloc, data, 0, &mapper)?;
//! ```
#![tactic(auto)]

mod cff;
mod choice;
mod common;
mod glyf;
pub mod laws;
mod loca;
mod subsetting;
mod tables;
mod truetype;

pub use choice::Options;
pub use subsetter_base::{Error, GlyphRemapper, RemappedGids, Tag, TagLengthError};
pub use subsetter_sfnt::extras::Extras;
pub use subsetter_type2::limits::Limits;
pub use subsetting::{
    check_opening, subset, subset_opened, subset_with_limits, subset_with_options,
};
