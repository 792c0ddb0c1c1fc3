//! The glyphs that are kept, written.

pub(crate) mod charset;
pub mod flat_index;
pub mod kept_glyphs;
