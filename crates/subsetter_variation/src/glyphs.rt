//! The variations of a glyph (OpenType, "gvar").

pub mod contour;
pub mod glyph;
pub mod inference;
pub mod movement;
pub mod spare;
pub mod tuple_region;
pub mod tuples;
pub mod varied;
