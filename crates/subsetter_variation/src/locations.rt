//! The coordinates of a user on the axes of a font (OpenType, "fvar" and "avar").

pub mod axes;
pub mod coordinates;
pub mod segments;
