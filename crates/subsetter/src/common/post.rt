//! `post`, the names of glyphs (OpenType, "post").

pub(crate) mod marks;
pub(crate) mod read;
pub(crate) mod write;
