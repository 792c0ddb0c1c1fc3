//! What the font that is read has: its directory, its tables, its axes and its characters.

pub(crate) mod accepted;
pub(crate) mod info;
