//! What an argument or a file lists: characters and glyphs.

pub(crate) mod characters;
pub(crate) mod few;
pub(crate) mod files;
pub(crate) mod lists;
pub(crate) mod wrong;
