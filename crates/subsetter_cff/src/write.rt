//! What is made of a CFF table that was read, and written.

pub mod again;
pub mod glyphs;
pub mod laws;
pub mod laying;
pub mod new_dicts;
pub mod strings;
pub mod subsetting;
