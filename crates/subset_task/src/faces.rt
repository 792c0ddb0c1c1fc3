//! What the font that is read has: its directory, its tables, its axes and its characters.

pub mod axes;
pub mod missing;
pub mod named;
pub mod outlines;
pub mod tables;
