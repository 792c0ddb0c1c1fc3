//! How a font file is laid out.

pub mod checksum;
pub mod construct;
pub mod room;
pub mod tables;
