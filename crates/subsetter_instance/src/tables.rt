//! The tables and the file of an instance.

pub mod extremes;
pub mod file;
pub mod headers;
pub mod lines;
pub mod offsets;
pub mod requested;
pub mod writing;
