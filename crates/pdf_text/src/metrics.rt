//! Widths and vertical metrics of CIDs (ISO 32000-1, 9.7.4.3).

pub(crate) mod arrays;
pub(crate) mod columns;
