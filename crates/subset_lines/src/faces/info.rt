//! What a face is, as lines and as JSON.

pub(crate) mod face;
pub(crate) mod json;
pub(crate) mod lines;
