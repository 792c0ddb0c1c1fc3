//! CMaps (ISO 32000-1, 9.7.5 and 9.10.3).

pub(crate) mod encoding;
pub(crate) mod lines;
pub(crate) mod named;
pub(crate) mod to_unicode;
