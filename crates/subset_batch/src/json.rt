//! The parts of a text in JSON: bytes, numbers and strings.

pub(crate) mod blanks;
pub(crate) mod characters;
pub(crate) mod numbers;
pub(crate) mod strings;
