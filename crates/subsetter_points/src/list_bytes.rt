//! The lists of a description, written.

pub(crate) mod delta_bytes;
pub(crate) mod end_bytes;
pub(crate) mod fitting;
pub(crate) mod flag_bytes;
