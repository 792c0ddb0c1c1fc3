//! The strings of a new table.

pub mod kept_strings;
pub(crate) mod sid_remapper;
