//! A run of the program.

pub(crate) mod job;
pub(crate) mod program;
pub(crate) mod reports;
pub(crate) mod showing;
