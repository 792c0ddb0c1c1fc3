//! What is read of a CFF table.

pub mod entries;
pub(crate) mod fd_array;
pub(crate) mod front;
pub mod source;
pub(crate) mod string_names;
