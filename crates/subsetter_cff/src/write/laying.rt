//! How a new table is laid out.

pub mod front;
pub mod parts;
pub(crate) mod slice_index;
pub mod table;
pub mod writing;
