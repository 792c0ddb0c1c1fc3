//! The charstring that is written.

pub mod fitting;
pub(crate) mod flex;
pub mod placing;
pub(crate) mod splitting;
pub mod taking;
