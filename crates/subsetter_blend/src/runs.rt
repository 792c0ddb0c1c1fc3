//! The run of a CFF2 charstring.

pub(crate) mod kind;
pub mod machine;
pub mod operands;
pub mod parts;
pub mod regions;
pub mod running;
pub mod sharing;
