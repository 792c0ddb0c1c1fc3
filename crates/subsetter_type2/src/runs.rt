//! The run of a charstring.

pub mod fixed_stack;
pub(crate) mod flattening;
pub(crate) mod last_number;
pub(crate) mod machine;
pub(crate) mod output;
pub(crate) mod recursion;
pub(crate) mod sink;
