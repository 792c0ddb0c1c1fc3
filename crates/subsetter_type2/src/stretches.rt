//! Stretches of a charstring that stay as they are.

pub(crate) mod plain;
pub(crate) mod scanning;
pub(crate) mod stretch;
