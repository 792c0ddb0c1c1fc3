//! What is made of the font that is read.

pub(crate) mod carried;
pub(crate) mod outcome;
pub(crate) mod sheet;
pub(crate) mod subset;
