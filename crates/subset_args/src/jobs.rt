//! What the arguments request.

pub(crate) mod command;
pub(crate) mod forms;
pub(crate) mod parts;
pub(crate) mod reading;
