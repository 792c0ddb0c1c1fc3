//! The lists of a description, read: last points, flags and coordinates.

pub(crate) mod coordinates;
pub(crate) mod deltas;
pub(crate) mod ends;
pub(crate) mod flags;
pub(crate) mod front;
