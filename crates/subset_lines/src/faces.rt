//! What a face is: its axes, its names, its tables.

pub(crate) mod axes;
pub(crate) mod info;
pub(crate) mod names;
pub(crate) mod outlines;
pub(crate) mod pictures;
pub(crate) mod settings;
pub(crate) mod sizes;
