//! The dictionaries of a composite font (ISO 32000-1, 9.7 to 9.9).

pub(crate) mod descriptor;
pub(crate) mod entries;
pub(crate) mod fonts;
pub(crate) mod streams;
pub(crate) mod widths;
