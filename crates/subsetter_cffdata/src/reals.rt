//! The reals of a DICT (Technical Note 5176, section 4, table 5).

pub(crate) mod reading_text;
pub(crate) mod real_number;
pub(crate) mod real_text;
pub(crate) mod real_writing;
pub(crate) mod text;
