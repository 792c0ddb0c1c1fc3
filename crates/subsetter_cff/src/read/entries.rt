//! The entries of top and font dicts, and what they say (Technical Note 5176, sections 9 and 18).

pub mod demands;
pub(crate) mod fields;
pub mod first_entries;
pub(crate) mod operators;
pub(crate) mod top_dict;
