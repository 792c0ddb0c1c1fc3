//! The dicts of a new table.

pub mod dicts;
pub mod entries;
pub(crate) mod font_dict;
pub(crate) mod font_dict_remapper;
pub mod matrix;
pub(crate) mod private_dict;
pub(crate) mod top_dict;
