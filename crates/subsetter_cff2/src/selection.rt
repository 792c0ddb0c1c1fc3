//! Which font dict a glyph has (OpenType, "CFF2": "FDSelect").

pub mod search;
pub mod select;
pub mod used;
