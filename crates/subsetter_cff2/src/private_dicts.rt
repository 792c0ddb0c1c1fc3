//! Private dicts, and what they are at a location (OpenType, "CFF2": "Private DICT Data").

pub mod blend;
pub mod kinds;
pub mod placing;
pub mod private2;
pub mod private_at;
pub mod stack;
