//! DICTs (Technical Note 5176, section 4).

pub mod dict;
pub mod operands;
pub mod operator;
pub mod plain;
pub mod tokens;
