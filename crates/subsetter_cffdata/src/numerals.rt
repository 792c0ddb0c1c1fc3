//! The numbers of a DICT and of a charstring.

pub mod charstring_number;
pub(crate) mod first_byte;
pub mod number;
pub(crate) mod string_id;
pub(crate) mod u24;
pub(crate) mod value;
pub(crate) mod whole;
