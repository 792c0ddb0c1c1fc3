//! How answers are handed to C.

pub(crate) mod handing;
pub(crate) mod kept;
pub(crate) mod making;
pub(crate) mod status;
