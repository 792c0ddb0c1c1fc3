//! JSON objects (RFC 8259).

pub(crate) mod axes_json;
pub(crate) mod json;
pub(crate) mod members;
pub(crate) mod pdf;
