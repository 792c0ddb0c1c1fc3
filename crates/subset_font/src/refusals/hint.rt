//! What more is known of a refusal: what the program sees at once.

pub(crate) mod found;
pub(crate) mod text;
