//! The options, by name and with their values.

pub(crate) mod chosen;
pub(crate) mod joined;
pub(crate) mod names;
pub(crate) mod sources;
pub(crate) mod values;
