//! How a font looks: flags, weight, lean, heights and box (ISO 32000-1, Tables 122 and 123).

pub(crate) mod bounds;
pub(crate) mod flags;
pub(crate) mod heights;
pub(crate) mod lean;
pub(crate) mod weight;
