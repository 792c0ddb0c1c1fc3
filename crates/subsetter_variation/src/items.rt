//! Item variation stores, and what varies by them (OpenType, "Item Variation Store", "HVAR" and "MVAR").

pub mod advances;
pub mod font_metrics;
pub mod item_variations;
pub mod known;
pub(crate) mod layout;
