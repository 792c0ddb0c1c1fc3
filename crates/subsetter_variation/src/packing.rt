//! Packed point numbers and packed deltas (OpenType, "Tuple Variation Store").

pub mod packed;
pub mod packed_sums;
