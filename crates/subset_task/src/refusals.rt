//! Why a run of the program ends without a subset.

pub mod failure;
pub mod reason;
