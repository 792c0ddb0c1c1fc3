//! Why a run of the program ends without a subset.

pub(crate) mod hint;
pub(crate) mod limit_hint;
pub(crate) mod second_look;
