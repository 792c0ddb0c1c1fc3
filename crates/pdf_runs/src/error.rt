//! Why a run is refused.

ghost use Rattle.std.specs.Prelude.{◌≡◌};
ghost use Rattle.pdf_runs.specs.declared.error.RunError.TheVariants.{OutOfMemory};

use std::alloc::{AllocError, AllocFailed};

/// Why a run is refused.
#[derive(Clone, Copy, Debug, PartialEq, Eq)]
pub enum RunError {
    /// The glyphs are no run of the font or not of their text, a place isn't a number of 32 bits, or an ActualText has more
    /// than 32,767 bytes.
    InvalidText,
    /// There would be more than 65,535 codes, code 0 among them.
    Overfull,
    /// A request for memory was refused.
    OutOfMemory,
}

impl From<AllocError> for RunError {
    ghost from_gives = { λ _ e. e ≡ OutOfMemory };

    fn from(_e: AllocError) -> RunError {
        RunError::OutOfMemory
    }
}

impl<T: Drop> From<AllocFailed<T>> for RunError {
    ghost from_gives = { λ _ e. e ≡ OutOfMemory };

    fn from(_e: AllocFailed<T>) -> RunError {
        RunError::OutOfMemory
    }
}
