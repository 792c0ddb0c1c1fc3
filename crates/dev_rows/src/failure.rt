//! Why a run failed.

use std::alloc::{AllocError, AllocFailed};
use std::fmt;

/// Why a run failed.
#[derive(Debug, Drop)]
pub enum Failure {
    /// The line is no row: its kind isn't known, its words aren't as its kind has them, or no bytes of that name are in front of it.
    Row,
    /// The arguments aren't as the usage says.
    Usage,
    /// A file can't be read.
    Read,
    /// The standard output can't be written.
    Write,
    /// Memory ran out.
    Memory,
}

impl fmt::Display for Failure {
    fn fmt<W: fmt::Write>(&self, f: &mut fmt::Formatter<W>) -> fmt::Result {
        f.write_str(match self {
            Failure::Row => "no row of a known kind",
            Failure::Usage => "usage: dev_rows FILE",
            Failure::Read => "cannot read",
            Failure::Write => "cannot write",
            Failure::Memory => "memory allocation failed",
        })
    }
}

impl From<AllocError> for Failure {
    fn from(_error: AllocError) -> Failure {
        Failure::Memory
    }
}

impl<T: Drop> From<AllocFailed<T>> for Failure {
    fn from(_error: AllocFailed<T>) -> Failure {
        Failure::Memory
    }
}
