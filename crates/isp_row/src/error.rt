//! Why bytes are not read.

use std::alloc::{AllocError, AllocFailed};
use thiserror::Error;

/// Why bytes are not read as a row.
#[derive(Clone, Copy, Debug, PartialEq, Eq, Error)]
pub enum RowError {
    /// No row of the schema is spelled so.
    #[error("not a row")]
    NotRow,
    /// Want of memory.
    #[error("out of memory")]
    OutOfMemory,
}

impl From<AllocError> for RowError {
    ghost use Rattle.std.specs.Prelude.{◌≡◌};
    ghost use Rattle.isp_row.specs.declared.error.RowError.TheVariants.{OutOfMemory};

    ghost from_gives = { λ _ e. e ≡ OutOfMemory };

    fn from(_error: AllocError) -> RowError {
        RowError::OutOfMemory
    }
}

impl<T: Drop> From<AllocFailed<T>> for RowError {
    ghost use Rattle.std.specs.Prelude.{◌≡◌};
    ghost use Rattle.isp_row.specs.declared.error.RowError.TheVariants.{OutOfMemory};

    ghost from_gives = { λ _ e. e ≡ OutOfMemory };

    fn from(_error: AllocFailed<T>) -> RowError {
        RowError::OutOfMemory
    }
}
