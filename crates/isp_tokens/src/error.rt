//! Why a text is not read.

use std::alloc::AllocError;
use thiserror::Error;

/// Why a text is not read as a statement.
#[derive(Clone, Copy, Debug, PartialEq, Eq, Error)]
pub enum SqlError {
    /// The text is not in the grammar.
    #[error("syntax")]
    Syntax,
    /// Want of memory.
    #[error("out of memory")]
    OutOfMemory,
}

impl From<AllocError> for SqlError {
    ghost use Rattle.std.specs.Prelude.{◌≡◌};
    ghost use Rattle.isp_tokens.specs.declared.error.SqlError.TheVariants.{OutOfMemory};

    ghost from_gives = { λ _ e. e ≡ OutOfMemory };

    fn from(_error: AllocError) -> SqlError {
        SqlError::OutOfMemory
    }
}
