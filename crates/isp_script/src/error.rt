//! Why bytes are no script.

use std::alloc::AllocError;
use thiserror::Error;

/// Why bytes are not read as a script.
#[derive(Clone, Copy, Debug, PartialEq, Eq, Error)]
pub enum ScriptError {
    /// The bytes are no script. `line`, counted from 1, is the first line up to which they begin none, or the one behind
    /// their last line where more lines could make them one; 0 means that they are too many.
    #[error("bad script at line {line}")]
    Bad { line: u64 },
    /// Want of memory.
    #[error("out of memory")]
    OutOfMemory,
}

impl From<AllocError> for ScriptError {
    ghost use Rattle.std.specs.Prelude.{◌≡◌};
    ghost use Rattle.isp_script.specs.declared.error.ScriptError.TheVariants.{OutOfMemory};

    ghost from_gives = { λ _ e. e ≡ OutOfMemory };

    fn from(_error: AllocError) -> ScriptError {
        ScriptError::OutOfMemory
    }
}
