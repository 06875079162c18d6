//! Why bytes are not read.

use std::alloc::AllocError;
use thiserror::Error;

/// Why bytes are not read.
#[derive(Clone, Copy, Debug, PartialEq, Eq, Error)]
pub enum GeomError {
    /// No geometry is spelled so.
    #[error("not a geometry")]
    NotGeometry,
    /// Want of memory.
    #[error("out of memory")]
    OutOfMemory,
}

impl From<AllocError> for GeomError {
    ghost use Rattle.std.specs.Prelude.{◌≡◌};
    ghost use Rattle.isp_geom.specs.declared.error.GeomError.TheVariants.{OutOfMemory};

    ghost from_gives = { λ _ e. e ≡ OutOfMemory };

    fn from(_error: AllocError) -> GeomError {
        GeomError::OutOfMemory
    }
}
