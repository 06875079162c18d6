//! What ends a run before its end.

ghost use Rattle.std.specs.Prelude.{◌≡◌};

use std::alloc::AllocError;

/// Why a run ended before its end.
#[derive(Clone, Copy, PartialEq, Eq)]
pub enum Stop {
    /// A print failed, or a read of the script.
    Fault,
    /// There was no memory.
    Memory,
}

impl From<AllocError> for Stop {
    ghost use Rattle.isp_run.specs.declared.stop.Stop.TheVariants.{Memory};

    ghost from_gives = { λ _ e. e ≡ Memory };

    fn from(_error: AllocError) -> Stop {
        Stop::Memory
    }
}
