//! Checks that refuse a statement, and what stops them.

ghost use Rattle.std.specs.Prelude.{◌≡◌};
ghost use Rattle.isp_plan.specs.Refusals.{ensure};

use isp_plain::Refusal;
use std::alloc::AllocError;

/// Why binding stops.
#[derive(Clone, Copy, PartialEq, Eq)]
pub enum Stop {
    Refused(Refusal),
    /// Want of memory.
    Memory,
}

impl From<AllocError> for Stop {
    ghost use Rattle.std.specs.Prelude.{◌≡◌};
    ghost use Rattle.isp_plan.specs.declared.refusal.Stop.TheVariants.{Memory};

    ghost from_gives = { λ _ e. e ≡ Memory };

    fn from(_error: AllocError) -> Stop {
        Stop::Memory
    }
}

impl From<Refusal> for Stop {
    ghost use Rattle.std.specs.Prelude.{◌≡◌};
    ghost use Rattle.isp_plan.specs.declared.refusal.Stop.TheVariants.{Refused};

    ghost from_gives = { λ r e. e ≡ Refused r };

    fn from(refusal: Refusal) -> Stop {
        Stop::Refused(refusal)
    }
}

/// Refused unless it is so.
pub fn ensure(refusal: Refusal, holds: bool) -> Result<(), Refusal>
    ensures { result ≡ ensure refusal holds }
{
    if holds { Ok(()) } else { Err(refusal) }
}
