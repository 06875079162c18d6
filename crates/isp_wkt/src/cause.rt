//! Why a text is not a geometry, and where.

use std::alloc::AllocError;
use thiserror::Error;

/// Why a text is outside the grammar. The place is the first byte after which no text of the grammar goes on, or the
/// length where the text ends too early; the cause is the first of these that fits there.
#[derive(Clone, Copy, Debug, PartialEq, Eq)]
pub enum WktCause {
    /// The text ends where more is needed.
    Truncated,
    /// A digit 1 to 9 in a fraction, or `e` or `E` directly after a number.
    NotWhole,
    /// A digit that takes a coordinate's size past 1,073,741,824.
    OutOfRange,
    /// The `(` of a ninth collection.
    TooDeep,
    /// A `)` that ends a line of fewer than 2 points or a ring of fewer than 4.
    TooFew,
    /// A `)` that ends a ring whose last point isn't its first.
    Unclosed,
    /// `E` or `e` where a `(` is wanted, or `)` with nothing but blanks between it and the last `(`.
    Empty,
    /// A byte other than a blank after the geometry.
    Trailing,
    /// Any other byte.
    Unknown,
}

/// Why a text is not read.
#[derive(Clone, Copy, Debug, PartialEq, Eq, Error)]
pub enum WktError {
    /// The text is outside the grammar, at the byte `at`, from 0.
    #[error("no geometry's text at byte {at}")]
    Bad { cause: WktCause, at: usize },
    /// Want of memory.
    #[error("out of memory")]
    OutOfMemory,
}

/// A fault, with the number of bytes from there to the end of the text.
#[derive(Clone, Copy)]
pub struct Fault {
    pub cause: WktCause,
    pub left: usize,
}

/// Why reading stops.
#[derive(Clone, Copy)]
pub enum Stop {
    Bad(Fault),
    OutOfMemory,
}

impl From<AllocError> for Stop {
    ghost use Rattle.std.specs.Prelude.{◌≡◌};
    ghost use Rattle.isp_wkt.specs.declared.cause.Stop.TheVariants.{OutOfMemory};

    ghost from_gives = { λ _ e. e ≡ OutOfMemory };

    fn from(_error: AllocError) -> Stop {
        Stop::OutOfMemory
    }
}

impl From<Fault> for Stop {
    ghost use Rattle.std.specs.Prelude.{◌≡◌};
    ghost use Rattle.isp_wkt.specs.declared.cause.Stop.TheVariants.{Bad};

    ghost from_gives = { λ f e. e ≡ Bad f };

    fn from(fault: Fault) -> Stop {
        Stop::Bad(fault)
    }
}
