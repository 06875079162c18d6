//! Why a call of a store of pages fails.
ghost use Rattle.std.specs.Prelude.{◌≡◌};
ghost use Rattle.isp_page.specs.declared.fault.Fault.TheVariants.{Memory, Store};

use std::alloc::{AllocError, AllocFailed};
use thiserror::Error;

/// A failure of a store of pages. The store isn't used again after it.
#[derive(Clone, Copy, Debug, PartialEq, Eq, Error)]
pub enum StoreFault {
    /// A read, a write or a sync of the disk failed.
    #[error("the disk failed")]
    Disk,
    /// A print failed.
    #[error("the printer failed")]
    Print,
    /// The contents break a page rule, which has this number; the page is one that shows it.
    #[error("page {page} breaks rule {rule}")]
    Damaged { page: u32, rule: u32 },
}

/// A failure of a call that takes memory besides.
#[derive(Clone, Copy, Debug, PartialEq, Eq, Error)]
pub enum Fault {
    /// The store failed.
    #[error("{0}")]
    Store(StoreFault),
    /// Memory ran out.
    #[error("out of memory")]
    Memory,
}

impl From<StoreFault> for Fault {
    ghost from_gives = { λ fault e. e ≡ Store fault };

    fn from(fault: StoreFault) -> Fault {
        Fault::Store(fault)
    }
}

impl From<AllocError> for Fault {
    ghost from_gives = { λ _ e. e ≡ Memory };

    fn from(_: AllocError) -> Fault {
        Fault::Memory
    }
}

impl<T: Drop> From<AllocFailed<T>> for Fault {
    ghost from_gives = { λ _ e. e ≡ Memory };

    fn from(_: AllocFailed<T>) -> Fault {
        Fault::Memory
    }
}
