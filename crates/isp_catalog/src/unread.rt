//! Why a definition isn't read.
ghost use Rattle.std.specs.Prelude.{◌≡◌};
ghost use Rattle.isp_catalog.specs.declared.unread.Unread.TheVariants.{Lacking};

use std::alloc::{AllocError, AllocFailed};

/// Why a definition isn't read from bytes.
#[derive(Clone, Copy)]
pub(crate) enum Unread {
    /// They are no definition.
    Broken,
    /// Want of memory.
    Lacking,
}

impl From<AllocError> for Unread {
    ghost from_gives = { λ _ e. e ≡ Lacking };

    fn from(_: AllocError) -> Unread {
        Unread::Lacking
    }
}

impl<T: Drop> From<AllocFailed<T>> for Unread {
    ghost from_gives = { λ _ e. e ≡ Lacking };

    fn from(_: AllocFailed<T>) -> Unread {
        Unread::Lacking
    }
}
