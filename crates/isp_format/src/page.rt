//! A page.
ghost use Rattle.std.specs.Prelude.{◌≡◌, ℕ};
ghost use Rattle.isp_disk.specs.Moments.{image_of};

use crate::sizes::PAGE_BYTES;
use std::clone::Clone;

/// The bytes of a page.
#[derive(Clone, Copy, Debug, PartialEq, Eq)]
pub struct Page {
    pub bytes: [u8; PAGE_BYTES],
}

impl Page {
    /// A page of zeros.
    pub fn zeros() -> Page
        ensures { (place : ℕ) → image_of result.bytes place ≡ 0 }
    {
        Page {
            bytes: [0; PAGE_BYTES],
        }
    }
}
