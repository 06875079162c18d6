//! Copies that take memory, and say where there is none.

ghost use Rattle.std.specs.Prelude.{◌≡◌, IfOk};

use crate::Bytes;
use sqlite_items::Items;
use std::alloc::{AllocError, Global};

/// A value that can be copied where there is memory for it.
pub trait Duplicate: Drop {
    /// An equal value of its own. The error is want of memory.
    fn copy(&self, alloc: Global) -> Result<Self, AllocError>
        ensures { IfOk result (λ c. c ≡ self.now) };
}

impl Duplicate for u32 {
    fn copy(&self, alloc: Global) -> Result<u32, AllocError> {
        Ok(*self)
    }
}

impl Duplicate for i64 {
    fn copy(&self, alloc: Global) -> Result<i64, AllocError> {
        Ok(*self)
    }
}

impl Duplicate for Bytes {
    fn copy(&self, alloc: Global) -> Result<Bytes, AllocError> {
        Bytes::from_slice(alloc, self.as_slice())
    }
}

impl<T: Duplicate> Duplicate for Items<T> {
    fn copy(&self, alloc: Global) -> Result<Items<T>, AllocError> {
        let mut copies = Items::new(alloc);
        for item in self.as_slice() {
            copies.push(item.copy(alloc)?)?;
        }
        Ok(copies)
    }
}
