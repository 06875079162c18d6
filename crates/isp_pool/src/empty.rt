//! Vectors of nothing yet.

ghost use Rattle.std.specs.Prelude.{◌≡◌, None, IfOk, replicate};

use std::alloc::{AllocError, Global};

/// So many places, each empty.
pub(crate) fn all_none<T: Drop>(alloc: Global, n: usize) -> Result<Vec<Option<T>>, AllocError>
    ensures { IfOk result (λ v. v.items ≡ replicate n None) }
{
    let mut v = Vec::with_capacity(alloc, n)?;
    for _place in 0..n {
        v.push(None)?;
    }
    Ok(v)
}
