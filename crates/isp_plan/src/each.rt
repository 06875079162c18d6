//! One after another, up to the first that is refused.

ghost use Rattle.std.specs.Prelude.{◌≡◌, List, Result};
ghost use Rattle.isp_plan.specs.Refusals.{Gives, each};
ghost use Rattle.isp_plain.specs.declared.refusal.Refusal.{Refusal};
ghost use Rattle.isp_plain.specs.declared.value.Column.{Column};

use crate::refusal::Stop;
use isp_plain::Column;
use sqlite_items::Items;
use std::alloc::Global;

/// What has a meaning on the columns of a table.
pub trait Bound {
    type Out: Drop;

    ghost meaning: { Self → List Column → Result Self.Out Refusal };

    /// What it means. The error is its refusal, or want of memory.
    fn bound(&self, alloc: Global, columns: &[Column]) -> Result<Self::Out, Stop>
        ensures { Gives result (meaning self.now columns.now) };
}

/// What each of them means.
pub fn each<T: Bound>(alloc: Global, columns: &[Column], items: &[T]) -> Result<Items<T::Out>, Stop>
    ensures { Gives result (each (λ item. T.meaning item columns.now) items.now) }
{
    let mut found = Items::new(alloc);
    for item in items {
        let out = item.bound(alloc, columns)?;
        found.push(out)?;
    }
    Ok(found)
}
