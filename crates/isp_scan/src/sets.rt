//! What UPDATE puts into a row.

ghost use Rattle.std.specs.Prelude.{◌≡◌, slice_set, IfOk};
ghost use Rattle.isp_plain.specs.Does.{with_sets};

use isp_base::Duplicate;
use isp_plain::{Assign, Row, Value, Values};
use std::alloc::{AllocError, Global};

// The new value at its place, if there is one.
fn put(values: &mut Values, at: usize, value: Value)
    ensures { values.new ≡ slice_set values.old at value }
{
    if at < values.len() {
        values.set(at, value);
    }
}

/// A copy of the row with all of the new values, of which a later one of one column replaces an earlier one. The error is
/// want of memory.
pub fn with_sets(alloc: Global, sets: &[Assign], row: &Row) -> Result<Row, AllocError>
    ensures { IfOk result (λ r. r ≡ with_sets sets.now row.now) }
{
    let mut values = row.values.copy(alloc)?;
    for set in sets {
        put(&mut values, set.column as usize, set.v.copy(alloc)?);
    }
    Ok(Row { values })
}
