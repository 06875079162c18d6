//! What UPDATE puts into a row.

ghost use Rattle.std.specs.Prelude.{◌≡◌, ◌++◌, [], ◌∷◌, if◌then◌else◌, slice_set, IfOk, OnOk};
ghost use Rattle.isp_plain.specs.Does.{with_sets};
ghost use Rattle.isp_plain.specs.Updating.{is_set, last_sets};

use crate::{Assign, Row, Sets, Value, Values};
use isp_mbr::Duplicate;
use std::alloc::{AllocError, Global};

// Whether one of them sets the column.
fn is_set(sets: &[Assign], column: u32) -> bool
    ensures { result ≡ is_set sets.now column }
{
    sets.iter().any(|set| set.column == column)
}

// Adds a copy of the set, unless one behind it sets its column.
fn push_last(
    kept: &mut Sets,
    alloc: Global,
    set: &Assign,
    behind: &[Assign],
) -> Result<(), AllocError>
    ensures { OnOk result (kept.new ≡ kept.old ++ (if is_set behind.now set.now.column then [] else set.now ∷ [])) }
{
    if is_set(behind, set.column) {
        return Ok(());
    }
    kept.push(set.copy(alloc)?)
}

/// Copies of the sets, of each column the last one alone, which is the one that counts. The error is want of memory.
pub fn last_sets(alloc: Global, sets: &[Assign]) -> Result<Sets, AllocError>
    ensures { IfOk result (λ kept. kept ≡ last_sets sets.now) }
{
    let mut kept = Sets::new(alloc);
    for (i, set) in sets.iter().enumerate() {
        push_last(&mut kept, alloc, set, &sets[i + 1..])?;
    }
    Ok(kept)
}

// The new value at its place, if there is one.
fn put(values: &mut Values, at: usize, value: Value)
    ensures { values.new ≡ slice_set values.old at value }
{
    if at < values.len() {
        values.set(at, value);
    }
}

/// A copy of the row with all of the new values, of which a later one of one column replaces an earlier one. The error is
/// want of memory.
pub fn with_sets(alloc: Global, sets: &[Assign], row: &Row) -> Result<Row, AllocError>
    ensures { IfOk result (λ r. r ≡ with_sets sets.now row.now) }
{
    let mut values = row.values.copy(alloc)?;
    for set in sets {
        put(&mut values, set.column as usize, set.v.copy(alloc)?);
    }
    Ok(Row { values })
}
