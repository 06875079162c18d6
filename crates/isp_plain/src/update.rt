//! What UPDATE and DELETE do with the rows of which a condition holds.

ghost use Rattle.std.specs.Prelude.{◌≡◌, ◌↔◌, ◌++◌, [], true, false, not, nat_lt, filter, length, map, slice_set, IfOk, OnOk, MatchOption};
ghost use Rattle.std.specs.List.{fold, list_any};
ghost use Rattle.std.specs.List.Sorted.{IsStrictlySortedBy};
ghost use Rattle.std.specs.Map.{keys_of, values_of};
ghost use Rattle.std.specs.Ordering.{int_cmp};
ghost use Rattle.isp_plain.specs.Conditions.{holds};
ghost use Rattle.isp_plain.specs.Does.{count_of, outgrows, updated, with_sets};
ghost use Rattle.isp_plain.specs.Entries.{with_value};
ghost use Rattle.isp_plain.specs.RowBytes.{row_bytes, row_limit};
ghost use Rattle.isp_plain.specs.Updating.{changes_of, with_changes};

use crate::condition::holds;
use crate::entries::{Entries, replace};
use crate::sets::with_sets;
use crate::{Assign, Condition, Row, Schema, row_size};
use std::alloc::{AllocError, Global};

// The most bytes that a row may have.
const ROW_LIMIT: usize = 1_000;

/// A row that UPDATE writes, and its key.
pub type Changed = (i64, Row);

// Whether the row has more bytes than a row may have.
fn is_too_large(schema: &Schema, row: &Row) -> bool
    ensures { result ≡ nat_lt row_limit (row_bytes schema.now row.now) }
{
    row_size(schema, row) > ROW_LIMIT
}

/// The rows of which the condition holds with their new values, rising by key; None where one of them would have more
/// bytes than a row may have. The error is want of memory.
pub fn changes(
    entries: &Entries,
    alloc: Global,
    schema: &Schema,
    sets: &[Assign],
    condition: &Condition,
) -> Result<Option<Vec<Changed>>, AllocError>
    ensures changes { IfOk result (λ changes. MatchOption changes
        (list_any (outgrows schema.now sets.now condition.now) (values_of entries.now.entries) ≡ true)
        (λ changed. (list_any (outgrows schema.now sets.now condition.now) (values_of entries.now.entries) ≡ false)
        × (changed.items ≡ changes_of sets.now condition.now entries.now.entries))) }
    ensures ordered { OnOk result (IsStrictlySortedBy int_cmp (keys_of entries.now.entries)) }
{
    let mut changed = Vec::new(alloc);
    for (key, row) in entries {
        if holds(condition, row) {
            let new = with_sets(alloc, sets, row)?;
            if is_too_large(schema, &new) {
                return Ok(None);
            }
            changed.push((*key, new))?;
        }
    }
    Ok(Some(changed))
}

/// Puts the rows at their keys, where there are such keys. It takes no memory.
pub fn write(entries: &mut Entries, changed: Vec<Changed>)
    ensures { entries.new.entries ≡ with_changes entries.old.entries changed.items }
{
    for (key, row) in changed {
        replace(entries, key, row);
    }
}

/// Takes out the rows of which the condition holds, and says how many they were. It takes no memory.
pub fn remove_held(entries: &mut Entries, condition: &Condition) -> usize
    ensures count { result ≡ count_of condition.now (values_of entries.old.entries) }
    ensures rest { entries.new.entries ≡ filter (λ e. not (holds condition.now e.1)) entries.old.entries }
{
    let before = entries.len();
    entries.retain(|_key, row| !holds(condition, row));
    before - entries.len()
}
