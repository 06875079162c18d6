//! The rows of a leaf of which a condition holds.

ghost use Rattle.std.specs.Prelude.{◌≡◌, ◌++◌, [], ◌∷◌, List, IfErr, IfOk, OnOk};
ghost use Rattle.isp_clustered.specs.Leaves.{kept_row_of};
ghost use Rattle.isp_image.specs.Databases.{FileRow};
ghost use Rattle.isp_row.specs.declared.error.RowError.TheVariants.{OutOfMemory};
ghost use Rattle.isp_scan.specs.Scanning.{AreKeptAs, AreRowsOf, IsKeptAs, held_of, held_rows};

use crate::condition::holds;
use isp_clustered::KeptRow;
use isp_plain::{Condition, Row, Rows, Schema};
use isp_row::{RowError, from_row};
use std::alloc::{AllocError, Global};

// Adds the row where the condition holds of it.
fn push_held(rows: &mut Rows, w: &Condition, row: Row) -> Result<(), AllocError>
    ensures { OnOk result (rows.new ≡ rows.old ++ held_of w.now row) }
{
    if !holds(w, &row) {
        return Ok(());
    }
    rows.push(row)
}

// Adds the row that stands there, where it isn't marked and the condition holds of it.
fn push_shown(
    alloc: Global,
    rows: &mut Rows,
    schema: &Schema,
    w: &Condition,
    at: &KeptRow,
) -> Result<(), RowError>
    ensures rows { AreRowsOf schema.now rows.old → OnOk result (AreRowsOf schema.now rows.new) }
    ensures held { (r : FileRow) → IsKeptAs schema.now at.now r
        → OnOk result (rows.new ≡ rows.old ++ held_rows w.now (r ∷ [])) }
    ensures sound { (r : FileRow) → IsKeptAs schema.now at.now r
        → IfErr result (λ e. e ≡ OutOfMemory) }
{
    if at.kept.marked {
        return Ok(());
    }
    let (row, _numbers) = from_row(alloc, schema, at.key, at.kept.row.as_slice())?;
    push_held(rows, w, row)?;
    Ok(())
}

/// The unmarked rows of a leaf of which the condition holds.
///
/// # Errors
///
/// NotRow, where bytes spell no row of the schema; want of memory.
pub fn held_in(
    alloc: Global,
    schema: &Schema,
    w: &Condition,
    leaf: &[KeptRow],
) -> Result<Rows, RowError>
    ensures rows { IfOk result (AreRowsOf schema.now) }
    ensures held { (rows : List FileRow) → AreKeptAs schema.now leaf.now rows
        → IfOk result (λ found. found ≡ held_rows w.now rows) }
    ensures sound { (rows : List FileRow) → AreKeptAs schema.now leaf.now rows
        → IfErr result (λ e. e ≡ OutOfMemory) }
{
    let mut rows = Rows::new(alloc);
    for at in leaf {
        push_shown(alloc, &mut rows, schema, w, at)?;
    }
    Ok(rows)
}
