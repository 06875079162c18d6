//! What a statement finds among rows that stand on a leaf.

ghost use Rattle.std.specs.Prelude.{◌≡◌, List, IfErr, IfOk};
ghost use Rattle.isp_image.specs.Databases.{FileRow, shown};
ghost use Rattle.isp_row.specs.declared.error.RowError.TheVariants.{OutOfMemory};
ghost use Rattle.isp_work.specs.Finding.{found_in, held_by, updated_by};
ghost use Rattle.isp_scan.specs.Readings.{AreFoundFor, AreFoundNew, SetsFit, SetsFitIn};
ghost use Rattle.isp_scan.specs.Scanning.{AreKeptAs};

use crate::cut::cut_rows;
use crate::held::held_in;
use crate::rows::updated_rows;
use isp_clustered::KeptRow;
use isp_plain::{Assign, Condition, Rows, Schema, Statement};
use isp_row::RowError;
use isp_work::Found;
use std::alloc::Global;

// What UPDATE finds.
fn updated_in(
    alloc: Global,
    schema: &Schema,
    sets: &[Assign],
    w: &Condition,
    leaf: &[KeptRow],
) -> Result<Found, RowError>
    requires sets { SetsFit schema.now sets.now }
    ensures rows { IfOk result (AreFoundNew schema.now) }
    ensures found { (rows : List FileRow) → AreKeptAs schema.now leaf.now rows
        → IfOk result (λ found. found ≡ updated_by schema.now sets.now (held_by w.now (shown rows))) }
    ensures sound { (rows : List FileRow) → AreKeptAs schema.now leaf.now rows
        → IfErr result (λ e. e ≡ OutOfMemory) }
{
    let rows = held_in(alloc, schema, w, leaf)?;
    match updated_rows(alloc, schema, sets, rows.as_slice())? {
        Some(rows) => Ok(Found::Rows(rows)),
        None => Ok(Found::TooLarge),
    }
}

/// What a statement finds: SELECT the rows of its answer, UPDATE those that it writes, DELETE those that it deletes.
///
/// # Errors
///
/// NotRow, where bytes spell no row of the schema; want of memory.
pub fn found_in(
    alloc: Global,
    schema: &Schema,
    statement: &Statement,
    leaf: &[KeptRow],
) -> Result<Found, RowError>
    requires sets { SetsFitIn schema.now statement.now }
    ensures rows { IfOk result (AreFoundFor schema.now statement.now) }
    ensures found { (rows : List FileRow) → AreKeptAs schema.now leaf.now rows
        → IfOk result (λ found. found ≡ found_in schema.now statement.now (shown rows)) }
    ensures sound { (rows : List FileRow) → AreKeptAs schema.now leaf.now rows
        → IfErr result (λ e. e ≡ OutOfMemory) }
{
    match statement {
        Statement::Select { columns, w, .. } => {
            let rows = held_in(alloc, schema, w, leaf)?;
            let rows = cut_rows(alloc, columns.as_slice(), rows.as_slice())?;
            Ok(Found::Rows(rows))
        }
        Statement::Update { sets, w, .. } => updated_in(alloc, schema, sets.as_slice(), w, leaf),
        Statement::Delete { w, .. } => {
            let rows = held_in(alloc, schema, w, leaf)?;
            Ok(Found::Rows(rows))
        }
        _ => Ok(Found::Rows(Rows::new(alloc))),
    }
}
