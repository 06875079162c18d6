//! Rows that are written.

ghost use Rattle.std.specs.Prelude.{◌≡◌, ◌≤◌, IfOk, length, nat_lt};
ghost use Rattle.isp_plain.specs.RowBytes.{indexed_columns, row_bytes, row_limit};
ghost use Rattle.isp_plain.specs.Values.{key_of};
ghost use Rattle.isp_row.specs.RowSpelling.{IsRowOf};
ghost use Rattle.isp_scan.specs.Scanning.{SpellsRow, updated_or_none};

use crate::sets::with_sets;
use isp_base::Bytes;
use isp_format::MOST_SLOT;
use isp_plain::{Assign, Column, Row, Rows, Schema, Value};
use isp_row::{size, to_row};
use std::alloc::{AllocError, Global};

/// The key of a row: its first value.
pub fn key_of(row: &Row) -> i64
    ensures { result ≡ key_of row.now }
{
    match row.values.as_slice() {
        [Value::Int(key), ..] => *key,
        _ => 0,
    }
}

// A number for each entry that the row has in R-trees, of which there are none yet.
fn no_numbers(alloc: Global, columns: &[Column]) -> Result<Vec<u64>, AllocError>
    ensures { IfOk result (λ numbers. length numbers.items ≡ indexed_columns columns.now) }
{
    let mut numbers = Vec::new(alloc);
    for column in columns {
        if column.indexed {
            numbers.push(0)?;
        }
    }
    Ok(numbers)
}

/// The bytes of a row, with 0 as the number of each of its entries in R-trees.
///
/// # Errors
///
/// Want of memory.
pub fn spell(alloc: Global, schema: &Schema, row: &Row) -> Result<Bytes, AllocError>
    requires row { IsRowOf schema.now (key_of row.now) row.now }
    requires small { row_bytes schema.now row.now ≤ row_limit }
    ensures spells { IfOk result (SpellsRow schema.now row.now) }
    ensures short { IfOk result (λ bytes. length bytes ≤ row_limit) }
{
    let numbers = no_numbers(alloc, schema.columns.as_slice())?;
    let bytes = to_row(alloc, schema, row, numbers.as_slice())?;
    let _size = size(schema, row);
    Ok(bytes)
}

// Whether the row has more bytes than a row may have.
fn is_too_large(schema: &Schema, row: &Row) -> bool
    ensures { result ≡ nat_lt row_limit (row_bytes schema.now row.now) }
{
    size(schema, row) > MOST_SLOT
}

/// The rows with the new values, or None where one of them would have more bytes than a row may have.
///
/// # Errors
///
/// Want of memory.
pub fn updated_rows(
    alloc: Global,
    schema: &Schema,
    sets: &[Assign],
    rows: &[Row],
) -> Result<Option<Rows>, AllocError>
    ensures { IfOk result (λ found. found ≡ updated_or_none schema.now sets.now rows.now) }
{
    let mut found = Rows::new(alloc);
    for row in rows {
        let new = with_sets(alloc, sets, row)?;
        if is_too_large(schema, &new) {
            return Ok(None);
        }
        found.push(new)?;
    }
    Ok(Some(found))
}
