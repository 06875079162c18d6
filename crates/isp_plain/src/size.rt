//! How many bytes a row takes.

ghost use Rattle.std.specs.Prelude.{◌≡◌, ◌+◌, ◌*◌, min, if◌then◌else◌};
ghost use Rattle.std.specs.List.{sum_by};
ghost use Rattle.isp_plain.specs.RowBytes.{indexed_columns, row_bytes, value_bytes};

use crate::{Column, Row, Schema, Value};
use isp_geom::bytes_len;

// At most so many bytes are counted.
const MOST: usize = 65_536;

/// The number of bytes that a row takes in a table of this schema, or 65,536 where that is less: 8 for each indexed
/// column, and for each value after the key 8 for a whole number, and two and its length for a text or a geometry.
pub fn row_size(schema: &Schema, row: &Row) -> usize
    ensures { result ≡ min (row_bytes schema.now row.now) 65536 }
{
    let numbers = numbers_size(schema.columns.as_slice());
    match row.values.as_slice() {
        [_key, others @ ..] => values_size(numbers, others),
        [] => numbers,
    }
}

// The sum, or 65,536 where that is less.
fn capped(a: usize, b: usize) -> usize
    ensures { result ≡ min (a + b) 65536 }
{
    let sum = a.min(MOST) + b.min(MOST);
    sum.min(MOST)
}

// The bytes of the numbers of the indexed columns.
fn numbers_size(columns: &[Column]) -> usize
    ensures { result ≡ min (8 * indexed_columns columns.now) 65536 }
{
    let mut size = 0;
    for column in columns {
        size = capped(size, number_size(column));
    }
    size
}

// The bytes of the number of a column's entry, if it has an index.
fn number_size(column: &Column) -> usize
    ensures { result ≡ (if column.now.indexed then 8 else 0) }
{
    if column.indexed { 8 } else { 0 }
}

fn value_size(value: &Value) -> usize
    ensures { result ≡ min (value_bytes value.now) 65536 }
{
    match value {
        Value::Int(_) => 8,
        Value::Text(text) => capped(2, text.as_slice().len()),
        Value::Geo(geometry) => capped(2, bytes_len(geometry)),
    }
}

// The bytes of the values on top of so many.
fn values_size(before: usize, values: &[Value]) -> usize
    ensures { result ≡ min (before + sum_by value_bytes values.now) 65536 }
{
    let mut size = capped(before, 0);
    for value in values {
        size = capped(size, value_size(value));
    }
    size
}
