//! Reading a row.
ghost use Rattle.std.specs.Prelude.{◌≡◌, ℕ, ℤ, Err, IfOk, List, []};
ghost use Rattle.isp_plain.specs.declared.value.Kind.TheVariants as kind;
ghost use Rattle.isp_plain.specs.declared.value.Row.{Row};
ghost use Rattle.isp_row.specs.Reading.{Adds, Finds, Gives, column_at, each_at, entry_at, geometry_in, is_number, row_in, text_within, value_at, values_at};
ghost use Rattle.isp_row.specs.RowSpelling.{Spells};
ghost use Rattle.isp_row.specs.declared.error.RowError.TheVariants.{NotRow};

use crate::cursor::Cursor;
use crate::error::RowError;
use isp_base::Bytes;
use isp_geom::{GeomError, Geometry, from_bytes};
use isp_plain::{Column, Kind, Row, Schema, Value, Values};
use sqlite_items::Items;
use std::alloc::Global;

/// The row with that key that the bytes spell, all of them, and the numbers of its entries.
///
/// # Errors
///
/// NotRow, exactly where the bytes spell no row of the schema with that key; want of memory.
pub fn from_row(
    alloc: Global,
    schema: &Schema,
    key: i64,
    b: &[u8],
) -> Result<(Row, Vec<u64>), RowError>
    ensures found { IfOk result (λ got. Spells schema.now key b.now got.0 got.1.items) }
    ensures again { (row : Row) (numbers : List ℕ) → Spells schema.now key b.now row numbers
        → IfOk result (λ got. (got.0 ≡ row) × (got.1.items ≡ numbers)) }
    ensures refused { result ≡ Err NotRow → (row : Row) (numbers : List ℕ)
        → Spells schema.now key b.now row numbers → ⊥ }
{
    let mut numbers = Vec::new(alloc);
    let values = whole(alloc, schema.columns.as_slice(), key, b, &mut numbers)?;
    Ok((Row { values }, numbers))
}

// The values of the row that all of the bytes spell; the numbers of its entries come on the list, which is empty.
#[tactic(auto, unfolding(crate::specs::Reading::row_in))]
fn whole(
    alloc: Global,
    columns: &[Column],
    key: i64,
    b: &[u8],
    numbers: &mut Vec<u64>,
) -> Result<Values, RowError>
    ensures { numbers.old.items ≡ []
        → Gives result (row_in columns.now key b.now) numbers.new.items }
{
    let mut from = Cursor::new(b);
    read_numbers(columns, &mut from, numbers)?;
    let values = read_keyed(alloc, columns, key, &mut from)?;
    if from.is_empty() {
        Ok(values)
    } else {
        Err(RowError::NotRow)
    }
}

// Adds the number of a column's entry, where it has an index.
fn read_number(
    column: &Column,
    from: &mut Cursor<'_>,
    numbers: &mut Vec<u64>,
) -> Result<(), RowError>
    ensures { Adds result numbers.old.items numbers.new.items
        (entry_at column.now from.old) from.new }
{
    if !column.indexed {
        return Ok(());
    }
    match from.number() {
        Some(number) => {
            numbers.push(number)?;
            Ok(())
        }
        None => Err(RowError::NotRow),
    }
}

// Adds the numbers of the entries of all columns that have an index.
fn read_numbers(
    columns: &[Column],
    from: &mut Cursor<'_>,
    numbers: &mut Vec<u64>,
) -> Result<(), RowError>
    ensures { Adds result numbers.old.items numbers.new.items
        (each_at entry_at columns.now from.old) from.new }
{
    for column in columns {
        read_number(column, from, numbers)?;
    }
    Ok(())
}

// The geometry that all of the bytes spell.
fn geometry(alloc: Global, bytes: &[u8]) -> Result<Geometry, RowError>
    ensures { Finds result (geometry_in bytes.now) }
{
    match from_bytes(alloc, bytes) {
        Ok(geometry) => Ok(geometry),
        Err(GeomError::NotGeometry) => Err(RowError::NotRow),
        Err(GeomError::OutOfMemory) => Err(RowError::OutOfMemory),
    }
}

// The bytes as a text, where they are so many at most.
fn text(most: u16, bytes: Bytes) -> Option<Value>
    ensures { result ≡ text_within most bytes }
{
    if bytes.as_slice().len() <= usize::from(most) {
        Some(Value::Text(bytes))
    } else {
        None
    }
}

fn read_int(from: &mut Cursor<'_>) -> Result<Value, RowError>
    ensures { Gives result (value_at kind.BigInt from.old) from.new }
{
    match from.number() {
        Some(number) => Ok(Value::Int(number.cast_signed())),
        None => Err(RowError::NotRow),
    }
}

fn read_text(alloc: Global, most: u16, from: &mut Cursor<'_>) -> Result<Value, RowError>
    ensures { Gives result (value_at (kind.VarChar most) from.old) from.new }
{
    let bytes = from.piece(alloc)?;
    match text(most, bytes) {
        Some(value) => Ok(value),
        None => Err(RowError::NotRow),
    }
}

fn read_geometry(alloc: Global, from: &mut Cursor<'_>) -> Result<Value, RowError>
    ensures { Gives result (value_at kind.Geo from.old) from.new }
{
    let bytes = from.piece(alloc)?;
    let geometry = geometry(alloc, bytes.as_slice())?;
    Ok(Value::Geo(geometry))
}

// A value of a column of that kind.
fn read_value(alloc: Global, kind: Kind, from: &mut Cursor<'_>) -> Result<Value, RowError>
    ensures { Gives result (value_at kind from.old) from.new }
{
    match kind {
        Kind::BigInt => read_int(from),
        Kind::VarChar(most) => read_text(alloc, most, from),
        Kind::Geo => read_geometry(alloc, from),
    }
}

// Adds a value for each column.
fn read_values(
    alloc: Global,
    columns: &[Column],
    from: &mut Cursor<'_>,
    values: &mut Values,
) -> Result<(), RowError>
    ensures { Adds result values.old values.new (each_at column_at columns.now from.old) from.new }
{
    for column in columns {
        let value = read_value(alloc, column.kind, from)?;
        values.push(value)?;
    }
    Ok(())
}

fn is_number(kind: Kind) -> bool
    ensures { result ≡ is_number kind }
{
    match kind {
        Kind::BigInt => true,
        Kind::VarChar(_) => false,
        Kind::Geo => false,
    }
}

// A row's values, the key first.
fn read_keyed(
    alloc: Global,
    columns: &[Column],
    key: i64,
    from: &mut Cursor<'_>,
) -> Result<Values, RowError>
    ensures { Gives result (values_at columns.now key from.old) from.new }
{
    match columns {
        [first, others @ ..] => {
            if !is_number(first.kind) {
                return Err(RowError::NotRow);
            }
            let mut values = Items::new(alloc);
            values.push(Value::Int(key))?;
            read_values(alloc, others, from, &mut values)?;
            Ok(values)
        }
        [] => Err(RowError::NotRow),
    }
}
