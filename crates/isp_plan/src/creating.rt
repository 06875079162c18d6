//! The table that a CREATE TABLE makes.

ghost use Rattle.std.specs.Prelude.{◌≡◌, ◌∷◌, ◌<◌, ◌≤◌, ◌^◌, IfOk, length, min, nat_le, nat_lt};
ghost use Rattle.isp_plan.specs.Creating.{are_distinct, are_indexes, are_short, are_short_columns, column_of, has_column, has_geo, has_name, is_geo, is_geo_named, is_index, is_short, keyed, key_column, kind_of, schema_of, size_limit, varchar};
ghost use Rattle.isp_plan.specs.Numbers.{value_of};
ghost use Rattle.isp_plan.specs.Refusals.{Gives, each};

use crate::number::value_of;
use crate::refusal::{Stop, ensure};
use isp_mbr::{Duplicate, Name};
use isp_plain::{Column, Columns, Kind, Refusal, Schema};
use isp_sql::{ParsedColumn, ParsedKind};
use std::alloc::{AllocError, Global};

// How many columns stand behind the key at the most, and how many indexes.
const COLUMNS: usize = 15;

const INDEXES: usize = 2;

// Bytes of a name at the most.
const NAME: usize = 32;

// Bytes of a VARCHAR column at the most.
const SIZE: u64 = 500;

/// Whether the name is within the limit.
pub fn is_short(name: &Name) -> bool
    ensures { result ≡ is_short name.now }
{
    name.as_slice().len() <= NAME
}

fn are_short(key: &Name, columns: &[ParsedColumn]) -> bool
    ensures { result ≡ are_short key.now columns.now }
{
    is_short(key) && are_short_columns(columns)
}

fn are_short_columns(columns: &[ParsedColumn]) -> bool
    ensures { result ≡ are_short_columns columns.now }
{
    columns.iter().all(|column| is_short(&column.name))
}

fn has_column(columns: &[ParsedColumn], name: &Name) -> bool
    ensures { result ≡ has_column columns.now name.now }
{
    columns.iter().any(|column| column.name == *name)
}

fn are_distinct(columns: &[ParsedColumn]) -> bool
    ensures { result ≡ are_distinct columns.now }
{
    for (i, column) in columns.iter().enumerate() {
        if has_column(&columns[i + 1..], &column.name) {
            return false;
        }
    }
    true
}

fn is_geo(kind: &ParsedKind) -> bool
    ensures { result ≡ is_geo kind.now }
{
    match kind {
        ParsedKind::Geo => true,
        _ => false,
    }
}

fn is_geo_named(column: &ParsedColumn, name: &Name) -> bool
    ensures { result ≡ is_geo_named column.now name.now }
{
    is_geo(&column.kind) && column.name == *name
}

fn has_geo(columns: &[ParsedColumn], name: &Name) -> bool
    ensures { result ≡ has_geo columns.now name.now }
{
    columns.iter().any(|column| is_geo_named(column, name))
}

fn has_name(names: &[Name], name: &Name) -> bool
    ensures { result ≡ has_name names.now name.now }
{
    names.iter().any(|other| *other == *name)
}

// Whether the first index is on a column of geometries that has no other.
fn is_index(columns: &[ParsedColumn], name: &Name, others: &[Name]) -> bool
    ensures { result ≡ is_index columns.now name.now others.now }
{
    has_geo(columns, name) && !has_name(others, name)
}

fn are_indexes(columns: &[ParsedColumn], names: &[Name]) -> bool
    ensures { result ≡ are_indexes columns.now names.now }
{
    for (i, name) in names.iter().enumerate() {
        if !is_index(columns, name, &names[i + 1..]) {
            return false;
        }
    }
    true
}

fn varchar(size: u64) -> Result<Kind, Refusal>
    ensures { result ≡ varchar size }
{
    ensure(Refusal::OutOfLimits, 0 < size)?;
    ensure(Refusal::OutOfLimits, size <= SIZE)?;
    Ok(Kind::VarChar(size as u16))
}

fn kind_of(kind: &ParsedKind) -> Result<Kind, Refusal>
    ensures { result ≡ kind_of kind.now }
{
    match kind {
        ParsedKind::BigInt => Ok(Kind::BigInt),
        ParsedKind::VarChar(digits) => varchar_of(digits.as_slice()),
        ParsedKind::Geo => Ok(Kind::Geo),
    }
}

fn varchar_of(digits: &[u8]) -> Result<Kind, Refusal>
    ensures { result ≡ varchar (value_of digits.now) }
{
    varchar(value_of(digits))
}

fn column_of(alloc: Global, indexes: &[Name], column: &ParsedColumn) -> Result<Column, Stop>
    ensures { Gives result (column_of indexes.now column.now) }
{
    let kind = kind_of(&column.kind)?;
    let name = column.name.copy(alloc)?;
    let indexed = has_name(indexes, &column.name);
    Ok(Column {
        name,
        kind,
        indexed,
    })
}

fn key_column(alloc: Global, key: &Name) -> Result<Column, AllocError>
    ensures { IfOk result (λ column. column ≡ key_column key.now) }
{
    let name = key.copy(alloc)?;
    Ok(Column {
        name,
        kind: Kind::BigInt,
        indexed: false,
    })
}

// The key's column, and those behind it.
fn columns_of(
    alloc: Global,
    key: &Name,
    columns: &[ParsedColumn],
    indexes: &[Name],
) -> Result<Columns, Stop>
    ensures { Gives result (keyed key.now (each (column_of indexes.now) columns.now)) }
{
    let mut found = Columns::new(alloc);
    found.push(key_column(alloc, key)?)?;
    for column in columns {
        let column = column_of(alloc, indexes, column)?;
        found.push(column)?;
    }
    Ok(found)
}

/// The columns of a new table, the key first, where they are within the limits of a definition.
#[tactic(auto, unfolding(crate::specs::Creating::schema_of))]
pub fn schema_of(
    alloc: Global,
    key: &Name,
    columns: &[ParsedColumn],
    indexes: &[Name],
) -> Result<Schema, Stop>
    ensures { Gives result (schema_of key.now columns.now indexes.now) }
{
    ensure(Refusal::OutOfLimits, columns.len() <= COLUMNS)?;
    ensure(Refusal::OutOfLimits, are_short(key, columns))?;
    ensure(Refusal::OutOfLimits, !has_column(columns, key))?;
    ensure(Refusal::OutOfLimits, are_distinct(columns))?;
    ensure(Refusal::OutOfLimits, indexes.len() <= INDEXES)?;
    ensure(Refusal::OutOfLimits, are_indexes(columns, indexes))?;
    let columns = columns_of(alloc, key, columns, indexes)?;
    Ok(Schema { columns })
}
