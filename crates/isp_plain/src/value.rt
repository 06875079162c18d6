//! What a table holds: columns, values and rows.

ghost use Rattle.std.specs.Prelude.{◌≡◌};
ghost use Rattle.isp_plain.specs.Values.{box_of};

use isp_geom::Geometry;
use isp_mbr::{Box4, Bytes, Duplicate, Name};
use sqlite_items::Items;
use std::alloc::{AllocError, Global};

/// What a column holds: whole numbers (`BIGINT`), texts of at most so many bytes (`VARCHAR`), or geometries of SRID 0
/// (`GEOMETRY`).
#[derive(Clone, Copy, PartialEq, Eq)]
pub enum Kind {
    BigInt,
    VarChar(u16),
    Geo,
}

/// A column of a table. Only one of geometries may be indexed.
#[derive(Drop)]
pub struct Column {
    pub name: Name,
    pub kind: Kind,
    pub indexed: bool,
}

/// Columns, in the table's order.
pub type Columns = Items<Column>;

/// The columns of a table, the key first.
#[derive(Drop)]
pub struct Schema {
    pub columns: Columns,
}

/// What a row has in one column.
#[derive(Drop)]
pub enum Value {
    Int(i64),
    Text(Bytes),
    Geo(Geometry),
}

/// Values, in the order of their columns.
pub type Values = Items<Value>;

/// A row of a table. Its first value is its key.
#[derive(Drop)]
pub struct Row {
    pub values: Values,
}

impl Duplicate for Column {
    fn copy(&self, alloc: Global) -> Result<Column, AllocError> {
        let name = self.name.copy(alloc)?;
        Ok(Column {
            name,
            kind: self.kind,
            indexed: self.indexed,
        })
    }
}

impl Duplicate for Schema {
    fn copy(&self, alloc: Global) -> Result<Schema, AllocError> {
        let columns = self.columns.copy(alloc)?;
        Ok(Schema { columns })
    }
}

impl Duplicate for Value {
    fn copy(&self, alloc: Global) -> Result<Value, AllocError> {
        match self {
            Value::Int(number) => Ok(Value::Int(*number)),
            Value::Text(text) => Ok(Value::Text(text.copy(alloc)?)),
            Value::Geo(geometry) => Ok(Value::Geo(geometry.copy(alloc)?)),
        }
    }
}

impl Duplicate for Row {
    fn copy(&self, alloc: Global) -> Result<Row, AllocError> {
        let values = self.values.copy(alloc)?;
        Ok(Row { values })
    }
}

/// The least box round all points of a geometry: its minimum bounding rectangle (the MySQL 8.0 manual).
pub fn box_of(geometry: &Geometry) -> Box4
    ensures { result ≡ box_of geometry.now }
{
    isp_geom::box_of(geometry)
}
