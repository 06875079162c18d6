//! A statement as it is written: names, digits and strings, not yet bound to any table.

use isp_base::{Bytes, Name};
use isp_mbr::Test;
use isp_plain::Op;
use sqlite_items::Items;

/// Names, in their order.
pub type Names = Items<Name>;

/// A value as it is written. `Number` has the digits and whether a minus stands before them; `Text` is a string, and
/// `Wkt` the string within `ST_GeomFromText`, both without their quotes and with `''` read as one quote.
#[derive(Drop)]
pub enum Literal {
    Number { minus: bool, digits: Bytes },
    Text(Bytes),
    Wkt(Bytes),
}

/// The values of a row, in their order.
pub type Literals = Items<Literal>;

/// The rows of an INSERT, in their order.
pub type LiteralRows = Items<Literals>;

/// What a column holds. `VarChar` has the digits of its size.
#[derive(Drop)]
pub enum ParsedKind {
    BigInt,
    VarChar(Bytes),
    Geo,
}

/// A column of a CREATE TABLE behind the key.
#[derive(Drop)]
pub struct ParsedColumn {
    pub name: Name,
    pub kind: ParsedKind,
}

/// The columns of a CREATE TABLE behind the key, in their order.
pub type ParsedColumns = Items<ParsedColumn>;

/// What UPDATE sets: the column's new value.
#[derive(Drop)]
pub struct ParsedSet {
    pub column: Name,
    pub v: Literal,
}

/// What UPDATE sets, in the order of the text.
pub type ParsedSets = Items<ParsedSet>;

/// One test of a condition: how a column's value compares with a number or a string, or that the box of its geometry
/// meets a test against the box of the geometry whose text is `g`. The test is the one with the row's box first.
#[derive(Drop)]
pub enum ParsedAtom {
    Cmp { column: Name, op: Op, v: Literal },
    Box { column: Name, test: Test, g: Bytes },
}

/// The tests of a condition, all of which have to hold.
pub type ParsedAtoms = Items<ParsedAtom>;

/// A statement as it is written. The columns of `Create` are those behind the key, and its indexes are the columns that
/// a spatial index is wanted on. `columns` of `Select` is None for `*`. No atom stands for a statement without WHERE.
#[derive(Drop)]
pub enum Parsed {
    Create {
        name: Name,
        key: Name,
        columns: ParsedColumns,
        indexes: Names,
    },
    Insert {
        table: Name,
        rows: LiteralRows,
    },
    Select {
        table: Name,
        columns: Option<Names>,
        w: ParsedAtoms,
    },
    Update {
        table: Name,
        sets: ParsedSets,
        w: ParsedAtoms,
    },
    Delete {
        table: Name,
        w: ParsedAtoms,
    },
    Begin,
    Commit,
    Rollback,
}
