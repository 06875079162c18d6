//! What is asked of tables, and what is answered.

use crate::{Refusal, Row, Schema, Value};
use isp_mbr::{Duplicate, Name, Predicate};
use sqlite_items::Items;
use std::alloc::{AllocError, Global};

/// Rows, in the order in which they are written or shown.
pub type Rows = Items<Row>;

/// Columns by their places in the schema, from 0.
pub type Indices = Items<u32>;

/// How a plain test compares a row's value with a number or a text (the MySQL 8.0 manual on comparison operators).
#[derive(Clone, Copy, PartialEq, Eq)]
pub enum Op {
    Eq,
    Ne,
    Lt,
    Le,
    Gt,
    Ge,
}

/// One test of a condition: that the column's value compares so with the value, numbers as numbers and texts by their
/// bytes; or that the box of the column's geometry satisfies the predicate.
#[derive(Drop)]
pub enum Atom {
    Cmp { column: u32, op: Op, v: Value },
    Box { column: u32, p: Predicate },
}

/// Tests of a condition.
pub type Atoms = Items<Atom>;

/// A condition, which holds of a row where each of its tests does.
#[derive(Drop)]
pub struct Condition {
    pub atoms: Atoms,
}

/// What UPDATE sets: the column's new value.
#[derive(Drop)]
pub struct Assign {
    pub column: u32,
    pub v: Value,
}

/// What UPDATE sets, in the order of the text. Where a column is set twice the last one counts.
pub type Sets = Items<Assign>;

/// A statement, bound to its table's columns. `Refused` is one that was refused without a look at any row.
#[derive(Drop)]
pub enum Statement {
    Create {
        name: Name,
        schema: Schema,
    },
    Insert {
        table: Name,
        rows: Rows,
    },
    Select {
        table: Name,
        columns: Indices,
        w: Condition,
    },
    Update {
        table: Name,
        sets: Sets,
        w: Condition,
    },
    Delete {
        table: Name,
        w: Condition,
    },
    Begin,
    Commit,
    Rollback,
    Refused(Refusal),
}

/// What a statement is answered. `End` is told where a session has no statement left.
#[derive(Drop)]
pub enum Reply {
    Ok,
    Count(u64),
    Rows(Rows),
    Err(Refusal),
    End,
}

impl Duplicate for Atom {
    fn copy(&self, alloc: Global) -> Result<Atom, AllocError> {
        match self {
            Atom::Cmp { column, op, v } => Ok(Atom::Cmp {
                column: *column,
                op: *op,
                v: v.copy(alloc)?,
            }),
            Atom::Box { column, p } => Ok(Atom::Box {
                column: *column,
                p: *p,
            }),
        }
    }
}

impl Duplicate for Condition {
    fn copy(&self, alloc: Global) -> Result<Condition, AllocError> {
        let atoms = self.atoms.copy(alloc)?;
        Ok(Condition { atoms })
    }
}

impl Duplicate for Assign {
    fn copy(&self, alloc: Global) -> Result<Assign, AllocError> {
        let v = self.v.copy(alloc)?;
        Ok(Assign {
            column: self.column,
            v,
        })
    }
}
