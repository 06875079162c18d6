//! Plain tables in memory.

ghost use Rattle.std.specs.Prelude.{◌≡◌, [], ◌∷◌, ◌++◌, ◌<◌, length, IfOk, OnOk, OnErr};
ghost use Rattle.isp_plain.specs.Does.{changed_in, delete, does, insert, no_such_table, place_of, select_reply, table_named, update};

use crate::table::PlainTable;
use crate::{Assign, Condition, Refusal, Reply, Row, Schema, Statement};
use isp_mbr::{Duplicate, Name};
use std::alloc::{AllocError, Global};
use std::marker::Model;

/// Tables in memory, on which statements run one after another. Contracts see the list of the tables.
#[derive(Drop)]
pub struct Plain {
    alloc: Global,
    tables: Vec<PlainTable>,
}

impl Model for Plain {
    ghost use Rattle.std.specs.Prelude.{List};
    ghost use Rattle.isp_geom.specs.contracts.geometry.Geometry as e;
    ghost use Rattle.isp_plain.specs.Tables.{Table};
    ghost use Rattle.std.specs.Coded.{codes};

    ghost Value = { List Table };

    ghost coded = { Prim.hlevel (codes, e.the_row.coded) };

    ghost view = { λ p. p.tables.items };
}

impl Plain {
    /// No tables. It takes no memory.
    pub fn new(alloc: Global) -> Plain
        ensures { result ≡ [] }
    {
        Plain {
            alloc,
            tables: Vec::new(alloc),
        }
    }

    /// The tables, in the order in which they were added.
    pub fn tables(&self) -> &[PlainTable]
        ensures { result.now ≡ self.now }
    {
        &self.tables
    }

    /// What the statement answers on these tables, which become what it leaves. The error is want of memory, and leaves
    /// them as they were.
    pub fn run(&mut self, s: &Statement) -> Result<Reply, AllocError>
        ensures reply { IfOk result (λ reply. reply ≡ (does self.old s.now).reply) }
        ensures tables { OnOk result (self.new ≡ (does self.old s.now).tables) }
        ensures err { OnErr result (self.new ≡ self.old) }
    {
        match s {
            Statement::Create { name, schema } => {
                self.add(name, schema)?;
                Ok(Reply::Ok)
            }
            Statement::Insert { table, rows } => self.insert(table, rows.as_slice()),
            Statement::Select { table, columns, w } => self.select(table, columns.as_slice(), w),
            Statement::Update { table, sets, w } => self.update(table, sets.as_slice(), w),
            Statement::Delete { table, w } => Ok(self.delete(table, w)),
            Statement::Begin | Statement::Commit | Statement::Rollback => Ok(Reply::Ok),
            Statement::Refused(refusal) => Ok(Reply::Err(*refusal)),
        }
    }

    /// Adds a table with no row, last. The error is want of memory, and leaves the tables as they were.
    pub fn add(&mut self, name: &Name, schema: &Schema) -> Result<(), AllocError>
        ensures ok { OnOk result (self.new ≡ self.old ++ record { name = name.now; schema = schema.now; rows = [] } ∷ []) }
        ensures err { OnErr result (self.new ≡ self.old) }
    {
        let table = PlainTable::new(self.alloc, name.copy(self.alloc)?, schema.copy(self.alloc)?);
        self.tables.push(table)?;
        Ok(())
    }

    // The place of the table of that name.
    fn place_of(&self, name: &Name) -> Option<usize>
        ensures { result ≡ place_of self.now name.now }
    {
        self.tables.iter().position(|table| table.is_named(name))
    }

    fn insert(&mut self, table: &Name, rows: &[Row]) -> Result<Reply, AllocError>
        ensures reply { IfOk result (λ reply. reply ≡ (changed_in self.old (place_of self.old table.now) (insert rows.now)).reply) }
        ensures tables { OnOk result (self.new ≡ (changed_in self.old (place_of self.old table.now) (insert rows.now)).tables) }
        ensures err { OnErr result (self.new ≡ self.old) }
    {
        match self.place_of(table) {
            Some(place) => self.insert_at(place, rows),
            None => Ok(no_such_table()),
        }
    }

    fn insert_at(&mut self, place: usize, rows: &[Row]) -> Result<Reply, AllocError>
        requires { place < length self.old }
        ensures reply { IfOk result (λ reply. reply ≡ (changed_in self.old (Some place) (insert rows.now)).reply) }
        ensures tables { OnOk result (self.new ≡ (changed_in self.old (Some place) (insert rows.now)).tables) }
        ensures err { OnErr result (self.new ≡ self.old) }
    {
        let table = &mut self.tables[place];
        table.insert(self.alloc, rows)
    }

    fn update(&mut self, table: &Name, sets: &[Assign], w: &Condition) -> Result<Reply, AllocError>
        ensures reply { IfOk result (λ reply. reply ≡ (changed_in self.old (place_of self.old table.now) (update sets.now w.now)).reply) }
        ensures tables { OnOk result (self.new ≡ (changed_in self.old (place_of self.old table.now) (update sets.now w.now)).tables) }
        ensures err { OnErr result (self.new ≡ self.old) }
    {
        match self.place_of(table) {
            Some(place) => self.update_at(place, sets, w),
            None => Ok(no_such_table()),
        }
    }

    fn update_at(
        &mut self,
        place: usize,
        sets: &[Assign],
        w: &Condition,
    ) -> Result<Reply, AllocError>
        requires { place < length self.old }
        ensures reply { IfOk result (λ reply. reply ≡ (changed_in self.old (Some place) (update sets.now w.now)).reply) }
        ensures tables { OnOk result (self.new ≡ (changed_in self.old (Some place) (update sets.now w.now)).tables) }
        ensures err { OnErr result (self.new ≡ self.old) }
    {
        let table = &mut self.tables[place];
        table.update(self.alloc, sets, w)
    }

    fn delete(&mut self, table: &Name, w: &Condition) -> Reply
        ensures reply { result ≡ (changed_in self.old (place_of self.old table.now) (delete w.now)).reply }
        ensures tables { self.new ≡ (changed_in self.old (place_of self.old table.now) (delete w.now)).tables }
    {
        match self.place_of(table) {
            Some(place) => self.delete_at(place, w),
            None => no_such_table(),
        }
    }

    fn delete_at(&mut self, place: usize, w: &Condition) -> Reply
        requires { place < length self.old }
        ensures reply { result ≡ (changed_in self.old (Some place) (delete w.now)).reply }
        ensures tables { self.new ≡ (changed_in self.old (Some place) (delete w.now)).tables }
    {
        let table = &mut self.tables[place];
        table.delete(w)
    }

    fn select(&self, table: &Name, columns: &[u32], w: &Condition) -> Result<Reply, AllocError>
        ensures { IfOk result (λ reply. reply ≡ select_reply (table_named self.now table.now) columns.now w.now) }
    {
        match self.place_of(table) {
            Some(place) => {
                let rows = self.tables[place].select(self.alloc, columns, w)?;
                Ok(Reply::Rows(rows))
            }
            None => Ok(no_such_table()),
        }
    }
}

// Binding refuses such a statement before it comes here.
fn no_such_table() -> Reply
    ensures { result ≡ no_such_table }
{
    Reply::Err(Refusal::NoSuchTable)
}
