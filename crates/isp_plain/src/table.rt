//! One table in memory.

ghost use Rattle.std.specs.Prelude.{◌≡◌, [], IfOk, OnOk, OnErr};
ghost use Rattle.std.specs.Map.{values_of};
ghost use Rattle.std.specs.Str.{bytes_eq};
ghost use Rattle.isp_plain.specs.Does.{insert, update, delete, selected};
ghost use Rattle.isp_plain.specs.Tables.{Table, definition_of};

use crate::defined::Defined;
use crate::entries::{Entries, add_all};
use crate::select::push_selected;
use crate::sets::last_sets;
use crate::update::{changes, remove_held, write};
use crate::{Assign, Condition, Refusal, Reply, Row, Rows, Schema};
use isp_mbr::Name;
use std::alloc::{AllocError, Global};
use std::marker::Model;

/// A table and its rows by key, which contracts see as a plain table.
#[derive(Drop)]
pub struct PlainTable {
    name: Name,
    schema: Schema,
    entries: Entries,
}

impl Model for PlainTable {
    ghost use Rattle.isp_geom.specs.contracts.geometry.Geometry as e;
    ghost use Rattle.isp_plain.specs.Tables.{Table};
    ghost use Rattle.std.specs.Coded.{codes};

    ghost Value = { Table };

    ghost coded = { Prim.hlevel (codes, e.the_row.coded) };

    ghost view = { λ t. record { name = t.name; schema = t.schema; rows = t.entries.entries } };
}

impl Defined for PlainTable {
    ghost definition = { definition_of };

    fn name(&self) -> &Name {
        &self.name
    }

    fn schema(&self) -> &Schema {
        &self.schema
    }
}

impl PlainTable {
    /// A table with no row.
    pub(crate) fn new(alloc: Global, name: Name, schema: Schema) -> PlainTable
        ensures { result ≡ record { name = name; schema = schema; rows = [] } }
    {
        PlainTable {
            name,
            schema,
            entries: Entries::new(alloc),
        }
    }

    pub(crate) fn is_named(&self, name: &Name) -> bool
        ensures { result ≡ bytes_eq self.now.name name.now }
    {
        self.name.as_slice() == name.as_slice()
    }

    /// Adds copies of the rows, or none where a key is there already or stands in them twice. Want of memory leaves the
    /// table as it was.
    pub(crate) fn insert(&mut self, alloc: Global, rows: &[Row]) -> Result<Reply, AllocError>
        ensures reply { IfOk result (λ reply. reply ≡ (insert rows.now self.old).reply) }
        ensures table { OnOk result (self.new ≡ (insert rows.now self.old).table) }
        ensures err { OnErr result (self.new ≡ self.old) }
    {
        match add_all(&mut self.entries, alloc, rows)? {
            Some(key) => Ok(Reply::Err(Refusal::DuplicateKey { key })),
            None => Ok(Reply::Count(rows.len() as u64)),
        }
    }

    /// The rows of which the condition holds, rising by key, cut to the named columns.
    pub(crate) fn select(
        &self,
        alloc: Global,
        columns: &[u32],
        condition: &Condition,
    ) -> Result<Rows, AllocError>
        ensures { IfOk result (λ rows. rows ≡ selected (values_of self.now.rows) columns.now condition.now) }
    {
        let mut rows = Rows::new(alloc);
        for row in self.entries.values() {
            push_selected(&mut rows, alloc, columns, condition, row)?;
        }
        Ok(rows)
    }

    /// Gives the rows of which the condition holds their new values, or none of them where one would get too large. Want
    /// of memory leaves the table as it was.
    #[tactic(auto, using(crate::proofs::SetLaws::update_last))]
    pub(crate) fn update(
        &mut self,
        alloc: Global,
        sets: &[Assign],
        condition: &Condition,
    ) -> Result<Reply, AllocError>
        ensures reply { IfOk result (λ reply. reply ≡ (update sets.now condition.now self.old).reply) }
        ensures table { OnOk result (self.new ≡ (update sets.now condition.now self.old).table) }
        ensures err { OnErr result (self.new ≡ self.old) }
    {
        let kept = last_sets(alloc, sets)?;
        let reply = self.update_by(alloc, kept.as_slice(), condition)?;
        Ok(reply)
    }

    // The same, by all of the sets.
    fn update_by(
        &mut self,
        alloc: Global,
        sets: &[Assign],
        condition: &Condition,
    ) -> Result<Reply, AllocError>
        ensures reply { IfOk result (λ reply. reply ≡ (update sets.now condition.now self.old).reply) }
        ensures table { OnOk result (self.new ≡ (update sets.now condition.now self.old).table) }
        ensures err { OnErr result (self.new ≡ self.old) }
    {
        match changes(&self.entries, alloc, &self.schema, sets, condition)? {
            Some(changed) => {
                let count = changed.len() as u64;
                write(&mut self.entries, changed);
                Ok(Reply::Count(count))
            }
            None => Ok(Reply::Err(Refusal::RowTooLarge)),
        }
    }

    /// Takes out the rows of which the condition holds.
    pub(crate) fn delete(&mut self, condition: &Condition) -> Reply
        ensures reply { result ≡ (delete condition.now self.old).reply }
        ensures table { self.new ≡ (delete condition.now self.old).table }
    {
        let count = remove_held(&mut self.entries, condition);
        Reply::Count(count as u64)
    }
}
