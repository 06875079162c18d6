//! A table's definition as a value.

use isp_base::{Name, PageNo};
use isp_plain::{Defined, Schema};

/// What the catalogue says of a table.
#[derive(Drop)]
pub struct TableDef {
    /// Its number. Tables are numbered from 1, in the order in which they were made.
    pub number: u32,
    pub name: Name,
    pub schema: Schema,
    /// The root of the tree with its rows.
    pub root: PageNo,
    /// The roots of its R-trees in the order of their columns, page 0 where there is none.
    pub trees: [PageNo; 2],
}

impl Defined for TableDef {
    ghost definition = { λ def. (def.name, def.schema) };

    fn name(&self) -> &Name {
        &self.name
    }

    fn schema(&self) -> &Schema {
        &self.schema
    }
}
