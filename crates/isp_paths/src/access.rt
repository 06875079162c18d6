//! How the rows of a statement's condition are found.

ghost use Rattle.std.specs.Prelude.{◌≡◌, ◌==◌, Option, slice_get, if◌then◌else◌, Some, None};
ghost use Rattle.isp_paths.specs.Paths.{equal_number, first_key, first_tree, is_indexed_column, key_in, path_by, path_of, tree_in, tree_or_scan};

use isp_mbr::Predicate;
use isp_plain::{Atom, Column, Op, Schema, Statement, Value};

/// How the rows of a condition are found: by their key; by a search of a column's tree; or by going over all rows. It is
/// an access path (Selinger et al. 1979).
#[derive(Clone, Copy, PartialEq, Eq)]
pub enum Path {
    Key(i64),
    Tree { column: u32, p: Predicate },
    Scan,
}

fn equal_number(op: Op, v: &Value) -> Option<i64>
    ensures { result ≡ equal_number op v.now }
{
    match (op, v) {
        (Op::Eq, Value::Int(number)) => Some(*number),
        _ => None,
    }
}

fn key_in(a: &Atom) -> Option<i64>
    ensures { result ≡ key_in a.now }
{
    match a {
        Atom::Cmp { column: 0, op, v } => equal_number(*op, v),
        _ => None,
    }
}

fn first_key(atoms: &[Atom]) -> Option<i64>
    ensures { result ≡ first_key atoms.now }
{
    for a in atoms {
        if let Some(key) = key_in(a) {
            return Some(key);
        }
    }
    None
}

fn is_indexed(columns: &[Column], column: u32) -> bool
    ensures { result ≡ is_indexed_column (slice_get columns.now column) }
{
    match columns.get(column as usize) {
        Some(column) => column.indexed,
        None => false,
    }
}

fn tree_in(columns: &[Column], a: &Atom) -> Option<(u32, Predicate)>
    ensures { result ≡ tree_in columns.now a.now }
{
    match a {
        Atom::Box { column, p } if is_indexed(columns, *column) => Some((*column, *p)),
        _ => None,
    }
}

fn first_tree(columns: &[Column], atoms: &[Atom]) -> Option<(u32, Predicate)>
    ensures { result ≡ first_tree columns.now atoms.now }
{
    for a in atoms {
        if let Some(tree) = tree_in(columns, a) {
            return Some(tree);
        }
    }
    None
}

fn tree_or_scan(tree: Option<(u32, Predicate)>) -> Path
    ensures { result ≡ tree_or_scan tree }
{
    match tree {
        Some((column, p)) => Path::Tree { column, p },
        None => Path::Scan,
    }
}

fn path_by(columns: &[Column], atoms: &[Atom]) -> Path
    ensures { result ≡ path_by columns.now atoms.now }
{
    match first_key(atoms) {
        Some(key) => Path::Key(key),
        None => tree_or_scan(first_tree(columns, atoms)),
    }
}

/// How the rows of the statement's condition are found, in a table of this schema: by the first comparison `key =
/// number`, else by the first test of a column that has an index, else by a scan. A statement without a condition has a
/// scan.
pub fn path_of(schema: &Schema, s: &Statement) -> Path
    ensures { result ≡ path_of schema.now s.now }
{
    let columns = schema.columns.as_slice();
    match s {
        Statement::Select { w, .. } => path_by(columns, w.atoms.as_slice()),
        Statement::Update { w, .. } => path_by(columns, w.atoms.as_slice()),
        Statement::Delete { w, .. } => path_by(columns, w.atoms.as_slice()),
        _ => Path::Scan,
    }
}
