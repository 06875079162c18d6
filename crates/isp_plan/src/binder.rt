//! Statements bound to the tables that are there.

ghost use Rattle.std.specs.Prelude.{◌≡◌, ◌==◌, IfOk, length, map, nat_le};
ghost use Rattle.std.specs.List.{list_all};
ghost use Rattle.std.specs.Option.{option_map};
ghost use Rattle.std.specs.Result.{result_map_both};
ghost use Rattle.isp_plain.specs.Values.{box_of};
ghost use Rattle.isp_plan.specs.Binding.{are_columns, are_counted, are_settable, atom_of, begins_again, bound, box_test, checked, column_name, comparison, condition_of, create, delete, insert, is_allowed, is_column, is_geometry, is_key, is_other, is_small, is_table, meant, number_named, row_of, rows_of, schema_named, select, set_of, sets_of, shown, update, values_of};
ghost use Rattle.isp_plan.specs.Refusals.{Gives, each, known};
ghost use Rattle.isp_plain.specs.declared.refusal.Refusal.TheVariants.{NoSuchTable};

use crate::columns::{is_column, is_key, known, numbers};
use crate::creating::{is_short, schema_of};
use crate::each::{Bound, each};
use crate::literal::{compared, geometry_of, stored};
use crate::refusal::{Stop, ensure};
use isp_mbr::{Bytes, Duplicate, Name, Predicate, Test};
use isp_plain::{
    Assign, Atom, Column, Condition, Defined, Indices, Kind, Op, Refusal, Row, Rows, Schema, Sets,
    Statement, Values, box_of, row_size,
};
use isp_serial::Place;
use isp_sql::{Literal, Literals, Names, Parsed, ParsedAtom, ParsedColumn, ParsedSet};
use std::alloc::{AllocError, Global};

// The most tables that there may be.
const TABLES: usize = 64;

// The most bytes of a row.
const ROW: usize = 1_000;

// The values of a row, in the order of the columns.
fn values_of(alloc: Global, columns: &[Column], literals: &[Literal]) -> Result<Values, Stop>
    ensures { Gives result (values_of columns.now literals.now) }
{
    let mut found = Values::new(alloc);
    let mut rest = literals;
    for column in columns {
        let [literal, others @ ..] = rest else {
            return Ok(found);
        };
        let value = stored(alloc, column.kind, literal)?;
        found.push(value)?;
        rest = others;
    }
    Ok(found)
}

impl Bound for Literals {
    type Out = Row;

    ghost meaning = { λ literals columns. row_of columns literals };

    fn bound(&self, alloc: Global, columns: &[Column]) -> Result<Row, Stop> {
        let values = values_of(alloc, columns, self.as_slice())?;
        Ok(Row { values })
    }
}

impl Bound for ParsedSet {
    type Out = Assign;

    ghost meaning = { λ set columns. set_of columns set };

    fn bound(&self, alloc: Global, columns: &[Column]) -> Result<Assign, Stop> {
        let (column, kind) = known(columns, &self.column)?;
        let v = stored(alloc, kind, &self.v)?;
        Ok(Assign { column, v })
    }
}

fn rows_of(alloc: Global, columns: &[Column], rows: &[Literals]) -> Result<Rows, Stop>
    ensures { Gives result (rows_of columns.now rows.now) }
{
    each(alloc, columns, rows)
}

fn sets_of(alloc: Global, columns: &[Column], sets: &[ParsedSet]) -> Result<Sets, Stop>
    ensures { Gives result (sets_of columns.now sets.now) }
{
    each(alloc, columns, sets)
}

fn comparison(alloc: Global, column: u32, kind: Kind, op: Op, v: &Literal) -> Result<Atom, Stop>
    ensures { Gives result (comparison (column, kind) op v.now) }
{
    let v = compared(alloc, kind, v)?;
    Ok(Atom::Cmp { column, op, v })
}

fn is_geometry(kind: Kind) -> bool
    ensures { result ≡ is_geometry kind }
{
    match kind {
        Kind::Geo => true,
        _ => false,
    }
}

fn box_test(alloc: Global, column: u32, kind: Kind, test: Test, text: &Bytes) -> Result<Atom, Stop>
    ensures { Gives result (box_test (column, kind) test text.now) }
{
    ensure(Refusal::WrongType, is_geometry(kind))?;
    let geometry = geometry_of(alloc, text.as_slice())?;
    let q = box_of(&geometry);
    Ok(Atom::Box {
        column,
        p: Predicate { test, q },
    })
}

impl Bound for ParsedAtom {
    type Out = Atom;

    ghost meaning = { λ a columns. atom_of columns a };

    fn bound(&self, alloc: Global, columns: &[Column]) -> Result<Atom, Stop> {
        match self {
            ParsedAtom::Cmp { column, op, v } => {
                let (column, kind) = known(columns, column)?;
                comparison(alloc, column, kind, *op, v)
            }
            ParsedAtom::Box { column, test, g } => {
                let (column, kind) = known(columns, column)?;
                box_test(alloc, column, kind, *test, g)
            }
        }
    }
}

impl Bound for Bytes {
    type Out = u32;

    ghost meaning = { λ name columns. number_named columns name };

    fn bound(&self, _alloc: Global, columns: &[Column]) -> Result<u32, Stop> {
        let (column, _kind) = known(columns, self)?;
        Ok(column)
    }
}

fn column_name(a: &ParsedAtom) -> &Name
    ensures { result.now ≡ column_name a.now }
{
    match a {
        ParsedAtom::Cmp { column, .. } => column,
        ParsedAtom::Box { column, .. } => column,
    }
}

// Whether the columns that the condition names are there.
fn are_columns(columns: &[Column], atoms: &[ParsedAtom]) -> bool
    ensures { result ≡ are_columns columns.now atoms.now }
{
    atoms.iter().all(|a| is_column(columns, column_name(a)))
}

fn condition_of(alloc: Global, columns: &[Column], w: &[ParsedAtom]) -> Result<Condition, Stop>
    ensures { Gives result (condition_of columns.now w.now) }
{
    let atoms = each(alloc, columns, w)?;
    Ok(Condition { atoms })
}

fn shown(alloc: Global, columns: &[Column], names: &Option<Names>) -> Result<Indices, Stop>
    ensures { Gives result (shown columns.now names.now) }
{
    match names {
        Some(names) => each(alloc, columns, names.as_slice()),
        None => numbers(alloc, columns),
    }
}

fn schema_named<'a, T: Defined>(tables: &'a [T], name: &Name) -> Option<&'a Schema>
    ensures { option_map (λ schema. schema.now) result ≡ schema_named (map T.definition tables.now) name.now }
{
    for table in tables {
        if *table.name() == *name {
            return Some(table.schema());
        }
    }
    None
}

fn schema_known<'a, T: Defined>(tables: &'a [T], name: &Name) -> Result<&'a Schema, Refusal>
    ensures { result_map_both (λ schema. schema.now) (λ e. e) result ≡ known NoSuchTable (schema_named (map T.definition tables.now) name.now) }
{
    match schema_named(tables, name) {
        Some(schema) => Ok(schema),
        None => Err(Refusal::NoSuchTable),
    }
}

fn is_table<T: Defined>(tables: &[T], name: &Name) -> bool
    ensures { result ≡ is_table (map T.definition tables.now) name.now }
{
    schema_named(tables, name).is_some()
}

#[tactic(auto, unfolding(crate::specs::Binding::create))]
fn create<T: Defined>(
    alloc: Global,
    tables: &[T],
    name: &Name,
    key: &Name,
    columns: &[ParsedColumn],
    indexes: &[Name],
) -> Result<Statement, Stop>
    ensures { Gives result (create (map T.definition tables.now) name.now key.now columns.now indexes.now) }
{
    ensure(Refusal::TableExists, !is_table(tables, name))?;
    ensure(Refusal::OutOfLimits, tables.len() < TABLES)?;
    ensure(Refusal::OutOfLimits, is_short(name))?;
    let schema = schema_of(alloc, key, columns, indexes)?;
    let name = name.copy(alloc)?;
    Ok(Statement::Create { name, schema })
}

fn are_counted(columns: &[Column], rows: &[Literals]) -> bool
    ensures { result ≡ are_counted columns.now rows.now }
{
    rows.iter().all(|row| row.len() == columns.len())
}

fn is_small(schema: &Schema, row: &Row) -> bool
    ensures { result ≡ is_small schema.now row.now }
{
    row_size(schema, row) <= ROW
}

fn are_small(schema: &Schema, rows: &[Row]) -> bool
    ensures { result ≡ list_all (is_small schema.now) rows.now }
{
    rows.iter().all(|row| is_small(schema, row))
}

#[tactic(auto, unfolding(crate::specs::Binding::insert))]
fn insert<T: Defined>(
    alloc: Global,
    tables: &[T],
    table: &Name,
    rows: &[Literals],
) -> Result<Statement, Stop>
    ensures { Gives result (insert (map T.definition tables.now) table.now rows.now) }
{
    let schema = schema_known(tables, table)?;
    let columns = schema.columns.as_slice();
    ensure(Refusal::ColumnCount, are_counted(columns, rows))?;
    let rows = rows_of(alloc, columns, rows)?;
    ensure(Refusal::RowTooLarge, are_small(schema, rows.as_slice()))?;
    let table = table.copy(alloc)?;
    Ok(Statement::Insert { table, rows })
}

#[tactic(auto, unfolding(crate::specs::Binding::select))]
fn select<T: Defined>(
    alloc: Global,
    tables: &[T],
    table: &Name,
    names: &Option<Names>,
    w: &[ParsedAtom],
) -> Result<Statement, Stop>
    ensures { Gives result (select (map T.definition tables.now) table.now names.now w.now) }
{
    let schema = schema_known(tables, table)?;
    let there = schema.columns.as_slice();
    let columns = shown(alloc, there, names)?;
    ensure(Refusal::UnknownColumn, are_columns(there, w))?;
    let w = condition_of(alloc, there, w)?;
    let table = table.copy(alloc)?;
    Ok(Statement::Select { table, columns, w })
}

fn are_settable(columns: &[Column], sets: &[ParsedSet]) -> bool
    ensures { result ≡ are_settable columns.now sets.now }
{
    sets.iter().all(|set| is_column(columns, &set.column))
}

fn is_other(columns: &[Column], set: &ParsedSet) -> bool
    ensures { result ≡ is_other columns.now set.now }
{
    !is_key(columns, &set.column)
}

fn are_others(columns: &[Column], sets: &[ParsedSet]) -> bool
    ensures { result ≡ list_all (is_other columns.now) sets.now }
{
    sets.iter().all(|set| is_other(columns, set))
}

#[tactic(auto, unfolding(crate::specs::Binding::update))]
fn update<T: Defined>(
    alloc: Global,
    tables: &[T],
    table: &Name,
    sets: &[ParsedSet],
    w: &[ParsedAtom],
) -> Result<Statement, Stop>
    ensures { Gives result (update (map T.definition tables.now) table.now sets.now w.now) }
{
    let schema = schema_known(tables, table)?;
    let columns = schema.columns.as_slice();
    ensure(Refusal::UnknownColumn, are_settable(columns, sets))?;
    ensure(Refusal::UnknownColumn, are_columns(columns, w))?;
    ensure(Refusal::KeyCannotBeSet, are_others(columns, sets))?;
    let sets = sets_of(alloc, columns, sets)?;
    let w = condition_of(alloc, columns, w)?;
    let table = table.copy(alloc)?;
    Ok(Statement::Update { table, sets, w })
}

#[tactic(auto, unfolding(crate::specs::Binding::delete))]
fn delete<T: Defined>(
    alloc: Global,
    tables: &[T],
    table: &Name,
    w: &[ParsedAtom],
) -> Result<Statement, Stop>
    ensures { Gives result (delete (map T.definition tables.now) table.now w.now) }
{
    let schema = schema_known(tables, table)?;
    let columns = schema.columns.as_slice();
    ensure(Refusal::UnknownColumn, are_columns(columns, w))?;
    let w = condition_of(alloc, columns, w)?;
    let table = table.copy(alloc)?;
    Ok(Statement::Delete { table, w })
}

fn meant<T: Defined>(alloc: Global, tables: &[T], p: &Parsed) -> Result<Statement, Stop>
    ensures { Gives result (meant (map T.definition tables.now) p.now) }
{
    match p {
        Parsed::Create {
            name,
            key,
            columns,
            indexes,
        } => create(
            alloc,
            tables,
            name,
            key,
            columns.as_slice(),
            indexes.as_slice(),
        ),
        Parsed::Insert { table, rows } => insert(alloc, tables, table, rows.as_slice()),
        Parsed::Select { table, columns, w } => {
            select(alloc, tables, table, columns, w.as_slice())
        }
        Parsed::Update { table, sets, w } => {
            update(alloc, tables, table, sets.as_slice(), w.as_slice())
        }
        Parsed::Delete { table, w } => delete(alloc, tables, table, w.as_slice()),
        Parsed::Begin => Ok(Statement::Begin),
        Parsed::Commit => Ok(Statement::Commit),
        Parsed::Rollback => Ok(Statement::Rollback),
    }
}

fn is_allowed(place: Place, p: &Parsed) -> bool
    ensures { result ≡ is_allowed place p.now }
{
    match (place, p) {
        (Place::Setup, Parsed::Create { .. }) => true,
        (Place::Setup, Parsed::Insert { .. }) => true,
        (Place::Setup, _) => false,
        (_, Parsed::Create { .. }) => false,
        _ => true,
    }
}

fn begins_again(place: Place, p: &Parsed) -> bool
    ensures { result ≡ begins_again place p.now }
{
    match (place, p) {
        (Place::InTransaction, Parsed::Begin) => true,
        _ => false,
    }
}

#[tactic(auto, unfolding(crate::specs::Binding::checked))]
fn checked<T: Defined>(
    alloc: Global,
    tables: &[T],
    p: &Parsed,
    place: Place,
) -> Result<Statement, Stop>
    ensures { Gives result (checked (map T.definition tables.now) p.now place) }
{
    ensure(Refusal::NotAllowedHere, is_allowed(place, p))?;
    ensure(Refusal::AlreadyBegun, !begins_again(place, p))?;
    meant(alloc, tables, p)
}

/// The statement that is meant at this place on tables of these names and columns: `Refused` where there is a static
/// cause, with the first of them. The error is want of memory.
pub fn bind<T: Defined>(
    alloc: Global,
    tables: &[T],
    p: &Parsed,
    place: Place,
) -> Result<Statement, AllocError>
    ensures { IfOk result (λ s. s ≡ bound (map T.definition tables.now) p.now place) }
{
    match checked(alloc, tables, p, place) {
        Ok(statement) => Ok(statement),
        Err(Stop::Refused(refusal)) => Ok(Statement::Refused(refusal)),
        Err(Stop::Memory) => Err(AllocError),
    }
}
