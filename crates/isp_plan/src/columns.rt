//! Columns by their names.

ghost use Rattle.std.specs.Prelude.{◌≡◌, ◌≤◌, Ok, length, take};
ghost use Rattle.isp_plan.specs.Binding.{is_column, is_key, named, named_from, numbers_from};
ghost use Rattle.isp_plan.specs.Refusals.{Gives, known};
ghost use Rattle.isp_plain.specs.declared.refusal.Refusal.TheVariants.{UnknownColumn};

use crate::refusal::Stop;
use isp_mbr::Name;
use isp_plain::{Column, Indices, Kind, Refusal};
use std::alloc::Global;

// A table has no more columns.
const MOST: usize = 16;

// The columns of a table, which are no more than it may have.
fn within_limit(columns: &[Column]) -> &[Column]
    ensures columns { result.now ≡ take 16 columns.now }
    ensures few { length result.now ≤ 16 }
{
    if columns.len() <= MOST {
        columns
    } else {
        &columns[..MOST]
    }
}

/// The number and the kind of the column of this name, from 0.
pub fn named(columns: &[Column], name: &Name) -> Option<(u32, Kind)>
    ensures { result ≡ named columns.now name.now }
{
    named_within(within_limit(columns), name)
}

fn named_within(columns: &[Column], name: &Name) -> Option<(u32, Kind)>
    requires { length columns.now ≤ 16 }
    ensures { result ≡ named_from 0 columns.now name.now }
{
    for (number, column) in columns.iter().enumerate() {
        if column.name == *name {
            return Some((number as u32, column.kind));
        }
    }
    None
}

/// The same, or the refusal of a name that isn't there.
pub fn known(columns: &[Column], name: &Name) -> Result<(u32, Kind), Refusal>
    ensures { result ≡ known UnknownColumn (named columns.now name.now) }
{
    match named(columns, name) {
        Some(column) => Ok(column),
        None => Err(Refusal::UnknownColumn),
    }
}

/// Whether the column is there.
pub fn is_column(columns: &[Column], name: &Name) -> bool
    ensures { result ≡ is_column columns.now name.now }
{
    named(columns, name).is_some()
}

/// Whether the name is the key's, which is the first column.
pub fn is_key(columns: &[Column], name: &Name) -> bool
    ensures { result ≡ is_key columns.now name.now }
{
    match columns {
        [key, ..] => key.name == *name,
        [] => false,
    }
}

/// The numbers of all columns, from 0. The error is want of memory.
pub fn numbers(alloc: Global, columns: &[Column]) -> Result<Indices, Stop>
    ensures { Gives result (Ok (numbers_from 0 (take 16 columns.now))) }
{
    numbers_within(alloc, within_limit(columns))
}

fn numbers_within(alloc: Global, columns: &[Column]) -> Result<Indices, Stop>
    requires { length columns.now ≤ 16 }
    ensures { Gives result (Ok (numbers_from 0 columns.now)) }
{
    let mut numbers = Indices::new(alloc);
    for (number, _column) in columns.iter().enumerate() {
        numbers.push(number as u32)?;
    }
    Ok(numbers)
}
