//! The limits of a definition's columns.
ghost use Rattle.std.specs.Prelude.{◌≡◌, ◌&&◌, nat_le};
ghost use Rattle.isp_plain.specs.RowBytes.{indexed_columns};
ghost use Rattle.isp_catalog.specs.Limits.{are_distinct, are_within_limits, has_column, has_key, is_geometry, is_indexable, is_number, most_indexed};
ghost use Rattle.std.specs.List.{list_all};

use isp_base::Name;
use isp_plain::{Column, Kind};

// How many columns have an index at most.
const MOST_INDEXED: usize = 2;

fn is_number(kind: Kind) -> bool
    ensures { result ≡ is_number kind }
{
    match kind {
        Kind::BigInt => true,
        Kind::VarChar(_) => false,
        Kind::Geo => false,
    }
}

fn is_geometry(kind: Kind) -> bool
    ensures { result ≡ is_geometry kind }
{
    match kind {
        Kind::BigInt => false,
        Kind::VarChar(_) => false,
        Kind::Geo => true,
    }
}

// Whether the first column may have keys.
fn has_key(columns: &[Column]) -> bool
    ensures { result ≡ has_key columns.now }
{
    match columns {
        [first, ..] => is_number(first.kind),
        [] => false,
    }
}

// Whether an index, where the column has one, is on geometries.
fn is_indexable(column: &Column) -> bool
    ensures { result ≡ is_indexable column.now }
{
    if column.indexed {
        is_geometry(column.kind)
    } else {
        true
    }
}

fn are_indexable(columns: &[Column]) -> bool
    ensures { result ≡ list_all is_indexable columns.now }
{
    columns.iter().all(|column| is_indexable(column))
}

// How many columns have an index.
fn indexed(columns: &[Column]) -> usize
    ensures { result ≡ indexed_columns columns.now }
{
    let mut count = 0;
    for column in columns {
        if column.indexed {
            count += 1;
        }
    }
    count
}

fn has_column(columns: &[Column], name: &Name) -> bool
    ensures { result ≡ has_column columns.now name.now }
{
    columns.iter().any(|column| column.name == *name)
}

// Whether no column is named twice.
fn are_distinct(columns: &[Column]) -> bool
    ensures { result ≡ are_distinct columns.now }
{
    for (i, column) in columns.iter().enumerate() {
        if has_column(&columns[i + 1..], &column.name) {
            return false;
        }
    }
    true
}

fn are_few_and_distinct(columns: &[Column]) -> bool
    ensures { result ≡ (nat_le (indexed_columns columns.now) most_indexed
        && are_distinct columns.now) }
{
    indexed(columns) <= MOST_INDEXED && are_distinct(columns)
}

fn are_indexed_well(columns: &[Column]) -> bool
    ensures { result ≡ (list_all is_indexable columns.now
        && (nat_le (indexed_columns columns.now) most_indexed && are_distinct columns.now)) }
{
    are_indexable(columns) && are_few_and_distinct(columns)
}

/// Whether the columns keep the limits of a definition: the first has whole numbers, an index is on geometries, at most two
/// have one, and no column is named twice.
pub(crate) fn are_within_limits(columns: &[Column]) -> bool
    ensures { result ≡ are_within_limits columns.now }
{
    has_key(columns) && are_indexed_well(columns)
}
