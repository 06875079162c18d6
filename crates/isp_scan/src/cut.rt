//! The columns of rows that SELECT names.

ghost use Rattle.std.specs.Prelude.{◌≡◌, ◌++◌, map, IfOk, OnOk};
ghost use Rattle.std.specs.Option.{option_copied, option_to_list};
ghost use Rattle.isp_plain.specs.Does.{cut};

use isp_base::Duplicate;
use isp_plain::{Row, Rows, Value, Values};
use std::alloc::{AllocError, Global};

fn push_copy(values: &mut Values, alloc: Global, value: Option<&Value>) -> Result<(), AllocError>
    ensures { OnOk result (values.new ≡ values.old ++ option_to_list (option_copied value.entry)) }
{
    match value {
        Some(value) => values.push(value.copy(alloc)?),
        None => Ok(()),
    }
}

// The row's values in the named columns, in their order.
fn cut(alloc: Global, columns: &[u32], row: &Row) -> Result<Row, AllocError>
    ensures { IfOk result (λ r. r ≡ cut columns.now row.now) }
{
    let mut values = Values::new(alloc);
    for column in columns {
        push_copy(&mut values, alloc, row.values.get(*column as usize))?;
    }
    Ok(Row { values })
}

/// The rows, cut to the named columns.
///
/// # Errors
///
/// Want of memory.
pub fn cut_rows(alloc: Global, columns: &[u32], rows: &[Row]) -> Result<Rows, AllocError>
    ensures { IfOk result (λ found. found ≡ map (cut columns.now) rows.now) }
{
    let mut found = Rows::new(alloc);
    for row in rows {
        let row = cut(alloc, columns, row)?;
        found.push(row)?;
    }
    Ok(found)
}
