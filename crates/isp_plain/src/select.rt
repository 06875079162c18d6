//! The rows of a table that a condition picks.

ghost use Rattle.std.specs.Prelude.{◌≡◌, [], ◌∷◌, ◌++◌, IfOk, OnOk};
ghost use Rattle.std.specs.Option.{option_copied, option_to_list};
ghost use Rattle.isp_plain.specs.Does.{cut, selected};

use crate::condition::holds;
use crate::{Condition, Row, Rows, Value, Values};
use isp_mbr::Duplicate;
use std::alloc::{AllocError, Global};

fn push_copy(values: &mut Values, alloc: Global, value: Option<&Value>) -> Result<(), AllocError>
    ensures { OnOk result (values.new ≡ values.old ++ option_to_list (option_copied value.entry)) }
{
    match value {
        Some(value) => values.push(value.copy(alloc)?),
        None => Ok(()),
    }
}

// The row's values in the named columns, in their order.
fn cut(alloc: Global, columns: &[u32], row: &Row) -> Result<Row, AllocError>
    ensures { IfOk result (λ r. r ≡ cut columns.now row.now) }
{
    let mut values = Values::new(alloc);
    for column in columns {
        push_copy(&mut values, alloc, row.values.get(*column as usize))?;
    }
    Ok(Row { values })
}

/// Adds the row at the end, cut to the named columns, where the condition holds of it.
pub fn push_selected(
    rows: &mut Rows,
    alloc: Global,
    columns: &[u32],
    condition: &Condition,
    row: &Row,
) -> Result<(), AllocError>
    ensures { OnOk result (rows.new ≡ rows.old ++ selected (row.now ∷ []) columns.now condition.now) }
{
    if !holds(condition, row) {
        return Ok(());
    }
    rows.push(cut(alloc, columns, row)?)
}
