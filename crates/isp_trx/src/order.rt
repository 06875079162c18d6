//! The order of keys.
ghost use Rattle.std.specs.List.Sorted.{IsPermutation, IsSorted};
ghost use Rattle.isp_trx.specs.Order.{key_cmp};

use crate::keys::RowKey;

/// The same keys, rising by table and key. It takes no memory.
pub fn rising(keys: Vec<RowKey>) -> Vec<RowKey>
    ensures all { IsPermutation keys.items result.items }
    ensures order { IsSorted key_cmp result.items }
{
    let mut keys = keys;
    keys.sort_unstable_by_key(|at| (at.table, at.key));
    keys
}
