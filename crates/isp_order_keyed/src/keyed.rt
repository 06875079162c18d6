//! Rows by their keys.

ghost use Rattle.isp_order_keyed.specs.KeyedOrder.{KeepsKeyed};

/// No two tables have one name, and each has its columns, leaves with pages of their own, keys that rise, and rows as they may be.
pub fn law_keyed_kept()
    ensures { KeepsKeyed }
{}
