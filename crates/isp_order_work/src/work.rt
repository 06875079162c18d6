//! The work of statements, clause by clause.

ghost use Rattle.isp_order_work.specs.WorkOrder.{KeepsBefore, KeepsBound, KeepsTable, KeepsWritten};

/// Nothing is noted by a later statement than the present one, nor by that one before it writes.
pub fn law_before_kept()
    ensures { KeepsBefore }
{}

/// A statement at work is what its session's text means, on a table, in a phase that it can be in.
pub fn law_bound_kept()
    ensures { KeepsBound }
{}

/// A statement at work has the lock on its table.
pub fn law_table_kept()
    ensures { KeepsTable }
{}

/// A statement would undo exactly its changes.
pub fn law_written_kept()
    ensures { KeepsWritten }
{}
