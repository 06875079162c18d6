//! Locks and waits, clause by clause.

ghost use Rattle.isp_order_locks.specs.LockOrder.{KeepsCounted, KeepsCompatible, KeepsIntended, KeepsLocked, KeepsIdle, KeepsWaiting, KeepsNoCycle};

/// There are as many sessions, and as many lists of waits, as before.
pub fn law_counted_kept()
    ensures { KeepsCounted }
{}

/// No two sessions hold modes of one thing that conflict.
pub fn law_compatible_kept()
    ensures { KeepsCompatible }
{}

/// Keys are locked behind intentions on their table.
pub fn law_intended_kept()
    ensures { KeepsIntended }
{}

/// What a session would undo, and of what it noted entries, is locked.
pub fn law_locked_kept()
    ensures { KeepsLocked }
{}

/// Who is idle or over has nothing.
pub fn law_idle_kept()
    ensures { KeepsIdle }
{}

/// Whom a session waits for stands in the way of what it asks for.
pub fn law_waiting_kept()
    ensures { KeepsWaiting }
{}

/// Nobody waits in a circle.
pub fn law_no_cycle_kept()
    ensures { KeepsNoCycle }
{}
