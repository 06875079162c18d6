//! What the others may count on, event by event.

ghost use Rattle.isp_order_others.specs.WhatStays.{CommittedChangesAtEnds, OthersAreLeft, PurgesLeaveCommitted, PurgesLeaveNamed, ReadIsUnnamed, RowsChangeWhereWritten};

/// An event of a session leaves every other session, but that it may be a victim and wait for fewer; its locks; and its searches,
/// but for the pages that they are on.
pub fn law_others_are_left()
    ensures { OthersAreLeft }
{}

/// It changes rows only at keys that its own undo list names, before the event or after it.
pub fn law_rows_change_where_written()
    ensures { RowsChangeWhereWritten }
{}

/// A purge changes no session, no lock, no row that is seen, and nothing at a key that an undo list names.
pub fn law_purges_leave_named()
    ensures { PurgesLeaveNamed }
{}

/// What a session has locked with S or X, the key or its table, no other's undo list names.
pub fn law_read_is_unnamed()
    ensures { ReadIsUnnamed }
{}

/// The committed tables change with the end of a transaction, and become what its session saw, and with CREATE.
pub fn law_committed_changes_at_ends()
    ensures { CommittedChangesAtEnds }
{}

/// No purge changes the committed tables.
pub fn law_purges_leave_committed()
    ensures { PurgesLeaveCommitted }
{}
