//! Rows, and the entries that tie them to trees.

ghost use Rattle.isp_order_entries.specs.EntryOrder.{KeepsNumbered, KeepsEntered, KeepsRestorable};

/// No number lies on two places, and each was given.
pub fn law_numbered_kept()
    ensures { KeepsNumbered }
{}

/// Each unmarked row, and each that would be put back, has its entries on leaves.
pub fn law_entered_kept()
    ensures { KeepsEntered }
{}

/// What would be put back has a slot that holds it, at a key that its session wrote.
pub fn law_restorable_kept()
    ensures { KeepsRestorable }
{}
