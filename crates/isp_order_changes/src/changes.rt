//! What is changed, clause by clause.

ghost use Rattle.isp_order_changes.specs.ChangeOrder.{KeepsChanging};

/// The changes that a statement has done and left are made of what it has read; those done stand there, and that at hand can be made.
pub fn law_changing_kept()
    ensures { KeepsChanging }
{}
