//! A statement by its changes.

ghost use Rattle.isp_changes.specs.ChangeLaws.{AllGoesBack, DoesByChanges, RefusedLeaves};

/// Changes that are put back, the newest first, leave the tables that they were made on.
pub fn law_all_goes_back()
    ensures { AllGoesBack }
{}

/// The changes of a statement, one after another, leave what it does.
pub fn law_does_by_changes()
    ensures { DoesByChanges }
{}

/// A refused statement leaves the tables.
pub fn law_refused_leaves()
    ensures { RefusedLeaves }
{}
