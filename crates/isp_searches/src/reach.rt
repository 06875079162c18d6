//! Nothing that a search could find gets out of its reach, whatever comes between its visits.

ghost use Rattle.isp_searches.specs.SearchLaws.{RaiseMayComeFirst, OrderLeavesCovered, BeginningCovers, VisitKeepsCovered, AddKeepsCovered, RaiseKeepsCovered, SplitKeepsCovered, RemoveKeepsCovered, PlaceKeepsCovered};

/// A search begins with nothing out of its reach.
pub fn law_beginning_covers()
    ensures { BeginningCovers }
{}

/// A visit passes on what the visited page led to.
pub fn law_visit_keeps_covered()
    ensures { VisitKeepsCovered }
{}

/// An added entry keeps it so, with percolation down its path.
pub fn law_add_keeps_covered()
    ensures { AddKeepsCovered }
{}

/// So does a raised root, with the copy to its page.
pub fn law_raise_keeps_covered()
    ensures { RaiseKeepsCovered }
{}

/// So does a split, with the copy to the new page.
pub fn law_split_keeps_covered()
    ensures { SplitKeepsCovered }
{}

/// So does the removal of a leaf's entry.
pub fn law_remove_keeps_covered()
    ensures { RemoveKeepsCovered }
{}

/// So does a placing, whatever pages are divided, and how.
pub fn law_place_keeps_covered()
    ensures { PlaceKeepsCovered }
{}

/// The order of a search's pages says nothing of its reach.
pub fn law_order_leaves_covered()
    ensures { OrderLeavesCovered }
{}

/// A search may be copied to the page of the raised root before it is copied to the new pages of splits.
pub fn law_raise_may_come_first()
    ensures { RaiseMayComeFirst }
{}
