//! What a search has visited stays known, so that with nothing left to visit it has found all.

ghost use Rattle.isp_searches.specs.SearchLaws.{OrderLeavesKnown, BeginningKnows, VisitKeepsKnown, AddKeepsKnown, RaiseKeepsKnown, SplitKeepsKnown, RemoveKeepsKnown, PlaceKeepsKnown, ForgettingKeepsKnown, FoundAll};

/// A search that has visited nothing misses nothing of it.
pub fn law_beginning_knows()
    ensures { BeginningKnows }
{}

/// A visit finds all keys that satisfy on a leaf.
pub fn law_visit_keeps_known()
    ensures { VisitKeepsKnown }
{}

/// An added entry stays known, where it may be placed as far as the search goes.
pub fn law_add_keeps_known()
    ensures { AddKeepsKnown }
{}

/// A raised root leaves what is known.
pub fn law_raise_keeps_known()
    ensures { RaiseKeepsKnown }
{}

/// So does a split.
pub fn law_split_keeps_known()
    ensures { SplitKeepsKnown }
{}

/// So does the removal of a leaf's entry.
pub fn law_remove_keeps_known()
    ensures { RemoveKeepsKnown }
{}

/// So does a placing that may be made as far as the search goes.
pub fn law_place_keeps_known()
    ensures { PlaceKeepsKnown }
{}

/// What other sessions placed may be forgotten.
pub fn law_forgetting_keeps_known()
    ensures { ForgettingKeepsKnown }
{}

/// The order of a search's pages, and of the keys that it found, says nothing of what it knows.
pub fn law_order_leaves_known()
    ensures { OrderLeavesKnown }
{}

/// A search with nothing left to visit has found all.
pub fn law_found_all()
    ensures { FoundAll }
{}
