//! Which entries lie on the leaves after a step, and their numbers.

ghost use Rattle.isp_leaf_laws.specs.LeafLaws.{AddOnLeaves, RaiseOnLeaves, SplitOnLeaves, RemoveOnLeaves, PlaceOnLeaves};

/// An added entry joins those on the leaves.
pub fn law_add_on_leaves()
    ensures { AddOnLeaves }
{}

/// A raised root leaves the entries on leaves where they were, as leaves' entries.
pub fn law_raise_on_leaves()
    ensures { RaiseOnLeaves }
{}

/// So does a split.
pub fn law_split_on_leaves()
    ensures { SplitOnLeaves }
{}

/// A removal takes those with that number.
pub fn law_remove_on_leaves()
    ensures { RemoveOnLeaves }
{}

/// A placing adds its entry alone.
pub fn law_place_on_leaves()
    ensures { PlaceOnLeaves }
{}
