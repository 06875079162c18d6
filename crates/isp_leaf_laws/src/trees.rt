//! What stays of a tree and its pages.

ghost use Rattle.isp_leaf_laws.specs.TreeLaws.{AddKeepsForest, RaiseKeepsForest, SplitKeepsForest, RemoveKeepsForest, PlaceKeepsForest, EmptyIsForest, AddLeavesPages, RaiseLeavesPages, SplitLeavesPages, RemoveLeavesPages, PlaceLeavesPages, PlaceChangesPath, DeepIsLarge};

/// An entry added at the end of a path that stands keeps the forest.
pub fn law_add_keeps_forest()
    ensures { AddKeepsForest }
{}

/// So does the raise of a root.
pub fn law_raise_keeps_forest()
    ensures { RaiseKeepsForest }
{}

/// So does a split.
pub fn law_split_keeps_forest()
    ensures { SplitKeepsForest }
{}

/// So does a removal.
pub fn law_remove_keeps_forest()
    ensures { RemoveKeepsForest }
{}

/// So does a placing.
pub fn law_place_keeps_forest()
    ensures { PlaceKeepsForest }
{}

/// A root leaf without an entry is a forest.
pub fn law_empty_is_forest()
    ensures { EmptyIsForest }
{}

/// An added entry leaves each page on its level.
pub fn law_add_leaves_pages()
    ensures { AddLeavesPages }
{}

/// A raise lifts the root alone.
pub fn law_raise_leaves_pages()
    ensures { RaiseLeavesPages }
{}

/// A split leaves each page on its level.
pub fn law_split_leaves_pages()
    ensures { SplitLeavesPages }
{}

/// So does a removal.
pub fn law_remove_leaves_pages()
    ensures { RemoveLeavesPages }
{}

/// A placing leaves each page on its level, but the root.
pub fn law_place_leaves_pages()
    ensures { PlaceLeavesPages }
{}

/// A placing changes no page but those on its path and its new ones, and loses no entry.
pub fn law_place_changes_path()
    ensures { PlaceChangesPath }
{}

/// A deep tree has many pages: each level below the root's has at least twice as many as the one above it.
pub fn law_deep_is_large()
    ensures { DeepIsLarge }
{}
