//! Trees, and searches over them.

ghost use Rattle.isp_order_trees.specs.TreeOrder.{KeepsWhole, KeepsCovered, KeepsKnown};

/// Each tree of each table stays a forest.
pub fn law_whole_kept()
    ensures { KeepsWhole }
{}

/// Nothing that a search could find gets out of its reach.
pub fn law_covered_kept()
    ensures { KeepsCovered }
{}

/// What lies on leaves that a search is on stays found, or its session's own.
pub fn law_known_kept()
    ensures { KeepsKnown }
{}
