//! What a search has found.

ghost use Rattle.isp_order_trees.specs.Missed.{NothingIsMissed};

/// A search with nothing left to visit misses no committed row.
pub fn law_nothing_committed_is_missed()
    ensures { NothingIsMissed }
{}
