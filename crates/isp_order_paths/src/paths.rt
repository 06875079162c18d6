//! Paths, and the entries that a change has collected.

ghost use Rattle.isp_order_paths.specs.PathOrder.{KeepsCollected, KeepsPaths};

/// A path begins with the root, and its pages but the last are inner.
pub fn law_paths_kept()
    ensures { KeepsPaths }
{}

/// The numbers collected for a change at hand are entries of the new row, and pending.
pub fn law_collected_kept()
    ensures { KeepsCollected }
{}
