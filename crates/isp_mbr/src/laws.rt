//! What a search may rest on: a subtree that `may_hold` refuses has no row to find, now or after its box grew.

ghost use Rattle.isp_mbr.specs.Laws.{MayHoldOfSatisfying, MayHoldGrows};

/// A box that satisfies a predicate and lies in another one: that one may hold it.
pub fn law_may_hold_of_satisfying()
    ensures { MayHoldOfSatisfying }
{}

/// A box that may hold what satisfies a predicate still may when it grows.
pub fn law_may_hold_grows()
    ensures { MayHoldGrows }
{}
