//! Wrong events, and the clause that each breaks.

ghost use Rattle.isp_order_examples.specs.BrokenClauses.{WrongEventsBreak};

/// From a state with all clauses each of these wrong events leads to one that lacks the clause which speaks of it.
pub fn law_wrong_events_break()
    ensures { WrongEventsBreak }
{}
