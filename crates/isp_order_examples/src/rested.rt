//! A rested state, and one on the way of a run.

ghost use Rattle.isp_order_examples.specs.Deadlock.{DeadlockIsInOrder};
ghost use Rattle.isp_order_examples.specs.RestedPoints.{FivePointsAreInOrder};

/// The state of the computed runs is rested, and so in order.
pub fn law_five_points_are_in_order()
    ensures { FivePointsAreInOrder }
{}

/// So is each state to which events lead from there: here one in which a victim was just named.
pub fn law_deadlock_is_in_order()
    ensures { DeadlockIsInOrder }
{}
