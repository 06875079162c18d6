//! A state in which nothing is under way.

ghost use Rattle.isp_order.specs.OrderLaws.{RestedIsInOrder};

/// A rested state is in order.
pub fn law_rested_is_in_order()
    ensures { RestedIsInOrder }
{}
