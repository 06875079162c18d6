//! States that stay in order.

ghost use Rattle.isp_order_whole.specs.WholeOrder.{KeepsOrder, StaysInOrder};

/// From a state in order, every event of anybody leads to one in order.
pub fn law_every_event_keeps()
    ensures { KeepsOrder }
{}

/// Events lead from a state in order, as a rested one is, to a state in order, however many they are.
pub fn law_events_stay_in_order()
    ensures { StaysInOrder }
{}
