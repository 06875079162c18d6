//! The status of entries.

ghost use Rattle.isp_order_one.specs.OneOrder.{KeepsOneStatus, KeepsNamed};

/// No number is settled, pending and dead at once, nor pending with two sessions.
pub fn law_one_status_kept()
    ensures { KeepsOneStatus }
{}

/// Each number of a row that stands, or would be put back, is settled, or pending with the key's writer.
pub fn law_named_kept()
    ensures { KeepsNamed }
{}
