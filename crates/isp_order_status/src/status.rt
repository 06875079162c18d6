//! Noted and queued entries.

ghost use Rattle.isp_order_status.specs.StatusOrder.{KeepsNoted};

/// What is noted and what is queued lies on its leaf; an entry is placed once and queued once, and then noted no more.
pub fn law_noted_kept()
    ensures { KeepsNoted }
{}
