//! Reasons.

ghost use Rattle.isp_replies.specs.Replies.{NextHasReason};

/// An answer comes of a victim, of an end, of a statement that reads no table, that has failed or that has done all.
pub fn law_next_has_reason()
    ensures { NextHasReason }
{}
