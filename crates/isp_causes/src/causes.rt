//! What comes next, read backwards.

ghost use Rattle.isp_causes.specs.Causes.{NextHasCause};

/// What comes next of a session tells where it stands.
pub fn law_next_has_cause()
    ensures { NextHasCause }
{}
