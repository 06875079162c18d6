//! What is shown.

ghost use Rattle.isp_views.specs.Views.{StatesAreShown};

/// In a state in order the committed tables and each session's view show, row by row, what stands there for it.
pub fn law_states_are_shown()
    ensures { StatesAreShown }
{}
