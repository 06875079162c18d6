//! Rested states.

ghost use Rattle.isp_answers.specs.Laws.{RestedIsTold};

/// In a rested state each session is on course, and none was told anything that is open.
pub fn law_rested_is_told()
    ensures { RestedIsTold }
{}
