//! A run in which a split overtakes a search, with the measure at each of its states.

ghost use Rattle.isp_measure_examples.specs.Falling.{OvertakingFalls};

/// Each of its events lowers the measure, from its first state to the one in which all sessions are over.
pub fn law_overtaking_falls()
    ensures { OvertakingFalls }
{}
