//! What an event leaves open.

ghost use Rattle.isp_choices.specs.NextStates.{NextStatesAreListed};

/// From each state one event, whoever acts and whatever is chosen, leads to one of the states of a list.
pub fn law_next_states_are_listed()
    ensures { NextStatesAreListed }
{}
