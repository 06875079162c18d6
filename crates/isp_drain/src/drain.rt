//! Events, rounds and the drain come to an end.

ghost use Rattle.isp_drain.specs.Ends.{DrainEnds, EachRoundLowers, EventsEnd, RoundsEnd, SomebodyIsAwake};

/// From a state in order, events but flushes and lists of the locks are no more than some number of that state.
pub fn law_events_end()
    ensures { EventsEnd }
{}

/// Where somebody isn't over, somebody who isn't over waits for nobody.
pub fn law_somebody_is_awake()
    ensures { SomebodyIsAwake }
{}

/// A round of the drain that begins while a session isn't over lowers the measure.
pub fn law_each_round_lowers()
    ensures { EachRoundLowers }
{}

/// So such rounds are no more than some number of the state, however they go.
pub fn law_rounds_end()
    ensures { RoundsEnd }
{}

/// Where each session that waits for nobody has an event, the drain comes to its end.
pub fn law_drain_ends()
    ensures { DrainEnds }
{}
