//! Events.

ghost use Rattle.isp_serial_laws.specs.SerialLaws.{EventsAreReplayed, EventsTell};

/// Each event leaves what is open standing on what is committed; an end commits what its transaction, done again, leaves.
pub fn law_events_tell()
    ensures { EventsTell }
{}

/// All events from a rested state: the transactions done again in the order of their ends make the tables that are committed.
pub fn law_events_are_replayed()
    ensures { EventsAreReplayed }
{}
