//! Runs and sequences of events, what an event tells, and whom an entry waits for.

ghost use Rattle.isp_event_laws.specs.EventLaws.{RunIsEvents, EventsJoin, NextIsTold, ListsPercolating, NamesWhoIsInTheWay, PlacesUndisturbing, StandsIsDecided};

/// A run is a sequence of events, whose turns never fall.
pub fn law_run_is_events()
    ensures { RunIsEvents }
{}

/// Two sequences of events, the one behind the other, are one.
pub fn law_events_join()
    ensures { EventsJoin }
{}

/// An event of a session is of the one kind that comes next, and its line tells what that kind tells.
pub fn law_next_is_told()
    ensures { NextIsTold }
{}

/// A placing lists the searches that percolate, each with the pages that it percolates to, and no others.
pub fn law_lists_percolating()
    ensures { ListsPercolating }
{}

/// An entry waits for exactly the sessions of which a search of its tree is tested and satisfied.
pub fn law_names_who_is_in_the_way()
    ensures { NamesWhoIsInTheWay }
{}

/// Where it is placed, each search of another session allows it.
pub fn law_places_undisturbing()
    ensures { PlacesUndisturbing }
{}

/// Whether a path stands is decided by a test that computes.
pub fn law_stands_is_decided()
    ensures { StandsIsDecided }
{}
