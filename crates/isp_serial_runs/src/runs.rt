//! Events and runs.

ghost use Rattle.isp_serial_runs.specs.RunLaws.{EventsAreGuarded, EventsAreSerial, EventsCompute, RunIsSerial, RunLeavesRows};

/// What sessions were told so far is what they would be told one transaction after another, in the order of their ends; what is open
/// agrees on the tables committed now.
pub fn law_events_are_serial()
    ensures { EventsAreSerial }
{}

/// Done again by computation, one transaction after another, the answers give the committed tables.
pub fn law_events_compute()
    ensures { EventsCompute }
{}

/// A run is serial, from the committed tables before to those after.
pub fn law_run_is_serial()
    ensures { RunIsSerial }
{}

/// A run that isn't stopped leaves the committed tables as the rows without a mark.
pub fn law_run_leaves_rows()
    ensures { RunLeavesRows }
{}

/// At each moment what is held excludes nothing that another holds, what is written is locked, and searches are covered and known.
pub fn law_events_are_guarded()
    ensures { EventsAreGuarded }
{}
