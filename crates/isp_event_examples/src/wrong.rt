//! Machines with the function of one event exchanged.

ghost use Rattle.isp_event_examples.specs.WrongRuns.{WrongMachinesDisagree};

/// Sixteen wrong machines, each with a run whose answers are not serial.
pub fn law_wrong_machines_disagree()
    ensures { WrongMachinesDisagree }
{}
