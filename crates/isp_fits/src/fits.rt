//! Answers that fit.

ghost use Rattle.isp_fits.specs.FitLaws.{EventsFit, RunsFit, RunsLead};

/// The answers of events from a rested state fit the script, but for being all.
pub fn law_events_fit()
    ensures { EventsFit }
{}

/// A run is events from its first state to its last; without `stop` all sessions are over at its end.
pub fn law_runs_lead()
    ensures { RunsLead }
{}

/// The answers of a run fit the script.
pub fn law_runs_fit()
    ensures { RunsFit }
{}
