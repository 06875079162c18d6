//! Runs of the machine, turn by turn.

ghost use Rattle.isp_event_examples.specs.Language.{LanguageFits};
ghost use Rattle.isp_event_examples.specs.Overtaken.{SplitOvertakes};
ghost use Rattle.isp_event_examples.specs.Percolating.{PercolationStops};
ghost use Rattle.isp_event_examples.specs.Deleting.{DeletingFits};
ghost use Rattle.isp_event_examples.specs.Deadlocked.{DeadlockFits};
ghost use Rattle.isp_event_examples.specs.FurtherRuns.{FurtherRunsFit};
ghost use Rattle.isp_event_examples.specs.Stale.{StaleFits};
ghost use Rattle.isp_event_examples.specs.RightAnswers.{RightAnswersAgree};

/// The language of numbered statements is faithful and can be served, and its ways are sound.
pub fn law_language_fits()
    ensures { LanguageFits }
{}

/// A split overtakes a search, which finds the row that moved.
pub fn law_split_overtakes()
    ensures { SplitOvertakes }
{}

/// An insert waits for a search that it would let in to the page.
pub fn law_percolation_stops()
    ensures { PercolationStops }
{}

/// A row is deleted, which is rolled back, or committed and purged.
pub fn law_deleting_fits()
    ensures { DeletingFits }
{}

/// Two sessions wait for each other, and one gives way.
pub fn law_deadlock_fits()
    ensures { DeadlockFits }
{}

/// Locks that are listed, another victim, a duplicate key, a scan and a full file.
pub fn law_further_runs_fit()
    ensures { FurtherRunsFit }
{}

/// A root is raised under a path, which is stale then; the tree would not be whole if it were used.
pub fn law_stale_fits()
    ensures { StaleFits }
{}

/// The answers of these runs are serial, by computation.
pub fn law_right_answers_agree()
    ensures { RightAnswersAgree }
{}
