//! Searches on which the definitions say what they should, and what goes wrong where a step is wrong.

ghost use Rattle.isp_searches.specs.WrongSteps.{WrongStepsMiss, RowsMissed};
ghost use Rattle.isp_searches.specs.WholeRuns.{RunsFit, TestsFit};

/// Nine wrong steps, each of which puts a page out of reach that a search has to visit.
pub fn law_wrong_steps_miss()
    ensures { WrongStepsMiss }
{}

/// What comes of each: a search that ends without a row that it looks for.
pub fn law_rows_missed()
    ensures { RowsMissed }
{}

/// Four searches from the beginning to the end.
pub fn law_runs_fit()
    ensures { RunsFit }
{}

/// Inserts that are tested against a search, and one that isn't.
pub fn law_tests_fit()
    ensures { TestsFit }
{}
