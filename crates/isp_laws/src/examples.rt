//! Trees on which the definitions say what they should, and what goes wrong where a split is wrong.

ghost use Rattle.isp_laws.specs.Examples.{ExamplesFit, WrongSplitsMiss};
ghost use Rattle.isp_laws.specs.SearchExamples.{SearchesFit};

/// Two trees, and the placing that leads from one to the other, with the walks of two remembered numbers.
pub fn law_examples_fit()
    ensures { ExamplesFit }
{}

/// Two wrong splits after which a search misses a page.
pub fn law_wrong_splits_miss()
    ensures { WrongSplitsMiss }
{}

/// A search that a split overtakes, searches that are copied, and one that percolates.
pub fn law_searches_fit()
    ensures { SearchesFit }
{}
