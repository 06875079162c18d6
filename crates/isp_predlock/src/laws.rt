//! That the table's calls find what the page machine's steps say, over any forest.

ghost use Rattle.isp_predlock.specs.MachineWords.{CopiesAreAlike, OrderLeavesPercolation, OtherTreesStayOut, PercolatesOnPath, PercolatingIsLetIn, TestedOnPath};

/// By what grows on a path the searches are found that percolate down it.
pub fn law_percolates_on_path()
    ensures { PercolatesOnPath }
{}

/// Once they are attached, each search is let in on the path.
pub fn law_percolating_is_let_in()
    ensures { PercolatingIsLetIn }
{}

/// By them an entry is tested against the right searches, and told the right ones that stand in its way.
pub fn law_tested_on_path()
    ensures { TestedOnPath }
{}

/// A copy is the machine's.
pub fn law_copies_are_alike()
    ensures { CopiesAreAlike }
{}

/// The order of a search's pages says nothing of who percolates and who is tested.
pub fn law_order_leaves_percolation()
    ensures { OrderLeavesPercolation }
{}

/// Searches of other trees neither percolate nor are tested.
pub fn law_other_trees_stay_out()
    ensures { OtherTreesStayOut }
{}
